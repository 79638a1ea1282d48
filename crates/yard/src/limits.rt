// The limits of places, travel times and gaps.

// The highest number of a place.
pub const HIGHEST_PLACE: u16 = 4095;

// The longest travel time of a lane, in ticks; the shortest is 1.
pub const LONGEST_TIME: u16 = 36000;

// The longest fixed gap, in ticks; the shortest is 0.
pub const LONGEST_GAP: u16 = 36000;
