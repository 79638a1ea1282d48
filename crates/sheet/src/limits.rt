// The most that a sheet holds of each.

pub const MOST_CARRIERS: usize = 64;

pub const MOST_STOPS: usize = 1024;

pub const MOST_PRECEDENCES: usize = 2048;
