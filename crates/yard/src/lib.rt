// What a yard and a following rule are, known by their meanings alone, the three rules, and any of
// them as one type.
#![tactic(auto)]

ghost use Rattle.std.specs.Prelude.{◌≡◌, ℕ, ◌≤◌, IfSome, Option};
ghost use Rattle.yard.specs.Limits.{LaneWithin};

pub mod limits;
pub mod refusal;
pub mod rules;

// A yard: a set of lanes between places. A lane leads from a place to a different place, in a travel time.
pub trait Yard {
    // The travel time of the lane between two places, where there is one.
    ghost lanes: { Self → ℕ → ℕ → Option ℕ };

    // The travel time of the lane between two places, or none where there is no lane.
    fn travel_time(&self, from: u16, to: u16) -> Option<u16>
        ensures { result ≡ lanes self.now from to };

    // Each lane keeps the limits.
    ghost limited: { (s : Self) (from to : ℕ) → IfSome (lanes s from to) (λ time. LaneWithin from to time) };
}

// A yard that is lent means what the yard means.
impl<'a, Y: Yard> Yard for &'a Y {
    ghost lanes = { λ s. Y.lanes s.now };

    ghost limited = { λ s. Y.limited s.now };

    fn travel_time(&self, from: u16, to: u16) -> Option<u16>
        ensures { result ≡ Y.lanes self.now.now from to }
    {
        (**self).travel_time(from, to)
    }
}

// A following rule: for each lane with its travel time a gap, the number of ticks after a departure along the lane
// during which nobody else may reach the place that was left.
pub trait FollowingRule {
    // The largest gap that the rule can give.
    const LARGEST_GAP: u32;

    // The same, for clauses, which cannot name a constant of a trait; the check proves them equal.
    ghost LARGEST_GAP: { ℕ };

    // The gap behind a carrier that goes from place to place in a travel time.
    ghost gaps: { Self → ℕ → ℕ → ℕ → ℕ };

    // The gap behind a carrier that goes from place to place in a travel time.
    fn gap(&self, from: u16, to: u16, time: u16) -> u32
        ensures { result ≡ gaps self.now from to time };

    // The largest gap is at most 100,000.
    ghost small: { LARGEST_GAP ≤ 100000 };

    // No gap of a lane is above the largest.
    ghost bounded: { (s : Self) (from to time : ℕ) → 1 ≤ time → time ≤ 36000 → gaps s from to time ≤ LARGEST_GAP };
}
