// Why a list of lanes is refused.
ghost use Rattle.std.specs.Prelude.{◌≡◌};
ghost use Rattle.lane_yard.specs.Refusals.{number_of, told_by};

#[derive(Clone, Copy, PartialEq, Eq, Debug)]
pub enum LayRefusal {
    // The lane at the index has a place above 4,095, or leads to where it begins, or has a travel time outside 1 to
    // 36,000.
    BadLane { index: u16 },
    // The lane at the index does not come after the one before it.
    NotRising { index: u16 },
    // There are more than 8,192 lanes.
    TooManyLanes,
}

impl LayRefusal {
    // The number of the refusal. A match: the cases carry what they tell, so they have no numbers of their own.
    pub fn number(&self) -> u8
        ensures { result ≡ number_of self.now }
    {
        match self {
            LayRefusal::BadLane { .. } => 18,
            LayRefusal::NotRising { .. } => 19,
            LayRefusal::TooManyLanes => 20,
        }
    }

    // What the refusal tells: the index, or 0.
    pub fn told(&self) -> u16
        ensures { result ≡ told_by self.now }
    {
        match *self {
            LayRefusal::BadLane { index } | LayRefusal::NotRising { index } => index,
            LayRefusal::TooManyLanes => 0,
        }
    }
}
