// Why a grid is refused.
ghost use Rattle.std.specs.Prelude.{◌≡◌};
ghost use Rattle.grid_yard.specs.Refusals.{number_of};

#[derive(Clone, Copy, PartialEq, Eq, Debug)]
pub enum GridRefusal {
    // The rows or the columns are not 1 to 64.
    BadSize,
    // A travel time is not 1 to 36,000 ticks.
    BadTime,
    // There are fewer words than the cells need, one for each 64 cells or part of them.
    TooFewWords,
}

impl GridRefusal {
    // The number of the refusal. It tells nothing else. A match over all cases, so that a new one must be given its
    // number.
    pub fn number(&self) -> u8
        ensures { result ≡ number_of self.now }
    {
        match self {
            GridRefusal::BadSize | GridRefusal::BadTime | GridRefusal::TooFewWords => 21,
        }
    }
}
