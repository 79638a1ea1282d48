// Why a fixed gap is refused.
ghost use Rattle.std.specs.Prelude.{◌≡◌};
ghost use Rattle.yard.specs.Refusals.{number_of};

#[derive(Clone, Copy, PartialEq, Eq, Debug)]
pub enum GapRefusal {
    // The gap is above 36,000 ticks.
    GapTooLong = 25,
}

impl GapRefusal {
    // The number of the refusal. It tells nothing else.
    pub fn number(&self) -> u8
        ensures { result ≡ number_of self.now }
    {
        *self as u8
    }
}
