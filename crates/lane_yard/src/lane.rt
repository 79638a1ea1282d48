// A lane of a yard.
ghost use Rattle.std.specs.Prelude.{◌≡◌};

use keyed::Keyed;

// A lane from a place to a different place, with its travel time in ticks.
#[derive(Clone, Copy, PartialEq, Eq, Debug)]
pub struct Lane {
    pub from: u16,
    pub to: u16,
    pub time: u16,
}

impl Lane {
    // The two places that it joins, by which lanes are ordered and found.
    pub fn places(&self) -> (u16, u16)
        ensures { result ≡ (self.now.from, self.now.to) }
    {
        (self.from, self.to)
    }
}

// A lane's key: the two places that it joins.
impl Keyed<(u16, u16)> for Lane {
    ghost key = { λ s. (s.from, s.to) };

    fn has_key(&self, wanted: &(u16, u16)) -> bool {
        self.places() == *wanted
    }
}
