// Further keys by which stops and precedences are found.
use keyed::Keyed;
use sheet::records::{Precedence, Stop};

// The key of a stop: the stop before it on its route.
#[derive(Clone, Copy, PartialEq, Eq)]
pub(crate) struct Previous(pub Option<u16>);

// The key of a stop: the stop before it on its route, and its place.
#[derive(Clone, Copy, PartialEq, Eq)]
pub(crate) struct Step {
    pub previous: Option<u16>,
    pub place: u16,
}

// The key of a precedence: the two carriers' stops at its place.
#[derive(Clone, Copy, PartialEq, Eq)]
pub(crate) struct StopPair {
    pub first_stop: u16,
    pub second_stop: u16,
}

impl Keyed<Previous> for Stop {
    ghost key = { λ s. record { 0 = s.previous } };

    fn has_key(&self, wanted: &Previous) -> bool {
        *wanted == Previous(self.previous)
    }
}

impl Keyed<Step> for Stop {
    ghost key = { λ s. record { previous = s.previous; place = s.place } };

    fn has_key(&self, wanted: &Step) -> bool {
        let step = Step {
            previous: self.previous,
            place: self.place,
        };
        *wanted == step
    }
}

impl Keyed<StopPair> for Precedence {
    ghost key = { λ s. record { first_stop = s.first_stop; second_stop = s.second_stop } };

    fn has_key(&self, wanted: &StopPair) -> bool {
        let stops = StopPair {
            first_stop: self.first_stop,
            second_stop: self.second_stop,
        };
        *wanted == stops
    }
}
