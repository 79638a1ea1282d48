// The records of a sheet, and the keys by which they are found.
ghost use Rattle.std.specs.Prelude.{◌≡◌, ◌↔◌, IsTrue};
ghost use Rattle.sheet.specs.Records.{gone_on};

use keyed::Keyed;

// A carrier that was entered, with how far its route has come.
#[derive(Clone, Copy, PartialEq, Eq, Debug)]
pub struct Carrier {
    // The place where its route begins.
    pub start: u16,
    // The place where its route ends.
    pub goal: u16,
    // The number of its latest stop, and that stop's place.
    pub last_stop: u16,
    pub last_place: u16,
}

impl Carrier {
    // Whether the route has reached its goal.
    pub fn is_at_goal(&self) -> bool
        ensures { IsTrue result ↔ (self.now.last_place ≡ self.now.goal) }
    {
        self.last_place == self.goal
    }

    // Takes a further stop into the route.
    pub fn go_on(&mut self, stop: u16, place: u16)
        ensures { self.new ≡ gone_on self.old stop place }
    {
        self.last_stop = stop;
        self.last_place = place;
    }
}

// A stop: a carrier's visit to a place. A carrier's stops, in order of entry, are its route.
#[derive(Clone, Copy, PartialEq, Eq, Debug)]
pub struct Stop {
    pub carrier: u8,
    pub place: u16,
    // The stop before it on the same route; a route's first stop has none.
    pub previous: Option<u16>,
}

impl Stop {
    // Its key.
    fn visit(&self) -> Visit
        ensures { result ≡ record { carrier = self.now.carrier; place = self.now.place } }
    {
        Visit {
            carrier: self.carrier,
            place: self.place,
        }
    }
}

// A precedence: carrier `first` leaves the place before carrier `second` reaches it.
#[derive(Clone, Copy, PartialEq, Eq, Debug)]
pub struct Precedence {
    pub first: u8,
    pub second: u8,
    pub place: u16,
    // The two carriers' stops at the place.
    pub first_stop: u16,
    pub second_stop: u16,
}

impl Precedence {
    // Its key.
    fn order(&self) -> Order
        ensures { result ≡ record { first = self.now.first; second = self.now.second; place = self.now.place } }
    {
        Order {
            first: self.first,
            second: self.second,
            place: self.place,
        }
    }
}

// The key of a carrier's start.
#[derive(Clone, Copy, PartialEq, Eq, Debug)]
pub struct Start(pub u16);

// The key of a carrier's goal.
#[derive(Clone, Copy, PartialEq, Eq, Debug)]
pub struct Goal(pub u16);

// The key of a stop: no route has a place twice.
#[derive(Clone, Copy, PartialEq, Eq, Debug)]
pub struct Visit {
    pub carrier: u8,
    pub place: u16,
}

// The key of a precedence.
#[derive(Clone, Copy, PartialEq, Eq, Debug)]
pub struct Order {
    pub first: u8,
    pub second: u8,
    pub place: u16,
}

impl Order {
    // A carrier's visit to the place.
    pub(crate) fn visit_of(&self, carrier: u8) -> Visit
        ensures { result ≡ record { carrier = carrier; place = self.now.place } }
    {
        Visit {
            carrier,
            place: self.place,
        }
    }

    // The same two carriers at the place, the other way round.
    pub fn reversed(&self) -> Order
        ensures { result ≡ record { first = self.now.second; second = self.now.first; place = self.now.place } }
    {
        Order {
            first: self.second,
            second: self.first,
            place: self.place,
        }
    }
}

impl Keyed<Start> for Carrier {
    ghost key = { λ s. record { 0 = s.start } };

    fn has_key(&self, wanted: &Start) -> bool {
        *wanted == Start(self.start)
    }
}

impl Keyed<Goal> for Carrier {
    ghost key = { λ s. record { 0 = s.goal } };

    fn has_key(&self, wanted: &Goal) -> bool {
        *wanted == Goal(self.goal)
    }
}

impl Keyed<Visit> for Stop {
    ghost key = { λ s. record { carrier = s.carrier; place = s.place } };

    fn has_key(&self, wanted: &Visit) -> bool {
        *wanted == self.visit()
    }
}

impl Keyed<Order> for Precedence {
    ghost key = { λ s. record { first = s.first; second = s.second; place = s.place } };

    fn has_key(&self, wanted: &Order) -> bool {
        *wanted == self.order()
    }
}
