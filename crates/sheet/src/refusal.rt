// Why an entry or a striking is refused.
ghost use Rattle.std.specs.Prelude.{◌≡◌};
ghost use Rattle.sheet.specs.Refusals.{number_of};

// A refusal, with its number.
#[derive(Clone, Copy, PartialEq, Eq, Debug)]
pub enum EntryRefusal {
    // A limit of the sheet is reached.
    LimitReached = 1,
    // There is no such carrier.
    NoCarrier = 2,
    // Another carrier has this start, or this goal.
    EndTaken = 3,
    // The route has reached its goal.
    RouteAtGoal = 4,
    // A place is above 4,095.
    PlaceTooHigh = 5,
    // The place is on this route.
    PlaceOnRoute = 6,
    // The first and the second carrier are one.
    SameCarrier = 7,
    // The place is not a stop of both carriers.
    NotOnBothRoutes = 8,
    // The place is the first carrier's goal or the second one's start.
    FirstsGoalOrSecondsStart = 9,
    // The two carriers have a precedence at the place, either way round.
    AlreadyDecided = 10,
    // There is no such precedence.
    NothingToStrike = 11,
}

impl EntryRefusal {
    // The number of the refusal. It tells nothing else.
    pub fn number(&self) -> u8
        ensures { result ≡ number_of self.now }
    {
        *self as u8
    }
}
