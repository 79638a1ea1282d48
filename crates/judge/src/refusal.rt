// Why a judging refuses a sheet.
ghost use Rattle.std.specs.Prelude.{◌≡◌};
ghost use Rattle.judge.specs.Refusals.{number_of, told_by};

#[derive(Clone, Copy, PartialEq, Eq, Debug)]
pub enum JudgeRefusal {
    // The timetable or the ring page is shorter than the number of stops.
    PageTooShort,
    // The carrier's route has not reached its goal.
    NotAtGoal { carrier: u16 },
    // No lane leads to the stop from the one before it.
    NoLane { stop: u16 },
    // Two carriers stop at one place, and no precedence says who goes first.
    Undecided { stop: u16, later: u16 },
    // Two stops set head on: each goes to the other's place, and each one's carrier goes first at its own.
    HeadOn { stop: u16, other: u16 },
    // A ring of waiting of this many stops.
    Ring { length: u16 },
}

impl JudgeRefusal {
    // The number of the refusal. A match: the cases carry what they tell, so they have no numbers of their own.
    pub fn number(&self) -> u8
        ensures { result ≡ number_of self.now }
    {
        match self {
            JudgeRefusal::PageTooShort => 12,
            JudgeRefusal::NotAtGoal { .. } => 13,
            JudgeRefusal::NoLane { .. } => 14,
            JudgeRefusal::Undecided { .. } => 15,
            JudgeRefusal::HeadOn { .. } => 16,
            JudgeRefusal::Ring { .. } => 17,
        }
    }

    // What the refusal tells, 0 where there is nothing.
    pub fn told(&self) -> (u16, u16)
        ensures { result ≡ told_by self.now }
    {
        match *self {
            JudgeRefusal::PageTooShort => (0, 0),
            JudgeRefusal::NotAtGoal { carrier } => (carrier, 0),
            JudgeRefusal::NoLane { stop } => (stop, 0),
            JudgeRefusal::Undecided { stop, later } => (stop, later),
            JudgeRefusal::HeadOn { stop, other } => (stop, other),
            JudgeRefusal::Ring { length } => (length, 0),
        }
    }
}
