// The answers of a run.
use sheet::refusal::EntryRefusal;

// Why a sheet does not pass. It shares five cases with `JudgeRefusal` and stays beside it: no page can be too short
// here, and a ring is told whole. One enum with the ring's form as a parameter would have a case that cannot come here,
// or judging would have to answer a refusal within a refusal, which each match and clause above would have to take
// apart.
#[derive(Drop, PartialEq, Eq, Debug)]
pub enum SheetRefusal {
    // The route of the carrier has not reached its goal.
    NotAtGoal { carrier: u16 },
    // No lane leads to the stop from the one before it.
    NoLane { stop: u16 },
    // The two stops are at one place, and no precedence says whose carrier goes first.
    Undecided { stop: u16, later: u16 },
    // The two stops are set head on.
    HeadOn { stop: u16, other: u16 },
    // The stops wait for each other in a ring.
    Ring { stops: Vec<u16> },
}

// What a judging finds: the sheet passes, with the earliest arrivals by stop number, or it is refused.
pub type Verdict = Result<Vec<u32>, SheetRefusal>;

// The answer to a call.
#[derive(Drop, PartialEq, Eq, Debug)]
pub enum Answer {
    // What comes of an entry or a striking: it is accepted, with this number, or refused.
    Entered { outcome: Result<u16, EntryRefusal> },
    // What a judging finds.
    Judged { verdict: Verdict },
}
