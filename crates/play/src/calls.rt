// The calls of a run.

// A call on the sheet, or a judging in a yard and under a rule of its own.
#[derive(Clone, Copy, PartialEq, Eq, Debug)]
pub enum Call<Y, R> {
    EnterCarrier { start: u16, goal: u16 },
    EnterStop { carrier: u8, place: u16 },
    EnterPrecedence { first: u8, second: u8, place: u16 },
    StrikePrecedence { first: u8, second: u8, place: u16 },
    Judge { yard: Y, rule: R },
}
