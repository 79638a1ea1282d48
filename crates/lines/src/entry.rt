// What a line says.
ghost use Rattle.std.specs.Prelude.{◌≡◌};

// A following rule, as a judging names it: the gap of a fixed one may be too long.
pub type Rule = yard::rules::Rule<u16>;

// An entry: a kind of line with its fields.
#[derive(Clone, Copy, PartialEq, Eq, Debug)]
pub enum Entry {
    // Enter a carrier.
    Carrier { start: u16, goal: u16 },
    // Enter a stop.
    Stop { carrier: u8, place: u16 },
    // Enter a precedence.
    Precedence { first: u8, second: u8, place: u16 },
    // Strike a precedence.
    Strike { first: u8, second: u8, place: u16 },
    // Judge the sheet under a rule.
    Judge { rule: Rule },
    // A lane of the yard.
    Lane { from: u16, to: u16, time: u16 },
}

// What is read: it says which kinds of line there are.
#[derive(Clone, Copy, PartialEq, Eq, Debug)]
pub enum Input {
    // The lanes of a yard: the kind 06 alone.
    Yard,
    // The lines of a sheet: the kinds 01 to 05.
    Sheet,
}

impl Input {
    ghost use Rattle.lines.specs.Entries.{has};

    // Whether the input has lines of a kind. A kind stays the byte that stands in a line: it is read and written as one
    // of a slice of bytes, and `Entry` is the enum of the kinds.
    pub(crate) fn has_kind(self, kind: u8) -> bool
        ensures { result ≡ has self kind }
    {
        match self {
            Input::Yard => kind == 0x06,
            Input::Sheet => matches!(kind, 0x01..=0x05),
        }
    }
}
