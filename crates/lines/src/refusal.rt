// Why a line is not read, and why nothing is written.
ghost use Rattle.std.specs.Prelude.{◌≡◌};
ghost use Rattle.lines.specs.Refusals.{number_of, told_by, write_number_of};

#[derive(Clone, Copy, PartialEq, Eq, Debug)]
pub enum LineRefusal {
    // The byte at the column is the first that is no digit.
    BadDigit { column: u16 },
    // The line has over 64 bytes, or is empty, or has an odd number of digits, or not the length of its kind.
    BadLength,
    // The first byte is no kind that this input has.
    UnknownKind,
    // The rule byte is above 02, or the gap is above 36,000, or it is not 0 with a rule that takes none.
    BadRule,
}

impl LineRefusal {
    // The number of the refusal in a reply, as the format of the lines has it. A match: the cases carry what they tell,
    // so they have no numbers of their own.
    pub fn number(&self) -> u8
        ensures { result ≡ number_of self.now }
    {
        match self {
            LineRefusal::BadDigit { .. } => 22,
            LineRefusal::BadLength => 23,
            LineRefusal::UnknownKind => 24,
            LineRefusal::BadRule => 25,
        }
    }

    // What the refusal tells: the column, or 0.
    pub fn told(&self) -> u16
        ensures { result ≡ told_by self.now }
    {
        match *self {
            LineRefusal::BadDigit { column } => column,
            LineRefusal::BadLength | LineRefusal::UnknownKind | LineRefusal::BadRule => 0,
        }
    }
}

#[derive(Clone, Copy, PartialEq, Eq, Debug)]
pub enum WriteRefusal {
    // The entry is a judging under a fixed gap above 36,000.
    GapTooLong,
    // From the position to the end of the page there are too few bytes.
    PageTooShort,
    // The reply lists more than 65,535 numbers, so that their count does not fit its two bytes.
    ListTooLong,
}

impl WriteRefusal {
    // The number of the refusal in a reply. It tells nothing else. A match, as two cases have one number.
    pub fn number(&self) -> u8
        ensures { result ≡ write_number_of self.now }
    {
        match self {
            WriteRefusal::GapTooLong => 25,
            WriteRefusal::PageTooShort | WriteRefusal::ListTooLong => 12,
        }
    }
}
