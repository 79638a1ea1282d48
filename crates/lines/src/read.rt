// Reading a line.
ghost use Rattle.std.specs.Prelude.{◌≡◌, ℕ, ◌≤◌, ◌↔◌, List, [], ◌∷◌, length, take, if◌then◌else◌, Ok, Err, ◌==◌};
ghost use Rattle.lines.specs.declared.refusal.LineRefusal.TheVariants.{BadDigit, BadLength, BadRule};
ghost use Rattle.lines.specs.Digits.{FirstBad};
ghost use Rattle.lines.specs.Entries.{Says};
ghost use Rattle.lines.specs.Reading.{first_byte, unruled, rule_of, entry_of, checked, unknown_kind, wrong_length, bad_rule, reading};

use crate::MOST_DIGITS;
use crate::digits::{check_digits, decode};
use crate::entry::{Entry, Input, Rule};
use crate::refusal::LineRefusal;
use yard::limits::LONGEST_GAP;

// The rule of a rule byte and a gap. A function and no `TryFrom`: the two are fields of a line, and no type of their
// own.
fn read_rule(rule: u8, gap: u16) -> Result<Rule, LineRefusal>
    ensures { result ≡ (if unruled rule gap then Err BadRule else Ok (rule_of rule gap)) }
{
    match (rule, gap) {
        (0x00, 0) => Ok(Rule::FullLane),
        (0x01, 0) => Ok(Rule::LaneLessOne),
        (0x02, 0..=LONGEST_GAP) => Ok(Rule::FixedGap { gap }),
        _ => Err(LineRefusal::BadRule),
    }
}

// The entry of a kind and its fields. The kinds stay bytes: the patterns are the table of the format.
fn read_fields(bytes: &[u8]) -> Result<Entry, LineRefusal>
    requires lowest { 1 ≤ first_byte bytes.now }
    requires highest { first_byte bytes.now ≤ 6 }
    ensures { result ≡ checked (wrong_length bytes.now ∷ bad_rule bytes.now ∷ []) (entry_of bytes.now) }
{
    match *bytes {
        [0x01, s1, s0, g1, g0] => Ok(Entry::Carrier {
            start: u16::from_be_bytes([s1, s0]),
            goal: u16::from_be_bytes([g1, g0]),
        }),
        [0x02, carrier, p1, p0] => Ok(Entry::Stop {
            carrier,
            place: u16::from_be_bytes([p1, p0]),
        }),
        [0x03, first, second, p1, p0] => Ok(Entry::Precedence {
            first,
            second,
            place: u16::from_be_bytes([p1, p0]),
        }),
        [0x04, first, second, p1, p0] => Ok(Entry::Strike {
            first,
            second,
            place: u16::from_be_bytes([p1, p0]),
        }),
        [0x05, rule, g1, g0] => Ok(Entry::Judge {
            rule: read_rule(rule, u16::from_be_bytes([g1, g0]))?,
        }),
        [0x06, f1, f0, t1, t0, m1, m0] => Ok(Entry::Lane {
            from: u16::from_be_bytes([f1, f0]),
            to: u16::from_be_bytes([t1, t0]),
            time: u16::from_be_bytes([m1, m0]),
        }),
        _ => Err(LineRefusal::BadLength),
    }
}

// What bytes say in an input.
fn read_bytes(bytes: &[u8], input: Input) -> Result<Entry, LineRefusal>
    ensures { result ≡ (if length bytes.now == 0 then Err BadLength else checked (unknown_kind input bytes.now ∷ wrong_length bytes.now ∷ bad_rule bytes.now ∷ []) (entry_of bytes.now)) }
{
    let [kind, ..] = bytes else {
        return Err(LineRefusal::BadLength);
    };
    if !input.has_kind(*kind) {
        return Err(LineRefusal::UnknownKind);
    }
    read_fields(bytes)
}

// Reads a line of an input: the entry that it says, or the refusal of the first check that applies.
pub fn read_entry(line: &[u8], input: Input) -> Result<Entry, LineRefusal>
    ensures said { result ≡ reading input line.now }
    ensures exact { (e : Entry) → (result ≡ Ok e) ↔ Says input line.now e }
    ensures column { (c : ℕ) → (result ≡ Err (BadDigit c)) ↔ ((length line.now ≤ 64) × FirstBad line.now c) }
    ensures kept { (whole : List ℕ) → line.now ≡ take 65 whole → result ≡ reading input whole }
{
    if line.len() > MOST_DIGITS {
        return Err(LineRefusal::BadLength);
    }
    check_digits(line)?;
    if line.len() % 2 != 0 {
        return Err(LineRefusal::BadLength);
    }
    read_bytes(&decode(line), input)
}
