// Lanes and entries out of lists of numbers.
ghost use Rattle.std.specs.Prelude.{◌≡◌, map, IfOk, MatchResult, OnErr};
ghost use Rattle.bench_export.specs.Entering.{AllEntered, NotFilled};
ghost use Rattle.bench_export.specs.Numbers.{call_in, carrier_of as carrier_told, lanes_in};
ghost use Rattle.sheet.specs.Book.{opened};
ghost use Rattle.sheet.specs.Calls.{Answers, Leaves};
ghost use Rattle.sheet.specs.Sheets.{sheet_book};

use crate::fault::Fault;
use lane_yard::lane::Lane;
use sheet::refusal::EntryRefusal;
use sheet::sheets::Sheet;
use std::alloc::{AllocError, Global};

// The lanes of a list of triples: from, to, travel time.
pub(crate) fn lanes_of(heap: Global, numbers: &[u16]) -> Result<Vec<Lane>, AllocError>
    ensures { IfOk result (λ lanes. lanes.items ≡ lanes_in numbers.now) }
{
    let (triples, _) = numbers.as_chunks::<3>();
    triples
        .iter()
        .map(|&[from, to, time]| Lane { from, to, time })
        .collect(heap)
}

// A number as that of a carrier, the highest where it is too high. A sheet has no carrier of that number and says so,
// so that an `Option` here would only repeat the sheet's own check.
fn carrier_of(number: u16) -> u8
    ensures { result ≡ carrier_told number }
{
    u8::try_from(number).unwrap_or(u8::MAX)
}

// Makes the call of an entry: its kind, then its fields in the order of a line. The C interface has numbers for kinds.
fn enter(sheet: &mut Sheet, entry: &[u16; 4]) -> Result<u16, EntryRefusal>
    ensures answers { Answers (sheet_book sheet.old) (call_in entry.now) result }
    ensures leaves { Leaves (sheet_book sheet.old) (call_in entry.now) result (sheet_book sheet.new) }
    ensures unchanged { OnErr result (sheet.new ≡ sheet.old) }
{
    match *entry {
        [1, start, goal, _] => sheet.enter_carrier(start, goal),
        [2, carrier, place, _] => sheet.enter_stop(carrier_of(carrier), place),
        [3, first, second, place] => {
            sheet.enter_precedence(carrier_of(first), carrier_of(second), place)
        }
        [_, first, second, place] => {
            sheet.strike_precedence(carrier_of(first), carrier_of(second), place)
        }
    }
}

// A sheet with all entries; refuses by the first that the sheet refuses.
pub(crate) fn fill(heap: Global, entries: &[[u16; 4]]) -> Result<Sheet, Fault>
    ensures { MatchResult result (λ sheet. AllEntered opened (map call_in entries.now) (sheet_book sheet)) (λ fault. NotFilled (map call_in entries.now) fault) }
{
    let mut sheet = Sheet::open(heap)?;
    for entry in entries {
        enter(&mut sheet, entry)?;
    }
    Ok(sheet)
}
