// Why a measured call is not carried out.
ghost use Rattle.std.specs.Prelude.{◌≡◌};
ghost use Rattle.bench_export.specs.Codes.{code_of as code_told, number_of, told_by};
ghost use Rattle.bench_export.specs.declared.fault.Fault.TheVariants.{Entry, Grid, Judge, Lay, NoMemory};

use grid_yard::refusal::GridRefusal;
use judge::refusal::JudgeRefusal;
use lane_yard::refusal::LayRefusal;
use sheet::refusal::EntryRefusal;
use std::alloc::AllocError;

#[derive(Clone, Copy)]
pub(crate) enum Fault {
    // There is no memory.
    NoMemory,
    // The lanes cannot be laid.
    Lay { why: LayRefusal },
    // The grid cannot be set out.
    Grid { why: GridRefusal },
    // The sheet refuses an entry.
    Entry { why: EntryRefusal },
    // The sheet does not pass.
    Judge { why: JudgeRefusal },
}

// The conversions are written out: the kit's derive for errors would want a text for each refusal, and nobody prints
// one.
impl From<AllocError> for Fault {
    ghost from_gives = { λ _ fault. fault ≡ NoMemory };

    fn from(_why: AllocError) -> Fault {
        Fault::NoMemory
    }
}

impl From<LayRefusal> for Fault {
    ghost from_gives = { λ why fault. fault ≡ Lay why };

    fn from(why: LayRefusal) -> Fault {
        Fault::Lay { why }
    }
}

impl From<GridRefusal> for Fault {
    ghost from_gives = { λ why fault. fault ≡ Grid why };

    fn from(why: GridRefusal) -> Fault {
        Fault::Grid { why }
    }
}

impl From<EntryRefusal> for Fault {
    ghost from_gives = { λ why fault. fault ≡ Entry why };

    fn from(why: EntryRefusal) -> Fault {
        Fault::Entry { why }
    }
}

impl From<JudgeRefusal> for Fault {
    ghost from_gives = { λ why fault. fault ≡ Judge why };

    fn from(why: JudgeRefusal) -> Fault {
        Fault::Judge { why }
    }
}

impl Fault {
    // The refusal's number and what it tells first; 0 and 0 where there is no memory. The C interface has numbers.
    fn told(&self) -> (u8, u16)
        ensures { result ≡ (number_of self.now, told_by self.now) }
    {
        match self {
            Fault::NoMemory => (0, 0),
            Fault::Lay { why } => (why.number(), why.told()),
            Fault::Grid { why } => (why.number(), 0),
            Fault::Entry { why } => (why.number(), 0),
            Fault::Judge { why } => (why.number(), why.told().0),
        }
    }
}

// A fault is its number, plus one, in units of this, plus what it tells. No pass has so many stops, and no fault tells
// so much.
const NUMBER_UNIT: u32 = 65536;

// One number for an outcome: the number of stops of a pass, or 65,536 times one more than the refusal's number, plus
// what it tells first.
pub(crate) fn code_of(outcome: Result<u16, Fault>) -> u32
    ensures { result ≡ code_told outcome }
{
    match outcome {
        Ok(stops) => u32::from(stops),
        Err(fault) => {
            let (number, told) = fault.told();
            NUMBER_UNIT * (u32::from(number) + 1) + u32::from(told)
        }
    }
}
