// Lags between numbered nodes: the least arrivals that keep every lag, or a ring that no arrivals keep.
#![tactic(auto)]

ghost use Rattle.lags.specs.Solved.{Solved};

use graph::Graph;

mod graph;
mod rings;

// The most nodes.
pub const MOST_NODES: usize = 1024;

// The most lags.
pub const MOST_LAGS: usize = 3072;

// A lag: the arrival at the node `to` is at least `weight` after the arrival at the node `from`.
#[derive(Clone, Copy, PartialEq, Eq, Default, Debug)]
pub struct Lag {
    pub from: u16,
    pub to: u16,
    pub weight: i32,
}

// Why lags are not solved.
#[derive(Clone, Copy, PartialEq, Eq, Debug)]
pub enum Unsolved {
    // The front of the ring page is a ring of this length, so that no arrivals keep every lag.
    Ring { length: u16 },
    // There are more than 1,024 nodes or 3,072 lags, a lag leads from or to no node or has a weight outside
    // -100,000 to 100,000, or the ring page is shorter than there are nodes. Both pages stand.
    Unfit,
}

// Works out the least arrivals that keep every lag, at as many nodes as `arrivals` has numbers, or finds a ring.
// What the arrivals hold beside a ring is left open.
pub fn solve(lags: &[Lag], arrivals: &mut [u64], ring: &mut [u16]) -> Result<(), Unsolved>
    ensures { Solved lags.now arrivals.old arrivals.new ring.old ring.new result }
{
    if ring.len() < arrivals.len() {
        return Err(Unsolved::Unfit);
    }
    let graph = Graph::new(lags, arrivals.len()).ok_or(Unsolved::Unfit)?;
    arrivals.fill(0);
    // The number of the lag that raised each node last. No number stands for "none": a node that was never raised is
    // never read, as is proved, and an Option would be a test that never fails.
    let mut parents = [0; MOST_NODES];
    match graph.settle(arrivals, &mut parents) {
        None => Ok(()),
        Some(last) => Err(Unsolved::Ring {
            length: graph.write_ring(&parents, last, ring),
        }),
    }
}
