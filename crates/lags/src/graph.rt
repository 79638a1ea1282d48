// The graph of the lags, and the rounds through it, which raise arrivals until every lag is kept. The arrays have fixed
// sizes, since solving takes no memory.
ghost use Rattle.std.specs.Prelude.{◌≡◌, ℕ, ◌+◌, ◌^◌, ◌<◌, ◌≤◌, ◌↔◌, ◌≢◌, [], drop, length, pos, ◌+ℤ◌, All, IsTrue, IsSome, IfSome, MatchOption, if◌then◌else◌, int_lt, slice_set};
ghost use Rattle.lags.specs.Progress.{Low, Round};
ghost use Rattle.lags.specs.Solved.{Allowed, Earliest, Inside, Looped, at};
ghost use Rattle.lags.specs.Times.{after};
ghost use Rattle.lags.specs.Traced.{EndCount, Overrun, ParentCycle};

use crate::rings::write_from_lowest;
use crate::{Lag, MOST_LAGS, MOST_NODES};
use arrayvec::ArrayVec;

// The most that a weight may be above or below 0.
const MOST_WEIGHT: i32 = 100000;

// Lags within the limits, between nodes whose numbers are below `nodes`.
#[derive(Clone, Copy)]
pub(crate) struct Graph<'a> {
    lags: &'a [Lag],
    nodes: usize,
    ghost few: { nodes ≤ 1024 },
    ghost short: { length lags.now ≤ 3072 },
    ghost allowed: { All (Allowed nodes) lags.now },
}

// Whether the lag is between two of the nodes and its weight is within the limits.
fn is_allowed(nodes: usize, lag: Lag) -> bool
    ensures { IsTrue result ↔ Allowed nodes lag }
{
    usize::from(lag.from) < nodes
        && usize::from(lag.to) < nodes
        && (-MOST_WEIGHT..=MOST_WEIGHT).contains(&lag.weight)
}

// Raises the arrival where the lag ends, if it is too early for the lag, notes the lag's number as what raised it, and
// says whether it did. Times go by `as`, since no `From` leads from u64 to i64 or back; it loses nothing, as is proved.
fn raise(lag: &Lag, number: u16, arrivals: &mut [u64], parents: &mut [u16; MOST_NODES]) -> bool
    requires inside { Inside (length arrivals.old) lag.now }
    requires few { length arrivals.old ≤ 1024 }
    requires low { Low arrivals.old (2 ^ 60) }
    ensures test { result
        ≡ int_lt (pos (at arrivals.old lag.now.to)) (pos (at arrivals.old lag.now.from) +ℤ lag.now.weight) }
    ensures arrives { arrivals.new
        ≡ (if result then slice_set arrivals.old lag.now.to (after (at arrivals.old lag.now.from) lag.now.weight)
        else arrivals.old) }
    ensures parent { parents.new
        ≡ (if result then slice_set parents.old lag.now.to number else parents.old) }
{
    let (from, to) = (usize::from(lag.from), usize::from(lag.to));
    let reach = arrivals[from] as i64 + i64::from(lag.weight);
    if (arrivals[to] as i64) < reach {
        arrivals[to] = reach as u64;
        parents[to] = number;
        return true;
    }
    false
}

// Where the node stands first among the nodes.
fn place_of(nodes: &[u16], wanted: u16) -> Option<usize>
    ensures { MatchOption result
        (All (λ node. node ≢ wanted) nodes.now)
        (λ k. (k < length nodes.now) × (at nodes.now k ≡ wanted)) }
{
    nodes.iter().position(|node| *node == wanted)
}

impl<'a> Graph<'a> {
    // The graph of the lags, if they are within the limits.
    pub(crate) fn new(lags: &'a [Lag], nodes: usize) -> Option<Self>
        ensures fits { IsSome result
            ↔ (nodes ≤ 1024) × (length lags.now ≤ 3072) × All (Allowed nodes) lags.now }
        ensures lags { IfSome result (λ g. g.lags.now ≡ lags.now) }
        ensures nodes { IfSome result (λ g. g.nodes ≡ nodes) }
    {
        let is_fit = nodes <= MOST_NODES
            && lags.len() <= MOST_LAGS
            && lags.iter().all(|lag| is_allowed(nodes, *lag));
        if is_fit {
            Some(Graph { lags, nodes })
        } else {
            None
        }
    }

    // How many nodes are where a lag ends: no other is ever raised. They are counted as they are marked, so that few
    // lags take few steps.
    fn count_ends(&self) -> usize
        ensures exact { EndCount self.now.lags.now result }
        ensures few { result ≤ 1024 }
    {
        let mut marks = [false; MOST_NODES];
        let mut ends = 0;
        for lag in self.lags {
            let to = usize::from(lag.to);
            if !marks[to] {
                marks[to] = true;
                ends += 1;
            }
        }
        ends
    }

    // Goes through the lags once, and gives the node that was raised last, if any was. A lag's number goes by `as`,
    // which loses nothing: there are at most 3,072 lags.
    fn raise_round(&self, arrivals: &mut [u64], parents: &mut [u16; MOST_NODES]) -> Option<u16>
        requires nodes { length arrivals.old ≡ self.now.nodes }
        requires low { Low arrivals.old (2 ^ 59) }
        ensures round { Round self.now.lags.now arrivals.old parents.old arrivals.new parents.new result }
        ensures within { IfSome result (λ v. v < self.now.nodes) }
    {
        let mut raised = None;
        for (number, lag) in self.lags.iter().enumerate() {
            if raise(lag, number as u16, arrivals, parents) {
                raised = Some(lag.to);
            }
        }
        raised
    }

    // Makes rounds from arrivals that are all 0 until one raises nothing, but at most one more than there are nodes at
    // which a lag ends. Gives the node that the last of them raised last, if it raised any; the parents have the number
    // of the lag that raised each node last.
    pub(crate) fn settle(
        &self,
        arrivals: &mut [u64],
        parents: &mut [u16; MOST_NODES],
    ) -> Option<u16>
        requires nodes { length arrivals.old ≡ self.now.nodes }
        requires zero { Low arrivals.old 0 }
        ensures { MatchOption result
            (Earliest self.now.lags.now arrivals.new)
            (λ v. Overrun self.now.lags.now (at parents.new) v × (v < self.now.nodes)) }
    {
        for _ in 0..self.count_ends() {
            self.raise_round(arrivals, parents)?;
        }
        self.raise_round(arrivals, parents)
    }

    // Goes back from `start`, from each node to the one that raised it last, until a node is met again.
    // Adds the nodes to an empty list, and gives the place in it of the node that was met again.
    fn trace_back(
        &self,
        parents: &[u16; MOST_NODES],
        start: u16,
        nodes: &mut ArrayVec<u16, MOST_NODES>,
    ) -> usize
        requires empty { nodes.old.items ≡ [] }
        requires inside { start < self.now.nodes }
        requires over { Overrun self.now.lags.now (at parents.now) start }
        ensures { ParentCycle self.now.lags.now (at parents.now) (drop result nodes.new.items) }
    {
        let mut met = [false; MOST_NODES];
        let mut node = start;
        while !met[usize::from(node)] {
            met[usize::from(node)] = true;
            nodes.push(node);
            node = self.lags[usize::from(parents[usize::from(node)])].from;
        }
        place_of(nodes, node).unwrap()
    }

    // Writes the ring into which the way back from `start` runs to the front of the page, and gives its length. `as`
    // loses nothing: there are at most 1,024 nodes. Not inlined: its tables are for rings alone.
    #[inline(never)]
    pub(crate) fn write_ring(
        &self,
        parents: &[u16; MOST_NODES],
        start: u16,
        page: &mut [u16],
    ) -> u16
        requires inside { start < self.now.nodes }
        requires over { Overrun self.now.lags.now (at parents.now) start }
        requires room { self.now.nodes ≤ length page.old }
        ensures { Looped self.now.lags.now self.now.nodes result page.old page.new }
    {
        let mut nodes = ArrayVec::new();
        let first = self.trace_back(parents, start, &mut nodes);
        let ring = &nodes[first..];
        write_from_lowest(ring, page);
        ring.len() as u16
    }
}
