// Arrivals by the longest ways between all pairs of nodes: a second way of working them out, for few nodes.
// Nodes are gone through by number: the number is an index in each row.
use lags::Lag;

pub(crate) const NODES: usize = 6;

// Where there is no way.
const NEVER: i64 = -1000000000;

// The greatest weight of a lag from each node to each, and 0 from each to itself.
fn lag_table(lags: &[Lag]) -> [[i64; NODES]; NODES] {
    let mut table = [[NEVER; NODES]; NODES];
    for (node, row) in table.iter_mut().enumerate() {
        row[node] = 0;
    }
    for lag in lags {
        let (from, to) = (usize::from(lag.from), usize::from(lag.to));
        if from < NODES && to < NODES {
            table[from][to] = table[from][to].max(i64::from(lag.weight));
        }
    }
    table
}

// The longest ways, where no ring has a sum above 0. Else some node has a way to itself above 0.
fn longest_ways(lags: &[Lag]) -> [[i64; NODES]; NODES] {
    let mut ways = lag_table(lags);
    for via in 0..NODES {
        let onward = ways[via];
        for row in &mut ways {
            let there = row[via];
            for (way, rest) in row.iter_mut().zip(&onward) {
                *way = (*way).max(there.wrapping_add(*rest));
            }
        }
    }
    ways
}

// The least arrivals, or none where there is a ring with a sum above 0.
pub(crate) fn longest_arrivals(lags: &[Lag]) -> Option<[u64; NODES]> {
    let ways = longest_ways(lags);
    let mut arrivals = [0; NODES];
    for (from, row) in ways.iter().enumerate() {
        if row[from] > 0 {
            return None;
        }
        for (arrival, way) in arrivals.iter_mut().zip(row) {
            *arrival = (*arrival).max(u64::try_from(*way).unwrap_or(0));
        }
    }
    Some(arrivals)
}
