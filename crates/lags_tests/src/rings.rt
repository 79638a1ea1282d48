// Rings and chains as the tests make and judge them.
// Loops by `enumerate`: what an item becomes depends on its number.
ghost use Rattle.std.specs.Prelude.{◌≤◌, length};

use lags::Lag;

pub(crate) const NO_LAG: Lag = Lag {
    from: 0,
    to: 0,
    weight: 0,
};

// Fills the list with a ring through nodes 0 up to its length, each `step` after the one before, with weights -3 to 3
// and a last one that makes the sum.
pub(crate) fn fill_ring(lags: &mut [Lag], step: usize, sum: i32)
    requires { length lags.old ≤ 1024 }
{
    let n = lags.len();
    let mut rest = sum;
    for (i, lag) in lags.iter_mut().enumerate() {
        let weight = if i + 1 < n { (i % 7) as i32 - 3 } else { rest };
        rest = rest.wrapping_sub(weight);
        *lag = Lag {
            from: (i.wrapping_mul(step) % n) as u16,
            to: ((i + 1).wrapping_mul(step) % n) as u16,
            weight,
        };
    }
}

// Fills the list with a chain through nodes 0 up to its length, the last lag first, each of weight 3, and then a lag
// back that makes the sum.
pub(crate) fn fill_chain(lags: &mut [Lag], sum: i32)
    requires { length lags.old ≤ 1024 }
{
    let n = lags.len();
    for (i, lag) in lags.iter_mut().enumerate() {
        *lag = if i + 1 < n {
            Lag {
                from: (n - 2 - i) as u16,
                to: (n - 1 - i) as u16,
                weight: 3,
            }
        } else {
            Lag {
                from: (n - 1) as u16,
                to: 0,
                weight: sum.wrapping_sub(3 * (n as i32 - 1)),
            }
        };
    }
}

// What the arrivals along that chain come to.
pub(crate) fn fill_chain_arrivals(arrivals: &mut [u64])
    requires { length arrivals.old ≤ 1024 }
{
    for (i, arrival) in arrivals.iter_mut().enumerate() {
        *arrival = 3 * i as u64;
    }
}

// The greatest weight of a lag from one node to another, if there is such a lag.
fn greatest_weight(lags: &[Lag], from: u16, to: u16) -> Option<i32> {
    lags.iter()
        .filter(|lag| lag.from == from && lag.to == to)
        .map(|lag| lag.weight)
        .max()
}

// Whether the nodes are distinct and the lowest is first.
fn is_distinct_from_lowest(nodes: &[u16]) -> bool {
    for (i, node) in nodes.iter().enumerate() {
        if *node < nodes[0] || nodes[i + 1..].contains(node) {
            return false;
        }
    }
    true
}

// Whether the nodes are a ring of the lags with a sum above 0, from the lowest on.
pub(crate) fn is_ring(lags: &[Lag], nodes: &[u16]) -> bool {
    let mut sum = 0i64;
    for (node, next) in nodes.iter().zip(nodes.iter().skip(1).chain(nodes)) {
        let Some(weight) = greatest_weight(lags, *node, *next) else {
            return false;
        };
        sum = sum.wrapping_add(i64::from(weight));
    }
    sum > 0 && is_distinct_from_lowest(nodes)
}
