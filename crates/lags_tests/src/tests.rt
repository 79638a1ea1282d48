// Worked cases, limits, and random lists. Loops over numbers make or try cases by number.
use crate::longest::{NODES, longest_arrivals};
use crate::rings::{NO_LAG, fill_chain, fill_chain_arrivals, fill_ring, is_ring};
use lags::{Lag, Unsolved, solve};
use std::process::Abort;
use std::test::Fail;

fn lag(from: u16, to: u16, weight: i32) -> Lag {
    Lag { from, to, weight }
}

// That the lags have these least arrivals, and the ring page stands.
fn check_settled<const N: usize>(rt: &impl Abort, lags: &[Lag], wanted: [u64; N]) {
    let mut arrivals = [7u64; N];
    let mut page = [9u16; 1024];
    assert_eq!(rt; solve(lags, &mut arrivals, &mut page), Ok(()));
    assert!(rt; arrivals == wanted);
    assert!(rt; page == [9; 1024]);
}

// That the lags between N nodes have a ring of this length, and the rest of the ring page stands.
fn check_ring<const N: usize>(rt: &impl Abort, lags: &[Lag], wanted: u16, case: &str) {
    assert!(rt; N <= 1024);
    let mut arrivals = [7u64; N];
    let mut page = [9u16; 1024];
    assert_eq!(rt;
        solve(lags, &mut arrivals, &mut page),
        Err(Unsolved::Ring { length: wanted }),
        "{case}"
    );
    let length = usize::from(wanted);
    assert!(rt; length <= 1024);
    assert!(rt; is_ring(lags, &page[0..length]), "{case}");
    assert!(rt; page[length..].iter().all(|number| *number == 9), "{case}");
}

// That lags, nodes and room are outside the limits, and both pages stand.
fn check_unfit<const N: usize, const ROOM: usize>(rt: &impl Abort, lags: &[Lag], why: &str) {
    assert!(rt; N <= 1025 && ROOM <= 1025);
    let mut arrivals = [7u64; N];
    let mut page = [9u16; ROOM];
    assert_eq!(rt;
        solve(lags, &mut arrivals, &mut page),
        Err(Unsolved::Unfit),
        "{why}"
    );
    assert!(rt; arrivals == [7; N], "{why}");
    assert!(rt; page == [9; ROOM], "{why}");
}

// A ring through N nodes, whose numbers go up by `step` round the ring: it passes with the sum 0, and with the sum 1 it
// is found.
fn check_ring_sums<const N: usize>(rt: &impl Abort, step: usize, nodes: &str) {
    assert!(rt; N <= 1024);
    let mut lags = [NO_LAG; N];
    let mut arrivals = [7u64; N];
    let mut page = [9u16; N];
    fill_ring(&mut lags, step, 0);
    assert_eq!(rt; solve(&lags, &mut arrivals, &mut page), Ok(()), "{nodes}");
    assert!(rt; page == [9; N], "{nodes}");
    fill_ring(&mut lags, step, 1);
    check_ring::<N>(rt, &lags, N as u16, nodes);
}

#[test]
fn rings_pass_up_to_the_sum_0(rt: HostRuntime) {
    check_ring_sums::<1>(&rt, 1, "a lag from a node to itself");
    check_ring_sums::<2>(&rt, 1, "two nodes");
    check_ring_sums::<3>(&rt, 1, "three nodes");
    check_ring_sums::<3>(&rt, 2, "three nodes, falling");
    check_ring_sums::<64>(&rt, 1, "64 nodes");
    check_ring_sums::<64>(&rt, 63, "64 nodes, falling");
    check_ring_sums::<64>(&rt, 27, "64 nodes, mixed");
}

// Of two rings only the one with a sum above 0 is found; so it is among nodes that lead into it and out of it.
#[test]
fn only_a_ring_above_0_is_found(rt: HostRuntime) {
    let lags = [
        lag(0, 1, 4),
        lag(1, 2, -3),
        lag(2, 0, -1),
        lag(2, 5, 8),
        lag(5, 3, 6),
        lag(3, 4, -2),
        lag(4, 5, -3),
        lag(4, 6, 9),
    ];
    let mut arrivals = [0; 7];
    let mut page = [9; 7];
    assert_eq!(rt;
        solve(&lags, &mut arrivals, &mut page),
        Err(Unsolved::Ring { length: 3 })
    );
    assert!(rt; page == [3, 4, 5, 9, 9, 9, 9]);
}

#[test]
fn lags_below_0_are_not_lifted(rt: HostRuntime) {
    check_settled(&rt, &[], []);
    check_settled(&rt, &[], [0, 0]);
    check_settled(&rt, &[lag(0, 1, -5), lag(1, 0, 0)], [0, 0]);
    check_settled(
        &rt,
        &[lag(2, 3, -7), lag(1, 2, -4), lag(0, 1, 10)],
        [0, 10, 6, 0],
    );
    check_settled(
        &rt,
        &[lag(0, 1, 3), lag(0, 1, 5), lag(1, 2, 7), lag(2, 1, -9)],
        [0, 5, 12],
    );
}

// A chain whose last lag comes first, so that each round raises one node more.
#[test]
fn a_long_chain_settles_in_the_worst_order(rt: HostRuntime) {
    let mut lags = [NO_LAG; 1000];
    let mut wanted = [0u64; 1000];
    fill_chain_arrivals(&mut wanted);
    fill_chain(&mut lags, 0);
    check_settled(&rt, &lags, wanted);
    fill_chain(&mut lags, 1);
    check_ring::<1000>(&rt, &lags, 1000, "a chain closed to a ring");
}

#[test]
fn limits(rt: HostRuntime) {
    let mut arrivals = [7u64; 1024];
    let mut page = [9u16; 1024];
    let lags = [lag(0, 1023, -100000); 3073];
    assert_eq!(rt; solve(&lags[0..3072], &mut arrivals, &mut page), Ok(()));
    assert!(rt; arrivals == [0; 1024]);
    check_unfit::<1024, 1024>(&rt, &lags, "too many lags");
    check_unfit::<1025, 1025>(&rt, &[], "too many nodes");
    check_unfit::<1024, 1023>(&rt, &[], "a page too short");
    check_unfit::<2, 2>(&rt, &[lag(0, 2, 1)], "no such end");
    check_unfit::<2, 2>(&rt, &[lag(2, 1, 1)], "no such start");
    check_unfit::<0, 0>(&rt, &[lag(0, 0, -1)], "no node at all");
    check_unfit::<2, 2>(&rt, &[lag(0, 1, 100001)], "too heavy");
    check_unfit::<2, 2>(&rt, &[lag(0, 1, -100001)], "too heavy below 0");
    check_settled(&rt, &[lag(0, 1, 100000)], [0, 100000]);
}

// The lags that a seed stands for: up to twelve between the nodes, with weights -5 to 4.
fn random_lags(seed: u64) -> [Lag; 12] {
    let mut lags = [NO_LAG; 12];
    let mut state = seed;
    for lag in &mut lags[..(seed % 13) as usize] {
        state = state
            .wrapping_mul(6364136223846793005)
            .wrapping_add(1442695040888963407);
        *lag = Lag {
            from: ((state >> 60) % 6) as u16,
            to: ((state >> 50) % 6) as u16,
            weight: ((state >> 40) % 10) as i32 - 5,
        };
    }
    lags
}

#[test]
fn random_lists_agree_with_longest_ways(rt: HostRuntime) -> Result<(), Fail> {
    let mut rings = 0u32;
    for seed in 0..4000 {
        let lags = random_lags(seed);
        let mut arrivals = [7u64; NODES];
        let mut page = [9u16; NODES];
        let outcome = solve(&lags, &mut arrivals, &mut page);
        match longest_arrivals(&lags) {
            Some(wanted) => {
                assert_eq!(rt; outcome, Ok(()));
                assert!(rt; arrivals == wanted);
            }
            None => {
                let Err(Unsolved::Ring { length }) = outcome else {
                    return Err(Fail::new("a ring was missed"));
                };
                check_ring::<NODES>(&rt, &lags, length, "random lags");
                rings = rings.wrapping_add(1);
            }
        }
    }
    assert!(rt; rings > 500 && rings < 3500);
    Ok(())
}
