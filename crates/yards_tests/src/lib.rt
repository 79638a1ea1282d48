// Tests of the search by key, the yards and the following rules, on examples.
// Loops over numbers make or try cases by number: there are no elements to go over.
#![tactic(auto)]

#[cfg(test)]
mod tests {
    use grid_yard::plan::Plan;
    use grid_yard::refusal::GridRefusal;
    use grid_yard::yards::GridYard;
    use keyed::find;
    use lane_yard::lane::Lane;
    use lane_yard::refusal::LayRefusal;
    use lane_yard::yards::LaneYard;
    use std::test::Fail;
    use yard::refusal::GapRefusal;
    use yard::rules::{AnyRule, FixedGap, FullLane, LaneLessOne, Rule};
    use yard::{FollowingRule, Yard};

    fn lane(from: u16, to: u16, time: u16) -> Lane {
        Lane { from, to, time }
    }

    fn bad(index: u16) -> Result<(), LayRefusal> {
        Err(LayRefusal::BadLane { index })
    }

    fn falls(index: u16) -> Result<(), LayRefusal> {
        Err(LayRefusal::NotRising { index })
    }

    #[test]
    fn search_finds_the_first(rt: HostRuntime) {
        let lanes = [
            lane(1, 2, 10),
            lane(3, 4, 20),
            lane(3, 4, 30),
            lane(4, 3, 40),
        ];
        let cases = [
            ((1, 2), Some(0)),
            ((3, 4), Some(1)),
            ((4, 3), Some(3)),
            ((2, 1), None),
        ];
        for (places, index) in cases {
            assert_eq!(rt; find(&lanes, &places), index);
        }
        assert_eq!(rt; find(&lanes[0..0], &(1, 2)), None);
    }

    // Each list is laid over the one before it; a refused one leaves the lanes as they were.
    #[test]
    fn lane_lists(rt: HostRuntime) -> Result<(), Fail> {
        let mut yard = LaneYard::new(rt.alloc())?;
        assert!(rt; yard.lanes().is_empty());
        assert_eq!(rt; yard.lay(&[lane(7, 8, 9)]), Ok(()));
        let refused: [(&[Lane], Result<(), LayRefusal>); 11] = [
            (&[lane(0, 1, 0)], bad(0)),
            (&[lane(0, 1, 36001)], bad(0)),
            (&[lane(0, 4096, 5)], bad(0)),
            (&[lane(4096, 0, 5)], bad(0)),
            (&[lane(0, 1, 5), lane(3, 3, 5)], bad(1)),
            (&[lane(0, 1, 5), lane(0, 1, 6)], falls(1)),
            (&[lane(0, 2, 5), lane(0, 1, 5)], falls(1)),
            (&[lane(1, 0, 5), lane(0, 1, 5)], falls(1)),
            (&[lane(1, 0, 5), lane(0, 1, 5), lane(2, 2, 5)], falls(1)),
            (&[lane(1, 0, 5), lane(0, 0, 5)], bad(1)),
            (&[lane(0, 1, 5), lane(0, 2, 5), lane(0, 3, 0)], bad(2)),
        ];
        for (lanes, answer) in refused {
            assert_eq!(rt; yard.lay(lanes), answer);
            assert_eq!(rt; yard.travel_time(7, 8), Some(9));
        }
        let laid: [&[Lane]; 4] = [
            &[lane(0, 1, 1), lane(1, 0, 36000)],
            &[lane(0, 4095, 5), lane(4095, 0, 5)],
            &[lane(0, 1, 5), lane(0, 2, 5), lane(1, 0, 5)],
            &[],
        ];
        for lanes in laid {
            assert_eq!(rt; yard.lay(lanes), Ok(()));
            assert_eq!(rt; yard.travel_time(7, 8), None);
        }
        assert!(rt; yard.lanes().is_empty());
        Ok(())
    }

    // 64 lanes from each of the places 0 to 127, to the places 1,000 to 1,063, each with a travel time of its own.
    // A list of one more is refused for its length before its lanes are looked at, and leaves them.
    #[test]
    fn full_lane_yard(rt: HostRuntime) -> Result<(), Fail> {
        let mut lanes = Vec::new(rt.alloc());
        for i in 0..8192u16 {
            lanes.push(lane(i / 64, 1000 + i % 64, i + 1))?;
        }
        let mut yard = LaneYard::new(rt.alloc())?;
        assert_eq!(rt; yard.lay(&lanes), Ok(()));
        lanes.insert(0, lane(5, 5, 0))?;
        assert_eq!(rt; yard.lay(&lanes), Err(LayRefusal::TooManyLanes));
        assert_eq!(rt; yard.lanes().len(), 8192);
        for i in 0..8192u16 {
            assert_eq!(rt; yard.travel_time(i / 64, 1000 + i % 64), Some(i + 1));
            assert_eq!(rt; yard.travel_time(1000 + i % 64, i / 64), None);
        }
        for from in 0..128 {
            assert_eq!(rt; yard.travel_time(from, 999), None);
            assert_eq!(rt; yard.travel_time(from, 1064), None);
        }
        assert_eq!(rt; yard.travel_time(128, 1000), None);
        Ok(())
    }

    fn plan(rows: u16, columns: u16, along: u16, across: u16) -> Plan {
        Plan {
            rows,
            columns,
            along,
            across,
        }
    }

    #[test]
    fn small_grids(rt: HostRuntime) -> Result<(), Fail> {
        let mut yard = GridYard::new(rt.alloc())?;
        assert_eq!(rt; yard.travel_time(0, 1), None);
        assert_eq!(rt; yard.set_out(plan(1, 3, 2, 1), &[0]), Ok(()));
        const ROW: [(u16, u16, Option<u16>); 7] = [
            (0, 1, Some(2)),
            (1, 0, Some(2)),
            (1, 2, Some(2)),
            (2, 1, Some(2)),
            (0, 2, None),
            (2, 3, None),
            (1, 1, None),
        ];
        for (from, to, time) in ROW {
            assert_eq!(rt; yard.travel_time(from, to), time);
        }
        assert_eq!(rt; yard.set_out(plan(1, 3, 2, 1), &[2]), Ok(()));
        for (from, to, _) in ROW {
            assert_eq!(rt; yard.travel_time(from, to), None);
        }
        assert_eq!(rt; yard.set_out(plan(2, 3, 4, 7), &[0]), Ok(()));
        const BLOCK: [(u16, u16, Option<u16>); 8] = [
            (1, 2, Some(4)),
            (1, 4, Some(7)),
            (4, 1, Some(7)),
            (5, 4, Some(4)),
            (2, 3, None),
            (3, 2, None),
            (0, 4, None),
            (3, 6, None),
        ];
        for (from, to, time) in BLOCK {
            assert_eq!(rt; yard.travel_time(from, to), time);
        }
        Ok(())
    }

    // A refused grid leaves the one before it.
    #[test]
    fn grid_limits(rt: HostRuntime) -> Result<(), Fail> {
        let mut yard = GridYard::new(rt.alloc())?;
        assert_eq!(rt; yard.set_out(plan(2, 3, 4, 7), &[0]), Ok(()));
        let words = [0; 64];
        let refused: [(Plan, &[u64], GridRefusal); 14] = [
            (plan(0, 3, 1, 1), &words, GridRefusal::BadSize),
            (plan(65, 3, 1, 1), &words, GridRefusal::BadSize),
            (plan(3, 0, 1, 1), &words, GridRefusal::BadSize),
            (plan(3, 65, 1, 1), &words, GridRefusal::BadSize),
            (plan(3, 65, 0, 1), &[], GridRefusal::BadSize),
            (plan(1, 3, 0, 1), &words, GridRefusal::BadTime),
            (plan(1, 3, 36001, 1), &words, GridRefusal::BadTime),
            (plan(1, 3, 1, 0), &words, GridRefusal::BadTime),
            (plan(1, 3, 1, 36001), &words, GridRefusal::BadTime),
            (plan(1, 3, 1, 0), &[], GridRefusal::BadTime),
            (plan(1, 1, 1, 1), &[], GridRefusal::TooFewWords),
            (plan(1, 64, 1, 1), &[], GridRefusal::TooFewWords),
            (plan(5, 13, 1, 1), &words[0..1], GridRefusal::TooFewWords),
            (plan(64, 64, 1, 1), &words[0..63], GridRefusal::TooFewWords),
        ];
        for (plan, words, refusal) in refused {
            assert_eq!(rt; yard.set_out(plan, words), Err(refusal));
            assert_eq!(rt; yard.travel_time(1, 4), Some(7));
        }
        let good: [(Plan, &[u64]); 6] = [
            (plan(1, 1, 1, 1), &words),
            (plan(1, 64, 36000, 1), &words[0..1]),
            (plan(64, 1, 1, 36000), &words[0..1]),
            (plan(8, 8, 36000, 36000), &words[0..1]),
            (plan(5, 13, 1, 1), &words[0..2]),
            (plan(64, 64, 1, 1), &words),
        ];
        for (plan, words) in good {
            assert_eq!(rt; yard.set_out(plan, words), Ok(()));
        }
        Ok(())
    }

    #[test]
    fn largest_grids(rt: HostRuntime) -> Result<(), Fail> {
        let mut yard = GridYard::new(rt.alloc())?;
        assert_eq!(rt; yard.set_out(plan(1, 64, 3, 5), &[0]), Ok(()));
        for cell in 0..64 {
            let time = (cell < 63).then_some(3);
            assert_eq!(rt; yard.travel_time(cell, cell + 1), time);
            assert_eq!(rt; yard.travel_time(cell + 1, cell), time);
        }
        assert_eq!(rt; yard.set_out(plan(64, 1, 3, 5), &[0]), Ok(()));
        for cell in 0..64 {
            let time = (cell < 63).then_some(5);
            assert_eq!(rt; yard.travel_time(cell, cell + 1), time);
            assert_eq!(rt; yard.travel_time(cell + 1, cell), time);
        }
        assert_eq!(rt; yard.set_out(plan(64, 64, 3, 5), &[0; 64]), Ok(()));
        for row in 0..64u16 {
            for column in 0..64u16 {
                let cell = row * 64 + column;
                let right = (column < 63).then_some(3);
                let below = (row < 63).then_some(5);
                assert_eq!(rt; yard.travel_time(cell, cell + 1), right);
                assert_eq!(rt; yard.travel_time(cell + 1, cell), right);
                assert_eq!(rt; yard.travel_time(cell, cell + 64), below);
                assert_eq!(rt; yard.travel_time(cell + 64, cell), below);
                assert_eq!(rt; yard.travel_time(cell, cell + 63), None);
                assert_eq!(rt; yard.travel_time(cell, cell + 65), None);
            }
        }
        Ok(())
    }

    // Cells 0, 63, 64 and 4,095 of the largest grid are closed: the ends of the first row, the cell below the first,
    // and the last one.
    #[test]
    fn closed_cells(rt: HostRuntime) -> Result<(), Fail> {
        let mut words = [0; 64];
        words[0] = 0x8000_0000_0000_0001;
        words[1] = 1;
        words[63] = 0x8000_0000_0000_0000;
        let mut yard = GridYard::new(rt.alloc())?;
        assert_eq!(rt; yard.set_out(plan(64, 64, 3, 5), &words), Ok(()));
        const CLOSED: [(u16, u16); 9] = [
            (0, 1),
            (1, 0),
            (0, 64),
            (62, 63),
            (63, 127),
            (64, 65),
            (64, 128),
            (4094, 4095),
            (4031, 4095),
        ];
        for (from, to) in CLOSED {
            assert_eq!(rt; yard.travel_time(from, to), None);
        }
        const ALONG: [(u16, u16); 5] = [(1, 2), (61, 62), (65, 66), (126, 127), (4093, 4094)];
        for (from, to) in ALONG {
            assert_eq!(rt; yard.travel_time(from, to), Some(3));
        }
        const ACROSS: [(u16, u16); 5] = [(1, 65), (62, 126), (127, 191), (128, 192), (4030, 4094)];
        for (from, to) in ACROSS {
            assert_eq!(rt; yard.travel_time(from, to), Some(5));
        }
        Ok(())
    }

    #[test]
    fn rules(rt: HostRuntime) {
        assert_eq!(rt; FullLane.gap(1, 2, 1), 1);
        assert_eq!(rt; FullLane.gap(1, 2, 36000), 36000);
        assert_eq!(rt; FullLane::LARGEST_GAP, 36000);
        assert_eq!(rt; LaneLessOne.gap(1, 2, 1), 0);
        assert_eq!(rt; LaneLessOne.gap(1, 2, 36000), 35999);
        assert_eq!(rt; LaneLessOne::LARGEST_GAP, 35999);
        assert_eq!(rt; FixedGap::LARGEST_GAP, 36000);
        let mut fixed = FixedGap::new();
        assert_eq!(rt; fixed.gap(1, 2, 36000), 0);
        let cases = [
            (36000, Ok(()), 36000),
            (36001, Err(GapRefusal::GapTooLong), 36000),
            (65535, Err(GapRefusal::GapTooLong), 36000),
            (0, Ok(()), 0),
            (7, Ok(()), 7),
        ];
        for (ticks, answer, gap) in cases {
            assert_eq!(rt; fixed.set(ticks), answer);
            assert_eq!(rt; fixed.gap(1, 2, 1), gap);
            assert_eq!(rt; u32::from(fixed.ticks()), gap);
        }
    }

    #[test]
    fn gaps_of_any_rule(rt: HostRuntime) -> Result<(), GapRefusal> {
        let rules = [
            (AnyRule::FullLane, 9),
            (AnyRule::LaneLessOne, 8),
            (
                AnyRule::FixedGap {
                    gap: FixedGap::try_from(36000)?,
                },
                36000,
            ),
        ];
        for (rule, gap) in rules {
            assert_eq!(rt; rule.gap(1, 2, 9), gap);
        }
        let refused = FixedGap::try_from(36001);
        assert_eq!(rt; refused, Err(GapRefusal::GapTooLong));
        assert_eq!(rt; AnyRule::LARGEST_GAP, 36000);
        Ok(())
    }

    // A rule with its gap as a number is one of the rules, or its gap is refused.
    #[test]
    fn rules_within_the_limit(rt: HostRuntime) {
        let taken = [
            (Rule::FullLane, 9),
            (Rule::LaneLessOne, 8),
            (Rule::FixedGap { gap: 0 }, 0),
            (Rule::FixedGap { gap: 36000 }, 36000),
        ];
        for (rule, gap) in taken {
            let any = AnyRule::try_from(rule);
            assert_eq!(rt; any.map(|any| any.gap(1, 2, 9)), Ok(gap));
        }
        for gap in [36001, 65535] {
            let refused = AnyRule::try_from(Rule::FixedGap { gap });
            assert_eq!(rt; refused, Err(GapRefusal::GapTooLong));
        }
    }

    #[test]
    fn refusal_numbers(rt: HostRuntime) {
        let lanes = [
            (LayRefusal::BadLane { index: 8191 }, 18, 8191),
            (LayRefusal::NotRising { index: 1 }, 19, 1),
            (LayRefusal::TooManyLanes, 20, 0),
        ];
        for (refusal, number, told) in lanes {
            assert_eq!(rt; refusal.number(), number);
            assert_eq!(rt; refusal.told(), told);
        }
        for refusal in [
            GridRefusal::BadSize,
            GridRefusal::BadTime,
            GridRefusal::TooFewWords,
        ] {
            assert_eq!(rt; refusal.number(), 21);
        }
        assert_eq!(rt; GapRefusal::GapTooLong.number(), 25);
    }
}
