// What a lane yard can be asked.
ghost use Rattle.std.specs.Prelude.{◌≡◌, ℕ, [], IfOk, None, Err, MatchResult};
ghost use Rattle.lane_yard.specs.Faults.{Fault, Lawful};
ghost use Rattle.lane_yard.specs.Meaning.{lanes_of, records_of};
ghost use Rattle.lane_yard.specs.Records.{LanesOf, Tells};
ghost use Rattle.lane_yard.specs.Times.{time_within};

use crate::checks::check_lanes;
use crate::lane::Lane;
use crate::refusal::LayRefusal;
use crate::search::narrow;
use crate::yards::LaneYard;
use bounded::BoundedVec;
use keyed::find;
use std::alloc::{AllocError, Global};
use yard::Yard;

impl LaneYard {
    // A yard with no lanes.
    pub fn new(heap: Global) -> Result<LaneYard, AllocError>
        ensures no_records { IfOk result (λ s. records_of s ≡ []) }
        ensures no_lanes { IfOk result (λ s. (a b : ℕ) → lanes_of s a b ≡ None) }
    {
        let records = BoundedVec::new(heap)?;
        Ok(LaneYard { records })
    }

    // The lanes, in their order.
    pub fn lanes(&self) -> &[Lane]
        ensures value { result.now ≡ records_of self.now }
        ensures lawful { Lawful result.now }
    {
        self.records.as_slice()
    }

    // Lays these lanes in place of the old ones, or refuses them and keeps the old ones.
    pub fn lay(&mut self, lanes: &[Lane]) -> Result<(), LayRefusal>
        ensures outcome { MatchResult result (λ _. Lawful lanes.now × (records_of self.new ≡ lanes.now) × LanesOf lanes.now (lanes_of self.new)) (λ e. Fault lanes.now e × (self.new ≡ self.old)) }
        ensures exact { (e : LayRefusal) → Fault lanes.now e → result ≡ Err e }
    {
        check_lanes(lanes)?;
        self.records.replace(lanes).unwrap();
        Ok(())
    }
}

impl Yard for LaneYard {
    ghost lanes = { lanes_of };

    ghost limited = { λ s from to. time_within _ from to s.lawful.1.0 };

    fn travel_time(&self, from: u16, to: u16) -> Option<u16>
        ensures value { result ≡ lanes_of self.now from to }
        ensures tells { Tells (records_of self.now) from to result }
    {
        let part = narrow(self.lanes(), (from, to));
        find(part, &(from, to)).map(|index| part[index].time)
    }
}
