// Finding the lag between two stops: each function finds such a lag, and none only where there is none.
ghost use Rattle.lane_yard.specs.Meaning.{lanes_of};
ghost use Rattle.explain.specs.Found.{Finds};
ghost use Rattle.explain.specs.Lags.{LagBetween, Travels, Waits};

use crate::keys::StopPair;
use crate::lag::Lag;
use crate::site::Site;
use keyed::find;
use yard::rules::AnyRule;
use yard::{FollowingRule, Yard};

// A sheet in its yard, and the rule that it is judged under. Two stops are `s` and `t` in each method, as in the
// definition `LagBetween` that the clauses name: a type for the two would only be made to be taken apart.
#[derive(Drop)]
pub(crate) struct Judging<'a> {
    pub site: Site<'a>,
    pub rule: AnyRule,
}

impl Judging<'_> {
    // The lag of the step from stop `s` to stop `t`, where the one follows the other on a route.
    fn travel_lag(&self, s: u16, t: u16) -> Option<Lag>
        ensures { Finds (Travels (lanes_of self.now.site.yard.now) self.now.rule self.now.site.records s t) result }
    {
        let stops = self.site.records.stops;
        let from = stops.get(usize::from(s))?;
        let to = stops.get(usize::from(t))?;
        if to.previous? != s {
            return None;
        }
        Some(Lag::Travel {
            carrier: to.carrier,
            from: from.place,
            to: to.place,
            time: self.site.yard.travel_time(from.place, to.place)?,
        })
    }

    // The lag of the precedence whose second carrier has the stop `t`, and whose first carrier has the stop `s` after
    // the one at the same place.
    fn waiting_lag(&self, s: u16, t: u16) -> Option<Lag>
        ensures { Finds (Waits (lanes_of self.now.site.yard.now) self.now.rule self.now.site.records s t) result }
    {
        let records = &self.site.records;
        let next = records.stops.get(usize::from(s))?;
        let first_stop = next.previous?;
        let place = records.stops.get(usize::from(first_stop))?.place;
        let stops = StopPair {
            first_stop,
            second_stop: t,
        };
        let precedence = records.precedences.get(find(records.precedences, &stops)?)?;
        let time = self.site.yard.travel_time(place, next.place)?;
        Some(Lag::Waiting {
            first: precedence.first,
            second: precedence.second,
            place,
            next: next.place,
            gap: self.rule.gap(place, next.place, time),
            time,
        })
    }

    // The lag from stop `s` to stop `t`, where there is one.
    pub(crate) fn lag_between(&self, s: u16, t: u16) -> Option<Lag>
        ensures { Finds (LagBetween (lanes_of self.now.site.yard.now) self.now.rule self.now.site.records s t) result }
    {
        self.travel_lag(s, t).or(self.waiting_lag(s, t))
    }
}
