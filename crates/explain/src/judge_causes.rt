// Finding why a sheet does not pass.
ghost use Rattle.std.specs.Prelude.{◌≡◌, ◌≢◌, ◌↔◌, IsSome, IsTrue};
ghost use Rattle.lane_yard.specs.Meaning.{lanes_of};
ghost use Rattle.explain.specs.Facts.{GoesTo, Stands};
ghost use Rattle.explain.specs.Found.{Finds};
ghost use Rattle.explain.specs.Judged.{JudgeCauseOf};
ghost use Rattle.explain.specs.Lists.{lists_of};
ghost use Rattle.explain.specs.Refused.{RefusedJudging};
ghost use Rattle.sheet.specs.Sheets.{sheet_book};
ghost use Rattle.sheet.specs.declared.sheets.Sheet.{Sheet};
ghost use Rattle.judge.specs.declared.refusal.JudgeRefusal.TheVariants.{HeadOn, NoLane, NotAtGoal, PageTooShort, Undecided};

use crate::judge_cause::JudgeCause;
use crate::records::Records;
use crate::site::Site;
use judge::refusal::JudgeRefusal;
use sheet::records::{Order, Stop};
use yard::Yard;

impl Records<'_> {
    // Whether the carrier of stop `s`, which has this number, goes on to the place of stop `t`, and goes first at its
    // own place.
    fn opposes(&self, stop: u16, s: &Stop, t: &Stop) -> bool
        ensures { IsTrue result ↔ GoesTo self.now.stops stop t.now.place × Stands self.now.precedences (record { first = s.now.carrier; second = t.now.carrier; place = s.now.place }) }
    {
        let order = Order {
            first: s.carrier,
            second: t.carrier,
            place: s.place,
        };
        self.step_to(stop, t.place).is_some() && self.standing(order).is_some()
    }
}

impl Site<'_> {
    // That the carrier's route ends short of its goal.
    fn not_at_goal(&self, carrier: u16) -> Option<JudgeCause>
        ensures { Finds (JudgeCauseOf (lanes_of self.now.yard.now) self.now.records (NotAtGoal carrier)) result }
    {
        let record = self.records.carriers.get(usize::from(carrier))?;
        if record.is_at_goal() {
            return None;
        }
        Some(JudgeCause::NotAtGoal {
            carrier,
            stop: record.last_stop,
            place: record.last_place,
            goal: record.goal,
        })
    }

    // That no lane leads to the stop from the one before it.
    fn no_lane(&self, stop: u16) -> Option<JudgeCause>
        ensures { Finds (JudgeCauseOf (lanes_of self.now.yard.now) self.now.records (NoLane stop)) result }
    {
        let to = self.records.stops.get(usize::from(stop))?;
        let from = self.records.stops.get(usize::from(to.previous?))?;
        if self.yard.travel_time(from.place, to.place).is_some() {
            return None;
        }
        Some(JudgeCause::NoLane {
            carrier: to.carrier,
            stop,
            from: from.place,
            to: to.place,
        })
    }

    // That two carriers meet at the place of their stops, and have no precedence there.
    fn undecided(&self, stop: u16, later: u16) -> Option<JudgeCause>
        ensures { Finds (JudgeCauseOf (lanes_of self.now.yard.now) self.now.records (Undecided stop later)) result }
    {
        let records = &self.records;
        let s = records.stops.get(usize::from(stop))?;
        let t = records.stops.get(usize::from(later))?;
        let order = Order {
            first: s.carrier,
            second: t.carrier,
            place: s.place,
        };
        if s.carrier == t.carrier
            || s.place != t.place
            || records.standing(order).is_some()
            || records.standing(order.reversed()).is_some()
        {
            return None;
        }
        Some(JudgeCause::Undecided {
            carrier: s.carrier,
            stop,
            other: t.carrier,
            later,
            place: s.place,
        })
    }

    // That the carriers of the two stops are set head on.
    fn head_on(&self, stop: u16, other: u16) -> Option<JudgeCause>
        ensures { Finds (JudgeCauseOf (lanes_of self.now.yard.now) self.now.records (HeadOn stop other)) result }
    {
        let records = &self.records;
        let s = records.stops.get(usize::from(stop))?;
        let t = records.stops.get(usize::from(other))?;
        if !records.opposes(stop, s, t) || !records.opposes(other, t, s) {
            return None;
        }
        Some(JudgeCause::HeadOn {
            carrier: s.carrier,
            stop,
            place: s.place,
            other: t.carrier,
            other_stop: other,
            other_place: t.place,
        })
    }

    // Why a sheet does not pass: there is a cause for each refusal of a judging with pages that are long enough.
    pub(crate) fn judge_cause_of(&self, why: JudgeRefusal) -> Option<JudgeCause>
        ensures finds { Finds (JudgeCauseOf (lanes_of self.now.yard.now) self.now.records why) result }
        ensures named { (s : Sheet) → self.now.records ≡ lists_of s → RefusedJudging (lanes_of self.now.yard.now) (sheet_book s) why → why ≢ PageTooShort → IsSome result }
    {
        match why {
            JudgeRefusal::NotAtGoal { carrier } => self.not_at_goal(carrier),
            JudgeRefusal::NoLane { stop } => self.no_lane(stop),
            JudgeRefusal::Undecided { stop, later } => self.undecided(stop, later),
            JudgeRefusal::HeadOn { stop, other } => self.head_on(stop, other),
            JudgeRefusal::Ring { length } => Some(JudgeCause::Ring { length }),
            JudgeRefusal::PageTooShort => None,
        }
    }
}
