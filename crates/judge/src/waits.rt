// The lags of a sheet: how long each step takes, and how long who goes second waits.
ghost use Rattle.std.specs.Prelude.{◌≡◌, [], ◌+◌, ◌<◌, ◌≤◌, length, pos, ◌-ℤ◌, None, MatchOption};
ghost use Rattle.arrayvec.specs.ArrayVec.{array_vec_len};
ghost use Rattle.judge.specs.Legs.{next_after};
ghost use Rattle.judge.specs.Waits.{LagOf, Lists, Travel, Waiting};

use crate::tables::Tables;
use arrayvec::ArrayVec;
use lags::{Lag, MOST_LAGS};
use sheet::records::Precedence;
use yard::FollowingRule;

// The lags of a sheet.
pub(crate) type Lags = ArrayVec<Lag, MOST_LAGS>;

// The gap less the travel time, plus the tick after.
fn waiting_time(gap: u32, time: u16) -> i32
    requires { gap ≤ 100000 }
    ensures { result ≡ (pos (gap + 1) -ℤ pos time) }
{
    gap as i32 + 1 - i32::from(time)
}

impl Tables<'_> {
    // Adds the lag of the step to each stop that has one before it to an empty list. By `enumerate`, as the legs are
    // found.
    fn gather_steps(self, lags: &mut Lags)
        requires empty { lags.old.items ≡ [] }
        ensures few { array_vec_len lags.new ≤ length self.entry.routes.stops.now }
        ensures gathered { Lists (Travel self.entry.routes.stops.now self.entry.legs.now (length self.entry.routes.stops.now)) lags.new.items }
    {
        let stops = self.routes.stops;
        let legs = self.legs;
        for (t, stop) in stops.iter().enumerate() {
            if let Some(previous) = stop.previous {
                lags.push(Lag {
                    from: previous,
                    to: t as u16,
                    weight: i32::from(legs[t].time),
                });
            }
        }
    }

    // The lag of a precedence: the second carrier reaches the place later than the gap after the first one's
    // departure, which is its arrival at its next stop less the travel time to there.
    fn waiting_lag<R: FollowingRule>(self, rule: &R, precedence: &Precedence) -> Option<Lag>
        requires { precedence.now.first_stop < length self.legs.now }
        ensures { MatchOption result (next_after self.entry.legs.now precedence.now.first_stop ≡ None) (λ g. Waiting (R.FollowingRule.gaps rule.now) self.entry.routes.stops.now self.entry.legs.now precedence.now g) }
    {
        let stops = self.routes.stops;
        let legs = self.legs;
        let next = legs[usize::from(precedence.first_stop)].next?;
        let time = legs[usize::from(next)].time;
        let gap = rule.gap(precedence.place, stops[usize::from(next)].place, time);
        Some(Lag {
            from: next,
            to: precedence.second_stop,
            weight: waiting_time(gap, time),
        })
    }

    // Adds the lag of each precedence to those of the steps.
    fn gather_waits<R: FollowingRule>(self, rule: &R, lags: &mut Lags)
        requires few { array_vec_len lags.old ≤ length self.routes.stops.now }
        requires travels { Lists (Travel self.routes.stops.now self.legs.now (length self.routes.stops.now)) lags.old.items }
        ensures { Lists (LagOf (R.FollowingRule.gaps rule.now) self.entry.routes.stops.now self.entry.legs.now self.entry.routes.precedences.now (length self.entry.routes.stops.now) (length self.entry.routes.precedences.now)) lags.new.items }
    {
        for precedence in self.routes.precedences {
            if let Some(lag) = self.waiting_lag(rule, precedence) {
                lags.push(lag);
            }
        }
    }

    // Adds the lags of the steps and of the precedences to an empty list. The list is lent: as a result it was copied
    // twice in each judging.
    pub(crate) fn gather_lags<R: FollowingRule>(self, rule: &R, lags: &mut Lags)
        requires empty { lags.old.items ≡ [] }
        ensures { Lists (LagOf (R.FollowingRule.gaps rule.now) self.entry.routes.stops.now self.entry.legs.now self.entry.routes.precedences.now (length self.entry.routes.stops.now) (length self.entry.routes.precedences.now)) lags.new.items }
    {
        self.gather_steps(lags);
        self.gather_waits(rule, lags);
    }
}
