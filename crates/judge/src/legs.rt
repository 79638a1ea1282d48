// The legs of a sheet: the ways from each stop to the next of its route.
ghost use Rattle.std.specs.Prelude.{◌≡◌, ℕ, ◌<◌, ◌≤◌, length, Some, None, MatchOption, MatchResult, slice_index_or};
ghost use Rattle.judge.specs.Legs.{Legs, LegRefused, ShortOfGoal};
ghost use Rattle.judge.specs.Lowest.{Lowest};
ghost use Rattle.judge.specs.declared.refusal.JudgeRefusal.TheVariants.{NotAtGoal};

use crate::refusal::JudgeRefusal;
use crate::routes::Routes;
use sheet::records::Carrier;
use yard::Yard;

// What comes before and after a stop on its route.
#[derive(Clone, Copy)]
pub(crate) struct Leg {
    // The travel time from the stop before it, and 0 at a route's first stop.
    pub(crate) time: u16,
    // The stop after it; a route's last stop has none.
    pub(crate) next: Option<u16>,
}

// What is known of a stop before its leg is found.
pub(crate) const NO_LEG: Leg = Leg {
    time: 0,
    next: None,
};

// Refuses the lowest carrier whose route has not reached its goal. Here and below, `as` stands where no `From` leads: a
// number of a carrier or a stop is small, and the check proves that nothing is lost.
pub(crate) fn check_goals(carriers: &[Carrier]) -> Result<(), JudgeRefusal>
    requires { length carriers.now ≤ 64 }
    ensures { MatchResult result (λ _. (c : ℕ) → ¬ ShortOfGoal carriers.now c) (λ e. (c : ℕ) × (e ≡ NotAtGoal c) × Lowest (ShortOfGoal carriers.now) c) }
{
    match carriers.iter().position(|carrier| !carrier.is_at_goal()) {
        Some(c) => Err(JudgeRefusal::NotAtGoal { carrier: c as u16 }),
        None => Ok(()),
    }
}

// Finds the leg of each stop, of which there are as many as `legs` has room for; refuses the lowest stop that no lane
// leads to from the one before it.
// By `enumerate`: a stop's number is an index here too, so that counting by `(0u16..)` would only have it converted
// there.
pub(crate) fn find_legs<Y: Yard>(
    yard: &Y,
    routes: Routes,
    legs: &mut [Leg],
) -> Result<(), JudgeRefusal>
    requires { length legs.old ≡ length routes.stops.now }
    ensures { MatchResult result (λ _. Legs (Y.Yard.lanes yard.now) routes.entry.stops.now (length routes.entry.stops.now) legs.new) (λ e. LegRefused (Y.Yard.lanes yard.now) routes.entry.stops.now e) }
{
    let stops = routes.stops;
    legs.fill(NO_LEG);
    for (i, stop) in stops.iter().enumerate() {
        if let Some(previous) = stop.previous {
            let previous = usize::from(previous);
            let Some(time) = yard.travel_time(stops[previous].place, stop.place) else {
                return Err(JudgeRefusal::NoLane { stop: i as u16 });
            };
            legs[i].time = time;
            legs[previous].next = Some(i as u16);
        }
    }
    Ok(())
}
