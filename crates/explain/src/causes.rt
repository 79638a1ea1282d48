// Finding why the sheet refuses an entry: each function finds a cause of the refusal, and none only where there is none.
ghost use Rattle.std.specs.Prelude.{ℕ, ◌<◌, ◌≤◌, length, IsSome};
ghost use Rattle.std.specs.Option.{SomeIff};
ghost use Rattle.sheet.specs.declared.refusal.EntryRefusal.TheVariants.{EndTaken, FirstsGoalOrSecondsStart, NothingToStrike};
ghost use Rattle.explain.specs.Causes.{CarrierCause, CauseOf, OrderCause, StopCause};
ghost use Rattle.explain.specs.Facts.{AtGoal, Stands, Visits};
ghost use Rattle.explain.specs.Found.{Finds};
ghost use Rattle.explain.specs.Refused.{RefusedAs};
ghost use Rattle.explain.specs.declared.cause.Cause.TheVariants.{Decided, NoCarrier, NotOnRoute, PlaceTooHigh};

use crate::cause::Cause;
use crate::records::Records;
use keyed::find;
use lines::entry::Entry;
use sheet::limits::{MOST_CARRIERS, MOST_PRECEDENCES, MOST_STOPS};
use sheet::records::{Goal, Order, Start};
use sheet::refusal::EntryRefusal;
use yard::limits::HIGHEST_PLACE;

// The cause that the place is too high, where it is.
fn too_high(place: u16) -> Option<Cause>
    ensures { SomeIff result (4095 < place) (PlaceTooHigh place) }
{
    (place > HIGHEST_PLACE).then_some(Cause::PlaceTooHigh { place })
}

impl Records<'_> {
    // Which end of a new carrier is taken, and by whom. By `map` and `or`, the proof of what it returns stays open.
    fn end_taken(&self, start: u16, goal: u16) -> Option<Cause>
        ensures { Finds (CarrierCause self.now start goal EndTaken) result }
    {
        if let Some(carrier) = find(self.carriers, &Start(start)) {
            return Some(Cause::StartTaken {
                place: start,
                carrier,
            });
        }
        let carrier = find(self.carriers, &Goal(goal))?;
        Some(Cause::GoalTaken {
            place: goal,
            carrier,
        })
    }

    // Why a carrier is refused.
    fn carrier_cause(&self, start: u16, goal: u16, why: EntryRefusal) -> Option<Cause>
        ensures { Finds (CarrierCause self.now start goal why) result }
    {
        match why {
            EntryRefusal::PlaceTooHigh => too_high(start).or(too_high(goal)),
            EntryRefusal::LimitReached if self.carriers.len() >= MOST_CARRIERS => {
                Some(Cause::TooManyCarriers)
            }
            EntryRefusal::LimitReached if self.stops.len() >= MOST_STOPS => {
                Some(Cause::TooManyStops)
            }
            EntryRefusal::EndTaken => self.end_taken(start, goal),
            _ => None,
        }
    }

    // The goal of a carrier whose route has reached it.
    #[tactic(auto, using(crate::proofs::Told::goal_told))]
    fn goal_reached(&self, carrier: u8) -> Option<u16>
        ensures { Finds (AtGoal self.now.carriers self.now.stops carrier) result }
    {
        let record = self.carriers.get(usize::from(carrier))?;
        record.is_at_goal().then_some(record.goal)
    }

    // Why a stop is refused.
    fn stop_cause(&self, carrier: u8, place: u16, why: EntryRefusal) -> Option<Cause>
        ensures { Finds (StopCause self.now carrier place why) result }
    {
        match why {
            EntryRefusal::NoCarrier => self.absent(carrier),
            EntryRefusal::PlaceTooHigh => too_high(place),
            EntryRefusal::RouteAtGoal => {
                let goal = self.goal_reached(carrier)?;
                Some(Cause::AtGoal { carrier, goal })
            }
            EntryRefusal::PlaceOnRoute => {
                let stop = self.stop_at(carrier, place)?;
                Some(Cause::OnRoute {
                    carrier,
                    place,
                    stop,
                })
            }
            EntryRefusal::LimitReached if self.stops.len() >= MOST_STOPS => {
                Some(Cause::TooManyStops)
            }
            _ => None,
        }
    }

    // The cause that the sheet has no such carrier, where it has none.
    fn absent(&self, carrier: u8) -> Option<Cause>
        ensures { SomeIff result (length self.now.carriers ≤ carrier) (NoCarrier carrier (length self.now.carriers)) }
    {
        let carriers = self.carriers.len();
        (usize::from(carrier) >= carriers).then_some(Cause::NoCarrier { carrier, carriers })
    }

    // The cause that the place is not on the carrier's route, where it is not.
    fn off_route(&self, carrier: u8, place: u16) -> Option<Cause>
        ensures { SomeIff result ((k : ℕ) → ¬ Visits self.now.stops carrier place k) (NotOnRoute carrier place) }
    {
        let stop = self.stop_at(carrier, place);
        stop.is_none()
            .then_some(Cause::NotOnRoute { carrier, place })
    }

    // The cause that the precedence stands, where it does.
    fn decided(&self, order: Order) -> Option<Cause>
        ensures { SomeIff result (Stands self.now.precedences order) (Decided order) }
    {
        self.standing(order)?;
        Some(Cause::Decided { order })
    }

    // That the precedence does not stand, or only the other way round.
    fn not_standing(&self, order: Order) -> Option<Cause>
        ensures { Finds (OrderCause self.now order NothingToStrike) result }
    {
        if self.standing(order).is_some() {
            return None;
        }
        let reversed = order.reversed();
        if self.standing(reversed).is_some() {
            return Some(Cause::OtherWayRound { order: reversed });
        }
        Some(Cause::NoPrecedence { order })
    }

    // The cause that the place is the goal of the first carrier or the start of the second, where it is.
    fn end_of_route(&self, order: Order) -> Option<Cause>
        ensures { Finds (OrderCause self.now order FirstsGoalOrSecondsStart) result }
    {
        let Order {
            first,
            second,
            place,
        } = order;
        let carrier = self.carriers.get(usize::from(first));
        if carrier.is_some_and(|record| record.goal == place) {
            return Some(Cause::FirstsGoal {
                carrier: first,
                place,
            });
        }
        let carrier = self.carriers.get(usize::from(second));
        if carrier.is_some_and(|record| record.start == place) {
            return Some(Cause::SecondsStart {
                carrier: second,
                place,
            });
        }
        None
    }

    // Why a precedence, or the striking of one, is refused.
    fn order_cause(&self, order: Order, why: EntryRefusal) -> Option<Cause>
        ensures { Finds (OrderCause self.now order why) result }
    {
        let Order {
            first,
            second,
            place,
        } = order;
        match why {
            EntryRefusal::NoCarrier => self.absent(first).or(self.absent(second)),
            EntryRefusal::SameCarrier if first == second => {
                Some(Cause::SameCarrier { carrier: first })
            }
            EntryRefusal::NotOnBothRoutes => {
                self.off_route(first, place)
                    .or(self.off_route(second, place))
            }
            EntryRefusal::FirstsGoalOrSecondsStart => self.end_of_route(order),
            // The other way round is searched for only where this way does not stand.
            EntryRefusal::AlreadyDecided if self.standing(order).is_some() => {
                Some(Cause::Decided { order })
            }
            EntryRefusal::AlreadyDecided => self.decided(order.reversed()),
            EntryRefusal::LimitReached if self.precedences.len() >= MOST_PRECEDENCES => {
                Some(Cause::TooManyPrecedences)
            }
            EntryRefusal::NothingToStrike => self.not_standing(order),
            _ => None,
        }
    }

    // Why an entry is refused: there is a cause for each refusal of the sheet. The kinds carry different data, so each arm
    // asks for itself.
    pub(crate) fn cause_of(&self, entry: Entry, why: EntryRefusal) -> Option<Cause>
        ensures finds { Finds (CauseOf self.now entry why) result }
        ensures named { RefusedAs self.now entry why → IsSome result }
    {
        match entry {
            Entry::Carrier { start, goal } => self.carrier_cause(start, goal, why),
            Entry::Stop { carrier, place } => self.stop_cause(carrier, place, why),
            Entry::Precedence {
                first,
                second,
                place,
            }
            | Entry::Strike {
                first,
                second,
                place,
            } => {
                let order = Order {
                    first,
                    second,
                    place,
                };
                self.order_cause(order, why)
            }
            Entry::Judge { .. } | Entry::Lane { .. } => None,
        }
    }
}
