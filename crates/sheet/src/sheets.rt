// The sheet and its calls.
ghost use Rattle.std.specs.Prelude.{◌≡◌, ◌<◌, ◌↔◌, length, Any, IsTrue, IfOk, IfErr, OnErr, OnOk};
ghost use Rattle.std.specs.List.{slice_get};
ghost use Rattle.sheet.specs.Book.{Visits, Stands, StartOf, GoalOf, OnRoute, Decided, opened};
ghost use Rattle.sheet.specs.Calls.{Unknown, CheckedBy, Checked, Answers, Leaves, pair_checks};
ghost use Rattle.sheet.specs.Calls.Checks.{no_more};
ghost use Rattle.sheet.specs.Calls.Call.{enter_carrier, enter_stop, enter_precedence, strike_precedence};
ghost use Rattle.sheet.specs.Histories.{Lawful, Continues, AlwaysSound, CallsDecide};
ghost use Rattle.sheet.specs.Histories.History.{opening};
ghost use Rattle.sheet.specs.Sound.{Sound, Holds};
ghost use Rattle.sheet.specs.Tables.{book_of, OnlyGoesOn, NumberedTables, CarriersInside, StopsInside, Linked, PrecedencesInside};

use crate::limits::{MOST_CARRIERS, MOST_PRECEDENCES, MOST_STOPS};
use crate::records::{Carrier, Goal, Order, Precedence, Start, Stop, Visit};
use crate::refusal::EntryRefusal;
use bounded::BoundedVec;
use keyed::{Keyed, find};
use std::alloc::{AllocError, Global};
use yard::limits::HIGHEST_PLACE;

// The three lists of a sheet, each in order of entry.
#[derive(Drop)]
pub struct Tables {
    carriers: BoundedVec<Carrier, MOST_CARRIERS>,
    stops: BoundedVec<Stop, MOST_STOPS>,
    precedences: BoundedVec<Precedence, MOST_PRECEDENCES>,
}

// Whether a record has the wanted key.
#[tactic(auto, using(crate::proofs::Found::has_told))]
fn has<K, R: Keyed<K>>(records: &[R], wanted: &K) -> bool
    ensures { IsTrue result ↔ Any (λ x. R.Keyed.key x ≡ wanted.now) records.now }
{
    find(records, wanted).is_some()
}

impl Tables {
    // The carrier with this number.
    fn carrier(&self, number: u8) -> Result<&Carrier, EntryRefusal>
        ensures known { IfOk result (λ x. slice_get self.now.carriers number ≡ Some x.now) }
        ensures unknown { IfErr result (λ e. Unknown (book_of self.now) number × (e ≡ EntryRefusal.NoCarrier)) }
    {
        self.carriers
            .as_slice()
            .get(usize::from(number))
            .ok_or(EntryRefusal::NoCarrier)
    }

    // The two carriers of a precedence, which are two and not one.
    fn pair(&self, order: Order) -> Result<(&Carrier, &Carrier), EntryRefusal>
        ensures first { IfOk result (λ p. slice_get self.now.carriers order.first ≡ Some p.0.now) }
        ensures second { IfOk result (λ p. slice_get self.now.carriers order.second ≡ Some p.1.now) }
        ensures goal { IfOk result (λ p. (p.0.now.goal ≡ order.place) ↔ GoalOf (book_of self.now) order.first order.place) }
        ensures start { IfOk result (λ p. (p.1.now.start ≡ order.place) ↔ StartOf (book_of self.now) order.second order.place) }
        ensures checked { CheckedBy (pair_checks (book_of self.now) order.first order.second no_more) result }
    {
        let first = self.carrier(order.first)?;
        let second = self.carrier(order.second)?;
        if order.first == order.second {
            return Err(EntryRefusal::SameCarrier);
        }
        Ok((first, second))
    }

    // Whether the place is on the route of the carrier.
    fn is_on_route(&self, visit: Visit) -> bool
        ensures { IsTrue result ↔ OnRoute (book_of self.now) visit.carrier visit.place }
    {
        has(self.stops.as_slice(), &visit)
    }

    // The number of the carrier's stop at the place.
    fn stop_at(&self, visit: Visit) -> Result<u16, EntryRefusal>
        ensures finds { IfOk result (λ s. Visits (book_of self.now) s visit.carrier visit.place) }
        ensures refuses { IfErr result (λ e. (¬ OnRoute (book_of self.now) visit.carrier visit.place) × (e ≡ EntryRefusal.NotOnBothRoutes)) }
    {
        let number = find(self.stops.as_slice(), &visit).ok_or(EntryRefusal::NotOnBothRoutes)?;
        // `as` loses nothing, here and below: the limits are small. `try_from` would add a refusal that cannot come.
        Ok(number as u16)
    }

    // Whether the two carriers have a precedence at the place, either way round.
    fn is_decided(&self, order: Order) -> bool
        ensures { IsTrue result ↔ Decided (book_of self.now) order.first order.second order.place }
    {
        let precedences = self.precedences.as_slice();
        has(precedences, &order) || has(precedences, &order.reversed())
    }
}

// A sheet. It has room for all that it may ever hold, so that no call after the opening needs memory.
#[derive(Drop)]
pub struct Sheet {
    tables: Tables,
    // What always holds of its book.
    ghost sound: { Holds (Sound (book_of tables)) },
    // The numbers of stops that the records keep are right.
    ghost numbered: { Holds (NumberedTables tables) },
    // So each number in a record is one of a record that stands.
    ghost latest: { CarriersInside (length tables.stops) tables.carriers },
    ghost carried: { StopsInside (length tables.carriers) tables.stops },
    ghost linked: { Linked tables.stops },
    ghost lawful: { PrecedencesInside (length tables.carriers) (length tables.stops) tables.precedences },
}

impl Sheet {
    ghost use Rattle.sheet.specs.Sheets.{carriers_of, stops_of, precedences_of, sheet_book};

    // Opens an empty sheet. Whatever calls then follow, they alone decide the answers and the book, and the book is
    // sound.
    #[tactic(auto, using(crate::proofs::Soundness::ever_sound, crate::proofs::Determined::calls_decide))]
    pub fn open(heap: Global) -> Result<Sheet, AllocError>
        ensures opens { IfOk result (λ s. sheet_book s ≡ opened) }
        ensures begins { IfOk result (λ s. Lawful opening (sheet_book s)) }
        ensures always { AlwaysSound }
        ensures decided { CallsDecide }
    {
        let carriers = BoundedVec::new(heap)?;
        let stops = BoundedVec::new(heap)?;
        let precedences = BoundedVec::new(heap)?;
        Ok(Sheet {
            tables: Tables {
                carriers,
                stops,
                precedences,
            },
        })
    }

    // The carriers, by number.
    pub fn carriers(&self) -> &[Carrier]
        ensures { result.now ≡ carriers_of self.now }
    {
        self.tables.carriers.as_slice()
    }

    // The stops, by number.
    pub fn stops(&self) -> &[Stop]
        ensures { result.now ≡ stops_of self.now }
    {
        self.tables.stops.as_slice()
    }

    // The standing precedences, in order of entry.
    pub fn precedences(&self) -> &[Precedence]
        ensures { result.now ≡ precedences_of self.now }
    {
        self.tables.precedences.as_slice()
    }

    // Checks whether a carrier may be entered.
    fn check_carrier(&self, start: u16, goal: u16) -> Result<(), EntryRefusal>
        ensures checked { Checked (sheet_book self.now) (enter_carrier start goal) result }
        ensures room { OnOk result ((length (carriers_of self.now) < 64) × (length (stops_of self.now) < 1024)) }
    {
        if start > HIGHEST_PLACE || goal > HIGHEST_PLACE {
            return Err(EntryRefusal::PlaceTooHigh);
        }
        if self.tables.carriers.is_full() || self.tables.stops.is_full() {
            return Err(EntryRefusal::LimitReached);
        }
        let carriers = self.carriers();
        if has(carriers, &Start(start)) || has(carriers, &Goal(goal)) {
            return Err(EntryRefusal::EndTaken);
        }
        Ok(())
    }

    // Checks whether a stop may be entered.
    #[tactic(auto, using(crate::proofs::Told::told))]
    fn check_stop(&self, visit: Visit) -> Result<(), EntryRefusal>
        ensures checked { Checked (sheet_book self.now) (enter_stop visit.carrier visit.place) result }
        ensures room { OnOk result ((visit.carrier < length (carriers_of self.now)) × (length (stops_of self.now) < 1024)) }
    {
        let carrier = self.tables.carrier(visit.carrier)?;
        if visit.place > HIGHEST_PLACE {
            return Err(EntryRefusal::PlaceTooHigh);
        }
        if carrier.is_at_goal() {
            return Err(EntryRefusal::RouteAtGoal);
        }
        if self.tables.is_on_route(visit) {
            return Err(EntryRefusal::PlaceOnRoute);
        }
        if self.tables.stops.is_full() {
            return Err(EntryRefusal::LimitReached);
        }
        Ok(())
    }

    // Checks whether a precedence may be entered, and answers the stops of first and second at the place.
    #[tactic(auto, using(crate::proofs::Told::told))]
    fn check_precedence(&self, order: Order) -> Result<(u16, u16), EntryRefusal>
        ensures checked { Checked (sheet_book self.now) (enter_precedence order.first order.second order.place) result }
        ensures stops { IfOk result (λ s. Visits (sheet_book self.now) s.0 order.first order.place × Visits (sheet_book self.now) s.1 order.second order.place) }
        ensures room { OnOk result (length (precedences_of self.now) < 2048) }
    {
        let (first, second) = self.tables.pair(order)?;
        let first_stop = self.tables.stop_at(order.visit_of(order.first))?;
        let second_stop = self.tables.stop_at(order.visit_of(order.second))?;
        if first.goal == order.place || second.start == order.place {
            return Err(EntryRefusal::FirstsGoalOrSecondsStart);
        }
        if self.tables.is_decided(order) {
            return Err(EntryRefusal::AlreadyDecided);
        }
        if self.tables.precedences.is_full() {
            return Err(EntryRefusal::LimitReached);
        }
        Ok((first_stop, second_stop))
    }

    // Checks whether a precedence may be struck, and answers its index.
    #[tactic(auto, using(crate::proofs::Found::precedence_found))]
    fn check_strike(&self, order: Order) -> Result<usize, EntryRefusal>
        ensures checked { Checked (sheet_book self.now) (strike_precedence order.first order.second order.place) result }
        ensures stands { IfOk result (λ k. Stands (sheet_book self.now) k order.first order.second order.place) }
        ensures within { IfOk result (λ k. k < length (precedences_of self.now)) }
    {
        self.tables.pair(order)?;
        find(self.precedences(), &order).ok_or(EntryRefusal::NothingToStrike)
    }

    // Enters a carrier, with its first stop at its start, and answers its number. Here and below the four clauses stand
    // apart: each is a promise that a caller asks for alone.
    pub fn enter_carrier(&mut self, start: u16, goal: u16) -> Result<u16, EntryRefusal>
        ensures answers { Answers (sheet_book self.old) (enter_carrier start goal) result }
        ensures leaves { Leaves (sheet_book self.old) (enter_carrier start goal) result (sheet_book self.new) }
        ensures unchanged { OnErr result (self.new ≡ self.old) }
        ensures goes_on { Continues (sheet_book self.old) (enter_carrier start goal) result (sheet_book self.new) }
    {
        self.check_carrier(start, goal)?;
        let number = self.tables.carriers.len() as u8;
        let stop = self.tables.stops.len() as u16;
        self.tables
            .carriers
            .push(Carrier {
                start,
                goal,
                last_stop: stop,
                last_place: start,
            })
            .unwrap();
        self.tables
            .stops
            .push(Stop {
                carrier: number,
                place: start,
                previous: None,
            })
            .unwrap();
        Ok(u16::from(number))
    }

    // Enters a carrier's next stop, and answers the stop's number.
    #[tactic(auto, using(crate::proofs::Entered::left))]
    pub fn enter_stop(&mut self, carrier: u8, place: u16) -> Result<u16, EntryRefusal>
        ensures answers { Answers (sheet_book self.old) (enter_stop carrier place) result }
        ensures leaves { Leaves (sheet_book self.old) (enter_stop carrier place) result (sheet_book self.new) }
        ensures unchanged { OnErr result (self.new ≡ self.old) }
        ensures goes_on { Continues (sheet_book self.old) (enter_stop carrier place) result (sheet_book self.new) }
        ensures records { IfOk result (λ stop. OnlyGoesOn self.old.tables carrier stop place self.new.tables) }
    {
        self.check_stop(Visit { carrier, place })?;
        let number = self.tables.stops.len() as u16;
        let carrier_record = &mut self.tables.carriers[usize::from(carrier)];
        let previous = Some(carrier_record.last_stop);
        carrier_record.go_on(number, place);
        self.tables
            .stops
            .push(Stop {
                carrier,
                place,
                previous,
            })
            .unwrap();
        Ok(number)
    }

    // Enters a precedence, and answers how many then stand.
    pub fn enter_precedence(
        &mut self,
        first: u8,
        second: u8,
        place: u16,
    ) -> Result<u16, EntryRefusal>
        ensures answers { Answers (sheet_book self.old) (enter_precedence first second place) result }
        ensures leaves { Leaves (sheet_book self.old) (enter_precedence first second place) result (sheet_book self.new) }
        ensures unchanged { OnErr result (self.new ≡ self.old) }
        ensures goes_on { Continues (sheet_book self.old) (enter_precedence first second place) result (sheet_book self.new) }
    {
        let order = Order {
            first,
            second,
            place,
        };
        let (first_stop, second_stop) = self.check_precedence(order)?;
        self.tables
            .precedences
            .push(Precedence {
                first,
                second,
                place,
                first_stop,
                second_stop,
            })
            .unwrap();
        Ok(self.tables.precedences.len() as u16)
    }

    // Strikes the precedence out, and answers how many then stand.
    #[tactic(auto, using(crate::proofs::Entered::left))]
    pub fn strike_precedence(
        &mut self,
        first: u8,
        second: u8,
        place: u16,
    ) -> Result<u16, EntryRefusal>
        ensures answers { Answers (sheet_book self.old) (strike_precedence first second place) result }
        ensures leaves { Leaves (sheet_book self.old) (strike_precedence first second place) result (sheet_book self.new) }
        ensures unchanged { OnErr result (self.new ≡ self.old) }
        ensures goes_on { Continues (sheet_book self.old) (strike_precedence first second place) result (sheet_book self.new) }
    {
        let order = Order {
            first,
            second,
            place,
        };
        let index = self.check_strike(order)?;
        self.tables.precedences.remove(index).unwrap();
        Ok(self.tables.precedences.len() as u16)
    }
}
