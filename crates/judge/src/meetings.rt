// Who goes first where two routes meet. The links are in arrays, since judging takes no memory (a rule of the project).
ghost use Rattle.std.specs.Prelude.{◌≡◌, ℕ, ◌<◌, ◌≤◌, ◌↔◌, IsTrue, length, Some, None, MatchOption, MatchResult, slice_index_or};
ghost use Rattle.sheet.specs.Records.{no_stop};
ghost use Rattle.judge.specs.Chains.{Chained};
ghost use Rattle.judge.specs.Lowest.{Lowest, LowestPair};
ghost use Rattle.judge.specs.Meetings.{LowestOpposed, OpenMeeting, OpposedBy};
ghost use Rattle.judge.specs.declared.refusal.JudgeRefusal.TheVariants.{HeadOn, Undecided};

use crate::marks::Marks;
use crate::refusal::JudgeRefusal;
use crate::routes::Routes;
use crate::tables::Tables;
use sheet::limits::MOST_STOPS;
use sheet::records::{Precedence, Stop};
use yard::limits::HIGHEST_PLACE;

// By this number the stops are linked: as many as there are places, so that no two places of a yard have one remainder.
const REMAINDERS: usize = HIGHEST_PLACE as usize + 1;

// Links each stop to the lowest later one whose place has the same remainder by 4,096, and so to all later ones at its
// place, one by one. It goes by number, since the links are numbers.
fn link_places(stops: &[Stop], later: &mut [Option<u16>])
    requires few { length stops.now ≤ 1024 }
    requires one_each { length later.old ≡ length stops.now }
    ensures { Chained stops.now later.new }
{
    let mut latest = [None; REMAINDERS];
    for s in (0..stops.len()).rev() {
        let part = usize::from(stops[s].place) % REMAINDERS;
        later[s] = latest[part];
        latest[part] = Some(s as u16);
    }
}

// The routes, whose stops are linked by place.
#[derive(Clone, Copy)]
struct ByPlace<'a> {
    routes: Routes<'a>,
    later: &'a [Option<u16>],
    ghost one_each: { length later.now ≡ length routes.stops.now },
    ghost chained: { Chained routes.stops.now later.now },
}

impl ByPlace<'_> {
    // The lowest stop above `s`, of another carrier, at the same place, without a precedence for the two.
    fn undecided_with(self, marks: &Marks, s: usize) -> Option<usize>
        requires { s < length self.routes.stops.now }
        ensures { MatchOption result ((t : ℕ) → ¬ OpenMeeting self.entry.routes.stops.now marks.now.first s t) (λ t. Lowest (OpenMeeting self.entry.routes.stops.now marks.now.first s) t) }
    {
        let later = self.later;
        let mut next = later[s];
        while let Some(t) = next {
            let t = usize::from(t);
            if self.routes.is_undecided(marks, s, t) {
                return Some(t);
            }
            next = later[t];
        }
        None
    }

    // Goes along the links, and refuses the lowest stop that meets a later one without a precedence, with the lowest
    // such later one. It goes by number, since both numbers are in the refusal.
    fn check_meetings(self, marks: &Marks) -> Result<(), JudgeRefusal>
        ensures { MatchResult result (λ _. (s t : ℕ) → ¬ OpenMeeting self.entry.routes.stops.now marks.now.first s t) (λ e. (s : ℕ) × (t : ℕ) × (e ≡ Undecided s t) × LowestPair (OpenMeeting self.entry.routes.stops.now marks.now.first) s t) }
    {
        for s in 0..self.later.len() {
            if let Some(t) = self.undecided_with(marks, s) {
                return Err(JudgeRefusal::Undecided {
                    stop: s as u16,
                    later: t as u16,
                });
            }
        }
        Ok(())
    }
}

impl Routes<'_> {
    // Whether two carriers stop at one place, and no precedence says who goes first there.
    fn is_undecided(self, marks: &Marks, s: usize, t: usize) -> bool
        requires order { s < t }
        requires within { t < length self.stops.now }
        ensures { IsTrue result ↔ OpenMeeting self.entry.stops.now marks.now.first s t }
    {
        let stops = self.stops;
        stops[t].place == stops[s].place
            && stops[t].carrier != stops[s].carrier
            && !(marks.goes_first(s, stops[t].carrier) || marks.goes_first(t, stops[s].carrier))
    }

    // Refuses the lowest stop that meets a later one without a precedence, with the lowest such later one. The links
    // lie here and `ByPlace` borrows them.
    pub(crate) fn check_meetings(self, marks: &Marks) -> Result<(), JudgeRefusal>
        ensures { MatchResult result (λ _. (s t : ℕ) → ¬ OpenMeeting self.entry.stops.now marks.now.first s t) (λ e. (s : ℕ) × (t : ℕ) × (e ≡ Undecided s t) × LowestPair (OpenMeeting self.entry.stops.now marks.now.first) s t) }
    {
        let mut later = [None; MOST_STOPS];
        let later = &mut later[0..self.stops.len()];
        link_places(self.stops, later);
        ByPlace {
            routes: self,
            later,
        }
        .check_meetings(marks)
    }
}

impl Tables<'_> {
    // Where the precedence's first carrier goes on from its stop t to the place of a stop s, from which the second
    // carrier comes, and the second carrier goes first there: s and t, which are set head on.
    fn head_on_at(self, marks: &Marks, precedence: &Precedence) -> Option<(usize, usize)>
        requires carrier { precedence.now.first < 64 }
        requires first_stop { precedence.now.first_stop < length self.legs.now }
        requires second_stop { precedence.now.second_stop < length self.legs.now }
        ensures { MatchOption result ((s t : ℕ) → ¬ OpposedBy self.entry.routes.stops.now self.entry.legs.now marks.now.first precedence.now s t) (λ p. (p.0 < 1024) × (p.1 < 1024) × OpposedBy self.entry.routes.stops.now self.entry.legs.now marks.now.first precedence.now p.0 p.1 × ((s t : ℕ) → OpposedBy self.entry.routes.stops.now self.entry.legs.now marks.now.first precedence.now s t → (p.0 ≡ s) × (p.1 ≡ t))) }
    {
        let stops = self.routes.stops;
        let legs = self.legs;
        let t = usize::from(precedence.first_stop);
        let s = usize::from(stops[usize::from(precedence.second_stop)].previous?);
        let target = usize::from(legs[t].next?);
        if stops[target].place == stops[s].place && marks.goes_first(s, precedence.first) {
            Some((s, t))
        } else {
            None
        }
    }

    // The lowest pair of stops that are set head on. As a chain with `min` it was left unproved: what `filter_map`
    // gives is known only of a function that states its result by an equation.
    fn lowest_head_on(self, marks: &Marks) -> Option<(usize, usize)>
        ensures { LowestOpposed self.entry.routes.stops.now self.entry.legs.now marks.now.first self.entry.routes.precedences.now (length self.entry.routes.precedences.now) result }
    {
        let mut lowest: Option<(usize, usize)> = None;
        for precedence in self.routes.precedences {
            if let Some(pair) = self.head_on_at(marks, precedence) {
                lowest = Some(lowest.map_or(pair, |other| pair.min(other)));
            }
        }
        lowest
    }

    // Refuses the lowest stop that is set head on with another, with the lowest such other.
    pub(crate) fn check_head_on(self, marks: &Marks) -> Result<(), JudgeRefusal>
        ensures { MatchResult result (λ _. LowestOpposed self.entry.routes.stops.now self.entry.legs.now marks.now.first self.entry.routes.precedences.now (length self.entry.routes.precedences.now) None) (λ e. (s : ℕ) × (t : ℕ) × (e ≡ HeadOn s t) × LowestOpposed self.entry.routes.stops.now self.entry.legs.now marks.now.first self.entry.routes.precedences.now (length self.entry.routes.precedences.now) (Some (s, t))) }
    {
        match self.lowest_head_on(marks) {
            Some((s, t)) => Err(JudgeRefusal::HeadOn {
                stop: s as u16,
                other: t as u16,
            }),
            None => Ok(()),
        }
    }
}
