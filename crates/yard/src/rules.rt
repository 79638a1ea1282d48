// The three following rules, and any of them as one type. Each impl proves its two laws in a line of its own: they
// differ in constant and meaning.
ghost use Rattle.std.specs.Prelude.{◌≡◌, ◌-◌, ◌<◌, ◌≤◌, MatchResult};
ghost use Rattle.std.proofs.Common.{rules};

use crate::FollowingRule;
use crate::limits::{LONGEST_GAP, LONGEST_TIME};
use crate::refusal::GapRefusal;

// Full lane: the place may be reached in the tick after the carrier that left it reaches the other end.
#[derive(Clone, Copy, PartialEq, Eq, Debug)]
pub struct FullLane;

impl FollowingRule for FullLane {
    const LARGEST_GAP: u32 = LONGEST_TIME as u32;

    ghost LARGEST_GAP = { 36000 };

    ghost gaps = { λ _ _ _ time. time };

    ghost small = { Prim.search rules };

    ghost bounded = { Prim.search rules };

    fn gap(&self, _from: u16, _to: u16, time: u16) -> u32
        ensures { result ≡ time }
    {
        u32::from(time)
    }
}

// Lane less one: the place may be reached in the tick in which the carrier that left it reaches the other end.
#[derive(Clone, Copy, PartialEq, Eq, Debug)]
pub struct LaneLessOne;

impl FollowingRule for LaneLessOne {
    const LARGEST_GAP: u32 = LONGEST_TIME as u32 - 1;

    ghost LARGEST_GAP = { 35999 };

    ghost gaps = { λ _ _ _ time. time - 1 };

    ghost small = { Prim.search rules };

    ghost bounded = { Prim.search rules };

    fn gap(&self, _from: u16, _to: u16, time: u16) -> u32
        ensures { result ≡ time - 1 }
    {
        u32::from(time.saturating_sub(1))
    }
}

// Fixed gap: the same number of ticks on every lane, 0 to 36,000.
#[derive(Clone, Copy, PartialEq, Eq, Debug)]
pub struct FixedGap {
    ticks: u16,
    ghost short: { ticks ≤ 36000 },
}

impl FixedGap {
    // A gap of 0.
    pub fn new() -> FixedGap
        ensures { result.ticks ≡ 0 }
    {
        FixedGap { ticks: 0 }
    }

    // The gap.
    pub fn ticks(&self) -> u16
        ensures value { result ≡ self.now.ticks }
        ensures short { result ≤ 36000 }
    {
        self.ticks
    }

    // Makes the gap `ticks`, or refuses more than 36,000 and keeps the old one.
    pub fn set(&mut self, ticks: u16) -> Result<(), GapRefusal>
        ensures { MatchResult result (λ _. (ticks ≤ 36000) × (self.new.ticks ≡ ticks)) (λ e. (36000 < ticks) × (e ≡ GapRefusal.GapTooLong) × (self.new ≡ self.old)) }
    {
        *self = FixedGap::try_from(ticks)?;
        Ok(())
    }
}

// A gap of so many ticks. More than 36,000 are refused.
impl TryFrom<u16> for FixedGap {
    ghost use Rattle.yard.specs.declared.refusal.GapRefusal.TheVariants.{GapTooLong};

    type Error = GapRefusal;

    ghost try_from_gives = { λ ticks r. MatchResult r (λ s. (ticks ≤ 36000) × (s.ticks ≡ ticks)) (λ e. (36000 < ticks) × (e ≡ GapTooLong)) };

    fn try_from(ticks: u16) -> Result<FixedGap, GapRefusal> {
        if ticks > LONGEST_GAP {
            return Err(GapRefusal::GapTooLong);
        }
        Ok(FixedGap { ticks })
    }
}

impl FollowingRule for FixedGap {
    const LARGEST_GAP: u32 = LONGEST_GAP as u32;

    ghost LARGEST_GAP = { 36000 };

    ghost gaps = { λ s _ _ _. s.ticks };

    ghost small = { Prim.search rules };

    ghost bounded = { Prim.search rules };

    fn gap(&self, _from: u16, _to: u16, _time: u16) -> u32
        ensures { result ≡ self.now.ticks }
    {
        u32::from(self.ticks)
    }
}

// A following rule by its kind, with the gap of a fixed one as a number that may be too long, `Rule<u16>`, or as one
// that is within the limit, `Rule<FixedGap>`.
#[derive(Clone, Copy, PartialEq, Eq, Debug)]
pub enum Rule<G> {
    FullLane,
    LaneLessOne,
    FixedGap { gap: G },
}

// Any of the following rules.
pub type AnyRule = Rule<FixedGap>;

impl FollowingRule for Rule<FixedGap> {
    ghost use Rattle.yard.specs.Rules.{gaps_of};

    const LARGEST_GAP: u32 = LONGEST_TIME as u32;

    ghost LARGEST_GAP = { 36000 };

    ghost gaps = { gaps_of (λ g. g.ticks) };

    ghost small = { Prim.search rules };

    ghost bounded = { Prim.search rules };

    fn gap(&self, from: u16, to: u16, time: u16) -> u32
        ensures { result ≡ gaps_of (λ g. g.ticks) self.now from to time }
    {
        match self {
            Rule::FullLane => FullLane.gap(from, to, time),
            Rule::LaneLessOne => LaneLessOne.gap(from, to, time),
            Rule::FixedGap { gap } => gap.gap(from, to, time),
        }
    }
}

// The rule within the limits, if it is: a fixed gap above 36,000 ticks is refused.
impl TryFrom<Rule<u16>> for Rule<FixedGap> {
    ghost use Rattle.yard.specs.declared.refusal.GapRefusal.TheVariants.{GapTooLong};
    ghost use Rattle.yard.specs.Rules.{gap_of, gaps_of};

    type Error = GapRefusal;

    ghost try_from_gives = { λ rule r. MatchResult r (λ any. (gap_of rule ≤ 36000) × (gaps_of (λ g. g.ticks) any ≡ gaps_of (λ g. g) rule)) (λ e. (36000 < gap_of rule) × (e ≡ GapTooLong)) };

    fn try_from(rule: Rule<u16>) -> Result<Rule<FixedGap>, GapRefusal> {
        match rule {
            Rule::FullLane => Ok(Rule::FullLane),
            Rule::LaneLessOne => Ok(Rule::LaneLessOne),
            Rule::FixedGap { gap } => Ok(Rule::FixedGap {
                gap: FixedGap::try_from(gap)?,
            }),
        }
    }
}
