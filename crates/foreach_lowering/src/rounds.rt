//! The rounds that a foreach form under way has left, in place of the list of them.
ghost use Rattle.std.specs.Prelude.{◌≡◌};
ghost use Rattle.gang_types.specs.Masks.{IsGangWidth};
ghost use Rattle.foreach_lowering.specs.Grids.{IsLeft};
ghost use Rattle.foreach_lowering.specs.Kept.{kept_of};
ghost use Rattle.foreach_lowering.specs.Law.{CountsRounds};
ghost use Rattle.foreach_lowering.specs.Views.{bounds_view, grid_view};
ghost use Rattle.foreach_lowering.specs.DomainViews.{domain_grid};
ghost use Rattle.foreach_lowering.specs.declared.rounds.RoundsLeft.TheVariants.{Domain as DomainLeft, EachLane as LanesLeft, EachValue as ValuesLeft};
ghost use Rattle.foreach_lowering.specs.RoundViews.{AreLeft, IsNextRound, SaysAnyLeft, kept_view};

use crate::domain::Domain;
use crate::grid::Grid;
use crate::lanes::{next_lane, next_value};
use gang_types::Mask;

/// What a foreach form under way keeps, in place of the list of its rounds still to come.
#[derive(Clone, Copy)]
pub enum RoundsLeft<const W: usize> {
    /// Of `foreach` and `foreach_tiled`: how much of the grid of its places is left.
    Domain { domain: Domain, left: Grid },
    /// Of `foreach_active`: the lanes still to come.
    EachLane { lanes: Mask },
    /// Of `foreach_unique`: the lanes still to come, and the values that all lanes had when it began.
    EachValue { lanes: Mask, values: [u64; W] },
}

/// The words of the index variables of a round.
#[derive(Clone, Copy)]
pub enum Indices<const W: usize> {
    /// Of `foreach` and `foreach_tiled`: for each dimension a word for each lane, 0 in lanes that do not take part; 0 in dimensions that
    /// the form does not have.
    Varying([[u64; W]; 3]),
    /// Of the other two: the lane, or the value.
    Uniform(u64),
}

/// A round: its lanes, the words of its index variables, and what is left behind it.
#[derive(Clone, Copy)]
pub struct Round<const W: usize> {
    pub lanes: Mask,
    pub indices: Indices<W>,
    pub left: RoundsLeft<W>,
}

/// The next round of a `foreach` or `foreach_tiled`.
#[inline(always)]
fn next_place<const W: usize>(domain: Domain, left: Grid) -> Option<Round<W>>
    requires width { IsGangWidth W }
    requires left { IsLeft (domain_grid W domain) (grid_view left) }
    ensures { IsNextRound W (DomainLeft domain left) result }
{
    let round = domain.next_round::<W>(left)?;
    let left = round.left;
    Some(Round {
        lanes: round.lanes,
        indices: Indices::Varying(round.indices),
        left: RoundsLeft::Domain { domain, left },
    })
}

/// The next round of a `foreach_active`.
fn next_of_lanes<const W: usize>(lanes: Mask) -> Option<Round<W>>
    requires { IsGangWidth W }
    ensures { IsNextRound W (LanesLeft lanes) result }
{
    let round = next_lane::<W>(lanes)?;
    let lanes = round.later;
    Some(Round {
        lanes: Mask::only::<W>(round.lane),
        indices: Indices::Uniform(round.lane as u64),
        left: RoundsLeft::EachLane { lanes },
    })
}

/// The next round of a `foreach_unique`.
fn next_of_values<const W: usize>(lanes: Mask, values: [u64; W]) -> Option<Round<W>>
    requires { IsGangWidth W }
    ensures { IsNextRound W (ValuesLeft lanes values.entry) result }
{
    let round = next_value(lanes, values)?;
    let lanes = round.later;
    Some(Round {
        lanes: round.lanes,
        indices: Indices::Uniform(round.value),
        left: RoundsLeft::EachValue { lanes, values },
    })
}

impl<const W: usize> RoundsLeft<W> {
    /// All rounds of a `foreach` or `foreach_tiled`.
    pub fn of_domain(domain: Domain) -> Self
        requires { IsGangWidth W }
        ensures kept { kept_view W result ≡ kept_of (bounds_view domain.bounds) (domain_grid W domain) }
        ensures left { AreLeft W result }
    {
        let left = domain.grid::<W>().all_left();
        RoundsLeft::Domain { domain, left }
    }

    /// Whether a round is left, without making it: yes exactly where `next_round` has one.
    #[inline(always)]
    pub fn is_any_left(self) -> bool
        requires width { IsGangWidth W }
        requires left { AreLeft W self }
        ensures { SaysAnyLeft W self.entry result }
    {
        match self {
            RoundsLeft::Domain { left, .. } => left.has_next(),
            RoundsLeft::EachLane { lanes } => !lanes.is_empty::<W>(),
            RoundsLeft::EachValue { lanes, .. } => !lanes.is_empty::<W>(),
        }
    }

    /// The next round, the first of those that are left by the meaning, and what is left behind it; none where none is left. So the n-th
    /// round by what is kept is the n-th of the meaning's list, whatever the form, its lanes and the state in which it begins (`law`).
    #[inline(always)]
    pub fn next_round(self) -> Option<Round<W>>
        requires width { IsGangWidth W }
        requires left { AreLeft W self }
        ensures next { IsNextRound W self.entry result }
        ensures law { CountsRounds W }
    {
        match self {
            RoundsLeft::Domain { domain, left } => next_place(domain, left),
            RoundsLeft::EachLane { lanes } => next_of_lanes(lanes),
            RoundsLeft::EachValue { lanes, values } => next_of_values(lanes, values),
        }
    }
}
