//! The rounds of `foreach` and `foreach_tiled`, which are the places of a grid.
ghost use Rattle.std.specs.Prelude.{◌≡◌, ◌<◌, IfSome};
ghost use Rattle.gang_types.specs.Masks.{IsGangWidth};
ghost use Rattle.foreach_lowering.specs.Grids as grids;
ghost use Rattle.foreach_lowering.specs.Views.{grid_view, slot_view, taken_view};
ghost use Rattle.foreach_lowering.specs.DomainViews.{IsDomainRound, domain_grid, domain_slot};

use crate::bounds::{Bounds, IndexValues, Order};
use crate::grid::Grid;
use gang_types::Mask;

/// What a `foreach` or `foreach_tiled` runs over.
#[derive(Clone, Copy)]
pub struct Domain {
    pub order: Order,
    pub bounds: Bounds,
}

/// A round of a domain: its lanes, the words of its index variables in the order of the dimensions, 0 of those past the last one, and what
/// is left of the grid behind it.
#[derive(Clone, Copy)]
pub struct DomainRound<const W: usize> {
    pub lanes: Mask,
    pub indices: [[u64; W]; 3],
    pub left: Grid,
}

impl Domain {
    /// The grid whose places are the rounds.
    pub fn grid<const W: usize>(self) -> Grid
        requires { IsGangWidth W }
        ensures { grid_view result ≡ domain_grid W self }
    {
        match self.order {
            Order::Rows => self.bounds.row_grid::<W>(),
            Order::Tiles => self.bounds.tile_grid::<W>(),
        }
    }

    /// The index values that a lane takes at a place, if it takes any.
    #[inline(always)]
    fn slot<const W: usize>(self, place: Grid, lane: usize) -> Option<IndexValues>
        requires width { IsGangWidth W }
        requires lane { lane < W }
        ensures { slot_view result ≡ domain_slot W self (grid_view place) lane }
    {
        match self.order {
            Order::Rows => self.bounds.row_slot::<W>(place, lane),
            Order::Tiles => self.bounds.tiled_slot::<W>(place, lane),
        }
    }

    /// The next round where so much of the grid is left; none where nothing is left.
    #[inline(always)]
    pub fn next_round<const W: usize>(self, left: Grid) -> Option<DomainRound<W>>
        requires width { IsGangWidth W }
        requires left { grids.IsLeft (domain_grid W self) (grid_view left) }
        ensures { IsDomainRound W self (grid_view left) result }
    {
        let taken = self.grid::<W>().next(left)?;
        let mut lanes = Mask::none();
        let mut first = [0; W];
        let mut second = [0; W];
        let mut third = [0; W];
        for lane in 0..W {
            if let Some(values) = self.slot::<W>(taken.place, lane) {
                lanes = lanes.with::<W>(lane);
                first[lane] = values.word(0);
                second[lane] = values.word(1);
                third[lane] = values.word(2);
            }
        }
        Some(DomainRound {
            lanes,
            indices: [first, second, third],
            left: taken.left,
        })
    }
}
