//! The dimensions of a domain, and which index values a lane takes at a place of its grid.
ghost use Rattle.std.specs.Prelude.{◌≡◌, ◌+◌, ◌*◌, ◌<◌, ◌≤◌, ◌^◌, Some};
ghost use Rattle.gang_types.specs.Masks.{IsGangWidth};
ghost use Rattle.gang_model.specs.Running.Rounds.{slot_word, tile_columns, tile_rows};
ghost use Rattle.foreach_lowering.specs.Domains.{in_tile, row_grid, row_slot, tile_grid, tiled_slot};
ghost use Rattle.foreach_lowering.specs.Views.{bounds_view, grid_view, pair_view, range_view, slot_view, values_view};

use crate::grid::Grid;
use crate::range::Range;
use gang_types::{IntType, wrap};

/// The bounds of one to three dimensions, the outermost first.
#[derive(Clone, Copy)]
pub enum Bounds {
    One(Range),
    Two(Range, Range),
    Three(Range, Range, Range),
}

/// In which order the index values are taken: row by row, each row in chunks of as many as there are lanes (`foreach`), or the last two
/// dimensions by tiles (`foreach_tiled`).
#[derive(Clone, Copy)]
pub enum Order {
    Rows,
    Tiles,
}

/// The index values of one lane in a round, in the order of the dimensions.
#[derive(Clone, Copy)]
pub(crate) enum IndexValues {
    One(i128),
    Two(i128, i128),
    Three(i128, i128, i128),
}

impl IndexValues {
    /// The word of the index variable of a dimension, which is an int32; 0 of a dimension that is not there.
    pub(crate) fn word(self, dimension: usize) -> u64
        ensures { result ≡ slot_word dimension (Some (values_view self)) }
    {
        let index = match (self, dimension) {
            (IndexValues::One(i), 0)
            | (IndexValues::Two(i, _), 0)
            | (IndexValues::Three(i, _, _), 0)
            | (IndexValues::Two(_, i), 1)
            | (IndexValues::Three(_, i, _), 1)
            | (IndexValues::Three(_, _, i), 2) => i,
            _ => 0,
        };
        wrap(IntType::Int32, index)
    }
}

/// How many rows a tile has: 2 by 2 places of 4 lanes, 2 by 4 of 8, 4 by 4 of 16.
fn tile_rows<const W: usize>() -> u64
    requires { IsGangWidth W }
    ensures { result ≡ tile_rows W }
{
    if W == 16 { 4 } else { 2 }
}

/// How many columns a tile has.
fn tile_columns<const W: usize>() -> u64
    requires { IsGangWidth W }
    ensures { result ≡ tile_columns W }
{
    if W == 4 { 2 } else { 4 }
}

/// The number of an element of a part, where each part has so many.
fn number_in(part: u64, size: u64, element: usize) -> u128
    requires { (size ≤ 16) × (element < 16) }
    ensures value { result ≡ part * size + element }
    ensures small { result < 2 ^ 70 }
{
    u128::from(part) * u128::from(size) + element as u128
}

/// The index values of a lane in the tile at a row and a column of tiles, if both are below their bounds.
fn in_tile<const W: usize>(
    rows: Range,
    columns: Range,
    place: Grid,
    lane: usize,
) -> Option<(i128, i128)>
    requires width { IsGangWidth W }
    requires lane { lane < W }
    ensures { pair_view result ≡ in_tile W (range_view rows) (range_view columns) (grid_view place) lane }
{
    let width = tile_columns::<W>() as usize;
    let row = rows.nth(number_in(place.rows, tile_rows::<W>(), lane / width))?;
    let column = columns.nth(number_in(place.columns, tile_columns::<W>(), lane % width))?;
    Some((row, column))
}

impl Bounds {
    /// The grid whose places are the rounds, row by row.
    pub(crate) fn row_grid<const W: usize>(self) -> Grid
        requires { IsGangWidth W }
        ensures { grid_view result ≡ row_grid W (bounds_view self) }
    {
        let (leads, rows, last) = match self {
            Bounds::One(a) => (1, 1, a),
            Bounds::Two(a, b) => (1, a.count(), b),
            Bounds::Three(a, b, c) => (a.count(), b.count(), c),
        };
        Grid {
            leads,
            rows,
            columns: last.parts(W as u64),
        }
    }

    /// The grid whose places are the rounds, by tiles.
    pub(crate) fn tile_grid<const W: usize>(self) -> Grid
        requires { IsGangWidth W }
        ensures { grid_view result ≡ tile_grid W (bounds_view self) }
    {
        let (leads, rows, columns) = match self {
            Bounds::One(_) => return self.row_grid::<W>(),
            Bounds::Two(a, b) => (1, a, b),
            Bounds::Three(a, b, c) => (a.count(), b, c),
        };
        Grid {
            leads,
            rows: rows.parts(tile_rows::<W>()),
            columns: columns.parts(tile_columns::<W>()),
        }
    }

    /// The index values that a lane takes at a place, row by row; none where the last one is at its bound.
    #[inline(always)]
    pub(crate) fn row_slot<const W: usize>(self, place: Grid, lane: usize) -> Option<IndexValues>
        requires width { IsGangWidth W }
        requires lane { lane < W }
        ensures { slot_view result ≡ row_slot W (bounds_view self) (grid_view place) lane }
    {
        let n = number_in(place.columns, W as u64, lane);
        Some(match self {
            Bounds::One(a) => IndexValues::One(a.nth(n)?),
            Bounds::Two(a, b) => IndexValues::Two(a.at(u128::from(place.rows)), b.nth(n)?),
            Bounds::Three(a, b, c) => IndexValues::Three(
                a.at(u128::from(place.leads)),
                b.at(u128::from(place.rows)),
                c.nth(n)?,
            ),
        })
    }

    /// The same by tiles; none where one of the last two is at its bound.
    pub(crate) fn tiled_slot<const W: usize>(self, place: Grid, lane: usize) -> Option<IndexValues>
        requires width { IsGangWidth W }
        requires lane { lane < W }
        ensures { slot_view result ≡ tiled_slot W (bounds_view self) (grid_view place) lane }
    {
        match self {
            Bounds::One(_) => self.row_slot::<W>(place, lane),
            Bounds::Two(a, b) => {
                let (row, column) = in_tile::<W>(a, b, place, lane)?;
                Some(IndexValues::Two(row, column))
            }
            Bounds::Three(a, b, c) => {
                let (row, column) = in_tile::<W>(b, c, place, lane)?;
                Some(IndexValues::Three(a.at(u128::from(place.leads)), row, column))
            }
        }
    }
}
