//! The code of foreach forms and of the segments of a `switch`.
ghost use Rattle.std.specs.Prelude.{◌≡◌, length, map, IfOk};
ghost use Rattle.typed_tree.specs.Views.{dimension_view, rounds_view, segments_view, var_view};
ghost use Rattle.codegen.specs.Codes.{AreSegments, DoesForm, Fit, IndexesOf, IsDimension};

use crate::code::{DimensionCode, FormCode, IndexCode, SegmentCode};
use crate::values::value;
use foreach_lowering::Order;
use std::alloc::{AllocError, Global};
use typed_tree::{Dimension, Rounds, Segment, Var};

/// The code of a form's head.
pub(crate) fn head(alloc: Global, form: &Rounds) -> Result<FormCode, AllocError>
    ensures { IfOk result (λ made. DoesForm made (rounds_view form.now)) }
{
    match form {
        Rounds::Rows(dims) => Ok(FormCode::Domain {
            order: Order::Rows,
            dimensions: dimensions(alloc, dims)?,
        }),
        Rounds::Tiles(dims) => Ok(FormCode::Domain {
            order: Order::Tiles,
            dimensions: dimensions(alloc, dims)?,
        }),
        Rounds::EachLane(_) => Ok(FormCode::EachLane),
        Rounds::EachValue { value: saved, .. } => Ok(FormCode::EachValue {
            value: value(alloc, saved)?,
        }),
    }
}

/// The code of the dimensions' bounds.
fn dimensions(alloc: Global, dims: &[Dimension]) -> Result<Vec<DimensionCode>, AllocError>
    ensures { IfOk result (λ made. Fit IsDimension made.items (map dimension_view dims.now)) }
{
    let mut made = Vec::with_capacity(alloc, dims.len())?;
    for dimension in dims {
        made.push(bounds(alloc, dimension)?)?;
    }
    Ok(made)
}

/// The code of a dimension's bounds.
fn bounds(alloc: Global, dimension: &Dimension) -> Result<DimensionCode, AllocError>
    ensures { IfOk result (λ made. IsDimension made (dimension_view dimension.now)) }
{
    Ok(DimensionCode {
        low: value(alloc, &dimension.low)?,
        high: value(alloc, &dimension.high)?,
    })
}

/// The index variables of a form.
pub(crate) fn indices(alloc: Global, form: &Rounds) -> Result<IndexCode, AllocError>
    ensures { IfOk result (λ made. IndexesOf made (rounds_view form.now)) }
{
    match form {
        Rounds::Rows(dims) => Ok(IndexCode::Domain {
            order: Order::Rows,
            indices: index_variables(alloc, dims)?,
        }),
        Rounds::Tiles(dims) => Ok(IndexCode::Domain {
            order: Order::Tiles,
            indices: index_variables(alloc, dims)?,
        }),
        Rounds::EachLane(index) => Ok(IndexCode::EachLane { index: *index }),
        Rounds::EachValue { index, .. } => Ok(IndexCode::EachValue { index: *index }),
    }
}

/// The index variables of the dimensions.
fn index_variables(alloc: Global, dims: &[Dimension]) -> Result<Vec<Var>, AllocError>
    ensures { IfOk result (λ made. map var_view made.items ≡ map (λ d. d.index) (map dimension_view dims.now)) }
{
    let mut made = Vec::with_capacity(alloc, dims.len())?;
    for dimension in dims {
        made.push(dimension.index)?;
    }
    Ok(made)
}

/// The labels of segments, each with the step where it begins.
pub(crate) fn segments(
    alloc: Global,
    labelled: &[Segment],
    entries: &[usize],
) -> Result<Vec<SegmentCode>, AllocError>
    requires { length entries.now ≡ length labelled.now }
    ensures { IfOk result (λ made. AreSegments made.items (segments_view labelled.now) entries.now) }
{
    let mut made = Vec::with_capacity(alloc, labelled.len())?;
    for (segment, entry) in labelled.iter().zip(entries) {
        made.push(SegmentCode {
            label: segment.label,
            entry: *entry,
        })?;
    }
    Ok(made)
}
