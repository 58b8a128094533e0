//! A `switch` of its segments.
ghost use Rattle.std.specs.Prelude.{◌≡◌, IfOk, Ok};
ghost use Rattle.gang_model.specs.Source.Judged as judged;
ghost use Rattle.gang_model.specs.Types.Tree as tree;
ghost use Rattle.typed_tree.specs.Boxes.{boxed_stmt_view};
ghost use Rattle.typed_tree.specs.Views.{boxed_view, segments_view};
ghost use Rattle.type_check_values.specs.Views.{typed_view};
ghost use Rattle.source_answers.specs.Apart.{seen};
ghost use Rattle.type_check_statement_parts.specs.Segments.{one_more_segment, selected};

use source_answers::{Answer, both_answers, in_order};
use std::alloc::{AllocError, Global};
use type_check_values::{Typed, boxed_stmt};
use typed_tree::{Expr, Segment, Stmt};

/// The segments with one more after them: its label, and the statements that follow it.
///
/// # Errors
///
/// Out of memory.
pub fn more_segments(
    first: Answer<Vec<Segment>>,
    label: Answer<Option<u64>>,
    body: Answer<Vec<Stmt>>,
) -> Result<Answer<Vec<Segment>>, AllocError>
    ensures more { IfOk result (λ answer. seen (λ segments. segments.items) answer ≡ one_more_segment (seen (λ segments. segments.items) first) (judged.both_answers label body)) }
{
    match both_answers(first, both_answers(label, body)) {
        Ok((mut segments, (label, body))) => {
            segments.push(Segment { label, body })?;
            Ok(Ok(segments))
        }
        Err(fault) => Ok(Err(fault)),
    }
}

/// `switch`, of sound parts.
fn selected_among(
    alloc: Global,
    step: usize,
    selector: Box<Expr>,
    segments: Vec<Segment>,
) -> Result<Answer<Box<Stmt>>, AllocError>
    ensures form { IfOk result (λ answer. seen boxed_stmt_view answer ≡ Ok (tree.Switch step (boxed_view selector) (segments_view segments.items))) }
{
    let stmt = Stmt::Switch {
        step,
        selector,
        segments,
    };
    Ok(Ok(boxed_stmt(alloc, stmt)?))
}

/// `switch`, where a fault of the selector hides those of the segments.
///
/// # Errors
///
/// Out of memory.
pub fn switch_of(
    alloc: Global,
    step: usize,
    selector: Answer<Typed>,
    segments: Answer<Vec<Segment>>,
) -> Result<Answer<Box<Stmt>>, AllocError>
    ensures form { IfOk result (λ answer. seen boxed_stmt_view answer ≡ selected step (seen typed_view selector) (seen (λ segments. segments_view segments.items) segments)) }
{
    match in_order(selector, segments) {
        Ok((selector, segments)) => selected_among(alloc, step, selector.expr, segments),
        Err(fault) => Ok(Err(fault)),
    }
}
