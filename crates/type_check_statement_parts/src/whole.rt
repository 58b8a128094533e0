//! Loops of their parts, each with its last step.
ghost use Rattle.std.specs.Prelude.{◌≡◌, ◌+◌, IfOk, OnOk, if◌then◌else◌, map};
ghost use Rattle.gang_model.specs.Source.Judged as judged;
ghost use Rattle.gang_model.specs.Types.Tree as tree;
ghost use Rattle.typed_tree.specs.Boxes.{boxed_stmt_view};
ghost use Rattle.typed_tree.specs.Views.{boxed_view, dimension_view};
ghost use Rattle.source_answers.specs.Apart.{seen};

use crate::forms::{over_rows, repeated, started};
use source_answers::{Answer, both_answers};
use std::alloc::{AllocError, Global};
use type_check_parts::advanced;
use typed_tree::{Dimension, Expr, Stmt};

/// `while`, whose test is its last step.
///
/// # Errors
///
/// Out of memory.
pub fn while_of(
    alloc: Global,
    test: Answer<Box<Expr>>,
    body: Answer<Box<Stmt>>,
    step: &mut usize,
) -> Result<Answer<Box<Stmt>>, AllocError>
    ensures form { IfOk result (λ answer. seen boxed_stmt_view answer ≡ seen (λ parts. tree.Loop step.old (boxed_view parts.0) tree.Empty (boxed_stmt_view parts.1)) (judged.both_answers test body)) }
    ensures steps { OnOk result (step.new ≡ step.old + 1) }
{
    let at = *step;
    *step = advanced(at, 1)?;
    repeated(alloc, at, both_answers(test, body))
}

/// `for`, whose test is its last step.
///
/// # Errors
///
/// Out of memory.
pub fn for_of(
    alloc: Global,
    start: Answer<Box<Stmt>>,
    test: Answer<Box<Expr>>,
    update: Answer<Box<Stmt>>,
    body: Answer<Box<Stmt>>,
    step: &mut usize,
) -> Result<Answer<Box<Stmt>>, AllocError>
    ensures form { IfOk result (λ answer. seen boxed_stmt_view answer ≡ seen (λ parts. tree.Then (boxed_stmt_view parts.0.0) (tree.Loop step.old (boxed_view parts.0.1) (boxed_stmt_view parts.1.0) (boxed_stmt_view parts.1.1)))
        (judged.both_answers (judged.both_answers start test) (judged.both_answers update body))) }
    ensures steps { OnOk result (step.new ≡ step.old + 1) }
{
    let at = *step;
    *step = advanced(at, 1)?;
    let parts = both_answers(both_answers(start, test), both_answers(update, body));
    started(alloc, at, parts)
}

/// `foreach` and `foreach_tiled`, whose head is the step `at` and whose rounds are the last step.
///
/// # Errors
///
/// Out of memory.
pub fn for_each_of(
    alloc: Global,
    at: usize,
    is_tiled: bool,
    dimensions: Answer<Vec<Dimension>>,
    body: Answer<Box<Stmt>>,
    step: &mut usize,
) -> Result<Answer<Box<Stmt>>, AllocError>
    ensures form { IfOk result (λ answer. seen boxed_stmt_view answer ≡ seen (λ parts. tree.ForEach at (if is_tiled then tree.Tiles (map dimension_view parts.0.items) else tree.Rows (map dimension_view parts.0.items)) (boxed_stmt_view parts.1))
        (judged.both_answers dimensions body)) }
    ensures steps { OnOk result (step.new ≡ step.old + 1) }
{
    *step = advanced(*step, 1)?;
    over_rows(alloc, at, is_tiled, both_answers(dimensions, body))
}
