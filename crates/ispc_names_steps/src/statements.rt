//! The steps of statements.
ghost use Rattle.std.specs.Prelude.{◌≡◌, ◌++◌, Bool, List, OnOk, Option, length, map};
ghost use Rattle.gang_types.specs.declared.places.Place.{Place};
ghost use Rattle.gang_model.specs.Names.Bindings.{bindings_in, bindings_in_all};
ghost use Rattle.gang_model.specs.Source.Parsed.{ParsedBlock, ParsedExpr, ParsedFor, ParsedForEach, ParsedForEachActive, ParsedIf, ParsedIfElse, ParsedSwitch};
ghost use Rattle.gang_model.specs.Names.Scope.{NameStanding, Site, after, after_all, locals_in, past, standings_in, standings_in_all};
ghost use Rattle.source_tree.specs.Tree.{dim_view, segments_view, stmt_view, stmts_view};
ghost use Rattle.ispc_names_steps.specs.Sites.{Declares, Passes, Stands};

use crate::declared::{Declared, declare, declare_dims, step, steps_after_body};
use gang_types::Place;
use ispc_names_table::Standing;
use source_tree::{Dim, Segment, Stmt};
use std::alloc::{AllocError, Global};

/// The steps of a statement, by their numbers. What it declares is then what the next statement finds.
#[cycle(statement)]
fn statement_steps(
    alloc: Global,
    stmt: &Stmt,
    declared: &mut Declared,
    standings: &mut Vec<Standing>,
) -> Result<(), AllocError>
    ensures declares { OnOk result (Declares declared.old.declarations.items declared.new.declarations.items (bindings_in (stmt_view stmt.now) (length declared.old.declarations.items))) }
    ensures stands { OnOk result ((site : Site) (steps : List NameStanding) → Stands declared.old standings.old.items site steps
        → Stands declared.new standings.new.items (after (stmt_view stmt.now) site) (steps ++ standings_in (stmt_view stmt.now) site)) }
{
    match stmt {
        Stmt::Empty => Ok(()),
        Stmt::Block(stmts) => block_steps(alloc, stmts, declared, standings),
        Stmt::Declare { place, name, .. } => {
            step(*place, declared, standings)?;
            declare(alloc, name, declared)
        }
        Stmt::Assign { place, .. }
        | Stmt::Change { place, .. }
        | Stmt::Increment { place, .. }
        | Stmt::Call { place, .. }
        | Stmt::Break { place }
        | Stmt::Continue { place }
        | Stmt::Return { place, .. } => step(*place, declared, standings),
        Stmt::If {
            place,
            first,
            other,
            ..
        } => match other {
            Some(other) => choice_steps(alloc, first, other, *place, declared, standings),
            None => branch_steps(alloc, first, *place, declared, standings),
        },
        Stmt::While { place, body, .. } | Stmt::Do { place, body, .. } => {
            inner_steps(alloc, body, declared, standings)?;
            step(*place, declared, standings)
        }
        Stmt::For {
            place,
            start,
            update,
            body,
            ..
        } => for_steps(alloc, start, update, body, *place, declared, standings),
        Stmt::Switch {
            place,
            segments,
            ..
        } => switch_steps(alloc, segments, *place, declared, standings),
        Stmt::ForEach {
            place,
            dims,
            body,
            ..
        } => domain_steps(alloc, body, *place, dims, declared, standings),
        Stmt::ForEachActive {
            place,
            name,
            body,
            ..
        }
        | Stmt::ForEachUnique {
            place,
            name,
            body,
            ..
        } => rounds_steps(alloc, body, *place, name, declared, standings),
    }
}

/// The steps of a block.
#[cycle(statement)]
fn block_steps(
    alloc: Global,
    stmts: &[Stmt],
    declared: &mut Declared,
    standings: &mut Vec<Standing>,
) -> Result<(), AllocError>
    ensures declares { OnOk result (Declares declared.old.declarations.items declared.new.declarations.items (bindings_in (ParsedBlock (stmts_view stmts.now)) (length declared.old.declarations.items))) }
    ensures stands { OnOk result (Passes (ParsedBlock (stmts_view stmts.now)) declared.old declared.new standings.old.items standings.new.items) }
{
    let outside = declared.innermost;
    list_steps(alloc, stmts, declared, standings)?;
    declared.innermost = outside;
    Ok(())
}

/// The steps of an `if` without an `else`.
#[cycle(statement)]
fn branch_steps(
    alloc: Global,
    first: &Stmt,
    place: Place,
    declared: &mut Declared,
    standings: &mut Vec<Standing>,
) -> Result<(), AllocError>
    ensures declares { OnOk result ((test : ParsedExpr) → Declares declared.old.declarations.items declared.new.declarations.items
        (bindings_in (ParsedIf place test (stmt_view first.now)) (length declared.old.declarations.items))) }
    ensures stands { OnOk result ((test : ParsedExpr) → Passes (ParsedIf place test (stmt_view first.now)) declared.old declared.new standings.old.items standings.new.items) }
{
    step(place, declared, standings)?;
    inner_steps(alloc, first, declared, standings)
}

/// The steps of an `if` with an `else`.
#[cycle(statement)]
fn choice_steps(
    alloc: Global,
    first: &Stmt,
    other: &Stmt,
    place: Place,
    declared: &mut Declared,
    standings: &mut Vec<Standing>,
) -> Result<(), AllocError>
    ensures declares { OnOk result ((test : ParsedExpr) → Declares declared.old.declarations.items declared.new.declarations.items
        (bindings_in (ParsedIfElse place test (stmt_view first.now) (stmt_view other.now)) (length declared.old.declarations.items))) }
    ensures stands { OnOk result ((test : ParsedExpr) → Passes (ParsedIfElse place test (stmt_view first.now) (stmt_view other.now)) declared.old declared.new standings.old.items standings.new.items) }
{
    step(place, declared, standings)?;
    inner_steps(alloc, first, declared, standings)?;
    inner_steps(alloc, other, declared, standings)
}

/// The steps of a `for`. The update's variables are numbered before the body's, and its steps after them.
#[cycle(statement)]
fn for_steps(
    alloc: Global,
    start: &Stmt,
    update: &Stmt,
    body: &Stmt,
    place: Place,
    declared: &mut Declared,
    standings: &mut Vec<Standing>,
) -> Result<(), AllocError>
    ensures declares { OnOk result ((test : Option ParsedExpr) → Declares declared.old.declarations.items declared.new.declarations.items
        (bindings_in (ParsedFor place (stmt_view start.now) test (stmt_view update.now) (stmt_view body.now)) (length declared.old.declarations.items))) }
    ensures stands { OnOk result ((test : Option ParsedExpr) → Passes (ParsedFor place (stmt_view start.now) test (stmt_view update.now) (stmt_view body.now))
        declared.old declared.new standings.old.items standings.new.items) }
{
    let outside = declared.innermost;
    statement_steps(alloc, start, declared, standings)?;
    let mut last = Vec::new(alloc);
    inner_steps(alloc, update, declared, &mut last)?;
    inner_steps(alloc, body, declared, standings)?;
    steps_after_body(place, &last, declared, standings)?;
    declared.innermost = outside;
    Ok(())
}

/// The steps of a switch: its own, then those of its segments. Its labels are no steps.
#[cycle(statement)]
fn switch_steps(
    alloc: Global,
    segments: &[Segment],
    place: Place,
    declared: &mut Declared,
    standings: &mut Vec<Standing>,
) -> Result<(), AllocError>
    ensures declares { OnOk result ((selector : ParsedExpr) → Declares declared.old.declarations.items declared.new.declarations.items
        (bindings_in (ParsedSwitch place selector (segments_view segments.now)) (length declared.old.declarations.items))) }
    ensures stands { OnOk result ((selector : ParsedExpr) → Passes (ParsedSwitch place selector (segments_view segments.now)) declared.old declared.new standings.old.items standings.new.items) }
{
    let outside = declared.innermost;
    step(place, declared, standings)?;
    for segment in segments {
        list_steps(alloc, &segment.body, declared, standings)?;
    }
    declared.innermost = outside;
    Ok(())
}

/// The steps of a `foreach`.
#[cycle(statement)]
fn domain_steps(
    alloc: Global,
    body: &Stmt,
    place: Place,
    dims: &[Dim],
    declared: &mut Declared,
    standings: &mut Vec<Standing>,
) -> Result<(), AllocError>
    ensures declares { OnOk result ((is_tiled : Bool) → Declares declared.old.declarations.items declared.new.declarations.items
        (bindings_in (ParsedForEach place is_tiled (map dim_view dims.now) (stmt_view body.now)) (length declared.old.declarations.items))) }
    ensures stands { OnOk result ((is_tiled : Bool) → Passes (ParsedForEach place is_tiled (map dim_view dims.now) (stmt_view body.now)) declared.old declared.new standings.old.items standings.new.items) }
{
    let outside = declared.innermost;
    step(place, declared, standings)?;
    declare_dims(alloc, dims, declared)?;
    inner_steps(alloc, body, declared, standings)?;
    declared.innermost = outside;
    step(place, declared, standings)
}

/// The steps of a `foreach_active`, which are those of a `foreach_unique` too.
#[cycle(statement)]
fn rounds_steps(
    alloc: Global,
    body: &Stmt,
    place: Place,
    name: &[u8],
    declared: &mut Declared,
    standings: &mut Vec<Standing>,
) -> Result<(), AllocError>
    ensures declares { OnOk result ((at : Place) → Declares declared.old.declarations.items declared.new.declarations.items
        (bindings_in (ParsedForEachActive place at name.now (stmt_view body.now)) (length declared.old.declarations.items))) }
    ensures stands { OnOk result ((at : Place) → Passes (ParsedForEachActive place at name.now (stmt_view body.now)) declared.old declared.new standings.old.items standings.new.items) }
{
    let outside = declared.innermost;
    step(place, declared, standings)?;
    declare(alloc, name, declared)?;
    inner_steps(alloc, body, declared, standings)?;
    declared.innermost = outside;
    step(place, declared, standings)
}

/// The steps of a statement that is a scope of its own.
#[cycle(statement)]
fn inner_steps(
    alloc: Global,
    stmt: &Stmt,
    declared: &mut Declared,
    standings: &mut Vec<Standing>,
) -> Result<(), AllocError>
    ensures declares { OnOk result (Declares declared.old.declarations.items declared.new.declarations.items (bindings_in (stmt_view stmt.now) (length declared.old.declarations.items))) }
    ensures stands { OnOk result ((site : Site) (steps : List NameStanding) → Stands declared.old standings.old.items site steps
        → Stands declared.new standings.new.items (past (locals_in (stmt_view stmt.now)) site) (steps ++ standings_in (stmt_view stmt.now) site)) }
    ensures outside { OnOk result (declared.new.innermost ≡ declared.old.innermost) }
{
    let outside = declared.innermost;
    statement_steps(alloc, stmt, declared, standings)?;
    declared.innermost = outside;
    Ok(())
}

/// The steps of statements, each after those before it, in the present scope.
#[cycle(statement)]
pub(crate) fn list_steps(
    alloc: Global,
    stmts: &[Stmt],
    declared: &mut Declared,
    standings: &mut Vec<Standing>,
) -> Result<(), AllocError>
    ensures declares { OnOk result (Declares declared.old.declarations.items declared.new.declarations.items (bindings_in_all (stmts_view stmts.now) (length declared.old.declarations.items))) }
    ensures stands { OnOk result ((site : Site) (steps : List NameStanding) → Stands declared.old standings.old.items site steps
        → Stands declared.new standings.new.items (after_all (stmts_view stmts.now) site) (steps ++ standings_in_all (stmts_view stmts.now) site)) }
{
    for stmt in stmts {
        statement_steps(alloc, stmt, declared, standings)?;
    }
    Ok(())
}
