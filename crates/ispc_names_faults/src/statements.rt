//! The faults of names in statements.
ghost use Rattle.std.specs.Prelude.{◌≡◌, [], ◌++◌, ◌+◌, Bool, IfOk, OnOk, length, map, option_map};
ghost use Rattle.gang_types.specs.declared.places.Place.{Place};
ghost use Rattle.gang_model.specs.Source.Judged.{least_fault};
ghost use Rattle.gang_model.specs.Names.NameFaults as names;
ghost use Rattle.gang_model.specs.Source.Parsed.{ParsedFor, ParsedForEach, ParsedIfElse};
ghost use Rattle.gang_model.specs.Names.Scope as scope;
ghost use Rattle.source_tree.specs.Expressions.{expr_view};
ghost use Rattle.ispc_names_scopes.specs.Scopes.{site};
ghost use Rattle.source_tree.specs.Tree.{dim_view, segments_view, stmt_view, stmts_view};
ghost use Rattle.ispc_names_expressions.specs.MayStand.{allowed_view};
ghost use Rattle.ispc_names_faults.specs.Moved.{moved};

use gang_model::SourceRefusal;
use gang_types::Place;
use ispc_names_expressions::{
    Allowed, domain_head_fault, expression_fault, label_fault, round_head_fault, simple_fault,
    some_expression_fault,
};
use ispc_names_scopes::{FunctionNames, Scopes};
use source_answers::least;
use source_tree::{Dim, Expr, Segment, Stmt};
use std::alloc::{AllocError, Global};

type Found = Result<Option<SourceRefusal>, AllocError>;

/// The first fault of names in a statement. The scopes are then those that the next statement finds.
#[cycle(statement)]
pub(crate) fn statement_fault(
    alloc: Global,
    stmt: &Stmt,
    may: Allowed,
    functions: &FunctionNames,
    scopes: &mut Scopes,
) -> Found
    ensures fault { IfOk result (λ fault. fault ≡ least_fault (names.stmt_names (stmt_view stmt.now) (allowed_view functions.now may) (site scopes.old))) }
    ensures after { OnOk result (site scopes.new ≡ scope.after (stmt_view stmt.now) (site scopes.old)) }
    ensures outside { OnOk result (scopes.new.outside ≡ scopes.old.outside) }
{
    match stmt {
        Stmt::Block(stmts) => block_fault(alloc, stmts, may, functions, scopes),
        Stmt::If {
            test,
            first,
            other,
            ..
        } => match other {
            Some(other) => choice_fault(alloc, first, other, test, may, functions, scopes),
            None => tested_fault(alloc, first, test, may, functions, scopes),
        },
        Stmt::While { test, body, .. } | Stmt::Do { test, body, .. } => {
            tested_fault(alloc, body, test, may.in_loop(), functions, scopes)
        }
        Stmt::For {
            start,
            test,
            update,
            body,
            ..
        } => for_fault(alloc, start, update, body, test, may, functions, scopes),
        Stmt::Switch {
            selector,
            segments,
            ..
        } => Ok(least(
            expression_fault(selector, functions, scopes),
            segments_fault(alloc, segments, may.in_switch(), functions, scopes)?,
        )),
        Stmt::ForEach {
            place,
            dims,
            body,
            ..
        } => domain_fault(alloc, body, *place, dims, may, functions, scopes),
        Stmt::ForEachActive {
            name_place,
            name,
            body,
            ..
        } => rounds_fault(alloc, body, *name_place, name, may, functions, scopes),
        Stmt::ForEachUnique {
            name_place,
            name,
            value,
            body,
            ..
        } => Ok(least(
            expression_fault(value, functions, scopes),
            rounds_fault(alloc, body, *name_place, name, may, functions, scopes)?,
        )),
        Stmt::Empty
        | Stmt::Declare { .. }
        | Stmt::Assign { .. }
        | Stmt::Change { .. }
        | Stmt::Increment { .. }
        | Stmt::Call { .. }
        | Stmt::Break { .. }
        | Stmt::Continue { .. }
        | Stmt::Return { .. } => simple_fault(alloc, stmt, may, functions, scopes),
    }
}

/// The first fault of names in a block.
#[cycle(statement)]
fn block_fault(
    alloc: Global,
    stmts: &[Stmt],
    may: Allowed,
    functions: &FunctionNames,
    scopes: &mut Scopes,
) -> Found
    ensures fault { IfOk result (λ fault. fault ≡ least_fault (names.stmts_names (stmts_view stmts.now) (allowed_view functions.now may) (scope.enclosed (site scopes.old)))) }
    ensures after { OnOk result (scopes.new ≡ moved (scope.locals_in_all (stmts_view stmts.now)) scopes.old) }
{
    let mark = scopes.enter();
    let fault = body_fault(alloc, stmts, may, functions, scopes)?;
    scopes.leave(mark);
    Ok(fault)
}

/// The first fault of names in statements, each after those before it, in the present scope.
#[cycle(statement)]
pub(crate) fn body_fault(
    alloc: Global,
    stmts: &[Stmt],
    may: Allowed,
    functions: &FunctionNames,
    scopes: &mut Scopes,
) -> Found
    ensures fault { IfOk result (λ fault. fault ≡ least_fault (names.stmts_names (stmts_view stmts.now) (allowed_view functions.now may) (site scopes.old))) }
    ensures after { OnOk result (site scopes.new ≡ scope.after_all (stmts_view stmts.now) (site scopes.old)) }
    ensures outside { OnOk result (scopes.new.outside ≡ scopes.old.outside) }
{
    let mut first = None;
    for stmt in stmts {
        first = least(first, statement_fault(alloc, stmt, may, functions, scopes)?);
    }
    Ok(first)
}

/// The first fault of names in the segments of a switch, which have one scope: in their labels and their statements.
#[cycle(statement)]
fn segments_fault(
    alloc: Global,
    segments: &[Segment],
    may: Allowed,
    functions: &FunctionNames,
    scopes: &mut Scopes,
) -> Found
    ensures fault { IfOk result (λ fault. fault ≡ least_fault (names.segments_names (segments_view segments.now) [] (allowed_view functions.now may) (scope.enclosed (site scopes.old)))) }
    ensures after { OnOk result (scopes.new ≡ moved (scope.locals_in_segments (segments_view segments.now)) scopes.old) }
{
    let mark = scopes.enter();
    let mut first = None;
    for (number, segment) in segments.iter().enumerate() {
        let in_label = label_fault(segment.place, segment.label, &segments[..number]);
        let in_body = body_fault(alloc, &segment.body, may, functions, scopes)?;
        first = least(first, least(in_label, in_body));
    }
    scopes.leave(mark);
    Ok(first)
}

/// The first fault of names in a statement that is a scope of its own.
#[cycle(statement)]
fn inner_fault(
    alloc: Global,
    stmt: &Stmt,
    may: Allowed,
    functions: &FunctionNames,
    scopes: &mut Scopes,
) -> Found
    ensures fault { IfOk result (λ fault. fault ≡ least_fault (names.stmt_names (stmt_view stmt.now) (allowed_view functions.now may) (scope.enclosed (site scopes.old)))) }
    ensures after { OnOk result (scopes.new ≡ moved (scope.locals_in (stmt_view stmt.now)) scopes.old) }
{
    let mark = scopes.enter();
    let fault = statement_fault(alloc, stmt, may, functions, scopes)?;
    scopes.leave(mark);
    Ok(fault)
}

/// The first fault of names in the update of a `for`, after which nothing is in scope that it declares.
#[cycle(statement)]
fn update_fault(
    alloc: Global,
    stmt: &Stmt,
    may: Allowed,
    functions: &FunctionNames,
    scopes: &mut Scopes,
) -> Found
    ensures fault { IfOk result (λ fault. fault ≡ least_fault (names.stmt_names (stmt_view stmt.now) (allowed_view functions.now may) (site scopes.old))) }
    ensures after { OnOk result (scopes.new ≡ moved (scope.locals_in (stmt_view stmt.now)) scopes.old) }
{
    let mark = scopes.mark();
    let fault = statement_fault(alloc, stmt, may, functions, scopes)?;
    scopes.leave(mark);
    Ok(fault)
}

/// The first fault of names in a test and in the statement that it decides about.
#[cycle(statement)]
fn tested_fault(
    alloc: Global,
    stmt: &Stmt,
    test: &Expr,
    may: Allowed,
    functions: &FunctionNames,
    scopes: &mut Scopes,
) -> Found
    ensures fault { IfOk result (λ fault. fault ≡ least_fault (names.names_in (expr_view test.now) functions.now scopes.old.environment
        ++ names.stmt_names (stmt_view stmt.now) (allowed_view functions.now may) (scope.enclosed (site scopes.old)))) }
    ensures after { OnOk result (scopes.new ≡ moved (scope.locals_in (stmt_view stmt.now)) scopes.old) }
{
    let in_test = expression_fault(test, functions, scopes);
    let in_stmt = inner_fault(alloc, stmt, may, functions, scopes)?;
    Ok(least(in_test, in_stmt))
}

/// The first fault of names in an `if` with an `else`.
#[cycle(statement)]
fn choice_fault(
    alloc: Global,
    first: &Stmt,
    other: &Stmt,
    test: &Expr,
    may: Allowed,
    functions: &FunctionNames,
    scopes: &mut Scopes,
) -> Found
    ensures fault { IfOk result (λ fault. (place : Place) → fault ≡ least_fault (names.stmt_names (ParsedIfElse place (expr_view test.now) (stmt_view first.now) (stmt_view other.now))
        (allowed_view functions.now may) (site scopes.old))) }
    ensures after { OnOk result (scopes.new ≡ moved (scope.locals_in (stmt_view first.now) + scope.locals_in (stmt_view other.now)) scopes.old) }
{
    let in_test = expression_fault(test, functions, scopes);
    let in_first = inner_fault(alloc, first, may, functions, scopes)?;
    let in_other = inner_fault(alloc, other, may, functions, scopes)?;
    Ok(least(in_test, least(in_first, in_other)))
}

/// The first fault of names in a `for`: its start is in the scope of the rest.
#[cycle(statement)]
fn for_fault(
    alloc: Global,
    start: &Stmt,
    update: &Stmt,
    body: &Stmt,
    test: &Option<Expr>,
    may: Allowed,
    functions: &FunctionNames,
    scopes: &mut Scopes,
) -> Found
    ensures fault { IfOk result (λ fault. (place : Place) → fault ≡ least_fault (names.stmt_names (ParsedFor place (stmt_view start.now) (option_map expr_view test.now) (stmt_view update.now) (stmt_view body.now))
        (allowed_view functions.now may) (site scopes.old))) }
    ensures after { OnOk result (scopes.new ≡ moved (scope.locals_in (stmt_view start.now) + scope.locals_in (stmt_view update.now) + scope.locals_in (stmt_view body.now)) scopes.old) }
{
    let mark = scopes.enter();
    let in_start = statement_fault(alloc, start, may, functions, scopes)?;
    let in_test = some_expression_fault(test, functions, scopes);
    let in_update = update_fault(alloc, update, may, functions, scopes)?;
    let in_body = inner_fault(alloc, body, may.in_loop(), functions, scopes)?;
    scopes.leave(mark);
    Ok(least(least(in_start, in_test), least(in_update, in_body)))
}

/// The first fault of names in a `foreach`: its head and its body.
#[cycle(statement)]
fn domain_fault(
    alloc: Global,
    body: &Stmt,
    place: Place,
    dims: &[Dim],
    may: Allowed,
    functions: &FunctionNames,
    scopes: &mut Scopes,
) -> Found
    ensures fault { IfOk result (λ fault. (is_tiled : Bool) → fault ≡ least_fault (names.stmt_names (ParsedForEach place is_tiled (map dim_view dims.now) (stmt_view body.now))
        (allowed_view functions.now may) (site scopes.old))) }
    ensures after { OnOk result (scopes.new ≡ moved (length dims.now + scope.locals_in (stmt_view body.now)) scopes.old) }
{
    let mark = scopes.mark();
    let in_head = domain_head_fault(alloc, place, dims, may, functions, scopes)?;
    let in_body = inner_fault(alloc, body, may.in_domain_round(), functions, scopes)?;
    scopes.leave(mark);
    Ok(least(in_head, in_body))
}

/// The first fault of names in a `foreach_active` or `foreach_unique`, but for the values that it goes over.
#[cycle(statement)]
fn rounds_fault(
    alloc: Global,
    body: &Stmt,
    place: Place,
    name: &[u8],
    may: Allowed,
    functions: &FunctionNames,
    scopes: &mut Scopes,
) -> Found
    ensures fault { IfOk result (λ fault. fault ≡ least_fault (names.twice (scope.enclosed (site scopes.old)) place name.now
        ++ names.stmt_names (stmt_view body.now) (names.in_round (allowed_view functions.now may)) (scope.in_rounds name.now (site scopes.old)))) }
    ensures after { OnOk result (scopes.new ≡ moved (1 + scope.locals_in (stmt_view body.now)) scopes.old) }
{
    let mark = scopes.mark();
    let in_head = round_head_fault(alloc, place, name, scopes)?;
    let in_body = inner_fault(alloc, body, may.in_round(), functions, scopes)?;
    scopes.leave(mark);
    Ok(least(in_head, in_body))
}
