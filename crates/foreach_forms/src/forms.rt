//! The foreach forms of the functions of a program, with the numbers of their steps.
ghost use Rattle.std.specs.Prelude.{◌≡◌, ◌+◌, ◌++◌, IfOk, slice_index_or};
ghost use Rattle.gang_model.specs.Running.Step.{steps_of};
ghost use Rattle.typed_tree.specs.Views.{program_view, rounds_view, segments_view, stmt_view, stmts_view};
ghost use Rattle.foreach_forms.specs.Forms.{forms_in, forms_of, lines_at, word_of};

use ispc_names_table::Standing;
use std::alloc::{AllocError, Global};
use typed_tree::{Program, Rounds, Segment, Stmt};

/// The word that a foreach form begins with.
#[derive(Clone, Copy, Debug, PartialEq, Eq, Drop)]
pub enum Word {
    ForEach,
    Tiled,
    Active,
    Unique,
}

/// A foreach form: its line, the number of its function, those of its head's step and of its rounds' step in the function, and its word.
/// The steps of its body have the numbers between these two.
#[derive(Clone, Copy, Debug, PartialEq, Eq, Drop)]
pub struct Form {
    pub line: u32,
    pub function: usize,
    pub head: usize,
    pub rounds: usize,
    pub word: Word,
}

/// The foreach forms of a program, function by function: those in the body of another stand before it.
///
/// # Errors
///
/// Out of memory.
pub fn forms_of(alloc: Global, program: &Program) -> Result<Vec<Form>, AllocError>
    ensures { IfOk result (λ forms. forms.items ≡ forms_of (program_view program.now)) }
{
    let mut forms = Vec::new(alloc);
    for (number, function) in program.functions.iter().enumerate() {
        let standings = function.scopes.standings.as_slice();
        add_all(&function.body, number, standings, 0, &mut forms)?;
    }
    Ok(forms)
}

fn word_of(rounds: &Rounds) -> Word
    ensures { result ≡ word_of (rounds_view rounds.now) }
{
    match rounds {
        Rounds::Rows(_) => Word::ForEach,
        Rounds::Tiles(_) => Word::Tiled,
        Rounds::EachLane(_) => Word::Active,
        Rounds::EachValue { index: _, value: _ } => Word::Unique,
    }
}

/// The line of a step, 0 where there is no such step.
fn line_at(standings: &[Standing], number: usize) -> u32
    ensures { result ≡ slice_index_or (lines_at standings.now) number 0 }
{
    match standings.get(number) {
        Some(standing) => standing.place.line,
        None => 0,
    }
}

/// One step more. No memory has room for the points of more steps than a number counts.
fn one_more(count: usize) -> Result<usize, AllocError>
    ensures { IfOk result (λ sum. sum ≡ count + 1) }
{
    count.checked_add(1).ok_or(AllocError)
}

/// Adds the forms of a statement, which has so many steps before it, and gives the steps with its own.
#[cycle(adding)]
fn add(
    statement: &Stmt,
    function: usize,
    standings: &[Standing],
    count: usize,
    forms: &mut Vec<Form>,
) -> Result<usize, AllocError>
    ensures steps { IfOk result (λ sum. sum ≡ count + steps_of (stmt_view statement.now)) }
    ensures forms { IfOk result (λ _. forms.new.items ≡ forms.old.items ++ forms_in function (lines_at standings.now) (stmt_view statement.now)) }
{
    match statement {
        Stmt::Empty => Ok(count),
        Stmt::Block(statements) => add_all(statements, function, standings, count, forms),
        Stmt::Then { first, rest } => {
            let count = add(first, function, standings, count, forms)?;
            add(rest, function, standings, count, forms)
        }
        Stmt::If { first, other, .. } => {
            let count = add(first, function, standings, one_more(count)?, forms)?;
            add(other, function, standings, count, forms)
        }
        Stmt::Loop { update, body, .. } => {
            let count = add(body, function, standings, count, forms)?;
            one_more(add(update, function, standings, count, forms)?)
        }
        Stmt::BodyFirst { body, .. } => one_more(add(body, function, standings, count, forms)?),
        Stmt::Switch { segments, .. } => {
            add_segments(segments, function, standings, one_more(count)?, forms)
        }
        Stmt::ForEach { step, rounds, body } => {
            let steps = add(body, function, standings, 0, forms)?;
            let last = one_more(step.checked_add(steps).ok_or(AllocError)?)?;
            forms.push(Form {
                line: line_at(standings, *step),
                function,
                head: *step,
                rounds: last,
                word: word_of(rounds),
            })?;
            let count = one_more(one_more(count)?)?;
            count.checked_add(steps).ok_or(AllocError)
        }
        _ => one_more(count),
    }
}

/// Adds the forms of a switch's segments.
#[cycle(adding)]
fn add_segments(
    segments: &[Segment],
    function: usize,
    standings: &[Standing],
    count: usize,
    forms: &mut Vec<Form>,
) -> Result<usize, AllocError>
    ensures steps { IfOk result (λ sum. sum ≡ count + steps_of (segments_view segments.now)) }
    ensures forms { IfOk result (λ _. forms.new.items ≡ forms.old.items ++ forms_in function (lines_at standings.now) (segments_view segments.now)) }
{
    let mut count = count;
    for segment in segments {
        count = add_all(&segment.body, function, standings, count, forms)?;
    }
    Ok(count)
}

/// Adds the forms of statements in order.
#[cycle(adding)]
fn add_all(
    statements: &[Stmt],
    function: usize,
    standings: &[Standing],
    count: usize,
    forms: &mut Vec<Form>,
) -> Result<usize, AllocError>
    ensures steps { IfOk result (λ sum. sum ≡ count + steps_of (stmts_view statements.now)) }
    ensures forms { IfOk result (λ _. forms.new.items ≡ forms.old.items ++ forms_in function (lines_at standings.now) (stmts_view statements.now)) }
{
    let mut count = count;
    for statement in statements {
        count = add(statement, function, standings, count, forms)?;
    }
    Ok(count)
}
