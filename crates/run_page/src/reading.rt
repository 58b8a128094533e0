//! What is read of a machine at a moment.
ghost use Rattle.std.specs.Prelude.{◌≡◌, ◌<◌, ◌∷◌, [], ◌+◌, IfOk, IfSome, length, map, slice_index, take};
ghost use Rattle.gang_model.specs.Debugger.Debugger.{Debugger, Setting, now};
ghost use Rattle.gang_model.specs.Types.Tree as model;
ghost use Rattle.debug_traits.specs.Frames.{ShowsNextAt, listed_at, listed_parameters_at};
ghost use Rattle.debug_traits.specs.Machines.{file_variables};
ghost use Rattle.run_page.specs.Rows.{AddsRows, AreDistinct, AreRows, Grows, IsShownIn, ShowsNamedIn, all_seen, at_depth, picked, sight_view};
ghost use Rattle.run_page.specs.Sights.{words_at};

use crate::variables::{Variable, number_of};
use crate::views::Row;
use debug_traits::{FramedMachine, NamedVariable, NextLocal, Shown};
use std::alloc::{AllocError, Global};

/// Which of the variables in scope in a frame.
#[derive(Clone, Copy, Debug)]
enum Scoped {
    Parameters,
    /// All others.
    Locals,
}

/// The first words, so many at most, of each variable that can be seen: those of the file, and those of each frame, the entry's first.
///
/// # Errors
///
/// Out of memory.
pub(crate) fn read_rows<M: FramedMachine>(
    alloc: Global,
    machine: &M,
    most_words: usize,
    variables: &mut Vec<Variable>,
) -> Result<Vec<Row>, AllocError>
    ensures grows { Grows (map sight_view variables.old.items) (map sight_view variables.new.items) }
    ensures distinct { AreDistinct (map sight_view variables.old.items) → AreDistinct (map sight_view variables.new.items) }
    ensures rows { IfOk result (λ rows. (s : Setting) (d : Debugger) → M.stands machine.now s d
        → AreRows (map sight_view variables.new.items) most_words (now s d) rows.items (all_seen s.program (now s d))) }
{
    let mut rows = Vec::new(alloc);
    read_file(alloc, machine, most_words, variables, &mut rows)?;
    for below in 0..frame_count(machine) {
        let depth = below + 1;
        read_scoped(
            alloc,
            machine,
            Scoped::Parameters,
            depth,
            most_words,
            variables,
            &mut rows,
        )?;
        read_scoped(
            alloc,
            machine,
            Scoped::Locals,
            depth,
            most_words,
            variables,
            &mut rows,
        )?;
    }
    Ok(rows)
}

/// How many frames there are.
pub(crate) fn frame_count<M: FramedMachine>(machine: &M) -> usize
    ensures { (s : Setting) (d : Debugger) → M.stands machine.now s d → result ≡ length (now s d).frames }
{
    match machine.position() {
        Some(position) => position.depth,
        None => 0,
    }
}

/// Reads the variables of the file.
fn read_file<M: FramedMachine>(
    alloc: Global,
    machine: &M,
    most_words: usize,
    variables: &mut Vec<Variable>,
    rows: &mut Vec<Row>,
) -> Result<(), AllocError>
    ensures grows { Grows (map sight_view variables.old.items) (map sight_view variables.new.items) }
    ensures distinct { AreDistinct (map sight_view variables.old.items) → AreDistinct (map sight_view variables.new.items) }
    ensures rows { IfOk result (λ _. (s : Setting) (d : Debugger) → M.stands machine.now s d
        → AddsRows (map sight_view variables.old.items) (map sight_view variables.new.items) most_words (now s d) rows.old.items rows.new.items
        (at_depth 0 (file_variables s))) }
{
    let mut number = 0;
    while let Some(named) = machine.file_variable(number) {
        read_row(alloc, machine, 0, named, most_words, variables, rows)?;
        number += 1;
    }
    Ok(())
}

/// Reads the variables of a kind in scope in the frame at a depth.
fn read_scoped<M: FramedMachine>(
    alloc: Global,
    machine: &M,
    which: Scoped,
    depth: usize,
    most_words: usize,
    variables: &mut Vec<Variable>,
    rows: &mut Vec<Row>,
) -> Result<(), AllocError>
    requires { 0 < depth }
    ensures grows { Grows (map sight_view variables.old.items) (map sight_view variables.new.items) }
    ensures distinct { AreDistinct (map sight_view variables.old.items) → AreDistinct (map sight_view variables.new.items) }
    ensures rows { IfOk result (λ _. (s : Setting) (d : Debugger) → M.stands machine.now s d
        → AddsRows (map sight_view variables.old.items) (map sight_view variables.new.items) most_words (now s d) rows.old.items rows.new.items
        (at_depth depth (picked which (listed_parameters_at s d depth) (listed_at s d depth)))) }
{
    let mut from = 0;
    while let Some(next) = next_scoped(machine, which, depth, from) {
        let named = variable_here(next);
        read_row(alloc, machine, depth, named, most_words, variables, rows)?;
        from = place_after(next);
    }
    Ok(())
}

/// The first variable of a kind in scope in the frame at a depth, from a place on.
fn next_scoped<M: FramedMachine>(
    machine: &M,
    which: Scoped,
    depth: usize,
    from: usize,
) -> Option<NextLocal<'_>>
    ensures all { (s : Setting) (d : Debugger) → M.stands machine.now s d
        → picked which (M.parameters_at machine.now s d depth 0) (M.locals_at machine.now s d depth 0) ≡ picked which (listed_parameters_at s d depth) (listed_at s d depth) }
    ensures next { (s : Setting) (d : Debugger) → M.stands machine.now s d
        → ShowsNextAt s d depth (λ place. picked which (M.parameters_at machine.now s d depth place) (M.locals_at machine.now s d depth place)) from result }
    ensures further { IfSome result (λ next. from < next.next) }
{
    match which {
        Scoped::Parameters => machine.next_parameter_at(depth, from),
        Scoped::Locals => machine.next_local_at(depth, from),
    }
}

/// Reads the first words of a variable of the frame at a depth, or of the file at depth 0.
fn read_row<M: FramedMachine>(
    alloc: Global,
    machine: &M,
    depth: usize,
    named: NamedVariable<'_>,
    most_words: usize,
    variables: &mut Vec<Variable>,
    rows: &mut Vec<Row>,
) -> Result<(), AllocError>
    ensures grows { Grows (map sight_view variables.old.items) (map sight_view variables.new.items) }
    ensures distinct { AreDistinct (map sight_view variables.old.items) → AreDistinct (map sight_view variables.new.items) }
    ensures rows { IfOk result (λ _. (s : Setting) (d : Debugger) (v : model.Variable) → M.stands machine.now s d → ShowsNamedIn s d depth v named.entry
        → AddsRows (map sight_view variables.old.items) (map sight_view variables.new.items) most_words (now s d) rows.old.items rows.new.items
        ((depth, v) ∷ [])) }
    ensures longer { IfOk result (λ _. length rows.new.items ≡ length rows.old.items + 1) }
{
    let guess = match rows.last() {
        Some(row) => row.variable.saturating_add(1),
        None => 0,
    };
    let variable = number_of(alloc, depth, named, guess, variables)?;
    let words = read_words(alloc, machine, depth, named.shown, most_words)?;
    rows.push(Row { variable, words })?;
    Ok(())
}

/// The first words, so many at most, of a variable of the frame at a depth, or of the file at depth 0.
fn read_words<M: FramedMachine>(
    alloc: Global,
    machine: &M,
    depth: usize,
    shown: Shown,
    most_words: usize,
) -> Result<Vec<u64>, AllocError>
    ensures { IfOk result (λ words. (s : Setting) (d : Debugger) (v : model.Variable) → M.stands machine.now s d → IsShownIn s d depth v shown
        → words.items ≡ take most_words (words_at depth (now s d) v)) }
{
    let mut words = Vec::new(alloc);
    for index in 0..shown.count.min(most_words) {
        words.push(word_of(machine, depth, shown, index))?;
    }
    Ok(words)
}

/// A word of a variable of the frame at a depth, or of the file at depth 0.
fn word_of<M: FramedMachine>(machine: &M, depth: usize, shown: Shown, index: usize) -> u64
    ensures { (s : Setting) (d : Debugger) (v : model.Variable) → M.stands machine.now s d → IsShownIn s d depth v shown → index < shown.count
        → result ≡ slice_index (words_at depth (now s d) v) index }
{
    if depth == 0 {
        return machine.word(shown, index);
    }
    machine.word_at(depth, shown, index)
}

/// The place from which on the variables after this one are.
fn place_after(local: NextLocal<'_>) -> usize
    ensures { result ≡ local.entry.next }
{
    local.next
}

/// The variable, without the place behind it.
fn variable_here(local: NextLocal<'_>) -> NamedVariable<'_>
    ensures { result ≡ local.entry.variable }
{
    local.variable
}
