//! The words that the rows of an input give at the beginning of a run.
ghost use Rattle.std.specs.Prelude.{◌≡◌, ◌≤◌, true, [], List, IfOk, count_by, find, length, map, option_map, slice_get};
ghost use Rattle.gang_types.specs.Masks.{IsGangWidth};
ghost use Rattle.gang_model.specs.Debugger.Events.{Row};
ghost use Rattle.gang_model.specs.Types.Tree.{Function as ModelFunction};
ghost use Rattle.codegen.specs.Programs.{variables_of};
ghost use Rattle.input_rows.specs.Inputs.{entry_length, entry_lengths, is_own};
ghost use Rattle.input_rows.specs.Rows.{AreRows};
ghost use Rattle.typed_tree.specs.Views.{variable_view};
ghost use Rattle.machine_states.specs.GivenRows.{FitsParameter, FitsRow, GivesParameter, GivesRow, GivesWords};
ghost use Rattle.machine_states.specs.Variables.{is_array_of, own_of, parameters_of};
ghost use Rattle.machine_words.specs.Views.{region_view};
ghost use Rattle.machine_words.specs.Words.{AreLaid, regions_in};
ghost use Rattle.frame_steps.specs.Standing.{AreFor};
ghost use Rattle.machine_steps.specs.Beginning.{AreArrayRows, AreChanged, GivesRows, HaveEntryLengths, MayBegin};

use frame_steps::CompiledProgram;
use gang_types::{Mask, VarId};
use input_rows::InputRow;
use machine_words::{MachineWords, Region, View, view_words};
use std::alloc::{AllocError, Global};
use typed_tree::{Program, Variable};
use undo_log::Timeline;

/// The lengths of the arrays that an entry is given by these rows: of each parameter how many words its row has, if it is an array, and
/// else 0.
///
/// # Errors
///
/// Out of memory.
pub fn entry_lengths(
    alloc: Global,
    program: &Program,
    entry: usize,
    rows: &[InputRow],
) -> Result<Vec<usize>, AllocError>
    ensures { (f : ModelFunction) (given : List Row) → MayBegin program.now entry f given rows.now
        → IfOk result (λ lengths. lengths.items ≡ entry_lengths (parameters_of (variables_of program.now) entry) given) }
{
    let mut lengths = Vec::new(alloc);
    let count = parameter_count(variables_of(program, entry));
    for number in 0..count {
        lengths.push(entry_length(program, entry, number, rows))?;
    }
    Ok(lengths)
}

/// The variables of a function, none where there is no such function.
fn variables_of(program: &Program, function: usize) -> &[Variable]
    ensures { map variable_view result.now ≡ own_of (variables_of program.now) function }
{
    match program.functions.get(function) {
        Some(function) => &function.variables,
        None => &[],
    }
}

/// How many of variables are parameters.
fn parameter_count(variables: &[Variable]) -> usize
    ensures { result ≡ count_by (λ v. v.is_parameter) variables.now }
{
    variables
        .iter()
        .filter(|variable| variable.is_parameter)
        .count()
}

/// Whether a variable of a function is an array.
fn is_array(program: &Program, function: usize, number: usize) -> bool
    ensures { result ≡ is_array_of (slice_get (own_of (variables_of program.now) function) number) }
{
    match variables_of(program, function).get(number) {
        Some(variable) => variable.is_array,
        None => false,
    }
}

/// How many words the row of an array parameter has, 0 of a scalar.
fn entry_length(program: &Program, entry: usize, number: usize, rows: &[InputRow]) -> usize
    ensures { (f : ModelFunction) (given : List Row) → MayBegin program.now entry f given rows.now → result ≡ entry_length given number }
{
    if is_array(program, entry, number) {
        row_length(number, rows)
    } else {
        0
    }
}

/// How many words the row of an array parameter has, 0 where it has none.
fn row_length(number: usize, rows: &[InputRow]) -> usize
    ensures { (given : List Row) → AreRows given rows.now → AreArrayRows given number → result ≡ entry_length given number }
{
    match row_of(number, rows) {
        Some(row) => row.values.len(),
        None => 0,
    }
}

/// The first row of a parameter of this number.
fn row_of(number: usize, rows: &[InputRow]) -> Option<&InputRow>
    ensures { option_map (λ row. row.now) result ≡ find (λ row. is_own number row.var) rows.now }
{
    rows.iter().find(|row| is_row_of(row, number))
}

/// Whether a row is that of a parameter of this number.
fn is_row_of(row: &InputRow, number: usize) -> bool
    ensures { result ≡ is_own number row.now.var }
{
    match row.var {
        VarId::File(_) => false,
        VarId::Local(parameter) => parameter == number,
    }
}

/// Gives each row's variable its words.
pub(crate) fn give_rows<const W: usize, T: Timeline + Drop>(
    compiled: &CompiledProgram,
    entry: usize,
    rows: &[InputRow],
    words: &mut MachineWords<T>,
)
    requires lie { AreFor T.history W compiled.now words.old }
    requires fresh { (T.history words.old.store.timeline).past ≡ [] }
    requires rows { (f : ModelFunction) × (given : List Row) × MayBegin compiled.now.program entry f given rows.now
        × HaveEntryLengths (regions_in T.history W words.old) given }
    ensures { GivesRows T.history W compiled.now entry rows.now words.old words.new }
{
    for row in rows {
        give_row::<W, T>(compiled, entry, row, words);
    }
}

/// Gives a row's variable its words.
fn give_row<const W: usize, T: Timeline + Drop>(
    compiled: &CompiledProgram,
    entry: usize,
    row: &InputRow,
    words: &mut MachineWords<T>,
)
    requires width { IsGangWidth W }
    requires laid { AreLaid T.history W words.old }
    requires fresh { (T.history words.old.store.timeline).past ≡ [] }
    requires fits { FitsRow (variables_of compiled.now.program) W entry (regions_in T.history W words.old) row.now.var row.now.values.items }
    ensures { AreChanged T.history W (GivesRow (variables_of compiled.now.program) W entry row.now.var row.now.values.items) words.old words.new }
{
    match row.var {
        VarId::File(number) => give_words::<W, T>(Region::File(number), &row.values, words),
        VarId::Local(number) if is_array(&compiled.program, entry, number) => {
            give_array::<W, T>(number, &row.values, words)
        }
        VarId::Local(number) => give_words::<W, T>(Region::Local(0, number), &row.values, words),
    }
}

/// Writes the first words of a region.
fn give_words<const W: usize, T: Timeline + Drop>(
    region: Region,
    values: &[u64],
    words: &mut MachineWords<T>,
)
    requires width { IsGangWidth W }
    requires laid { AreLaid T.history W words.old }
    requires fresh { (T.history words.old.store.timeline).past ≡ [] }
    requires fits { length values.now ≤ length (regions_in T.history W words.old (region_view region)) }
    ensures { AreChanged T.history W (GivesWords (region_view region) values.now) words.old words.new }
{
    words.fill::<W>(region, values);
}

/// Gives an array parameter an array of these words, all of which it stands for.
fn give_array<const W: usize, T: Timeline + Drop>(
    number: usize,
    values: &[u64],
    words: &mut MachineWords<T>,
)
    requires width { IsGangWidth W }
    requires laid { AreLaid T.history W words.old }
    requires fresh { (T.history words.old.store.timeline).past ≡ [] }
    requires fits { FitsParameter W (regions_in T.history W words.old) number true values.now }
    ensures { AreChanged T.history W (GivesParameter W number true values.now) words.old words.new }
{
    let view = View {
        array: VarId::Local(number),
        first: 0,
        len: values.len(),
    };
    words.fill::<W>(Region::Entry(number), values);
    words.set_lanes::<W>(Region::Local(0, number), Mask::all::<W>(), view_words(view));
}
