//! The rows of an input.
ghost use Rattle.std.specs.Prelude.{◌≡◌, ◌≤◌, ◌+◌, ◌++◌, ◌∷◌, [], ℕ, List, length, map, OnOk};
ghost use Rattle.gang_model.specs.Debugger.Events.{Row};
ghost use Rattle.gang_model.specs.Texts.InputText as text;
ghost use Rattle.gang_model.specs.Texts.Spellings.{words_of_line};
ghost use Rattle.gang_model.specs.Texts.Transcript.{lines_of};
ghost use Rattle.typed_tree.specs.Views.{program_view, variable_view};
ghost use Rattle.debug_inputs.specs.Lines.{Completes, ReadsLines, ReadsRow, Stands, lines_then};
ghost use Rattle.debug_inputs.specs.LineValues.{IsMost};
ghost use Rattle.debug_inputs.specs.Remaining.{receiver_view};
ghost use Rattle.debug_inputs.specs.Rows.{AnswersInput};

use crate::fault::InputFault;
use crate::lines::{is_skipped, name_and_values, next_line};
use crate::parameters::entry_parameters;
use crate::receivers::{Receiver, Receivers};
use crate::values::read_values;
use gang_types::FuncId;
use input_rows::InputRow;
use std::alloc::{AllocError, Global};
use typed_tree::{Program, Variable};

/// The most bytes of an input.
pub const MOST_BYTES: usize = 4_194_304;

/// The most words of all arrays that the entry is given.
const MOST_WORDS: u64 = 1 << 20;

/// What is read so far: what may still have a row, how many words of entry arrays are left, and the rows.
#[derive(Drop)]
pub(crate) struct Reading<'a> {
    remaining: Receivers<'a>,
    left: u64,
    rows: Vec<InputRow>,
}

/// The rows of an input text for an entry, in the order of its lines: `NAME = VALUE VALUE ..` for a parameter of the entry
/// or a uniform, not constant variable of the file.
///
/// # Errors
///
/// The first refusal: I4 for more than 4,194,304 bytes; of the lines in order, for each I1 BadLine, I4 TooLarge, I3 Range;
/// I2 for the first parameter without a row. Out of memory.
pub fn read_inputs(
    alloc: Global,
    bytes: &[u8],
    program: &Program,
    entry: FuncId,
) -> Result<Vec<InputRow>, InputFault>
    ensures { AnswersInput (text.rows_of (program_view program.now) entry.0 bytes.now) result }
{
    if bytes.len() > MOST_BYTES {
        return Err(InputFault::TooLarge(None));
    }
    let parameters = entry_parameters(alloc, program, entry)?;
    let mut reading = Reading {
        remaining: Receivers::new(alloc, &parameters, &program.globals)?,
        left: MOST_WORDS,
        rows: Vec::new(alloc),
    };
    reading.read_lines(alloc, bytes)?;
    reading.complete(alloc, &parameters)?;
    Ok(reading.rows)
}

impl<'a> Reading<'a> {
    fn read_lines(&mut self, alloc: Global, bytes: &[u8]) -> Result<(), InputFault>
        requires { length bytes.now ≤ 4194304 }
        ensures { (receivers : List text.Receiver) → (rows : List Row) → Stands receivers rows self.old
            → ReadsLines receivers (lines_then receivers 1 rows (lines_of bytes.now)) self.new result }
    {
        let mut number = 1u32;
        let mut rest = Some(bytes);
        while let Some(text) = rest {
            let (line, after) = next_line(text);
            self.read_line(alloc, number, line)?;
            number += 1;
            rest = after;
        }
        Ok(())
    }

    fn read_line(&mut self, alloc: Global, number: u32, line: &[u8]) -> Result<(), InputFault>
        ensures { (receivers : List text.Receiver) → (rows : List Row) → Stands receivers rows self.old
            → ReadsLines receivers (text.after_line (text.is_skipped line.now) receivers number rows line.now) self.new result }
    {
        if is_skipped(line) {
            Ok(())
        } else {
            self.read_row(alloc, number, line)
        }
    }

    fn read_row(&mut self, alloc: Global, number: u32, line: &[u8]) -> Result<(), InputFault>
        ensures { (receivers : List text.Receiver) → (rows : List Row) → Stands receivers rows self.old
            → ReadsRow receivers rows (text.row_of receivers number rows (words_of_line text.is_equals line.now)) self.new result }
    {
        let Some((name, text)) = name_and_values(line) else {
            return Err(InputFault::BadLine(number));
        };
        let Some(receiver) = self.remaining.find(name) else {
            return Err(InputFault::BadLine(number));
        };
        let variable = receiver.variable;
        let most = self.most(receiver);
        let Some(values) = read_values(alloc, variable.value_type, most, text)? else {
            return Err(InputFault::BadLine(number));
        };
        let row = values.row(variable, number)?;
        self.add(alloc, variable, row)?;
        Ok(())
    }

    /// The most values of a row.
    fn most(&self, receiver: Receiver<'a>) -> u64
        ensures { (receivers : List text.Receiver) → (rows : List Row) → Stands receivers rows self.now → IsMost (receiver_view receiver.entry) rows result }
    {
        if receiver.variable.is_array {
            receiver.most.unwrap_or(self.left)
        } else {
            1
        }
    }

    /// One more row, of a variable that has none yet.
    fn add(&mut self, alloc: Global, variable: &Variable, row: InputRow) -> Result<(), AllocError>
        ensures { OnOk result ((receivers : List text.Receiver) → (rows : List Row) → variable.now.id ≡ row.var → Stands receivers rows self.old
            → Stands receivers (rows ++ record { variable = variable_view variable.now; words = row.values.items } ∷ []) self.new) }
    {
        self.remaining.close(alloc, &variable.name)?;
        self.left = self.left.saturating_sub(entry_words(variable, &row));
        self.rows.push(row)?;
        Ok(())
    }

    /// Whether each parameter has a row.
    fn complete(&self, alloc: Global, parameters: &[&Variable]) -> Result<(), InputFault>
        ensures { (others : List text.Receiver) → (rows : List Row) → let vs = map (λ v. variable_view v.now) parameters.now in
            Stands (map text.parameter_receiver vs ++ others) rows self.now → Completes (text.complete vs rows) rows result }
    {
        for parameter in parameters {
            if self.remaining.find(&parameter.name).is_some() {
                return Err(InputFault::Missing(parameter.name.to_vec(alloc)?));
            }
        }
        Ok(())
    }
}

/// How many words of entry arrays a row has.
fn entry_words(variable: &Variable, row: &InputRow) -> u64
    ensures { result ≡ text.entry_words (record { variable = variable_view variable.now; words = row.now.values.items } ∷ []) }
{
    if variable.is_array && variable.is_parameter {
        row.values.len() as u64
    } else {
        0
    }
}
