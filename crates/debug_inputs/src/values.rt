//! The values of a line.
ghost use Rattle.std.specs.Prelude.{◌≡◌, ◌++◌, ◌∷◌, [], List, ℕ, ℤ, IfOk, OnOk};
ghost use Rattle.gang_model.specs.Debugger.Events.{Row};
ghost use Rattle.gang_model.specs.Texts.InputText.{Receiver, is_equals, row_with, values_of};
ghost use Rattle.gang_model.specs.Texts.Spellings.{words_of_line};
ghost use Rattle.typed_tree.specs.Views.{variable_view};
ghost use Rattle.debug_inputs.specs.Limited.{limited};
ghost use Rattle.debug_inputs.specs.LineValues.{IsMost, ReadsValues, ShowsValues};
ghost use Rattle.debug_inputs.specs.Rows.{AnswersRow};

use crate::fault::InputFault;
use crate::numbers::{is_value, number};
use debug_words::{Marks, next_word};
use gang_types::{IntType, wrap};
use input_rows::InputRow;
use std::alloc::{AllocError, Global};
use typed_tree::Variable;

/// The values of a line, in the words of a type, as far as there is room for them.
#[derive(Drop)]
pub(crate) struct Values {
    words: Vec<u64>,
    are_too_many: bool,
    are_of_type: bool,
}

/// The values that a text spells, none where a word of it is no value.
pub(crate) fn read_values(
    alloc: Global,
    value_type: IntType,
    most: u64,
    text: &[u8],
) -> Result<Option<Values>, AllocError>
    ensures { IfOk result (ReadsValues value_type most (values_of (words_of_line is_equals text.now))) }
{
    let mut values = Values {
        words: Vec::new(alloc),
        are_too_many: false,
        are_of_type: true,
    };
    let mut rest = text;
    while let Some((word, after)) = next_word(Marks::OfInputs, rest) {
        let Some(number) = number(word) else {
            return Ok(None);
        };
        values.add(value_type, most, number)?;
        rest = after;
    }
    Ok(Some(values))
}

impl Values {
    fn add(&mut self, value_type: IntType, most: u64, number: i128) -> Result<(), AllocError>
        ensures { OnOk result ((zs : List ℤ) → (z : ℤ) → number ≡ limited z → ShowsValues value_type most zs self.old → ShowsValues value_type most (zs ++ z ∷ []) self.new) }
    {
        self.are_of_type = self.are_of_type && is_value(value_type, number);
        if (self.words.len() as u64) < most {
            self.words.push(wrap(value_type, number))?;
        } else {
            self.are_too_many = true;
        }
        Ok(())
    }

    /// The row of these values.
    ///
    /// # Errors
    ///
    /// I1 where a scalar has not one value, I4 where there are too many, I3 where one is out of range.
    pub(crate) fn row(self, variable: &Variable, line: u32) -> Result<InputRow, InputFault>
        ensures { (receiver : Receiver) → (rows : List Row) → (zs : List ℤ) → (most : ℕ) → receiver.variable ≡ variable_view variable.now → IsMost receiver rows most
            → ShowsValues receiver.variable.type most zs self → AnswersRow receiver.variable (row_with line receiver rows zs) result }
    {
        if !variable.is_array && (self.words.len() != 1 || self.are_too_many) {
            return Err(InputFault::BadLine(line));
        }
        if self.are_too_many {
            return Err(InputFault::TooLarge(Some(line)));
        }
        if !self.are_of_type {
            return Err(InputFault::Range(line));
        }
        Ok(InputRow {
            var: variable.id,
            values: self.words,
        })
    }
}
