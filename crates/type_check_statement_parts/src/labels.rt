//! The labels of a `switch`.
ghost use Rattle.std.specs.Prelude.{◌≡◌};
ghost use Rattle.gang_model.specs.Source.Judged.{answer_of};
ghost use Rattle.gang_model.specs.Types.Statements as model;

use gang_model::{Label, RefusalNumber, SourceRefusal};
use gang_types::{IntType, Place, value, wrap};
use source_answers::Answer;

/// The whole number of a label.
fn label_number(label: Label) -> i128
    ensures { result ≡ model.label_number label }
{
    let number = label.value as i128;
    if label.is_negative { -number } else { number }
}

/// The word of a label at this place for a selector of this type, none for `default`; S8 where the type has no such value.
pub fn label_word(place: Place, selector_type: IntType, label: Option<Label>) -> Answer<Option<u64>>
    ensures { result ≡ answer_of (model.label_word place selector_type label) }
{
    match label {
        None => Ok(None),
        Some(label) => {
            let number = label_number(label);
            let word = wrap(selector_type, number);
            if value(selector_type, word) == number {
                Ok(Some(word))
            } else {
                Err(SourceRefusal {
                    number: RefusalNumber::S8,
                    place,
                })
            }
        }
    }
}
