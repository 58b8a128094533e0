//! The limits of a source: the variables of a function, and the words of file-scope arrays.
ghost use Rattle.std.specs.Prelude.{◌≡◌, ◌+◌, ◌≤◌, [], ◌∷◌, IfOk, IfErr, Some, slice_get};
ghost use Rattle.gang_model.specs.Source.Limits as limits;
ghost use Rattle.gang_model.specs.Source.Limits.{most_variables, most_array_words, limits_passed, past_limit, first_fault};
ghost use Rattle.source_tree.specs.Tree.{tree_view, item_view, function_view};
ghost use Rattle.source_tree.specs.declared.tree.Item.TheVariants as item;
ghost use Rattle.source_limits.specs.Room.{words_in};

use crate::room::after_function;
use gang_model::{GlobalForm, RefusalNumber, SourceRefusal};
use gang_types::Place;
use source_tree::{Function, GlobalVariable, Item, Tree};

const MOST_VARIABLES: usize = 256;

const MOST_ARRAY_WORDS: u64 = 1 << 20;

fn past(place: Place) -> SourceRefusal
    ensures { limits.past_limit (Some place) ≡ result ∷ [] }
{
    SourceRefusal {
        number: RefusalNumber::S13,
        place,
    }
}

/// The refusal of a function with too many variables.
fn function_refusal(function: &Function) -> Option<SourceRefusal>
    ensures { result ≡ first_fault (past_limit (slice_get (limits.variables_of (function_view function.now)) most_variables)) }
{
    let place = after_function(function, MOST_VARIABLES).err()?;
    Some(past(place))
}

/// The words of the arrays up to this variable, or the refusal of an array with which they are too many.
fn words_after(global: &GlobalVariable, words: u64) -> Result<u64, SourceRefusal>
    requires { words ≤ most_array_words }
    ensures passed { IfErr result (λ refusal. limits_passed words (item_view (item.Global global.now) ∷ []) ≡ refusal ∷ []) }
    ensures sound { IfOk result (λ sum. limits_passed words (item_view (item.Global global.now) ∷ []) ≡ []) }
    ensures counted { IfOk result (λ sum. sum ≡ words + words_in (item_view (item.Global global.now))) }
    ensures within { IfOk result (λ sum. sum ≤ most_array_words) }
{
    let length = match global.form {
        GlobalForm::Array(length) => length,
        GlobalForm::Plain | GlobalForm::Initial(_) => 0,
    };
    let words = words.saturating_add(length);
    if words > MOST_ARRAY_WORDS {
        return Err(past(global.place));
    }
    Ok(words)
}

/// The words of the arrays up to this definition, or its refusal.
fn words_up_to(item: &Item, words: u64) -> Result<u64, SourceRefusal>
    requires { words ≤ most_array_words }
    ensures passed { IfErr result (λ refusal. limits_passed words (item_view item.now ∷ []) ≡ refusal ∷ []) }
    ensures sound { IfOk result (λ sum. limits_passed words (item_view item.now ∷ []) ≡ []) }
    ensures counted { IfOk result (λ sum. sum ≡ words + words_in (item_view item.now)) }
    ensures within { IfOk result (λ sum. sum ≤ most_array_words) }
{
    match item {
        Item::Function(function) => match function_refusal(function) {
            Some(refusal) => Err(refusal),
            None => Ok(words),
        },
        Item::Global(global) => words_after(global, words),
    }
}

/// The refusal of the first limit that a source passes: S13 at the 257th variable of a function, or at the file-scope array
/// with which the arrays have more than 2 ^ 20 words. It takes no memory.
pub fn limit_refusal(tree: &Tree) -> Option<SourceRefusal>
    ensures { result ≡ limits.limit_refusal (tree_view tree.now) }
{
    let mut words = 0;
    for item in &tree.items {
        match words_up_to(item, words) {
            Ok(sum) => words = sum,
            Err(refusal) => return Some(refusal),
        }
    }
    None
}
