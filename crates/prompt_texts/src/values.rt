//! The values of a variable.
ghost use Rattle.gang_model.specs.Types.Tree.{Variable};
ghost use Rattle.gang_model.specs.Debugger.Debugger.{Debugger, Setting, now, part_shown, shown_words};
ghost use Rattle.debug_answers.specs.Meanings.{IsInside};
ghost use Rattle.debug_traits.specs.Machines.{IsShown};
ghost use Rattle.prompt_texts.specs.Forms.{shown_text, values_text};
ghost use Rattle.prompt_texts.specs.Shown.{Puts};

use crate::forms::put_form;
use crate::page::Page;
use debug_traits::{AnswerWriter, RecordedMachine, Shown};
use gang_types::IntType;
use value_digits::Digits;

/// Writes a blank and a word.
pub(crate) fn put_word<O: AnswerWriter + Drop>(
    digits: Digits,
    value_type: IntType,
    word: u64,
    page: &mut Page<O>,
)
    ensures { Puts (shown_text digits value_type word) page.old.has_failed page.new.has_failed (O.written page.old.writer) (O.written page.new.writer) }
{
    page.put(b" ");
    put_form(digits, value_type, word, page);
}

/// Writes a blank and each word of a variable, or of one of them.
pub(crate) fn put_values<M: RecordedMachine, O: AnswerWriter + Drop>(
    digits: Digits,
    shown: Shown,
    at: Option<u32>,
    machine: &M,
    page: &mut Page<O>,
)
    ensures { (s : Setting) (d : Debugger) (v : Variable) → M.stands machine.now s d → IsShown s d v shown → IsInside at shown.count
        → Puts (values_text digits shown.value_type (part_shown at (shown_words (now s d) v)))
        page.old.has_failed page.new.has_failed (O.written page.old.writer) (O.written page.new.writer) }
{
    match at {
        Some(index) => {
            let word = machine.word(shown, index as usize);
            put_word(digits, shown.value_type, word, page);
        }
        None => put_words(digits, shown, machine, page),
    }
}

/// Writes a blank and each word of a variable.
fn put_words<M: RecordedMachine, O: AnswerWriter + Drop>(
    digits: Digits,
    shown: Shown,
    machine: &M,
    page: &mut Page<O>,
)
    ensures { (s : Setting) (d : Debugger) (v : Variable) → M.stands machine.now s d → IsShown s d v shown
        → Puts (values_text digits shown.value_type (shown_words (now s d) v))
        page.old.has_failed page.new.has_failed (O.written page.old.writer) (O.written page.new.writer) }
{
    for index in 0..shown.count {
        put_word(digits, shown.value_type, machine.word(shown, index), page);
    }
}
