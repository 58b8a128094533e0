//! The words of a line.
ghost use Rattle.std.specs.Prelude.{◌≡◌, ◌<◌, length, MatchOption};
ghost use Rattle.gang_model.specs.Texts.CommandText.{is_mark};
ghost use Rattle.gang_model.specs.Texts.Spellings.{words_of_line};
ghost use Rattle.debug_commands.specs.LineWords.{texts};

use arrayvec::ArrayVec;
use debug_words::{Marks, next_word};

/// The most words of a command.
const MOST_WORDS: usize = 8;

/// At most eight words.
type Words<'a> = ArrayVec<&'a [u8], MOST_WORDS>;

/// The words of a line in their order, unless there are more than eight.
pub(crate) fn words_of(line: &[u8]) -> Option<Words<'_>>
    ensures { MatchOption result (8 < length (words_of_line is_mark line.now)) (λ words.
        texts words.items ≡ words_of_line is_mark line.now) }
{
    let mut words = Words::new();
    let mut rest = line;
    while let Some((word, after)) = next_word(Marks::OfCommands, rest) {
        if words.is_full() {
            return None;
        }
        words.push(word);
        rest = after;
    }
    Some(words)
}
