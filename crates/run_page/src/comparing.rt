//! What changes from one moment to the next.
ghost use Rattle.std.specs.Prelude.{◌≡◌, IfOk, Some, slice_get};
ghost use Rattle.std.specs.Bool.{Decides};
ghost use Rattle.run_page.specs.Rows.{Adds, AreConsistent, IsGoneBetween, IsNew, IsNewIn, IsNewWord};

use crate::views::{Change, Row, words_of};
use std::alloc::AllocError;

/// Notes what rows have that those before them had not, and what they no longer have.
///
/// # Errors
///
/// Out of memory.
pub(crate) fn note_changes(
    before: &[Row],
    now: &[Row],
    changes: &mut Vec<Change>,
) -> Result<(), AllocError>
    ensures { AreConsistent before.now → IfOk result (λ _. Adds (IsNew before.now now.now) changes.old.items changes.new.items) }
{
    note_gone(before, now, changes)?;
    note_new(before, now, changes)
}

/// Notes the variables that are no longer there.
fn note_gone(before: &[Row], now: &[Row], changes: &mut Vec<Change>) -> Result<(), AllocError>
    ensures { IfOk result (λ _. Adds (IsGoneBetween before.now now.now) changes.old.items changes.new.items) }
{
    for (index, row) in before.iter().enumerate() {
        if words_of(now, row.variable, index).is_none() {
            changes.push(Change::Gone {
                variable: row.variable,
            })?;
        }
    }
    Ok(())
}

/// Notes the words that are new.
fn note_new(before: &[Row], now: &[Row], changes: &mut Vec<Change>) -> Result<(), AllocError>
    ensures { AreConsistent before.now → IfOk result (λ _. Adds (IsNewIn before.now now.now) changes.old.items changes.new.items) }
{
    for (index, row) in now.iter().enumerate() {
        let old: &[u64] = match words_of(before, row.variable, index) {
            Some(words) => words,
            None => &[],
        };
        note_words(row.variable, old, row.words.as_slice(), changes)?;
    }
    Ok(())
}

/// Notes the words of a variable that are new.
fn note_words(
    variable: usize,
    old: &[u64],
    new: &[u64],
    changes: &mut Vec<Change>,
) -> Result<(), AllocError>
    ensures { IfOk result (λ _. Adds (IsNewWord variable old.now new.now) changes.old.items changes.new.items) }
{
    for (part, word) in new.iter().enumerate() {
        if !has_word(old, part, *word) {
            changes.push(Change::Word {
                variable,
                part,
                word: *word,
            })?;
        }
    }
    Ok(())
}

/// Whether this is the word at a part.
fn has_word(words: &[u64], part: usize, word: u64) -> bool
    ensures { Decides result (slice_get words.now part ≡ Some word) }
{
    match words.get(part) {
        Some(it) => *it == word,
        None => false,
    }
}
