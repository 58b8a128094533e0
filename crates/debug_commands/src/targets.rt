//! What a command prints, watches or sets.
ghost use Rattle.std.specs.Prelude.{◌≡◌, ◌||◌};
ghost use Rattle.gang_model.specs.Texts.Spellings as spelling;
ghost use Rattle.gang_model.specs.Texts.CommandText as text;
ghost use Rattle.debug_commands.specs.LineWords.{texts};
ghost use Rattle.debug_commands.specs.Views.{option_view};
ghost use Rattle.debug_commands.specs.TargetViews.{target_option};

use crate::command::{Command, Target};
use crate::numbers::{index, value};
use debug_words::{is_digit, is_same};

fn is_letter(byte: u8) -> bool
    ensures { result ≡ spelling.is_letter byte }
{
    matches!(byte, b'a'..=b'z' | b'A'..=b'Z' | b'_')
}

fn are_name_bytes(bytes: &[u8]) -> bool
    ensures { result ≡ spelling.all_are (λ b. spelling.is_letter b || spelling.is_digit b) bytes.now }
{
    bytes.iter().all(|byte| is_letter(*byte) || is_digit(*byte))
}

fn is_name(word: &[u8]) -> bool
    ensures { result ≡ spelling.is_name word.now }
{
    match word {
        [] => false,
        [first, rest @ ..] => is_letter(*first) && are_name_bytes(rest),
    }
}

fn whole_target(name: &[u8]) -> Option<Target<'_>>
    ensures { target_option result ≡ text.whole_target name.now }
{
    if is_name(name) {
        Some(Target { name, at: None })
    } else {
        None
    }
}

/// An element or a lane, from the four words `NAME [ K ]`.
fn part_target<'a>(name: &'a [u8], left: &[u8], place: &[u8], right: &[u8]) -> Option<Target<'a>>
    ensures { target_option result ≡ text.part_target name.now left.now place.now right.now }
{
    if !is_same(left, b"[") || !is_same(right, b"]") {
        return None;
    }
    let target = whole_target(name)?;
    let at = index(place)?;
    Some(Target {
        at: Some(at),
        ..target
    })
}

/// The target that words spell.
pub(crate) fn target_of<'a>(words: &[&'a [u8]]) -> Option<Target<'a>>
    ensures { target_option result ≡ text.target_of (texts words.now) }
{
    match words {
        [name] => whole_target(name),
        [name, left, place, right] => part_target(name, left, place, right),
        _ => None,
    }
}

/// The command that sets a target, from `T = V`.
pub(crate) fn set_of<'a>(words: &[&'a [u8]]) -> Option<Command<'a>>
    ensures { option_view result ≡ text.set_of (texts words.now) }
{
    let [front @ .., equals, last] = words else {
        return None;
    };
    if !is_same(equals, b"=") {
        return None;
    }
    let target = target_of(front)?;
    let value = value(last)?;
    Some(Command::Set { target, value })
}
