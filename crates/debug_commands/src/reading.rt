//! The command that a line spells.
ghost use Rattle.std.specs.Prelude.{◌≡◌, map};
ghost use Rattle.gang_model.specs.Debugger.Debugger.{DoBreak, DoDelete, DoSetHistory};
ghost use Rattle.gang_model.specs.Texts.CommandText as text;
ghost use Rattle.debug_commands.specs.LineWords.{texts, texts_option};
ghost use Rattle.debug_commands.specs.CommandTable.{motion_view, form_view, entry_view};
ghost use Rattle.debug_commands.specs.Views.{command_view, option_view};

use crate::command::Command;
use crate::numbers::number;
use crate::table::{COMMANDS, Entry, Form, Motion};
use crate::targets::{set_of, target_of};
use crate::words::words_of;
use debug_words::{is_blank, is_blank_line, is_same};

/// The most bytes of a line.
const MOST_LINE: usize = 256;

/// The command that a line spells, its line feed not included; none where it spells none.
pub fn read_command(line: &[u8]) -> Option<Command<'_>>
    ensures { option_view result ≡ text.command_of line.now }
{
    if line.len() > MOST_LINE {
        return None;
    }
    if is_blank_line(line) {
        return Some(Command::Nothing);
    }
    if begins_blank(line) {
        return None;
    }
    let words = words_of(line)?;
    command_by(&COMMANDS, words.as_slice())
}

/// Whether the line begins with a blank.
fn begins_blank(line: &[u8]) -> bool
    ensures { result ≡ text.begins_blank line.now }
{
    match line {
        [] => false,
        [first, ..] => is_blank(*first),
    }
}

/// The command of the first entry whose words the line begins with.
fn command_by<'a>(entries: &[Entry], words: &[&'a [u8]]) -> Option<Command<'a>>
    ensures { option_view result ≡ text.command_by (map entry_view entries.now) (texts words.now) }
{
    for Entry(command, form) in entries {
        if let Some(rest) = words_behind(command, words) {
            return command_in(*form, rest);
        }
    }
    None
}

/// The words behind a command's words, where the line begins with these.
fn words_behind<'w, 'a>(command: &[&[u8]], words: &'w [&'a [u8]]) -> Option<&'w [&'a [u8]]>
    ensures { texts_option result ≡ text.words_behind (texts command.now) (texts words.now) }
{
    let mut rest = words;
    for expected in command {
        let [word, others @ ..] = rest else {
            return None;
        };
        if !is_same(expected, word) {
            return None;
        }
        rest = others;
    }
    Some(rest)
}

/// The command of a form and the words of this form.
fn command_in<'a>(form: Form, words: &[&'a [u8]]) -> Option<Command<'a>>
    ensures { option_view result ≡ text.command_in (form_view form) (texts words.now) }
{
    match form {
        Form::Alone(command) => alone(command, words),
        Form::Counted(motion) => counted(motion, words),
        Form::Break => breaking(words),
        Form::Delete => deleting(words),
        Form::Print => target_of(words).map(Command::Print),
        Form::Watch => target_of(words).map(Command::Watch),
        Form::Set => set_of(words),
        Form::History => limiting(words),
    }
}

fn alone<'a>(command: Command<'a>, words: &[&'a [u8]]) -> Option<Command<'a>>
    ensures { option_view result ≡ text.command_in (text.Alone (command_view command.entry)) (texts words.now) }
{
    match words {
        [] => Some(command),
        _ => None,
    }
}

fn counted<'a>(motion: Motion, words: &[&'a [u8]]) -> Option<Command<'a>>
    ensures { option_view result ≡ text.command_in (text.Counted (motion_view motion)) (texts words.now) }
{
    match words {
        [] => Some(repeated(motion, 1)),
        [word] => Some(repeated(motion, number(word)?)),
        _ => None,
    }
}

fn repeated<'a>(motion: Motion, times: u32) -> Command<'a>
    ensures { command_view result ≡ motion_view motion times }
{
    match motion {
        Motion::Step => Command::Step(times),
        Motion::Next => Command::Next(times),
        Motion::ReverseStep => Command::ReverseStep(times),
        Motion::ReverseNext => Command::ReverseNext(times),
    }
}

fn breaking<'a>(words: &[&'a [u8]]) -> Option<Command<'a>>
    ensures { option_view result ≡ text.command_in (text.Numbered DoBreak) (texts words.now) }
{
    match words {
        [word] => Some(Command::Break(number(word)?)),
        _ => None,
    }
}

fn limiting<'a>(words: &[&'a [u8]]) -> Option<Command<'a>>
    ensures { option_view result ≡ text.command_in (text.Numbered DoSetHistory) (texts words.now) }
{
    match words {
        [word] => Some(Command::SetHistory(number(word)?)),
        _ => None,
    }
}

fn deleting<'a>(words: &[&'a [u8]]) -> Option<Command<'a>>
    ensures { option_view result ≡ text.command_in (text.MaybeNumbered DoDelete) (texts words.now) }
{
    match words {
        [] => Some(Command::Delete(None)),
        [word] => Some(Command::Delete(Some(number(word)?))),
        _ => None,
    }
}
