//! What command lines and answers tell a prompt.
ghost use Rattle.std.specs.Prelude.{◌≡◌, ◌≤◌, length, not};
ghost use Rattle.std.specs.List.{suffix_len};
ghost use Rattle.gang_model.specs.Texts.CommandText.{command_of};
ghost use Rattle.gang_model.specs.Texts.Spellings.{is_blank};
ghost use Rattle.debug_commands.specs.TargetViews.{target_option};
ghost use Rattle.debug_commands.specs.Views.{command_view, option_view};
ghost use Rattle.prompt_lines.specs.Sources.{line_named};
ghost use Rattle.prompt_lines.specs.Words.{setting_text};
ghost use Rattle.prompt_scenes.specs.Holding.{sheet};
ghost use Rattle.prompt_scenes.specs.Readings as readings;
ghost use Rattle.prompt_scenes.specs.Given as given;

use crate::holding::LastMove;
use debug_answers::Answer;
use debug_commands::{Command, Target, read_command};
use debug_words::is_blank;
use prompt_lines::{argument, index, line_named, moment, setting_line};
use prompt_texts::Source;

/// How many changes are listed where no number is named.
const LISTED: u32 = 10;

/// Whether a command moves.
pub fn is_move(command: Command<'_>) -> bool
    ensures { result ≡ readings.moves (command_view command.entry) }
{
    match command {
        Command::Step(_)
        | Command::Next(_)
        | Command::ReverseStep(_)
        | Command::ReverseNext(_)
        | Command::Finish
        | Command::Continue
        | Command::ReverseFinish
        | Command::ReverseContinue
        | Command::Undo => true,
        Command::Print(_)
        | Command::Set { .. }
        | Command::Break(_)
        | Command::Watch(_)
        | Command::Delete(_)
        | Command::SetHistory(_)
        | Command::InfoBreakpoints
        | Command::InfoLocals
        | Command::Backtrace
        | Command::Nothing
        | Command::Quit => false,
    }
}

/// Whether an empty line repeats a command.
pub fn command_repeats(command: Option<Command<'_>>) -> bool
    ensures { result ≡ readings.command_repeats (option_view command.entry) }
{
    match command {
        None => false,
        Some(Command::Print(_)) => true,
        Some(command) => is_move(command),
    }
}

/// Whether a command line that begins with `print` sets a target.
pub fn sets(text: &[u8]) -> bool
    ensures { result ≡ readings.sets (command_of (setting_text text.now)) }
{
    match read_command(setting_line(text).as_slice()) {
        Some(Command::Set { .. }) => true,
        _ => false,
    }
}

/// The target that a command line prints.
pub fn print_of(text: &[u8]) -> Option<Target<'_>>
    ensures { target_option result ≡ readings.print_of (command_of text.now) }
{
    match read_command(text) {
        Some(Command::Print(target)) if !names_part(target.name) => Some(target),
        _ => None,
    }
}

/// Whether a name stands for some elements of an array.
fn names_part(name: &[u8]) -> bool
    ensures { result ≡ readings.names_part name.now }
{
    name.iter().any(|byte| *byte == b'@')
}

/// How many calls a command line goes up or down.
pub(crate) fn count_of(text: &[u8]) -> Option<u32>
    ensures { result ≡ readings.count_of (command_of text.now) }
{
    match read_command(text) {
        Some(Command::Step(count)) => Some(count),
        _ => None,
    }
}

/// The line that a command line names, in a source.
pub fn line_of(text: &[u8], source: Source<'_>) -> Option<u32>
    ensures { result ≡ line_named (sheet source.entry) text.now }
{
    line_named(text, source.name, source.text)
}

/// The number that a command line deletes, or all.
pub fn delete_of(text: &[u8]) -> Option<Option<u32>>
    ensures { result ≡ readings.delete_of (command_of text.now) }
{
    match read_command(text) {
        Some(Command::Delete(number)) => Some(number),
        _ => None,
    }
}

/// The number of steps that a command line names.
pub fn step_named(text: &[u8]) -> Option<u64>
    ensures { result ≡ readings.step_named text.now }
{
    moment(argument(text)?)
}

/// The number that a command line names.
pub fn index_named(text: &[u8]) -> Option<u32>
    ensures { result ≡ readings.index_named text.now }
{
    index(argument(text)?)
}

/// The target that a command line watches.
pub fn watch_of(text: &[u8]) -> Option<Target<'_>>
    ensures { target_option result ≡ readings.watch_of (command_of text.now) }
{
    match read_command(text) {
        Some(Command::Watch(target)) => Some(target),
        _ => None,
    }
}

/// The target whose changes a command line names, and how many of them at most.
pub fn changes_named(text: &[u8]) -> Option<(Target<'_>, u32)>
    ensures { given.counted_view result ≡ readings.changes_named text.now }
{
    match watch_of(text) {
        Some(target) => Some((target, LISTED)),
        None => counted(trimmed(text)),
    }
}

/// A target and the number behind it.
fn counted(text: &[u8]) -> Option<(Target<'_>, u32)>
    ensures { given.counted_view result ≡ readings.counted text.now }
{
    let place = last_place(text);
    let target = watch_of(&text[..place])?;
    let number = index(&text[place..])?;
    Some((target, number))
}

/// Where the last word of a text begins.
fn last_place(text: &[u8]) -> usize
    ensures place { result ≡ readings.last_place text.now }
    ensures within { result ≤ length text.now }
{
    text.len() - last_len(text)
}

/// How many bytes the last word of a text has.
fn last_len(text: &[u8]) -> usize
    ensures run { result ≡ suffix_len (λ byte. not (is_blank byte)) text.now }
    ensures within { result ≤ length text.now }
{
    text.iter()
        .rev()
        .take_while(|byte| !is_blank(**byte))
        .count()
}

/// A text without the blanks at its end.
pub fn trimmed(text: &[u8]) -> &[u8]
    ensures { result.now ≡ readings.trimmed text.now }
{
    &text[..text.len() - blank_len(text)]
}

/// How many blanks a text ends with.
fn blank_len(text: &[u8]) -> usize
    ensures run { result ≡ suffix_len is_blank text.now }
    ensures within { result ≤ length text.now }
{
    text.iter()
        .rev()
        .take_while(|byte| is_blank(**byte))
        .count()
}

/// The breakpoint that stopped a move.
pub fn stopped_number(answer: &Answer<'_>) -> Option<u32>
    ensures { result ≡ given.stopped_number answer.now }
{
    match answer {
        Answer::AtBreakpoint(number) => Some(*number),
        _ => None,
    }
}

/// The breakpoint or watch that stopped a move, or none.
pub fn last_move(answer: &Answer<'_>) -> LastMove
    ensures { result ≡ given.last_move answer.now }
{
    match answer {
        Answer::AtBreakpoint(number) | Answer::AtWatch(number) => LastMove::Stopped(*number),
        _ => LastMove::Free,
    }
}

/// The breakpoint that was made.
pub fn made_number(answer: &Answer<'_>) -> Option<u32>
    ensures { result ≡ given.made_number answer.now }
{
    match answer {
        Answer::BreaksAt { number, .. } => Some(*number),
        _ => None,
    }
}

/// The watch that was made.
pub fn watch_number(answer: &Answer<'_>) -> Option<u32>
    ensures { result ≡ given.watch_number answer.now }
{
    match answer {
        Answer::Watches { number, .. } => Some(*number),
        _ => None,
    }
}

/// Whether a breakpoint or a watch stopped a move.
pub fn is_stop(answer: &Answer<'_>) -> bool
    ensures { result ≡ given.is_stop answer.now }
{
    matches!(answer, Answer::AtBreakpoint(_) | Answer::AtWatch(_))
}

/// Whether the history goes back no further.
pub fn is_history_end(answer: &Answer<'_>) -> bool
    ensures { result ≡ given.is_history_end answer.now }
{
    matches!(answer, Answer::HistoryEnd)
}

/// Whether a goal is reached, or the end.
pub fn is_here(answer: &Answer<'_>) -> bool
    ensures { result ≡ given.is_here answer.now }
{
    matches!(answer, Answer::Here)
}

/// Whether a step was taken back.
pub fn is_undone_step(answer: &Answer<'_>) -> bool
    ensures { result ≡ given.is_undone_step answer.now }
{
    matches!(answer, Answer::UndoneStep)
}

/// Whether a target is shown.
pub fn is_shown(answer: &Answer<'_>) -> bool
    ensures { result ≡ given.is_shown answer.now }
{
    matches!(answer, Answer::Shows { .. })
}

/// Whether a command is refused.
pub fn is_refusal(answer: &Answer<'_>) -> bool
    ensures { result ≡ given.is_refusal answer.now }
{
    matches!(answer, Answer::Refused(_))
}
