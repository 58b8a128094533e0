//! Fronts of words, as people type them: a command by three letters or more, and what `info` lists by one or more.
ghost use Rattle.std.specs.Prelude.{◌≡◌, map};
ghost use Rattle.prompt_lines.specs.Fronts as spec;
ghost use Rattle.prompt_lines.specs.Readings.{full_view, spelled_option};

use crate::conditions::split_word;
use crate::line::{Kind, Look, PromptLine};
use crate::reading::{behind, joined};

/// A word, what is done with a line that begins with a front of it, and the debugger's own words for it.
#[derive(Clone, Copy)]
pub(crate) struct FullWord(
    pub(crate) &'static [u8],
    pub(crate) Kind,
    pub(crate) &'static [u8],
);

/// What `info` lists. Of two names with one front the first one counts; of registers, which are not there, what it lists is told.
const LISTS: [FullWord; 16] = [
    FullWord(b"breakpoints", Kind::Own, b"info breakpoints"),
    FullWord(b"stack", Kind::Look(Look::Frames), b"delete"),
    FullWord(b"frame", Kind::Look(Look::Frame), b"frame"),
    FullWord(b"locals", Kind::Look(Look::Locals), b""),
    FullWord(b"args", Kind::Look(Look::Arguments), b""),
    FullWord(b"variables", Kind::Look(Look::Variables), b""),
    FullWord(b"functions", Kind::Look(Look::Functions), b"functions"),
    FullWord(b"display", Kind::Look(Look::Displays), b""),
    FullWord(b"checkpoints", Kind::Look(Look::Checkpoints), b""),
    FullWord(b"registers", Kind::Look(Look::Lists), b""),
    FullWord(b"record", Kind::Look(Look::Recording), b""),
    FullWord(b"watchpoints", Kind::Look(Look::Watches), b""),
    FullWord(b"source", Kind::Look(Look::Source), b""),
    FullWord(b"line", Kind::Look(Look::Line), b"break"),
    FullWord(b"program", Kind::Look(Look::Here), b""),
    FullWord(b"lanes", Kind::Lanes, b"lanes"),
];

/// The commands. Of two with one front the first one counts; `reverse-` is none, so that no shorter front moves the program.
const COMMANDS: [FullWord; 43] = [
    FullWord(b"step", Kind::Own, b"step"),
    FullWord(b"next", Kind::Own, b"next"),
    FullWord(b"continue", Kind::Own, b"continue"),
    FullWord(b"finish", Kind::Finish, b"finish"),
    FullWord(b"reverse-", Kind::Own, b"reverse-"),
    FullWord(b"reverse-step", Kind::Own, b"reverse-step"),
    FullWord(b"reverse-next", Kind::Own, b"reverse-next"),
    FullWord(b"reverse-continue", Kind::Own, b"reverse-continue"),
    FullWord(b"reverse-finish", Kind::Own, b"reverse-finish"),
    FullWord(b"until", Kind::Until, b"break"),
    FullWord(b"advance", Kind::Until, b"break"),
    FullWord(b"start", Kind::Start, b"start"),
    FullWord(b"break", Kind::Break, b"break"),
    FullWord(b"tbreak", Kind::Temporary, b"break"),
    FullWord(b"watch", Kind::Watch, b"watch"),
    FullWord(b"condition", Kind::Condition, b""),
    FullWord(b"ignore", Kind::Ignore, b""),
    FullWord(b"delete", Kind::Delete, b"delete"),
    FullWord(b"clear", Kind::Clear, b"break"),
    FullWord(b"disable", Kind::Disable, b"disable"),
    FullWord(b"enable", Kind::Enable, b"enable"),
    FullWord(b"print", Kind::Print, b"print"),
    FullWord(b"output", Kind::Print, b"print"),
    FullWord(b"display", Kind::Display, b"print"),
    FullWord(b"undisplay", Kind::Undisplay, b"delete"),
    FullWord(b"backtrace", Kind::Look(Look::Frames), b"delete"),
    FullWord(b"where", Kind::Look(Look::Frames), b"delete"),
    FullWord(b"frame", Kind::Look(Look::Frame), b"frame"),
    FullWord(b"down", Kind::Look(Look::Down), b"step"),
    FullWord(b"list", Kind::Look(Look::List), b"break"),
    FullWord(b"whatis", Kind::Look(Look::Type), b"print"),
    FullWord(b"ptype", Kind::Look(Look::Type), b"print"),
    FullWord(b"checkpoint", Kind::Checkpoint, b"checkpoint"),
    FullWord(b"restart", Kind::Restart, b"goto"),
    FullWord(b"goto", Kind::Goto, b"goto"),
    FullWord(b"last", Kind::Last, b"watch"),
    FullWord(b"changes", Kind::Changes, b"watch"),
    FullWord(b"record", Kind::Look(Look::Recording), b""),
    FullWord(b"info", Kind::Look(Look::Lists), b""),
    FullWord(b"inspect", Kind::Print, b"print"),
    FullWord(b"help", Kind::Look(Look::Help), b""),
    FullWord(b"quit", Kind::Own, b"quit"),
    FullWord(b"exit", Kind::Own, b"quit"),
];

/// A text that begins with a front of `info`, by what that lists.
pub(crate) fn listed(text: &[u8]) -> Option<PromptLine>
    ensures { spelled_option result ≡ spec.listed text.now }
{
    let (word, rest) = split_word(text);
    if is_info(word) {
        by_front(1, &LISTS, rest)
    } else {
        None
    }
}

/// A text that begins with a front of a command.
pub(crate) fn begun(text: &[u8]) -> Option<PromptLine>
    ensures { spelled_option result ≡ spec.begun text.now }
{
    by_front(3, &COMMANDS, text)
}

/// Whether a word is a front of `info`.
fn is_info(word: &[u8]) -> bool
    ensures { result ≡ spec.is_info word.now }
{
    word.len() >= 1 && is_front(word, b"info")
}

/// A text that begins with a front of at least so many letters, by words.
fn by_front(least: usize, words: &[FullWord], text: &[u8]) -> Option<PromptLine>
    ensures { spelled_option result ≡ spec.by_front least (map full_view words.now) text.now }
{
    let (front, rest) = split_word(text);
    if front.len() < least {
        None
    } else {
        first_of(words, front, rest)
    }
}

/// The first of some words that has a front.
fn first_of(words: &[FullWord], front: &[u8], rest: &[u8]) -> Option<PromptLine>
    ensures { spelled_option result ≡ spec.first_of (map full_view words.now) front.now rest.now }
{
    for FullWord(word, kind, own) in words {
        if is_front(front, word) {
            return Some(PromptLine {
                kind: *kind,
                text: joined(own, rest),
            });
        }
    }
    None
}

/// Whether a word begins with another one, or is it.
fn is_front(front: &[u8], word: &[u8]) -> bool
    ensures { result ≡ spec.is_front front.now word.now }
{
    behind(front, word).is_some()
}
