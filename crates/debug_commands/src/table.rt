//! The commands' words, and the forms of what may follow them.
use self::Form::{Alone, Counted};
use crate::command::Command;

/// A movement that may be repeated.
#[derive(Clone, Copy)]
pub(crate) enum Motion {
    Step,
    Next,
    ReverseStep,
    ReverseNext,
}

/// What follows a command's words.
#[derive(Clone, Copy)]
pub(crate) enum Form {
    /// Nothing.
    Alone(Command<'static>),
    /// How often, once if nothing follows.
    Counted(Motion),
    /// The line of a breakpoint.
    Break,
    /// The number of a breakpoint or watch, or nothing.
    Delete,
    /// A target that is printed.
    Print,
    /// A target that is watched.
    Watch,
    /// A target, `=` and a value.
    Set,
    /// The most events that can be taken back.
    History,
}

/// A command's words, and what follows them.
#[derive(Clone, Copy)]
pub(crate) struct Entry(pub(crate) &'static [&'static [u8]], pub(crate) Form);

/// All commands, by their names in GDB; `undo` has its own.
pub(crate) const COMMANDS: [Entry; 29] = [
    Entry(&[b"step"], Counted(Motion::Step)),
    Entry(&[b"s"], Counted(Motion::Step)),
    Entry(&[b"next"], Counted(Motion::Next)),
    Entry(&[b"n"], Counted(Motion::Next)),
    Entry(&[b"finish"], Alone(Command::Finish)),
    Entry(&[b"continue"], Alone(Command::Continue)),
    Entry(&[b"c"], Alone(Command::Continue)),
    Entry(&[b"reverse-step"], Counted(Motion::ReverseStep)),
    Entry(&[b"rs"], Counted(Motion::ReverseStep)),
    Entry(&[b"reverse-next"], Counted(Motion::ReverseNext)),
    Entry(&[b"rn"], Counted(Motion::ReverseNext)),
    Entry(&[b"reverse-continue"], Alone(Command::ReverseContinue)),
    Entry(&[b"rc"], Alone(Command::ReverseContinue)),
    Entry(&[b"reverse-finish"], Alone(Command::ReverseFinish)),
    Entry(&[b"undo"], Alone(Command::Undo)),
    Entry(&[b"print"], Form::Print),
    Entry(&[b"p"], Form::Print),
    Entry(&[b"set", b"var"], Form::Set),
    Entry(
        &[b"set", b"record", b"full", b"insn-number-max"],
        Form::History,
    ),
    Entry(&[b"break"], Form::Break),
    Entry(&[b"b"], Form::Break),
    Entry(&[b"watch"], Form::Watch),
    Entry(&[b"delete"], Form::Delete),
    Entry(&[b"info", b"breakpoints"], Alone(Command::InfoBreakpoints)),
    Entry(&[b"info", b"locals"], Alone(Command::InfoLocals)),
    Entry(&[b"backtrace"], Alone(Command::Backtrace)),
    Entry(&[b"bt"], Alone(Command::Backtrace)),
    Entry(&[b"quit"], Alone(Command::Quit)),
    Entry(&[b"q"], Alone(Command::Quit)),
];
