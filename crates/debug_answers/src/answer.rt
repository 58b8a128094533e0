//! Answers to commands.
use debug_commands::Target;
use debug_traits::{Fault, Shown};

/// Why a command is refused.
#[derive(Clone, Copy, Debug, PartialEq, Eq)]
pub enum Refusal {
    /// The line spells no command.
    BadCommand,
    /// No such name, an index on a uniform scalar, a whole array where a word is asked, or a local variable for a watch.
    NoSuchName,
    /// Nothing that the command takes back is kept.
    NoHistory,
    /// The program has ended.
    Ended,
    /// There is no frame below.
    Outermost,
    /// No line from there on has a place.
    NoLine,
    /// An index past the end, a value outside the type, or more events than a history can keep.
    OutOfRange,
    /// A constant is not set.
    Constant,
    /// No breakpoint or watch has this number.
    NoSuchNumber,
    /// As many breakpoints and watches are there as can be, or no number is left.
    TableFull,
    /// A longer history found no memory.
    Memory,
}

/// What a command is answered. The machine says where the program stands then.
#[derive(Clone, Copy, Debug)]
pub enum Answer<'a> {
    /// The goal is reached, or the program has ended.
    Here,
    /// The place is on the line of the breakpoint of this number.
    AtBreakpoint(u32),
    /// The watch of this number shows another value than before the move.
    AtWatch(u32),
    /// The next step faults, and was not done.
    AtFault(Fault),
    /// No step is kept any more.
    HistoryEnd,
    /// The most moves of one command were done.
    StepLimit,
    /// A step was taken back.
    UndoneStep,
    /// A poke was taken back.
    UndonePoke,
    /// A variable, or a part of it, as it was asked for.
    Shows { target: Target<'a>, shown: Shown },
    /// A breakpoint has this number, on this line.
    BreaksAt { number: u32, line: u32 },
    /// A watch has this number.
    Watches { number: u32, target: Target<'a> },
    /// A breakpoint or watch went, or all.
    Deleted(Option<u32>),
    /// All breakpoints and watches.
    ListsStops,
    /// The local variables in scope, parameters left out.
    ListsLocals,
    /// All frames.
    ListsFrames,
    /// So many events can be taken back at most.
    KeepsHistory(u32),
    /// Nothing is said.
    Silent,
    Refused(Refusal),
}
