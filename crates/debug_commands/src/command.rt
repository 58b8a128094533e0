//! Commands.

/// A variable by its name, or one of its lanes or elements.
#[derive(Clone, Copy, Debug)]
pub struct Target<'a> {
    pub name: &'a [u8],
    pub at: Option<u32>,
}

/// A command of the debugger, by its name in GDB; `undo` has its own.
#[derive(Clone, Copy, Debug)]
pub enum Command<'a> {
    Step(u32),
    Next(u32),
    ReverseStep(u32),
    ReverseNext(u32),
    Finish,
    Continue,
    ReverseFinish,
    ReverseContinue,
    Undo,
    Print(Target<'a>),
    Set { target: Target<'a>, value: i128 },
    Break(u32),
    Watch(Target<'a>),
    /// One breakpoint or watch by its number, or all.
    Delete(Option<u32>),
    /// The most events that can be taken back from then on.
    SetHistory(u32),
    InfoBreakpoints,
    InfoLocals,
    Backtrace,
    /// A blank line.
    Nothing,
    Quit,
}
