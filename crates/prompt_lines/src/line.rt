//! What a line of the prompt stands for.
use arrayvec::ArrayVec;

/// How many bytes of a command line are held. One of more than 256 bytes spells no command, whatever they are.
pub const HELD: usize = 257;

/// A command line of the debugger, or the front of one that is too long.
pub type Text = ArrayVec<u8, HELD>;

/// What is looked at: nothing is done, and nothing changes in the debugger.
#[derive(Clone, Copy, Debug, PartialEq, Eq)]
pub enum Look {
    /// Lines of the source.
    List,
    /// How many lines are listed at once, from now on.
    ListSize,
    /// The frames.
    Frames,
    /// The frames with their variables.
    Full,
    /// A frame.
    Frame,
    /// The frame of the caller.
    Up,
    /// The frame that was called.
    Down,
    /// The type of a variable.
    Type,
    /// The local variables of the function.
    Locals,
    /// The parameters of the function.
    Arguments,
    /// The variables of the file.
    Variables,
    /// The functions of the program.
    Functions,
    /// What is displayed after each move.
    Displays,
    /// The moments that were noted.
    Checkpoints,
    /// How much can be taken back.
    Recording,
    /// The watches.
    Watches,
    /// The source.
    Source,
    /// Whether a line has a step.
    Line,
    /// Where the program stands.
    Here,
    /// What there is to look at.
    Lists,
    /// What commands there are, or what one does.
    Help,
    /// A text: that behind `echo`, and none of a comment.
    Text,
    /// How much of an array is told, and how many lines are listed.
    Layout,
}

/// What is done with a command line.
#[derive(Clone, Copy, Debug, PartialEq, Eq)]
pub enum Kind {
    /// A blank line: the last line again, if it repeats.
    Again,
    /// The command is done.
    Own,
    /// The program begins, or begins anew.
    Run,
    /// The program is taken back to where it begins.
    Start,
    /// The program goes on until a frame is left.
    Finish,
    /// A target is printed, or set first.
    Print,
    /// What stands behind `print/` and a letter is shown in the digits of the letter.
    Formatted,
    /// A target is set.
    Set,
    /// A breakpoint is made.
    Break,
    /// The first breakpoint on a line is deleted.
    Clear,
    /// A breakpoint, which goes once it has stopped a move.
    Temporary,
    /// The program goes on to a line.
    Until,
    /// What is printed is printed again after each move.
    Display,
    /// What has the number is displayed no more.
    Undisplay,
    /// The program goes to the moment after so many steps.
    Goto,
    /// The program goes back to the last change of a target.
    Last,
    /// The last changes of a target are listed.
    Changes,
    /// The moments of the run are told at which an expression is not 0.
    When,
    /// The share of the active lanes of the steps so far is told.
    Lanes,
    /// The moment is noted.
    Checkpoint,
    /// The program goes to a moment that was noted.
    Restart,
    /// A moment is noted no more.
    Forget,
    /// A variable is watched.
    Watch,
    /// Breakpoints and watches are deleted.
    Delete,
    /// A breakpoint or watch gets a condition, or has none any more.
    Condition,
    /// So many stops of a breakpoint or watch are passed.
    Ignore,
    /// Breakpoints and watches are disabled.
    Disable,
    /// They are enabled again.
    Enable,
    Look(Look),
}

/// A command line of the debugger, and what is done with it.
#[derive(Debug, Drop)]
pub struct PromptLine {
    pub kind: Kind,
    pub text: Text,
}
