//! What is told.
use gang_types::FaultName;

/// Why a breakpoint or a watch that was asked for is not there.
#[derive(Clone, Copy, Debug, PartialEq, Eq)]
pub enum BreakpointFault {
    /// It says no line, name or target that can be read.
    Unplaced,
    /// It is on no line and is to write a message in place of stopping.
    Logging,
    /// Its condition is no text, or too long a one.
    NoCondition,
    /// Its condition is a text that is no expression, whatever names there are.
    NoExpression,
    /// Its count is no number from 1 on.
    NoCount,
    /// Its message is no text, or too long a one.
    NoMessage,
    /// It is in another source than the program's.
    OtherSource,
    /// No step is on its line or behind it.
    NoStep,
    /// No function of the program has its name.
    NoFunction,
    /// Its target cannot be watched.
    NotWatched,
    /// As many breakpoints and watches are there as can be.
    Full,
}

/// A breakpoint or a watch that was asked for.
#[derive(Clone, Copy, Debug, PartialEq, Eq)]
pub enum Breakpoint {
    /// It is there, by its number, and on its line if it has one.
    Stands { number: u32, line: Option<u32> },
    /// It is not there.
    Refused(BreakpointFault),
}

/// The references of what can be shown of a function's call.
#[derive(Clone, Copy, Debug, PartialEq, Eq)]
pub struct CallScopes {
    /// That of its local variables.
    pub locals: u64,
    /// That of its parameters.
    pub arguments: u64,
}

/// The references of what can be shown of a frame.
#[derive(Clone, Copy, Debug, PartialEq, Eq)]
pub struct Scopes {
    /// Those of its call; none at the end of the program, where no function runs.
    pub call: Option<CallScopes>,
    /// That of the variables of the file.
    pub file: u64,
}

/// A frame, by its depth.
#[derive(Drop)]
pub struct Frame {
    pub depth: usize,
    /// The function's name and the active lanes.
    pub name: String,
    pub line: u32,
    pub column: u32,
}

/// What is shown as a variable.
#[derive(Clone, Copy, Debug, PartialEq, Eq)]
pub enum VariableKind {
    /// A scalar, a lane that is active or an element.
    Plain,
    /// A lane that is not active where the frame stands.
    Waits,
    /// An array of so many elements.
    Array(usize),
    /// Elements of an array one behind another: no expression shows them.
    Range,
    /// A lane of the value of an expression, which no expression shows; it may not be active where the frame stands.
    Lane { waits: bool },
}

/// A variable, one of its lanes or elements, or a range of elements.
#[derive(Drop)]
pub struct Variable {
    pub name: String,
    pub value: String,
    pub type_name: String,
    pub kind: VariableKind,
    /// It cannot be set, since it is a constant.
    pub is_constant: bool,
    /// It can only be looked at where it stands, though it is no constant.
    pub is_read_only: bool,
    /// The reference of its lanes or elements, 0 if it has none.
    pub reference: u64,
}

/// Why the program stands still.
#[derive(Clone, Copy, Debug, PartialEq, Eq)]
pub enum StopReason {
    Entry,
    Step,
    /// At the breakpoint of this number.
    Breakpoint(u32),
    /// At the watch of this number.
    DataBreakpoint(u32),
    /// The next step faults, in this lane.
    Exception { name: FaultName, lane: usize },
    /// The most moves of one command were done.
    Pause,
    /// At the line to which it was to go, or at the end.
    Goto,
}

/// A stop, and what the debugger says of it.
#[derive(Drop)]
pub struct Stop {
    pub reason: StopReason,
    pub text: String,
}

/// A thread, by its number.
#[derive(Drop)]
pub struct Thread {
    pub id: u64,
    pub name: String,
}

/// A fault at which the program stands still.
#[derive(Drop)]
pub struct Exception {
    /// The fault's number and name.
    pub name: String,
    /// The lane, and what the fault means.
    pub text: String,
}

/// A name that can stand in a text, in place of so many units of UTF-16 from a column on.
#[derive(Drop)]
pub struct Completion {
    pub name: String,
    /// Columns count such units, from 1.
    pub start: usize,
    pub many: usize,
}

/// What a request is told.
#[derive(Drop)]
pub enum Reply {
    /// It is done, and there is nothing to tell.
    Done,
    Capabilities,
    Breakpoints(Vec<Breakpoint>),
    /// The lines on which a breakpoint can stand.
    Locations(Vec<u32>),
    /// The line to whose times the program can go, if there is one.
    Targets(Option<u32>),
    /// The names that can stand in a text.
    Completions(Vec<Completion>),
    /// The target that can be watched.
    Watchable(String),
    /// The variable cannot be watched.
    NotWatchable,
    Threads(Vec<Thread>),
    /// Those frames that were asked for, and how many there are.
    Frames {
        frames: Vec<Frame>,
        total: usize,
    },
    Scopes(Scopes),
    Variables(Vec<Variable>),
    /// The value that a variable was given, and the reference of its lanes, 0 where it has none.
    Set {
        text: String,
        reference: u64,
    },
    /// What an expression, or a line of the console, is answered; the stop, where the line moved; and the reference of the lanes or elements
    /// of a variable or of the lanes of a value that is shown, 0 where there are none.
    Evaluated {
        text: String,
        reason: Option<StopReason>,
        reference: u64,
    },
    /// A command that moved, and where it stopped.
    Moved(Stop),
    /// The fault of the last stop.
    Exception(Exception),
    /// The program had ended.
    Ended,
    /// Why the request is refused.
    Refused(String),
    /// It is done, but there is no memory to tell of it.
    OutOfMemory,
}
