//! Requests.
use crate::reply::BreakpointFault;

/// How a program is to be run.
#[derive(Clone, Copy)]
pub struct Launch<'a> {
    /// The path of the source.
    pub program: &'a str,
    /// The path of the input, an empty one where there is none.
    pub input: Option<&'a str>,
    /// The name of the exported function that is run, the first one where there is none.
    pub entry: Option<&'a str>,
    /// How many lanes the gang has.
    pub width: Option<u64>,
    /// How many events can be taken back.
    pub history: Option<u64>,
    /// The most moves of one forward command.
    pub steps: Option<u64>,
    /// Whether the program stops before its first step; else it runs to the first breakpoint.
    pub stops_on_entry: bool,
    /// Whether each lane is shown as a thread; else the gang is the one thread.
    pub lane_threads: bool,
}

/// A breakpoint that is asked for on a line.
#[derive(Clone, Copy, Debug, PartialEq, Eq)]
pub struct LineBreakpoint<'a> {
    pub line: u32,
    /// The expression where it stops, if it does not stop always.
    pub condition: Option<&'a str>,
    /// How many of its stops are passed first.
    pub passes: u32,
    /// The message that it writes in place of stopping, if it does.
    pub log: Option<&'a str>,
}

/// A breakpoint that is asked for on a function.
#[derive(Clone, Copy, Debug, PartialEq, Eq)]
pub struct FunctionBreakpoint<'a> {
    pub name: &'a str,
    /// The expression where it stops, if it does not stop always.
    pub condition: Option<&'a str>,
    /// How many of its stops are passed first.
    pub passes: u32,
}

/// A watch that is asked for.
#[derive(Clone, Copy, Debug, PartialEq, Eq)]
pub struct DataBreakpoint<'a> {
    /// What is watched, as `watch` of the debugger takes it.
    pub target: &'a str,
    /// The expression where it stops, if it does not stop always.
    pub condition: Option<&'a str>,
    /// How many of its stops are passed first.
    pub passes: u32,
}

/// Where an expression stands that is evaluated.
#[derive(Clone, Copy, Debug, PartialEq, Eq)]
pub enum Context {
    /// In the console, where a line that spells a command of the debugger is done.
    Console,
    /// Under the mouse.
    Hover,
    /// In a list of watched expressions, or anywhere else.
    Watch,
}

/// Which kind of children is asked for.
#[derive(Clone, Copy, Debug, PartialEq, Eq)]
pub enum Filter {
    All,
    /// The variables of a scope.
    Named,
    /// Lanes and elements.
    Indexed,
}

/// Which of the children of a reference are asked for.
#[derive(Clone, Copy, Debug, PartialEq, Eq)]
pub struct Page {
    /// The place of the first one, 0 where there is none.
    pub start: Option<u64>,
    /// How many; all of them where it is none or 0.
    pub count: Option<u64>,
    pub filter: Filter,
}

/// Which of the times when a line comes is meant.
#[derive(Clone, Copy, Debug, PartialEq, Eq)]
pub enum Way {
    /// The next time.
    Forwards,
    /// The last time before.
    Backwards,
}

/// A request, with those of its arguments that mean something here.
#[derive(Drop)]
pub enum Request<'a> {
    /// The editor begins to speak.
    Initialize {
        /// Whether it wants to hear that values which it shows have changed though the program stood still.
        hears_invalidated: bool,
    },
    Launch(Launch<'a>),
    /// The breakpoints of a source, in place of those that it had: each with its line, or why it is none.
    SetBreakpoints {
        source: Option<&'a str>,
        lines: Vec<Result<LineBreakpoint<'a>, BreakpointFault>>,
    },
    /// The breakpoints of functions, in place of those that there were: each with its name, or why it is none.
    SetFunctionBreakpoints {
        functions: Vec<Result<FunctionBreakpoint<'a>, BreakpointFault>>,
    },
    /// The lines of a source, from the first to the last, on which a breakpoint can stand; the first alone where there is no last.
    BreakpointLocations {
        source: Option<&'a str>,
        first: u32,
        last: Option<u32>,
    },
    /// The times of a line of a source to which the program can go.
    GotoTargets {
        source: Option<&'a str>,
        line: u32,
    },
    /// The program goes to a time of a line.
    Goto {
        line: u32,
        way: Way,
    },
    SetExceptionBreakpoints,
    /// Which fault the last stop was at.
    ExceptionInfo,
    /// Whether a variable can be watched: one of the variables of this reference. Where there is none, or 0, what the name means as an
    /// expression in the frame of this number; in the file where there is no frame either.
    DataBreakpointInfo {
        reference: Option<u64>,
        frame: Option<u64>,
        name: &'a str,
    },
    /// The watches, in place of those that there were: each with its target, or why it is none.
    SetDataBreakpoints {
        targets: Vec<Result<DataBreakpoint<'a>, BreakpointFault>>,
    },
    ConfigurationDone,
    Threads,
    /// The frames of a thread from a place on, the first one where there is none: so many, all where there is no number or 0.
    StackTrace {
        thread: Option<u64>,
        start: Option<u64>,
        levels: Option<u64>,
    },
    /// What can be shown of the frame of this number.
    Scopes {
        frame: u64,
    },
    /// The variables of this reference.
    Variables {
        reference: u64,
        page: Page,
        /// Whether values are shown as hexadecimal numbers; so for the requests below.
        is_hexadecimal: bool,
    },
    /// One of the variables of this reference is set.
    SetVariable {
        reference: u64,
        name: &'a str,
        value: &'a str,
        is_hexadecimal: bool,
    },
    /// What an expression names is set, in the frame of this number; in the top one where there is none.
    SetExpression {
        expression: &'a str,
        value: &'a str,
        frame: Option<u64>,
        is_hexadecimal: bool,
    },
    /// The names that can stand in a text before a column, in the frame of this number; in the top one where there is none.
    Completions {
        text: &'a str,
        /// Columns count units of UTF-16, from 1.
        column: u64,
        frame: Option<u64>,
    },
    /// An expression, in the frame of this number; in the top one where there is none.
    Evaluate {
        expression: &'a str,
        frame: Option<u64>,
        context: Context,
        is_hexadecimal: bool,
    },
    Next,
    StepIn,
    StepOut,
    Continue,
    StepBack,
    ReverseContinue,
    /// The program is to stand still.
    Pause,
    Restart,
    /// The program is to end; the editor is told that it has.
    Terminate,
    Disconnect,
    /// A request of another name.
    Unknown(&'a str),
}
