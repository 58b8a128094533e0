//! The names of the requests that are known.
ghost use Rattle.std.specs.Prelude.{◌≡◌, map};
ghost use Rattle.adapter_messages.specs.Names.{find_named, named, pair_view};

use debug_words::is_same;

/// A request that is known.
#[derive(Clone, Copy, Debug, PartialEq, Eq)]
pub(crate) enum Name {
    Initialize,
    Launch,
    SetBreakpoints,
    SetFunctionBreakpoints,
    BreakpointLocations,
    GotoTargets,
    Goto,
    SetExceptionBreakpoints,
    ExceptionInfo,
    DataBreakpointInfo,
    SetDataBreakpoints,
    ConfigurationDone,
    Threads,
    StackTrace,
    Scopes,
    Variables,
    SetVariable,
    SetExpression,
    Completions,
    Evaluate,
    Next,
    StepIn,
    StepOut,
    Continue,
    StepBack,
    ReverseContinue,
    Pause,
    Restart,
    Terminate,
    Disconnect,
}

/// The requests that are known, by their commands.
const NAMES: [(&str, Name); 30] = [
    ("initialize", Name::Initialize),
    ("launch", Name::Launch),
    ("setBreakpoints", Name::SetBreakpoints),
    ("setFunctionBreakpoints", Name::SetFunctionBreakpoints),
    ("breakpointLocations", Name::BreakpointLocations),
    ("gotoTargets", Name::GotoTargets),
    ("goto", Name::Goto),
    ("setExceptionBreakpoints", Name::SetExceptionBreakpoints),
    ("exceptionInfo", Name::ExceptionInfo),
    ("dataBreakpointInfo", Name::DataBreakpointInfo),
    ("setDataBreakpoints", Name::SetDataBreakpoints),
    ("configurationDone", Name::ConfigurationDone),
    ("threads", Name::Threads),
    ("stackTrace", Name::StackTrace),
    ("scopes", Name::Scopes),
    ("variables", Name::Variables),
    ("setVariable", Name::SetVariable),
    ("setExpression", Name::SetExpression),
    ("completions", Name::Completions),
    ("evaluate", Name::Evaluate),
    ("next", Name::Next),
    ("stepIn", Name::StepIn),
    ("stepOut", Name::StepOut),
    ("continue", Name::Continue),
    ("stepBack", Name::StepBack),
    ("reverseContinue", Name::ReverseContinue),
    ("pause", Name::Pause),
    ("restart", Name::Restart),
    ("terminate", Name::Terminate),
    ("disconnect", Name::Disconnect),
];

/// The request of a command, if it is known.
pub(crate) fn named(command: &str) -> Option<Name>
    ensures { result ≡ named command.now }
{
    find(&NAMES, command)
}

/// The first request of a command in a list.
fn find(names: &[(&str, Name)], command: &str) -> Option<Name>
    ensures { result ≡ find_named (map pair_view names.now) command.now }
{
    for (text, name) in names {
        if is_same(text.as_bytes(), command.as_bytes()) {
            return Some(*name);
        }
    }
    None
}
