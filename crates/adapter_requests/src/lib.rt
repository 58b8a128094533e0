//! What an editor asks of a debugger by the Debug Adapter Protocol, and what it is told.
#![tactic(auto)]

mod reply;
mod request;

pub use reply::{
    Breakpoint, BreakpointFault, CallScopes, Completion, Exception, Frame, Reply, Scopes, Stop,
    StopReason, Thread, Variable, VariableKind,
};
pub use request::{
    Context, DataBreakpoint, Filter, FunctionBreakpoint, Launch, LineBreakpoint, Page, Request, Way,
};
