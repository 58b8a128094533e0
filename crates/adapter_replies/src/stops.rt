//! Why a program stands still.
ghost use Rattle.std.specs.Prelude.{◌≡◌, option_map};
ghost use Rattle.adapter_requests.specs.declared.reply.StopReason.TheVariants as reason;
ghost use Rattle.adapter_replies.specs.Stopped.{anew, goto_reason, is_here, is_move, reason_of, stop_behind, stop_view};

use adapter_requests::{Reply, Request, StopReason};
use debug_answers::Answer;
use debug_traits::Fault;

/// Why a program stands still, by the answer to a command, if the command moves.
pub fn stop_of(answer: &Answer<'_>) -> Option<StopReason>
    ensures { result ≡ reason_of answer.now }
{
    match answer {
        Answer::Here | Answer::HistoryEnd | Answer::UndoneStep | Answer::UndonePoke => {
            Some(StopReason::Step)
        }
        Answer::AtBreakpoint(number) => Some(StopReason::Breakpoint(*number)),
        Answer::AtWatch(number) => Some(StopReason::DataBreakpoint(*number)),
        Answer::AtFault(fault) => Some(at_fault(*fault)),
        Answer::StepLimit => Some(StopReason::Pause),
        Answer::Shows { .. }
        | Answer::BreaksAt { .. }
        | Answer::Watches { .. }
        | Answer::Deleted(_)
        | Answer::ListsStops
        | Answer::ListsLocals
        | Answer::ListsFrames
        | Answer::KeepsHistory(_)
        | Answer::Silent
        | Answer::Refused(_) => None,
    }
}

/// Why a program stands still that was to go to a line, by the answer to the command that moved.
pub(crate) fn goto_reason(answer: &Answer<'_>) -> Option<StopReason>
    ensures { result ≡ goto_reason answer.now }
{
    if is_here(answer) {
        Some(StopReason::Goto)
    } else {
        stop_of(answer)
    }
}

/// Whether a goal is reached, or the end.
fn is_here(answer: &Answer<'_>) -> bool
    ensures { result ≡ is_here answer.now }
{
    matches!(answer, Answer::Here)
}

/// The reason of a stop at a fault.
fn at_fault(fault: Fault) -> StopReason
    ensures { result ≡ reason.Exception fault.name fault.lane }
{
    StopReason::Exception {
        name: fault.name,
        lane: fault.lane,
    }
}

/// The stop that an editor is told of behind the reply to a request: that to which a move led, or the last one anew where a move
/// was refused, by the reason of that stop; with its text.
pub fn stop_behind<'a>(
    request: &Request<'_>,
    reply: &'a Reply,
    last: StopReason,
) -> Option<(StopReason, &'a str)>
    ensures { option_map stop_view result ≡ stop_behind (is_move request.now) last reply.now }
{
    match reply {
        Reply::Moved(stop) => Some((stop.reason, stop.text.as_str())),
        Reply::Evaluated {
            text,
            reason: Some(reason),
            ..
        } => Some((*reason, text.as_str())),
        Reply::Refused(text) => anew(is_move(request), last, text.as_str()),
        Reply::OutOfMemory => anew(is_move(request), StopReason::Pause, "out of memory"),
        _ => None,
    }
}

/// A stop that is told anew behind a request that moves, and not behind another one.
fn anew(is_move: bool, reason: StopReason, text: &str) -> Option<(StopReason, &str)>
    ensures { option_map stop_view result ≡ anew is_move reason text.now }
{
    if is_move { Some((reason, text)) } else { None }
}

/// Whether a request moves the program.
fn is_move(request: &Request<'_>) -> bool
    ensures { result ≡ is_move request.now }
{
    matches!(
        request,
        Request::Next
            | Request::StepIn
            | Request::StepOut
            | Request::Continue
            | Request::StepBack
            | Request::ReverseContinue
            | Request::Goto { .. }
    )
}
