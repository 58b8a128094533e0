//! What an editor is told behind a reply and where a run begins, as events that are not sent yet.
ghost use Rattle.std.specs.Prelude.{◌≡◌, ◌++◌, IfOk, OnOk, map, option_map, string_bytes};
ghost use Rattle.gang_model.specs.Debugger.Debugger as model;
ghost use Rattle.gang_model.specs.Debugger.Debugger.{Debugger, Setting};
ghost use Rattle.gang_model.specs.Texts.Text.{text};
ghost use Rattle.debug_answers.specs.Meanings.{Means};
ghost use Rattle.debug_session.specs.Sessions.{StandsFor, bare};
ghost use Rattle.log_points.specs.Points.{written_of};
ghost use Rattle.adapter_replies.specs.Meanings.{told_text};
ghost use Rattle.adapter_replies.specs.Stopped.{stop_view};
ghost use Rattle.adapter_server.specs.Events as spec;
ghost use Rattle.adapter_server.specs.Events.{event_view};
ghost use Rattle.adapter_server.specs.Threads.{threads_of};

use crate::effects::{asks_to_end, asks_to_set};
use crate::threads::thread_of;
use crate::writing::console_lines;
use adapter_replies::{answer_text, no_value_text, stop_behind};
use adapter_requests::{Launch, Reply, Request, StopReason};
use adapter_session::{Answered, Beginning};
use conditional_stops::{CountedStop, Verdict};
use debug_answers::Answer;
use debug_session::Session;
use debug_traits::{FramedMachine, RecordedMachine};
use log_points::Written;
use std::alloc::{AllocError, Global};

/// What an editor is told besides replies.
#[derive(Drop)]
pub(crate) enum Event {
    /// A line of the console.
    Line(String),
    /// Why the program stands still, the thread that is shown first, and what the debugger says of it.
    Stop {
        reason: StopReason,
        thread: u64,
        text: String,
    },
    /// Values have changed though the program stood still.
    Change,
    /// The program has ended, or the editor's user has.
    End,
}

/// What was told before, and what the editor wants to be told.
#[derive(Clone, Copy)]
pub(crate) struct Told {
    /// Why the program stood still when the editor was last told so.
    pub(crate) last: StopReason,
    /// Whether the editor wants to hear that values have changed though the program stood still.
    pub(crate) hears_changes: bool,
}

/// What is told behind the reply to a request, where the last stop was for a reason: the texts that breakpoints wrote, why a condition
/// has no value, and a stop, a change, where the editor hears of those, or the end.
pub(crate) fn events_behind<M: FramedMachine>(
    alloc: Global,
    launch: &Launch<'_>,
    session: &Session<M>,
    told: Told,
    request: &Request<'_>,
    answered: &Answered,
) -> Result<Vec<Event>, AllocError>
    ensures { (s : Setting) (d : Debugger) → StandsFor M.stands session.now s d
        → IfOk result (λ events. map event_view events.items ≡ spec.events_behind (threads_of launch.now) told.hears_changes s d request.now told.last answered.now) }
{
    let mut events = written_events(alloc, &answered.written)?;
    put_verdict(alloc, &answered.verdict, &mut events)?;
    put_reply(
        alloc,
        launch,
        session,
        told,
        request,
        &answered.reply,
        &mut events,
    )?;
    put_end(session, request, &mut events)?;
    Ok(events)
}

/// What is told where a run begins that stops before its first step.
pub(crate) fn events_on_entry<M: RecordedMachine>(
    alloc: Global,
    launch: &Launch<'_>,
    session: &Session<M>,
) -> Result<Vec<Event>, AllocError>
    ensures { (s : Setting) (d : Debugger) → StandsFor M.stands session.now s d
        → IfOk result (λ events. map event_view events.items ≡ spec.events_on_entry (threads_of launch.now) s d) }
{
    let mut events = Vec::new(alloc);
    events.push(first_stop(alloc, launch, session, StopReason::Entry, &Answer::Here)?)?;
    Ok(events)
}

/// What is told where another run begins: the texts that breakpoints wrote there, and a stop, where one counts.
pub(crate) fn events_at_beginning<M: RecordedMachine>(
    alloc: Global,
    launch: &Launch<'_>,
    session: &Session<M>,
    beginning: &Beginning,
) -> Result<Vec<Event>, AllocError>
    ensures { (s : Setting) (d : Debugger) → StandsFor M.stands session.now s d
        → IfOk result (λ events. map event_view events.items ≡ spec.events_at_beginning (threads_of launch.now) s d beginning.now) }
{
    let mut events = written_events(alloc, &beginning.written)?;
    put_counted(alloc, launch, session, &beginning.first, &mut events)?;
    Ok(events)
}

/// A line for each text that breakpoints wrote, and one behind them where some are left out.
fn written_events(alloc: Global, written: &Written) -> Result<Vec<Event>, AllocError>
    ensures { IfOk result (λ events. map event_view events.items ≡ spec.written_events (written_of written.now)) }
{
    let lines = console_lines(alloc, written)?;
    line_events(alloc, lines)
}

/// Lines of the console.
fn line_events(alloc: Global, lines: Vec<String>) -> Result<Vec<Event>, AllocError>
    ensures { IfOk result (λ events. map event_view events.items ≡ map spec.Says (map string_bytes lines.items)) }
{
    let mut events = Vec::new(alloc);
    for line in lines {
        events.push(Event::Line(line))?;
    }
    Ok(events)
}

/// Puts behind others why a condition has no value, where it has none.
fn put_verdict(
    alloc: Global,
    verdict: &Option<Verdict>,
    events: &mut Vec<Event>,
) -> Result<(), AllocError>
    ensures { OnOk result (map event_view events.new.items ≡ map event_view events.old.items ++ spec.verdict_events verdict.now) }
{
    match verdict {
        Some(Verdict::NoValue(why)) => {
            let why = no_value_text(alloc, *why)?;
            let line = format!(in alloc; "the condition has no value: {why}\n")?;
            events.push(Event::Line(line))?;
            Ok(())
        }
        Some(Verdict::Holds(_) | Verdict::Fails) | None => Ok(()),
    }
}

/// Puts behind others what a reply leads to: the end or a stop, and a change.
fn put_reply<M: RecordedMachine>(
    alloc: Global,
    launch: &Launch<'_>,
    session: &Session<M>,
    told: Told,
    request: &Request<'_>,
    reply: &Reply,
    events: &mut Vec<Event>,
) -> Result<(), AllocError>
    ensures { (s : Setting) (d : Debugger) → StandsFor M.stands session.now s d
        → OnOk result (map event_view events.new.items ≡ map event_view events.old.items ++ spec.reply_events (threads_of launch.now) told.hears_changes s d request.now told.last reply.now) }
{
    put_standing(alloc, launch, session, told.last, request, reply, events)?;
    put_change(told.hears_changes, request, reply, events)?;
    Ok(())
}

/// Puts behind others where a reply leaves the program: the end, or the stop that an editor is told of behind it.
fn put_standing<M: RecordedMachine>(
    alloc: Global,
    launch: &Launch<'_>,
    session: &Session<M>,
    last: StopReason,
    request: &Request<'_>,
    reply: &Reply,
    events: &mut Vec<Event>,
) -> Result<(), AllocError>
    ensures { (s : Setting) (d : Debugger) → StandsFor M.stands session.now s d
        → OnOk result (map event_view events.new.items ≡ map event_view events.old.items ++ spec.standing_events (threads_of launch.now) s d request.now last reply.now) }
{
    match reply {
        Reply::Ended => {
            events.push(Event::End)?;
            Ok(())
        }
        _ => {
            let stop = stop_behind(request, reply, last);
            put_stop(alloc, launch, session, stop, events)
        }
    }
}

/// Puts a change behind others, where an editor hears of those and a value was set.
fn put_change(
    hears_changes: bool,
    request: &Request<'_>,
    reply: &Reply,
    events: &mut Vec<Event>,
) -> Result<(), AllocError>
    ensures { OnOk result (map event_view events.new.items ≡ map event_view events.old.items ++ spec.change_events hears_changes request.now reply.now) }
{
    if hears_changes && asks_to_set(request) && tells_value(reply) {
        events.push(Event::Change)?;
    }
    Ok(())
}

/// Whether a reply tells a value, and no move.
fn tells_value(reply: &Reply) -> bool
    ensures { result ≡ spec.tells_value reply.now }
{
    matches!(
        reply,
        Reply::Set { .. } | Reply::Evaluated { reason: None, .. }
    )
}

/// Puts a stop behind others, if there is one.
fn put_stop<M: RecordedMachine>(
    alloc: Global,
    launch: &Launch<'_>,
    session: &Session<M>,
    stop: Option<(StopReason, &str)>,
    events: &mut Vec<Event>,
) -> Result<(), AllocError>
    ensures { (s : Setting) (d : Debugger) → StandsFor M.stands session.now s d
        → OnOk result (map event_view events.new.items ≡ map event_view events.old.items ++ spec.stop_events (threads_of launch.now) s d (option_map stop_view stop.entry)) }
{
    let Some((reason, text)) = stop else {
        return Ok(());
    };
    let thread = thread_of(launch, session, reason);
    let text = String::from_str(alloc, text)?;
    events.push(Event::Stop {
        reason,
        thread,
        text,
    })?;
    Ok(())
}

/// Puts the end behind others, where a request asks for it.
fn put_end<M: FramedMachine>(
    session: &Session<M>,
    request: &Request<'_>,
    events: &mut Vec<Event>,
) -> Result<(), AllocError>
    ensures { (s : Setting) (d : Debugger) → StandsFor M.stands session.now s d
        → OnOk result (map event_view events.new.items ≡ map event_view events.old.items ++ spec.request_events s (bare d) request.now) }
{
    if asks_to_end(session.machine(), request) {
        events.push(Event::End)?;
    }
    Ok(())
}

/// Puts behind others the stop at a breakpoint that counts where a run begins, if one does, and before it why its condition has no
/// value, where it has none.
fn put_counted<M: RecordedMachine>(
    alloc: Global,
    launch: &Launch<'_>,
    session: &Session<M>,
    first: &Option<CountedStop>,
    events: &mut Vec<Event>,
) -> Result<(), AllocError>
    ensures { (s : Setting) (d : Debugger) → StandsFor M.stands session.now s d
        → OnOk result (map event_view events.new.items ≡ map event_view events.old.items ++ spec.counted_events (threads_of launch.now) s d first.now) }
{
    let Some(counted) = first else {
        return Ok(());
    };
    put_verdict(alloc, &counted.verdict, events)?;
    let number = counted.reason.number();
    let reason = StopReason::Breakpoint(number);
    let answer = Answer::AtBreakpoint(number);
    events.push(first_stop(alloc, launch, session, reason, &answer)?)?;
    Ok(())
}

/// A stop before the first step, with the text of an answer there.
fn first_stop<M: RecordedMachine>(
    alloc: Global,
    launch: &Launch<'_>,
    session: &Session<M>,
    reason: StopReason,
    answer: &Answer<'_>,
) -> Result<Event, AllocError>
    ensures { (s : Setting) (d : Debugger) (meant : model.Answer) → StandsFor M.stands session.now s d → Means s d answer.now meant
        → IfOk result (λ event. event_view event ≡ spec.stop_event (threads_of launch.now) s d reason (told_text answer.now (text s meant d))) }
{
    let text = answer_text(alloc, answer, session.machine(), session.stops())?;
    let thread = thread_of(launch, session, reason);
    Ok(Event::Stop {
        reason,
        thread,
        text,
    })
}
