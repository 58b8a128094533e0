//! What a request does to a session, and what it is told.
ghost use Rattle.std.specs.Prelude.{◌≡◌, option_map, unwrap_or, IfErr, IfOk};
ghost use Rattle.gang_model.specs.Debugger.Debugger as model;
ghost use Rattle.gang_model.specs.Debugger.Debugger.{Debugger, Setting, depth, now};
ghost use Rattle.debug_session.specs.Sessions.{StandsFor};
ghost use Rattle.command_lists.specs.Lists.{HasDone};
ghost use Rattle.adapter_replies.specs.Told.{MeansLast};
ghost use Rattle.adapter_session.specs.Answered.{IsTold, IsToldByLines, MayTell, is_source_of};
ghost use Rattle.adapter_session.specs.Changes.{change_view};
ghost use Rattle.adapter_session.specs.Given.{all_numbers};
ghost use Rattle.adapter_session.specs.Done.{DoesMeant, DoesPlainly, DoesRead, DoesRequest};
ghost use Rattle.adapter_session.specs.Requested.{commands_of, commands_there};
ghost use Rattle.adapter_session.specs.Terms.{changed_by, function_numbers, terms_of};

use crate::changes::{Change, change_of};
use crate::counting::{go_to_counted, way_by};
use crate::doing::do_lines_in;
use crate::frames::frame_of;
use crate::functions::function_numbers;
use crate::going::{go_to, goto_of};
use crate::judging::judged;
use crate::lines::{command_lines, is_program};
use crate::terms::Terms;
use crate::typed::{meant_line, typed_in};
use adapter_replies::{depth_of, reply_at_end, reply_to};
use adapter_requests::{Context, Reply, Request};
use conditional_stops::Verdict;
use debug_answers::{Answer, NumberedStop};
use debug_session::Session;
use frame_expressions::ExpressionMachine;
use log_points::Written;
use std::alloc::{AllocError, Global};

/// The depth of the outermost frame.
const OUTERMOST: usize = 1;

/// What a request came to.
#[derive(Drop)]
pub struct Answered {
    /// What it is told.
    pub reply: Reply,
    /// What the condition came to of the breakpoint at which the program stopped, where it has one.
    pub verdict: Option<Verdict>,
    /// The texts that breakpoints wrote in place of stopping.
    pub written: Written,
}

/// Does a request, where the program's source has this path, and says what it is told. Where conditions, counts or messages are there, a
/// program that goes on does so to a stop that counts, and writes texts on the way. A line of the console that is a command in the words of
/// the prompt is done, and told, as the debugger's own; a breakpoint or a watch is refused whose condition is no expression, whatever names
/// there are. In which function the program began is noted, for its frame at the end.
///
/// # Errors
///
/// Out of memory, and then nothing was done.
pub fn answer_request<M: ExpressionMachine>(
    alloc: Global,
    program: &str,
    terms: &mut Terms,
    session: &mut Session<M>,
    request: &Request<'_>,
) -> Result<Answered, AllocError>
    ensures done { (s : Setting) (d : Debugger) → StandsFor M.stands session.old s d
        → IfOk result (λ answered. DoesRequest M.stands s program.now request.now d (terms_of terms.old) answered session.new (terms_of terms.new)) }
    ensures memory { IfErr result (λ _. (session.new ≡ session.old) × (terms.new ≡ terms.old)) }
{
    let outermost = session.machine().spot(OUTERMOST);
    let answered = answer_read(alloc, program, terms, session, request)?;
    terms.note(outermost);
    Ok(answered)
}

/// Does what is meant by a request, and says what it is told.
fn answer_read<M: ExpressionMachine>(
    alloc: Global,
    program: &str,
    terms: &mut Terms,
    session: &mut Session<M>,
    request: &Request<'_>,
) -> Result<Answered, AllocError>
    ensures done { (s : Setting) (d : Debugger) → StandsFor M.stands session.old s d
        → IfOk result (λ answered. DoesRead M.stands s program.now request.now d (terms_of terms.old) answered session.new (terms_of terms.new)) }
    ensures memory { IfErr result (λ _. (session.new ≡ session.old) × (terms.new ≡ terms.old)) }
{
    match typed_in(request) {
        None => {
            let meant = judged(alloc, session.machine().program(), request)?;
            let answered = answer_judged(alloc, program, terms, session, request, meant)?;
            Ok(answered)
        }
        Some(typed) => {
            let line = meant_line(alloc, session.machine(), typed)?;
            let meant = Request::Evaluate {
                expression: line.as_str(),
                frame: typed.frame,
                context: Context::Console,
                is_hexadecimal: typed.is_hexadecimal,
            };
            let answered = answer_meant(alloc, program, terms, session, &meant)?;
            Ok(answered)
        }
    }
}

/// Does the request that came in place of another one, if one did, or else that one, and says what it is told.
fn answer_judged<M: ExpressionMachine>(
    alloc: Global,
    program: &str,
    terms: &mut Terms,
    session: &mut Session<M>,
    request: &Request<'_>,
    meant: Option<Request<'_>>,
) -> Result<Answered, AllocError>
    ensures done { (s : Setting) (d : Debugger) → StandsFor M.stands session.old s d
        → IfOk result (λ answered. DoesMeant M.stands s program.now (unwrap_or meant.entry request.now) d (terms_of terms.old) answered session.new (terms_of terms.new)) }
    ensures memory { IfErr result (λ _. (session.new ≡ session.old) × (terms.new ≡ terms.old)) }
{
    match meant {
        None => answer_meant(alloc, program, terms, session, request),
        Some(meant) => answer_meant(alloc, program, terms, session, &meant),
    }
}

/// Does a request as it stands, and says what it is told.
fn answer_meant<M: ExpressionMachine>(
    alloc: Global,
    program: &str,
    terms: &mut Terms,
    session: &mut Session<M>,
    request: &Request<'_>,
) -> Result<Answered, AllocError>
    ensures done { (s : Setting) (d : Debugger) → StandsFor M.stands session.old s d
        → IfOk result (λ answered. DoesMeant M.stands s program.now request.now d (terms_of terms.old) answered session.new (terms_of terms.new)) }
    ensures memory { IfErr result (λ _. (session.new ≡ session.old) × (terms.new ≡ terms.old)) }
{
    match way_by(terms, request) {
        Some(way) => Ok(go_to_counted(alloc, program, terms, session, request, way)),
        None => answer_plainly(alloc, program, terms, session, request),
    }
}

/// Does the commands of a request, and says what it is told.
fn answer_plainly<M: ExpressionMachine>(
    alloc: Global,
    program: &str,
    terms: &mut Terms,
    session: &mut Session<M>,
    request: &Request<'_>,
) -> Result<Answered, AllocError>
    ensures done { (s : Setting) (d : Debugger) → StandsFor M.stands session.old s d
        → IfOk result (λ answered. DoesPlainly M.stands s program.now request.now d (terms_of terms.old) answered session.new (terms_of terms.new)) }
    ensures memory { IfErr result (λ _. (session.new ≡ session.old) × (terms.new ≡ terms.old)) }
{
    let functions = function_numbers(&terms.functions);
    let change = change_of(alloc, program, functions.as_slice(), session, request)?;
    let told = answer_commands(alloc, program, terms, session, request)?;
    let reply = reply_at_end(alloc, session.machine(), terms.entry, request, told);
    change_terms(terms, session.stops(), change);
    Ok(Answered {
        reply,
        verdict: None,
        written: Written::new(alloc),
    })
}

/// Puts what a request asks for in place of what there was, where it changes that and these stops are there now.
fn change_terms(terms: &mut Terms, stops: &[NumberedStop], change: Option<Change<'_>>)
    ensures { terms_of terms.new ≡ changed_by (option_map change_view change.entry) (all_numbers stops.now) (terms_of terms.old) }
{
    if let Some(change) = change {
        terms.change(stops, &change);
    }
}

/// Does the commands of a request, where the program's source has this path, and says what the request is told.
fn answer_commands<M: ExpressionMachine>(
    alloc: Global,
    program: &str,
    terms: &Terms,
    session: &mut Session<M>,
    request: &Request<'_>,
) -> Result<Reply, AllocError>
    ensures done { (s : Setting) (d : Debugger) → StandsFor M.stands session.old s d
        → IfOk result (λ _. HasDone M.stands s (commands_of program.now (function_numbers (terms_of terms.now)) s d request.now) d session.new) }
    ensures told { (s : Setting) (d : Debugger) → StandsFor M.stands session.old s d
        → IfOk result (λ told. IsTold M.stands s program.now (function_numbers (terms_of terms.now)) request.now d told session.new) }
    ensures memory { IfErr result (λ _. session.new ≡ session.old) }
{
    match goto_of(request) {
        Some(time) => Ok(go_to(alloc, program, session, request, time)),
        None => answer_lines(alloc, program, terms, session, request),
    }
}

/// Does the lines of a request, and says what it is told.
fn answer_lines<M: ExpressionMachine>(
    alloc: Global,
    program: &str,
    terms: &Terms,
    session: &mut Session<M>,
    request: &Request<'_>,
) -> Result<Reply, AllocError>
    ensures done { (s : Setting) (d : Debugger) → StandsFor M.stands session.old s d
        → IfOk result (λ _. HasDone M.stands s (commands_there s.program program.now (function_numbers (terms_of terms.now)) (depth (now s d)) d.stops request.now) d session.new) }
    ensures told { (s : Setting) (d : Debugger) → StandsFor M.stands session.old s d
        → IfOk result (λ told. IsToldByLines M.stands s program.now (function_numbers (terms_of terms.now)) request.now d told session.new) }
    ensures memory { IfErr result (λ _. session.new ≡ session.old) }
{
    let lines = command_lines(alloc, program, terms, session, request)?;
    let frame = frame_of(depth_of(session.machine()), request);
    let last = do_lines_in(session, frame, lines.as_slice());
    Ok(told(alloc, program, session, request, last))
}

/// What a request is told, or that there is no memory for it.
pub(crate) fn told<M: ExpressionMachine>(
    alloc: Global,
    program: &str,
    session: &Session<M>,
    request: &Request<'_>,
    last: Option<Answer<'_>>,
) -> Reply
    ensures { (s : Setting) (d : Debugger) (meant : model.Answer) → StandsFor M.stands session.now s d → MeansLast s d last.entry meant
        → MayTell s program.now d last.entry meant request.now result }
{
    let machine = session.machine();
    let is_program = is_source_of(program, request);
    match reply_to(alloc, machine, session.stops(), request, is_program, last) {
        Ok(reply) => reply,
        Err(_) => Reply::OutOfMemory,
    }
}

/// Whether a request is of breakpoints in the program's source.
fn is_source_of(program: &str, request: &Request<'_>) -> bool
    ensures { result ≡ is_source_of program.now request.now }
{
    match request {
        Request::SetBreakpoints { source, lines: _ }
        | Request::BreakpointLocations {
            source,
            first: _,
            last: _,
        }
        | Request::GotoTargets { source, line: _ } => is_program(program, *source),
        _ => false,
    }
}
