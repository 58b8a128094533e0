//! `continue`, which may take long, in pieces.
ghost use Rattle.std.specs.Prelude.{◌≡◌, ◌≤◌, ◌-◌, ℕ, Some};
ghost use Rattle.std.specs.List.{list_any};
ghost use Rattle.gang_model.specs.Debugger.Debugger.{Debugger, DoContinue, Setting};
ghost use Rattle.conditional_stops.specs.Watching.{is_watch};
ghost use Rattle.debug_session.specs.Sessions.{Replied, RepliesTo, StandsFor};
ghost use Rattle.prompt_moves.specs.Pieces.{GoesBy, MeansEnd, NoWatch, continued, ends_there};
ghost use Rattle.prompt_moves.specs.Breakpoints as breakpoints;

use debug_answers::{Answer, NumberedStop, Stop};
use debug_commands::Command;
use debug_session::{Session, breakpoint_on};
use debug_traits::{AnswerWriter, RecordedMachine};
use prompt_scenes::is_here;
use prompt_texts::Page;

/// The most moves of a piece.
const PIECE: u32 = 100_000;

/// Does `continue`, in a session of so many moves a command at most, and shows after each piece how many were made. What watches
/// show is compared within a command alone, so where one is there it is done in one piece.
pub fn go_on<'a, M: RecordedMachine, O: AnswerWriter + Drop>(
    most_steps: u32,
    session: &mut Session<M>,
    page: &mut Page<O>,
) -> Answer<'a>
    ensures { (s : Setting) (d : Debugger) → StandsFor M.stands session.old s d → s.limit ≡ most_steps
        → RepliesTo M.may_want M.stands s DoContinue d result session.new }
{
    if most_steps <= PIECE || has_watch(session.stops()) {
        return session.do_command(Command::Continue);
    }
    let answer = go_by_pieces(most_steps, session, page);
    page.clear_progress();
    answer
}

/// Does `continue` by pieces, where no watch is there.
fn go_by_pieces<'a, M: RecordedMachine, O: AnswerWriter + Drop>(
    most_steps: u32,
    session: &mut Session<M>,
    page: &mut Page<O>,
) -> Answer<'a>
    requires { 1 ≤ most_steps }
    ensures { (s : Setting) (d : Debugger) → StandsFor M.stands session.old s d → NoWatch d.stops → s.limit ≡ most_steps
        → Replied M.stands s (continued most_steps s d) result session.new }
{
    let mut left = most_steps;
    while left > PIECE {
        match go_piece(PIECE, session) {
            Some(answer) => return answer,
            None => left -= PIECE,
        }
        page.put_progress(most_steps - left);
    }
    match go_piece(left, session) {
        Some(answer) => answer,
        None => Answer::StepLimit,
    }
}

/// Makes so many moves of `continue`; gives its answer where it ends by then.
fn go_piece<'a, M: RecordedMachine>(count: u32, session: &mut Session<M>) -> Option<Answer<'a>>
    requires { 1 ≤ count }
    ensures { (s : Setting) (d : Debugger) (most : ℕ) → StandsFor M.stands session.old s d → NoWatch d.stops → count ≤ s.limit → count ≤ most
        → GoesBy M.stands s (continued most s d) (most - count) result session.new }
{
    let answer = session.do_command(Command::Step(count));
    if is_here(&answer) {
        end_here(session)
    } else {
        Some(answer)
    }
}

/// What ends `continue` where the program stands: that it has ended, or a breakpoint on the line.
fn end_here<'a, M: RecordedMachine>(session: &Session<M>) -> Option<Answer<'a>>
    ensures { (s : Setting) (d : Debugger) → StandsFor M.stands session.now s d → MeansEnd s d result (ends_there s d) }
{
    let Some(position) = session.machine().position() else {
        return Some(Answer::Here);
    };
    match breakpoint_on(position.place.line, session.stops()) {
        Some(number) => Some(Answer::AtBreakpoint(number)),
        None => None,
    }
}

/// The breakpoint on the line where the program stands.
pub(crate) fn stop_here<M: RecordedMachine>(session: &Session<M>) -> Option<u32>
    ensures { (s : Setting) (d : Debugger) → StandsFor M.stands session.now s d → result ≡ breakpoints.stop_here s d }
{
    match session.machine().position() {
        Some(position) => breakpoint_on(position.place.line, session.stops()),
        None => None,
    }
}

/// The first breakpoint on the line on which a breakpoint for this line would be.
pub fn stop_on<M: RecordedMachine>(line: u32, session: &Session<M>) -> Option<u32>
    ensures { (s : Setting) (d : Debugger) → StandsFor M.stands session.now s d → result ≡ breakpoints.stop_on s d (Some line) }
{
    match session.machine().line_from(line) {
        Some(line) => breakpoint_on(line, session.stops()),
        None => None,
    }
}

/// Whether a watch is among these.
fn has_watch(stops: &[NumberedStop]) -> bool
    ensures { result ≡ list_any is_watch stops.now }
{
    stops
        .iter()
        .any(|entry| matches!(entry.stop, Stop::Watch { .. }))
}
