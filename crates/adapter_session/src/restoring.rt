//! Breakpoints and watches that are made anew.
ghost use Rattle.std.specs.Prelude.{◌≡◌, ℕ, ◌+◌, ◌-◌, [], map, option_map};
ghost use Rattle.gang_model.specs.Debugger.Debugger as model;
ghost use Rattle.gang_model.specs.Debugger.Debugger.{Debugger, DoBreak, Setting};
ghost use Rattle.debug_answers.specs.Meanings.{IsStop};
ghost use Rattle.debug_commands.specs.Views.{command_view};
ghost use Rattle.debug_session.specs.Sessions.{StandsFor};
ghost use Rattle.typed_tree.specs.Views.{program_view};
ghost use Rattle.command_lists.specs.Lists.{HasDone};
ghost use Rattle.adapter_session.specs.Given.{all_numbers};
ghost use Rattle.adapter_session.specs.Restored as spec;
ghost use Rattle.adapter_session.specs.Restored.{CanKeepNumbers, command_in, commands_anew, given_made, led, made_anew, numbers, reply_anew, reply_to, restored, stop_commands, terms_anew, unless_made, used, used_up, with_made};
ghost use Rattle.adapter_session.specs.Terms.{function_of, terms_of};

use crate::functions::{FunctionStop, name_of};
use crate::terms::Terms;
use arrayvec::ArrayVec;
use debug_answers::{Answer, NumberedStop, Stop};
use debug_commands::{Command, Target};
use debug_session::Session;
use debug_traits::RecordedMachine;
use frame_expressions::ExpressionMachine;
use function_lines::function_line;
use typed_tree::Program;

/// How many breakpoints and watches can be there.
const MOST: usize = 64;

/// Makes the breakpoints and watches of a session anew in another one, of the same program or of another, in the order of their numbers,
/// with the conditions and the counts that were asked for. A breakpoint of a function stands where the new program has a function of that
/// name, and what cannot be made there is left out. In a session that begins each has the number that it had.
pub fn restore_stops<M: ExpressionMachine>(
    old: &Session<M>,
    terms: &mut Terms,
    session: &mut Session<M>,
)
    ensures done { (s t : Setting) (d e : Debugger) → StandsFor M.stands old.now s d → StandsFor M.stands session.old t e
        → HasDone M.stands t (stop_commands t (terms_of terms.old).functions d.stops e) e session.new }
    ensures terms { (s t : Setting) (d e f : Debugger) → StandsFor M.stands old.now s d → StandsFor M.stands session.old t e → StandsFor M.stands session.new t f
        → terms_of terms.new ≡ terms_anew (terms_of terms.old) (restored t (terms_of terms.old).functions d.stops e []) (numbers f.stops) }
    ensures numbers { (s t : Setting) (d e f : Debugger) → StandsFor M.stands old.now s d → StandsFor M.stands session.old t e → StandsFor M.stands session.new t f
        → CanKeepNumbers t e d.stops → numbers f.stops ≡ restored t (terms_of terms.old).functions d.stops e [] }
{
    let made = restore_all(old, terms.functions.as_slice(), session);
    let restored = terms.carried(made.as_slice(), session.stops());
    *terms = restored;
}

/// Makes the breakpoints and watches of a session anew in another one, in the order of their numbers, and says which could be made.
fn restore_all<M: ExpressionMachine>(
    old: &Session<M>,
    functions: &[FunctionStop],
    session: &mut Session<M>,
) -> ArrayVec<NumberedStop, MOST>
    ensures there { (s t : Setting) (d e : Debugger) → StandsFor M.stands old.now s d → StandsFor M.stands session.old t e
        → StandsFor M.stands session.new t (led t (stop_commands t (map function_of functions.now) d.stops e) e) }
    ensures made { (s t : Setting) (d e : Debugger) → StandsFor M.stands old.now s d → StandsFor M.stands session.old t e
        → all_numbers result.items ≡ restored t (map function_of functions.now) d.stops e [] }
{
    let mut made = ArrayVec::new();
    let mut next = 1;
    let stops = old.stops();
    for index in 0..stops.len() {
        let is_made = make_anew(old.machine(), functions, next, stops[index], session);
        note_made(is_made, stops[index], &mut made);
        next = number_behind(stops[index].number);
    }
    made
}

/// The number behind another one.
fn number_behind(number: u32) -> u64
    ensures { result ≡ number + 1 }
{
    u64::from(number) + 1
}

/// Notes a breakpoint or a watch behind others, if it was made, where there is room.
fn note_made(is_made: bool, entry: NumberedStop, made: &mut ArrayVec<NumberedStop, MOST>)
    ensures { all_numbers made.new.items ≡ with_made is_made entry.number (all_numbers made.old.items) }
{
    if is_made && made.len() < MOST {
        made.push(entry);
    }
}

/// Makes a breakpoint or a watch of a machine's program anew with its own number, where another one is next, and says whether it could be
/// made; else its number is used up.
fn make_anew<M: ExpressionMachine>(
    machine: &M,
    functions: &[FunctionStop],
    next: u64,
    entry: NumberedStop,
    session: &mut Session<M>,
) -> bool
    ensures there { (s t : Setting) (d e : Debugger) (meant : ℕ × model.Stop) → M.stands machine.now s d → entry.number ≡ meant.0 → IsStop s entry.stop meant.1
        → StandsFor M.stands session.old t e → StandsFor M.stands session.new t (led t (commands_anew t (map function_of functions.now) next meant e) e) }
    ensures made { (s t : Setting) (d e : Debugger) (meant : ℕ × model.Stop) → M.stands machine.now s d → entry.number ≡ meant.0 → IsStop s entry.stop meant.1
        → StandsFor M.stands session.old t e → result ≡ spec.is_made (reply_anew t (map function_of functions.now) next meant e).answer }
{
    use_up(next, entry.number, session);
    let is_made = make(machine, functions, entry, session);
    use_unless_made(is_made, entry.number, session);
    is_made
}

/// Uses numbers up, from the next one to that before another.
fn use_up<M: RecordedMachine>(next: u64, number: u32, session: &mut Session<M>)
    ensures { (t : Setting) (e : Debugger) → StandsFor M.stands session.old t e
        → StandsFor M.stands session.new t (led t (used_up (number - next) next) e) }
{
    for used in next..u64::from(number) {
        use_number(used as u32, session);
    }
}

/// Uses the number of a breakpoint or a watch up that could not be made.
fn use_unless_made<M: RecordedMachine>(is_made: bool, number: u32, session: &mut Session<M>)
    ensures { (t : Setting) (e : Debugger) → StandsFor M.stands session.old t e
        → StandsFor M.stands session.new t (led t (unless_made is_made number) e) }
{
    if !is_made {
        use_number(number, session);
    }
}

/// Uses a number up, which is the next one: by a breakpoint on the first line that has a place, which goes again.
fn use_number<M: RecordedMachine>(number: u32, session: &mut Session<M>)
    ensures { (t : Setting) (e : Debugger) → StandsFor M.stands session.old t e → StandsFor M.stands session.new t (led t (used number) e) }
{
    let _made = session.do_command(Command::Break(1));
    let _gone = session.do_command(Command::Delete(Some(number)));
}

/// Makes a breakpoint or a watch of a machine's program anew, and says whether it could be made.
fn make<M: ExpressionMachine>(
    machine: &M,
    functions: &[FunctionStop],
    entry: NumberedStop,
    session: &mut Session<M>,
) -> bool
    ensures there { (s t : Setting) (d e : Debugger) (meant : ℕ × model.Stop) → M.stands machine.now s d → entry.number ≡ meant.0 → IsStop s entry.stop meant.1
        → StandsFor M.stands session.old t e → StandsFor M.stands session.new t (reply_to t (command_in t.program (map function_of functions.now) meant) e).next }
    ensures made { (s t : Setting) (d e : Debugger) (meant : ℕ × model.Stop) → M.stands machine.now s d → entry.number ≡ meant.0 → IsStop s entry.stop meant.1
        → StandsFor M.stands session.old t e → result ≡ spec.is_made (reply_to t (command_in t.program (map function_of functions.now) meant) e).answer }
{
    let program = session.machine().program();
    match command_anew(machine, functions, program, entry) {
        Some(command) => is_made(&session.do_command(command)),
        None => false,
    }
}

/// Whether a breakpoint or a watch was made.
fn is_made(answer: &Answer<'_>) -> bool
    ensures { result ≡ given_made answer.now }
{
    matches!(answer, Answer::BreaksAt { .. } | Answer::Watches { .. })
}

/// The command that makes a breakpoint or a watch anew in a program, if it can stand there.
fn command_anew<'a, M: ExpressionMachine>(
    machine: &'a M,
    functions: &[FunctionStop],
    program: &Program,
    entry: NumberedStop,
) -> Option<Command<'a>>
    ensures { (s : Setting) (d : Debugger) (meant : ℕ × model.Stop) → M.stands machine.now s d → entry.number ≡ meant.0 → IsStop s entry.stop meant.1
        → option_map command_view result ≡ command_in (program_view program.now) (map function_of functions.now) meant }
{
    match name_of(functions, entry.number) {
        Some(name) => break_on(function_line(program, name)),
        None => Some(stop_command(machine, entry.stop)),
    }
}

/// The command that makes a breakpoint on a line, if there is a line.
fn break_on(line: Option<u32>) -> Option<Command<'static>>
    ensures { option_map command_view result ≡ option_map DoBreak line }
{
    match line {
        Some(line) => Some(Command::Break(line)),
        None => None,
    }
}

/// The command that makes a breakpoint or a watch.
fn stop_command<M: ExpressionMachine>(machine: &M, stop: Stop) -> Command<'_>
    ensures { (s : Setting) (d : Debugger) (meant : model.Stop) → M.stands machine.now s d → IsStop s stop meant
        → command_view result ≡ made_anew meant }
{
    match stop {
        Stop::Line(line) => Command::Break(line),
        Stop::Watch { variable, at } => match machine.file_variable(variable) {
            Some(named) => Command::Watch(Target {
                name: named.name,
                at,
            }),
            None => Command::Nothing,
        },
    }
}
