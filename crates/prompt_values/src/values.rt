//! What a variable shows: its lanes or its elements, or some of them.
ghost use Rattle.std.specs.Prelude.{◌∷◌, []};
ghost use Rattle.gang_model.specs.Debugger.Debugger.{Debugger, DoSetIn, Setting};
ghost use Rattle.command_lists.specs.Lists.{HasDone};
ghost use Rattle.gang_model.specs.Texts.Text.{target_text};
ghost use Rattle.debug_commands.specs.Views.{command_view, target_view};
ghost use Rattle.debug_session.specs.Sessions.{StandsFor};
ghost use Rattle.prompt_texts.specs.Shown.{Puts, masked};
ghost use Rattle.prompt_values.specs.Printed as spec;

use crate::numbered::Printed;
use debug_answers::Answer;
use debug_commands::{Command, Target};
use debug_session::Session;
use debug_traits::{AnswerWriter, FramedMachine, Shown};
use prompt_scenes::{Scene, depth, find_part};
use prompt_texts::{Page, lanes_at, put_told, show_value, tell, tell_refused_at, told_variable};
use value_digits::Digits;

/// What is said where memory runs out.
pub(crate) const NO_MEMORY: &[u8] = b"C12 Memory: there is no memory to show this.\n";

/// Shows a target of the frame at a depth.
pub fn show_target<M: FramedMachine, O: AnswerWriter + Drop>(
    target: Target<'_>,
    digits: Digits,
    shown: Shown,
    depth: usize,
    scene: Scene<'_>,
    machine: &M,
    page: &mut Page<O>,
) {
    let _ = print_shown(target, digits, shown, depth, scene, machine, page);
}

/// Shows a target of the frame at a depth, and gives what was shown: none where there is no memory, which is told.
pub fn print_shown<M: FramedMachine, O: AnswerWriter + Drop>(
    target: Target<'_>,
    digits: Digits,
    shown: Shown,
    depth: usize,
    scene: Scene<'_>,
    machine: &M,
    page: &mut Page<O>,
) -> Option<Printed>
    ensures { Puts (spec.line_or_none (target_text (target_view target.entry)) digits result) page.old.has_failed page.new.has_failed (O.written page.old.writer) (O.written page.new.writer) }
{
    let (from, to) = match target.at {
        None => (0, shown.count),
        Some(index) => (index as usize, index as usize + 1),
    };
    let lanes = lanes_at(depth, machine);
    match told_variable(
        scene.alloc,
        scene.layout,
        shown,
        lanes,
        from,
        to,
        depth,
        machine,
    ) {
        Ok(told) => {
            show_value(target, digits, &told, page);
            Some(Printed::Told(told))
        }
        Err(_) => {
            page.put(NO_MEMORY);
            None
        }
    }
}

/// Shows the elements of an array from one on up to another, of the frame at a depth, behind what was typed for them, and gives what was
/// shown.
pub(crate) fn print_elements<M: FramedMachine, O: AnswerWriter + Drop>(
    typed: &[u8],
    digits: Digits,
    shown: Shown,
    from: usize,
    to: usize,
    depth: usize,
    scene: Scene<'_>,
    machine: &M,
    page: &mut Page<O>,
) -> Option<Printed>
    ensures { Puts (spec.line_or_none (masked typed.now) digits result) page.old.has_failed page.new.has_failed (O.written page.old.writer) (O.written page.new.writer) }
{
    let lanes = lanes_at(depth, machine);
    match told_variable(
        scene.alloc,
        scene.layout,
        shown,
        lanes,
        from,
        to,
        depth,
        machine,
    ) {
        Ok(told) => {
            page.put_masked(typed);
            page.put(b" =");
            put_told(digits, &told, page);
            Some(Printed::Told(told))
        }
        Err(_) => {
            page.put(NO_MEMORY);
            None
        }
    }
}

/// Tells what a command that moves nothing came to, in the top frame.
pub fn tell_answer<M: FramedMachine, O: AnswerWriter + Drop>(
    answer: &Answer<'_>,
    scene: Scene<'_>,
    session: &Session<M>,
    page: &mut Page<O>,
) {
    let _ = print_answer(answer, scene, session, page);
}

/// The same, and gives the value that was shown.
pub fn print_answer<M: FramedMachine, O: AnswerWriter + Drop>(
    answer: &Answer<'_>,
    scene: Scene<'_>,
    session: &Session<M>,
    page: &mut Page<O>,
) -> Option<Printed>
    ensures { spec.TellsAnswer (λ text. Puts text page.old.has_failed page.new.has_failed (O.written page.old.writer) (O.written page.new.writer)) answer.now result }
{
    match answer {
        Answer::Shows { target, shown } => {
            let machine = session.machine();
            print_shown(
                *target,
                Digits::Decimal,
                *shown,
                depth(session),
                scene,
                machine,
                page,
            )
        }
        other => {
            tell(other, scene.line, scene.source, session, page);
            None
        }
    }
}

/// Does a command that does not move, and shows what it came to.
pub fn do_and_show<M: FramedMachine, O: AnswerWriter + Drop>(
    command: Command<'_>,
    scene: Scene<'_>,
    session: &mut Session<M>,
    page: &mut Page<O>,
)
    ensures { (s : Setting) (d : Debugger) → StandsFor M.stands session.old s d
        → HasDone M.stands s (command_view command.entry ∷ []) d session.new }
{
    let answer = session.do_command(command);
    tell_answer(&answer, scene, session, page);
}

/// Sets a value in the frame at a depth, and shows what the target has there then, or tells why it is not set.
pub fn set_and_show<M: FramedMachine, O: AnswerWriter + Drop>(
    target: Target<'_>,
    value: i128,
    depth: usize,
    scene: Scene<'_>,
    session: &mut Session<M>,
    page: &mut Page<O>,
)
    ensures { (s : Setting) (d : Debugger) → StandsFor M.stands session.old s d
        → HasDone M.stands s (DoSetIn depth (target_view target.entry) value ∷ []) d session.new }
{
    let answer = session.set_in(depth, target, value);
    let _ = tell_set(&answer, target, depth, scene, session.machine(), page);
}

/// Shows a target of the frame at a depth, where the answer says that it was set, or tells why it was not. Gives what was shown.
fn tell_set<M: FramedMachine, O: AnswerWriter + Drop>(
    answer: &Answer<'_>,
    target: Target<'_>,
    depth: usize,
    scene: Scene<'_>,
    machine: &M,
    page: &mut Page<O>,
) -> Option<Printed>
    ensures { spec.TellsSet (λ text. Puts text page.old.has_failed page.new.has_failed (O.written page.old.writer) (O.written page.new.writer)) (target_view target.entry) answer.now result }
{
    match answer {
        Answer::Silent => match find_part(target, depth, machine) {
            Ok(shown) => print_shown(target, Digits::Decimal, shown, depth, scene, machine, page),
            Err(_) => None,
        },
        other => {
            tell_refusal(other, depth, scene, machine, page);
            None
        }
    }
}

/// Tells why a value is not set in the frame at a depth, where the answer refuses it.
fn tell_refusal<M: FramedMachine, O: AnswerWriter + Drop>(
    answer: &Answer<'_>,
    depth: usize,
    scene: Scene<'_>,
    machine: &M,
    page: &mut Page<O>,
) {
    if let Answer::Refused(refusal) = answer {
        tell_refused_at(*refusal, scene.line, depth, machine, page);
    }
}
