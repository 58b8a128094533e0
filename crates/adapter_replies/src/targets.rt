//! What a text names in a frame: a variable, a lane or an element of one; or the expression that it spells.
ghost use Rattle.std.specs.Prelude.{◌≡◌, IfOk, None, Some, option_map, true};
ghost use Rattle.gang_model.specs.Types.Tree.{Variable};
ghost use Rattle.gang_model.specs.Debugger.Debugger as model;
ghost use Rattle.gang_model.specs.Debugger.Debugger.{Debugger, Setting, bad_part, now};
ghost use Rattle.gang_model.specs.Texts.CommandText.{command_of};
ghost use Rattle.gang_model.specs.Texts.Text.{Bytes};
ghost use Rattle.debug_answers.specs.Meanings.{IsInside, refusal_view};
ghost use Rattle.debug_commands.specs.TargetViews.{target_option};
ghost use Rattle.debug_commands.specs.Views.{target_view};
ghost use Rattle.debug_traits.specs.Frames.{FindsAt, IsShownAt, found_at};
ghost use Rattle.adapter_replies.specs.Asking.{asking_view};
ghost use Rattle.adapter_replies.specs.Targets.{printed, target_in};
ghost use Rattle.adapter_replies.specs.Told.{IsFoundTold, IsPartTold, IsTargetTold};

use crate::asking::Asking;
use crate::expressions::{expression_reply, shown_in};
use crate::opened::opened;
use crate::texts::part_text;
use adapter_requests::Reply;
use debug_answers::Refusal;
use debug_commands::{Command, Target, read_command};
use debug_traits::{FramedMachine, Shown};
use frame_expressions::ExpressionMachine;
use gang_types::Rate;
use std::alloc::{AllocError, Global};

/// What stands before a target in a line that prints.
const PRINT: &[u8] = b"print ";

/// Why a lane or an element is not shown that a variable has not.
const OUT_OF_RANGE: &str = "C8 OutOfRange: an index is past the end, or a value outside its range";

/// What a text means in the frame at a depth: what `print` names by it there, or an expression.
pub(crate) fn found<M: ExpressionMachine>(
    alloc: Global,
    machine: &M,
    depth: usize,
    asking: Asking<'_>,
) -> Result<Reply, AllocError>
    ensures { (s : Setting) (d : Debugger) → M.stands machine.now s d
        → IfOk result (IsTargetTold s d depth (asking_view asking.entry) (target_in asking.entry.text.now)) }
{
    let mut line = Vec::new(alloc);
    line.extend_from_slice(PRINT)?;
    line.extend_from_slice(asking.text)?;
    named(alloc, machine, depth, asking, target_of(line.as_slice()))
}

/// The target of a line that prints.
fn target_of(line: &[u8]) -> Option<Target<'_>>
    ensures { target_option result ≡ printed (command_of line.now) }
{
    match read_command(line) {
        Some(Command::Print(target)) => Some(target),
        _ => None,
    }
}

/// What a target shows in the frame at a depth; where there is none, or its name finds nothing there, the text is an expression.
pub(crate) fn named<M: ExpressionMachine>(
    alloc: Global,
    machine: &M,
    depth: usize,
    asking: Asking<'_>,
    target: Option<Target<'_>>,
) -> Result<Reply, AllocError>
    ensures { (s : Setting) (d : Debugger) → M.stands machine.now s d
        → IfOk result (IsTargetTold s d depth (asking_view asking.entry) (target_option target.entry)) }
{
    let Some(target) = target else {
        return expression_reply(alloc, machine, depth, asking);
    };
    let shown = machine.find_at(depth, target.name);
    found_part(alloc, machine, depth, asking, target, shown)
}

/// What a part of a variable, or all of it, shows in the frame at a depth; where there is no variable, the text is an expression.
fn found_part<M: ExpressionMachine>(
    alloc: Global,
    machine: &M,
    depth: usize,
    asking: Asking<'_>,
    target: Target<'_>,
    shown: Option<Shown>,
) -> Result<Reply, AllocError>
    ensures { (s : Setting) (d : Debugger) (name : Bytes) → M.stands machine.now s d → FindsAt s d depth name shown
        → IfOk result (IsFoundTold s d depth (asking_view asking.entry) (target_view target.entry) (found_at s.program depth (now s d) name)) }
{
    match shown {
        None => expression_reply(alloc, machine, depth, asking),
        Some(shown) => match part_refusal(shown, target.at) {
            None => part_reply(alloc, machine, depth, asking, target, shown),
            Some(refusal) => unshown(alloc, machine, depth, asking, refusal),
        },
    }
}

/// Why a part of a variable cannot be shown, if it cannot.
fn part_refusal(shown: Shown, at: Option<u32>) -> Option<Refusal>
    ensures refused { option_map refusal_view result ≡ bad_part true at shown.is_array shown.rate shown.count }
    ensures inside { result ≡ None → IsInside at shown.count }
{
    match at {
        None => None,
        Some(_) if !shown.is_array && shown.rate == Rate::Uniform => Some(Refusal::NoSuchName),
        Some(index) if index as usize >= shown.count => Some(Refusal::OutOfRange),
        Some(_) => None,
    }
}

/// What a text means that names a part which cannot be shown: past the end it is refused, and else it is an expression.
fn unshown<M: ExpressionMachine>(
    alloc: Global,
    machine: &M,
    depth: usize,
    asking: Asking<'_>,
    refusal: Refusal,
) -> Result<Reply, AllocError>
    ensures { (s : Setting) (d : Debugger) (target : model.Target) (v : Variable) → M.stands machine.now s d
        → IfOk result (IsPartTold s d depth (asking_view asking.entry) target v (Some (refusal_view refusal))) }
{
    match refusal {
        Refusal::OutOfRange => Ok(Reply::Refused(String::from_str(alloc, OUT_OF_RANGE)?)),
        _ => expression_reply(alloc, machine, depth, asking),
    }
}

/// The values of a target in the frame at a depth, by the variable that its name finds there, and what it opens.
fn part_reply<M: FramedMachine>(
    alloc: Global,
    machine: &M,
    depth: usize,
    asking: Asking<'_>,
    target: Target<'_>,
    shown: Shown,
) -> Result<Reply, AllocError>
    ensures { (s : Setting) (d : Debugger) (v : Variable) → M.stands machine.now s d → IsShownAt s d depth v shown → IsInside target.entry.at shown.count
        → IfOk result (IsPartTold s d depth (asking_view asking.entry) (target_view target.entry) v None) }
{
    let values = part_text(alloc, machine, asking.form, depth, shown, target.at)?;
    let text = shown_in(alloc, asking.context, values)?;
    let reference = opened(alloc, machine, depth, target)?;
    Ok(Reply::Evaluated {
        text,
        reason: None,
        reference,
    })
}
