//! Whether what an editor names can be watched.
ghost use Rattle.std.specs.Prelude.{◌≡◌, IfOk, unwrap_or};
ghost use Rattle.gang_model.specs.Debugger.Debugger.{Debugger, Setting};
ghost use Rattle.gang_model.specs.Texts.CommandText.{command_of};
ghost use Rattle.adapter_replies.specs.Breakpoints.{IsWatchableTold};
ghost use Rattle.adapter_replies.specs.References.{place_of};
ghost use Rattle.adapter_replies.specs.Watchable as spec;
ghost use Rattle.adapter_replies.specs.Watchable.{can_watch_in, can_watch_of, is_watchable_of, watches_found};

use crate::breakpoints::can_watch;
use crate::places::{Place, depth_of, is_frame, place_of};
use adapter_requests::Reply;
use debug_commands::{Command, read_command};
use debug_traits::FramedMachine;
use std::alloc::{AllocError, Global};

/// Whether a variable can be watched: one of the variables of a reference, or what a name finds in the frame of a number or in the file.
pub(crate) fn watchable<M: FramedMachine>(
    alloc: Global,
    machine: &M,
    reference: Option<u64>,
    frame: Option<u64>,
    name: &str,
) -> Result<Reply, AllocError>
    ensures { (s : Setting) (d : Debugger) → M.stands machine.now s d
        → IfOk result (IsWatchableTold (is_watchable_of s d reference frame name.now) name.now) }
{
    let line = format!(in alloc; "watch {name}")?;
    if is_watchable(machine, reference.unwrap_or(0), frame, line.as_bytes()) {
        Ok(Reply::Watchable(String::from_str(alloc, name)?))
    } else {
        Ok(Reply::NotWatchable)
    }
}

/// Whether a line watches something that can be watched, and that is one of the variables of a reference; where that is 0, what its name
/// finds.
fn is_watchable<M: FramedMachine>(
    machine: &M,
    reference: u64,
    frame: Option<u64>,
    line: &[u8],
) -> bool
    ensures { (s : Setting) (d : Debugger) → M.stands machine.now s d → result ≡ can_watch_of s d reference frame (command_of line.now) }
{
    if reference == 0 {
        is_expression(machine, frame, line)
    } else {
        is_of_file(reference) && can_watch(machine, line)
    }
}

/// Whether a reference stands for the variables of the file, or for the lanes or elements of one of them.
fn is_of_file(reference: u64) -> bool
    ensures { result ≡ spec.is_of_file (place_of reference) }
{
    match place_of(reference) {
        Place::File | Place::OfFile(_) | Place::FileRange { .. } => true,
        Place::Variables { .. }
        | Place::Parts { .. }
        | Place::Range { .. }
        | Place::Expression { .. }
        | Place::Nothing => false,
    }
}

/// Whether a line watches something that can be watched, and that its name finds in the frame of a number, or in the file where there is
/// none.
fn is_expression<M: FramedMachine>(machine: &M, frame: Option<u64>, line: &[u8]) -> bool
    ensures { (s : Setting) (d : Debugger) → M.stands machine.now s d → result ≡ can_watch_in s d frame (command_of line.now) }
{
    match frame {
        None => can_watch(machine, line),
        Some(frame) => {
            let depth = frame as usize;
            is_frame(depth_of(machine), depth)
                && watches_found(machine, depth, line)
                && can_watch(machine, line)
        }
    }
}

/// Whether a line watches what its name finds in the frame at a depth.
fn watches_found<M: FramedMachine>(machine: &M, depth: usize, line: &[u8]) -> bool
    ensures { (s : Setting) (d : Debugger) → M.stands machine.now s d → result ≡ watches_found s d depth (command_of line.now) }
{
    match read_command(line) {
        Some(Command::Watch(target)) => finds_of_file(machine, depth, target.name),
        _ => false,
    }
}

/// Whether a name finds a variable of the file in the frame at a depth, and not one of the frame that hides it.
fn finds_of_file<M: FramedMachine>(machine: &M, depth: usize, name: &[u8]) -> bool
    ensures { (s : Setting) (d : Debugger) → M.stands machine.now s d → result ≡ spec.finds_of_file s d depth name.now }
{
    let Some(number) = machine.find_in_file(name) else {
        return false;
    };
    match (machine.file_variable(number), machine.find_at(depth, name)) {
        (Some(of_file), Some(found)) => found.id == of_file.shown.id,
        _ => false,
    }
}
