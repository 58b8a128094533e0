//! The frames, and the variables of each.
ghost use Rattle.std.specs.Prelude.{◌++◌, codes};
ghost use Rattle.gang_model.specs.Texts.Text.{target_text};
ghost use Rattle.debug_commands.specs.Views.{target_view};
ghost use Rattle.prompt_texts.specs.Items.{told_text};
ghost use Rattle.prompt_texts.specs.Shown.{Puts};

use crate::answers::put_target;
use crate::items::Layout;
use crate::page::Page;
use crate::places::{put_around, put_place};
use crate::source::Source;
use crate::told::{Told, put_told, told_variable};
use debug_commands::Target;
use debug_session::Session;
use debug_traits::{AnswerWriter, FramedMachine, NamedVariable, RecordedMachine};
use gang_types::Mask;
use std::alloc::Global;
use value_digits::Digits;

/// The most variables of a program.
const VARIABLES: u32 = 256;

/// The widest gang.
const WIDEST: usize = 16;

/// What is said where memory runs out.
const NO_MEMORY: &[u8] = b" there is no memory to show it\n";

/// Writes a line for each frame, the top one first, or for so many.
pub(crate) fn put_frames<M: RecordedMachine, O: AnswerWriter + Drop>(
    most: Option<u32>,
    source: Source<'_>,
    machine: &M,
    page: &mut Page<O>,
) {
    let Some(position) = machine.position() else {
        page.put(b"the program has ended: no frames\n");
        return;
    };
    let count = match most {
        Some(most) => position.depth.min(most as usize),
        None => position.depth,
    };
    for number in 0..count {
        put_frame(number, position.depth, source, machine, page);
    }
    if count < position.depth {
        page.put(b"there are more frames; `where` lists all\n");
    }
}

/// Writes a line: the number of a frame, of so many, and where it stands.
fn put_frame<M: RecordedMachine, O: AnswerWriter + Drop>(
    number: usize,
    depth: usize,
    source: Source<'_>,
    machine: &M,
    page: &mut Page<O>,
) {
    page.put(b"#");
    page.put_number(number as i128);
    page.put(b"  ");
    if number == 0 {
        put_place(0, machine.position(), None, source, page);
    } else {
        put_place(
            0,
            machine.call(depth.saturating_sub(number)),
            None,
            source,
            page,
        );
    }
}

/// Writes a line for each frame, the top one first, or for so many.
pub fn show_frames<M: RecordedMachine, O: AnswerWriter + Drop>(
    most: Option<u32>,
    source: Source<'_>,
    session: &Session<M>,
    page: &mut Page<O>,
) {
    put_frames(most, source, session.machine(), page);
}

/// Writes a line for each frame, the top one first, with its parameters and local variables.
pub fn show_full_frames<M: FramedMachine, O: AnswerWriter + Drop>(
    alloc: Global,
    layout: Layout,
    source: Source<'_>,
    session: &Session<M>,
    page: &mut Page<O>,
) {
    let machine = session.machine();
    let Some(position) = machine.position() else {
        page.put(b"the program has ended: no frames\n");
        return;
    };
    for number in 0..position.depth {
        let depth = position.depth - number;
        put_frame(number, position.depth, source, machine, page);
        put_parameters_at(alloc, layout, b"    ", depth, machine, page);
        put_locals_at(alloc, layout, b"    ", depth, machine, page);
    }
}

/// Writes where a frame stands, the top one being number 0, with the source around it.
pub fn show_frame<M: RecordedMachine, O: AnswerWriter + Drop>(
    number: u128,
    source: Source<'_>,
    session: &Session<M>,
    page: &mut Page<O>,
) {
    let machine = session.machine();
    let Some(top) = machine.position() else {
        page.put(b"the program has ended: no frames\n");
        return;
    };
    if number >= top.depth as u128 {
        page.put(b"there is no such frame; `where` lists them\n");
        return;
    }
    let number = number as usize;
    put_frame(number, top.depth, source, machine, page);
    let position = if number == 0 {
        Some(top)
    } else {
        machine.call(top.depth - number)
    };
    if let Some(position) = position {
        put_around(&position, source, page);
    }
}

/// Writes the parameters of the frame at a depth, with their values.
pub fn show_arguments<M: FramedMachine, O: AnswerWriter + Drop>(
    alloc: Global,
    layout: Layout,
    depth: usize,
    session: &Session<M>,
    page: &mut Page<O>,
) {
    let machine = session.machine();
    if machine.position().is_none() {
        page.put(b"the program has ended: no parameters\n");
    } else if machine.next_parameter_at(depth, 0).is_none() {
        page.put(b"no parameters\n");
    } else {
        put_parameters_at(alloc, layout, b"", depth, machine, page);
    }
}

/// Writes the local variables in scope in the frame at a depth, parameters left out, with their values.
pub fn show_locals<M: FramedMachine, O: AnswerWriter + Drop>(
    alloc: Global,
    layout: Layout,
    depth: usize,
    session: &Session<M>,
    page: &mut Page<O>,
) {
    let machine = session.machine();
    if machine.next_local_at(depth, 0).is_none() {
        page.put(b"no locals\n");
    } else {
        put_locals_at(alloc, layout, b"", depth, machine, page);
    }
}

/// Writes a line for each parameter in scope in the frame at a depth, behind blanks.
fn put_parameters_at<M: FramedMachine, O: AnswerWriter + Drop>(
    alloc: Global,
    layout: Layout,
    front: &[u8],
    depth: usize,
    machine: &M,
    page: &mut Page<O>,
) {
    let mut place = 0;
    for _ in 0..VARIABLES {
        if let Some(parameter) = machine.next_parameter_at(depth, place) {
            put_variable_at(
                alloc,
                layout,
                front,
                parameter.variable,
                depth,
                machine,
                page,
            );
            place = parameter.next;
        }
    }
}

/// Writes a line for each local variable in scope in the frame at a depth, behind blanks.
fn put_locals_at<M: FramedMachine, O: AnswerWriter + Drop>(
    alloc: Global,
    layout: Layout,
    front: &[u8],
    depth: usize,
    machine: &M,
    page: &mut Page<O>,
) {
    let mut place = 0;
    for _ in 0..VARIABLES {
        if let Some(local) = machine.next_local_at(depth, place) {
            put_variable_at(alloc, layout, front, local.variable, depth, machine, page);
            place = local.next;
        }
    }
}

/// Writes a line: a variable's name, and its values in the frame at a depth.
fn put_variable_at<M: FramedMachine, O: AnswerWriter + Drop>(
    alloc: Global,
    layout: Layout,
    front: &[u8],
    named: NamedVariable<'_>,
    depth: usize,
    machine: &M,
    page: &mut Page<O>,
) {
    page.put(front);
    page.put(named.name);
    page.put(b" =");
    let lanes = lanes_at(depth, machine);
    let count = named.shown.count;
    match told_variable(alloc, layout, named.shown, lanes, 0, count, depth, machine) {
        Ok(told) => put_told(Digits::Decimal, &told, page),
        Err(_) => page.put(NO_MEMORY),
    }
}

/// The lanes that are active where the frame at a depth stands, those of the call that it made or of its next step; all of them where the
/// program has ended.
pub fn lanes_at<M: RecordedMachine>(depth: usize, machine: &M) -> Mask {
    let Some(top) = machine.position() else {
        return Mask::all::<WIDEST>();
    };
    if depth >= top.depth {
        return top.lanes;
    }
    match machine.call(depth) {
        Some(call) => call.lanes,
        None => Mask::all::<WIDEST>(),
    }
}

/// Writes a target, and what is told of it.
pub fn show_value<O: AnswerWriter + Drop>(
    target: Target<'_>,
    digits: Digits,
    told: &Told,
    page: &mut Page<O>,
)
    ensures { Puts (target_text (target_view target.entry) ++ codes " =" ++ told_text digits told.now) page.old.has_failed page.new.has_failed (O.written page.old.writer) (O.written page.new.writer) }
{
    put_target(target, page);
    page.put(b" =");
    put_told(digits, told, page);
}
