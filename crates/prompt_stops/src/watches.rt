//! What is told of watches of what frames show, and of what sets a variable.
use conditional_stops::{
    CountedStop, FrameWatch, MoveEnd, Moved, Reason, SetPart, Watch, WriteWatch,
};
use debug_commands::Target;
use debug_session::Session;
use debug_traits::{AnswerWriter, FramedMachine, RecordedMachine};
use expression_watches::ExpressionWatch;
use frame_expressions::ExpressionMachine;
use frame_values::{NoValue, value_of_expression};
use prompt_scenes::{Holding, Scene, depth};
use prompt_texts::{Page, show_expression, show_faulty};
use prompt_values::{show_target, tell_moved, tell_said};
use value_digits::Digits;

/// Tells the watch that was made by a number, if it was.
pub(crate) fn tell_made<O: AnswerWriter + Drop>(
    number: Option<u32>,
    holding: &Holding,
    page: &mut Page<O>,
) {
    for watch in holding.frames.as_slice() {
        if Some(watch.number()) == number {
            page.put(b"watch ");
            put_watch(watch, b": ", page);
            page.put(if watch.depth() == 0 {
                b"\n"
            } else {
                b", while this frame is there\n"
            });
        }
    }
}

/// Tells that a breakpoint or watch was deleted.
pub(crate) fn tell_deleted<O: AnswerWriter + Drop>(number: Option<u32>, page: &mut Page<O>) {
    if let Some(number) = number {
        page.put(b"deleted ");
        page.put_number(i128::from(number));
        page.put(b"\n");
    }
}

/// Lists the watches of frames, with what is said of them.
pub fn list_frames<O: AnswerWriter + Drop>(holding: &Holding, page: &mut Page<O>) {
    for watch in holding.frames.as_slice() {
        put_watch(watch, b"  watch, ", page);
        if watch.depth() > 0 {
            page.put(b", of the frame at depth ");
            page.put_number(watch.depth() as i128);
        }
        page.put(b"\n");
        tell_said(watch.number(), holding, page);
    }
}

/// Tells what a move by single steps came to: what a watch shows that stopped it, and what is told of conditions.
pub fn tell_walked<M: ExpressionMachine, O: AnswerWriter + Drop>(
    moved: &Moved<'_>,
    holding: &Holding,
    scene: Scene<'_>,
    session: &Session<M>,
    page: &mut Page<O>,
) {
    match &moved.end {
        MoveEnd::Stopped(
            CountedStop {
                reason: Reason::Watch(number),
                ..
            },
        ) => show_watched(*number, holding, scene, session, page),
        MoveEnd::Stopped(_) | MoveEnd::Answered(_) | MoveEnd::MostPassed | MoveEnd::NoMemory => {}
    }
    let told = Moved {
        end: moved.end,
        passed: 0,
    };
    tell_moved(&told, holding, page);
}

/// Shows an expression, a lane or an element that is watched by a number, or a variable of an outer frame; what changed of the variables of
/// the top one is shown behind a move in any case.
fn show_watched<M: ExpressionMachine, O: AnswerWriter + Drop>(
    number: u32,
    holding: &Holding,
    scene: Scene<'_>,
    session: &Session<M>,
    page: &mut Page<O>,
) {
    let top = depth(session);
    for watch in holding.frames.as_slice() {
        if watch.number() == number {
            show_seen(watch, top, scene, session, page);
        }
    }
}

/// Shows an expression that is watched, a lane or an element, or a variable of another frame than the top one.
fn show_seen<M: ExpressionMachine, O: AnswerWriter + Drop>(
    watch: &Watch,
    top: usize,
    scene: Scene<'_>,
    session: &Session<M>,
    page: &mut Page<O>,
) {
    let machine = session.machine();
    match watch {
        Watch::Variable(watch) => {
            if watch.at.is_some() || watch.depth != top {
                show_watch(watch, scene, machine, page);
            }
        }
        Watch::Expression(watch) => show_value(watch, scene, machine, page),
        Watch::Writes(watch) => show_set(watch, top, scene, machine, page),
    }
}

/// Shows a variable or an element that was set.
fn show_set<M: FramedMachine, O: AnswerWriter + Drop>(
    watch: &WriteWatch,
    top: usize,
    scene: Scene<'_>,
    machine: &M,
    page: &mut Page<O>,
) {
    let depth = if watch.depth == 0 { top } else { watch.depth };
    let name = watch.name.as_slice();
    show_named(name, element_of(watch), depth, scene, machine, page);
}

/// The element that is watched, where it is not all of a variable.
fn element_of(watch: &WriteWatch) -> Option<u32> {
    match watch.place.part {
        SetPart::Element(index) => Some(index),
        SetPart::Scalar | SetPart::Array => None,
    }
}

/// Shows the value of an expression that is watched, or its fault.
fn show_value<M: ExpressionMachine, O: AnswerWriter + Drop>(
    watch: &ExpressionWatch,
    scene: Scene<'_>,
    machine: &M,
    page: &mut Page<O>,
) {
    let text = watch.text.as_slice();
    match value_of_expression(scene.alloc, text, watch.depth, machine) {
        Ok(value) => {
            page.put(b"  ");
            show_expression(text, Digits::Decimal, &value, page);
        }
        Err(NoValue::Fault(fault)) => {
            page.put(b"  ");
            show_faulty(text, fault, page);
        }
        Err(NoValue::NoFrame | NoValue::Refused(_)) => {}
    }
}

/// Shows what is watched.
fn show_watch<M: FramedMachine, O: AnswerWriter + Drop>(
    watch: &FrameWatch,
    scene: Scene<'_>,
    machine: &M,
    page: &mut Page<O>,
) {
    let name = watch.name.as_slice();
    show_named(name, watch.at, watch.depth, scene, machine, page);
}

/// Shows what a name stands for in the frame at a depth, or a part of it.
fn show_named<M: FramedMachine, O: AnswerWriter + Drop>(
    name: &[u8],
    at: Option<u32>,
    depth: usize,
    scene: Scene<'_>,
    machine: &M,
    page: &mut Page<O>,
) {
    if let Some(shown) = machine.find_at(depth, name) {
        let target = Target { name, at };
        page.put(b"  ");
        show_target(target, Digits::Decimal, shown, depth, scene, machine, page);
    }
}

/// Tells which watches of frames end with a line: their frame is not there, or may be another one.
pub fn tell_ended<M: RecordedMachine, O: AnswerWriter + Drop>(
    known: usize,
    steps: usize,
    holding: &Holding,
    session: &Session<M>,
    page: &mut Page<O>,
) {
    let top = depth(session);
    let is_back = session.machine().kept_steps() < steps;
    for watch in holding.frames.as_slice() {
        if watch.depth() > known {
            page.put(b"watch ");
            put_watch(watch, b" of ", page);
            page.put(if watch.depth() <= top {
                b" ends: this line may have left its frame\n"
            } else if is_back {
                b" ends: its frame is not yet entered here\n"
            } else {
                b" ends: its frame has been left\n"
            });
        }
    }
}

/// Writes the number of a watch, and what it watches.
fn put_watch<O: AnswerWriter + Drop>(watch: &Watch, between: &[u8], page: &mut Page<O>) {
    page.put_number(i128::from(watch.number()));
    page.put(between);
    match watch {
        Watch::Variable(watch) => put_part(watch.name.as_slice(), watch.at, page),
        Watch::Expression(watch) => page.put_masked(watch.text.as_slice()),
        Watch::Writes(watch) => {
            page.put(b"what sets ");
            put_part(watch.name.as_slice(), element_of(watch), page);
        }
    }
}

/// Writes a variable, or a lane or an element of it.
fn put_part<O: AnswerWriter + Drop>(name: &[u8], at: Option<u32>, page: &mut Page<O>) {
    page.put_masked(name);
    if let Some(index) = at {
        page.put(b"[");
        page.put_number(i128::from(index));
        page.put(b"]");
    }
}
