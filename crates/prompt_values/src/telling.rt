//! What is told of conditions and counts.
use conditional_stops::{CountedStop, HoldingLanes, MoveEnd, Moved, Verdict, judge_condition};
use debug_answers::{Answer, Stop};
use debug_session::Session;
use debug_traits::{AnswerWriter, RecordedMachine};
use debug_words::{Marks, next_word};
use frame_expressions::ExpressionMachine;
use frame_values::NoValue;
use prompt_lines::{NumberRange, behind_first, range_of};
use prompt_scenes::{Holding, Scene};
use prompt_texts::{Page, Spelled, tell_no_value};

/// The widest gang.
const WIDEST: usize = 16;

/// The most breakpoints and watches.
const MOST_STOPS: usize = 80;

/// What is told where a disabled breakpoint or watch stopped a move.
const IS_DISABLED: &[u8] =
    b"it is disabled: `continue`, `reverse-continue` and `run` pass it, and no other move does\n";

/// Tells the condition that a breakpoint or watch has now, or that it has none, or that there was no room for one.
pub fn tell_condition<O: AnswerWriter + Drop>(
    number: u32,
    text: &[u8],
    is_taken: bool,
    page: &mut Page<O>,
) {
    put_number(number, page);
    if !is_taken {
        page.put(b" stops always: 64 conditions are there; `condition N` takes one away\n");
    } else if text.is_empty() {
        page.put(b" stops always\n");
    } else {
        page.put(b" stops only if ");
        page.put_masked(text);
        page.put(b"\n");
    }
}

/// Tells how many stops of a breakpoint or watch are passed, or that there was no room for the count.
pub fn tell_passes<O: AnswerWriter + Drop>(
    number: u32,
    count: u32,
    is_taken: bool,
    page: &mut Page<O>,
) {
    put_number(number, page);
    if is_taken {
        page.put(b": ");
        put_counted(count, page);
        page.put(b" will be passed\n");
    } else {
        page.put(b": nothing changes, since 64 counts are there; `ignore N 0` takes one away\n");
    }
}

/// Tells that no breakpoint or watch has a number.
pub fn tell_no_stop<O: AnswerWriter + Drop>(number: u32, page: &mut Page<O>) {
    page.put(b"C10 NoSuchNumber: no breakpoint or watch has the number ");
    put_number(number, page);
    page.put(b"; `info breakpoints` lists them.\n");
}

/// Tells which of the numbers that a line names no breakpoint or watch has.
pub fn tell_missing<M: RecordedMachine, O: AnswerWriter + Drop>(
    text: &[u8],
    holding: &Holding,
    session: &Session<M>,
    page: &mut Page<O>,
) {
    let mut rest = behind_first(text);
    while let Some((word, after)) = next_word(Marks::OfCommands, rest) {
        if let Some(range) = range_of(word) {
            tell_gaps(range, holding, session, page);
        }
        rest = after;
    }
}

/// Tells the same of the numbers of a range: those before each that is there, and those behind the last one.
fn tell_gaps<M: RecordedMachine, O: AnswerWriter + Drop>(
    range: NumberRange,
    holding: &Holding,
    session: &Session<M>,
    page: &mut Page<O>,
) {
    let mut first = range.first;
    for _ in 0..=MOST_STOPS {
        match least_from(first, holding, session) {
            Some(number) if number <= range.last => {
                tell_none(first, number.saturating_sub(1), page);
                first = number.saturating_add(1);
            }
            _ => {
                tell_none(first, range.last, page);
                return;
            }
        }
    }
}

/// The least number from one on that a breakpoint or watch has.
fn least_from<M: RecordedMachine>(
    first: u32,
    holding: &Holding,
    session: &Session<M>,
) -> Option<u32> {
    let stop = session
        .stops()
        .iter()
        .map(|entry| entry.number)
        .filter(|number| *number >= first)
        .min();
    let frame = holding
        .frames
        .as_slice()
        .iter()
        .map(|watch| watch.number())
        .filter(|number| *number >= first)
        .min();
    match (stop, frame) {
        (Some(stop), Some(frame)) => Some(stop.min(frame)),
        (stop, frame) => stop.or(frame),
    }
}

/// Tells that no breakpoint or watch has the numbers from the first to the last, if there are any.
fn tell_none<O: AnswerWriter + Drop>(first: u32, last: u32, page: &mut Page<O>) {
    if first > last {
        return;
    }
    page.put(if first == last {
        b"No breakpoint number "
    } else {
        b"No breakpoint numbers "
    });
    put_number(first, page);
    if first < last {
        page.put(b"-");
        put_number(last, page);
    }
    page.put(b".\n");
}

/// Tells the conditions and the counts of all breakpoints and watches, and which are disabled.
pub fn tell_conditions<M: RecordedMachine, O: AnswerWriter + Drop>(
    holding: &Holding,
    session: &Session<M>,
    page: &mut Page<O>,
) {
    for entry in session.stops() {
        tell_said(entry.number, holding, page);
    }
}

/// Tells the conditions and the counts of the watches, and which are disabled.
pub fn tell_watch_conditions<M: RecordedMachine, O: AnswerWriter + Drop>(
    holding: &Holding,
    session: &Session<M>,
    page: &mut Page<O>,
) {
    for entry in session.stops() {
        if let Stop::Watch { .. } = entry.stop {
            tell_said(entry.number, holding, page);
        }
    }
}

/// Tells what is said of a breakpoint or watch, if anything is.
pub fn tell_said<O: AnswerWriter + Drop>(number: u32, holding: &Holding, page: &mut Page<O>) {
    if let Some(text) = holding.conditions.condition(number) {
        tell_condition(number, text, true, page);
    }
    let passes = holding.conditions.passes(number);
    if passes > 0 {
        tell_passes(number, passes, true, page);
    }
    if holding.conditions.is_disabled(number) {
        put_number(number, page);
        page.put(b" is disabled\n");
    }
}

/// Tells what a move on to a stop that counts came to: the lanes in which the condition holds, or why it has no value, and how many
/// stops were passed.
pub fn tell_moved<O: AnswerWriter + Drop>(
    moved: &Moved<'_>,
    holding: &Holding,
    page: &mut Page<O>,
) {
    match &moved.end {
        MoveEnd::Stopped(counted) => tell_counted(counted, holding, page),
        MoveEnd::Answered(_) | MoveEnd::MostPassed | MoveEnd::NoMemory => {}
    }
    if moved.passed > 0 {
        put_counted(moved.passed, page);
        page.put(b" passed on the way\n");
    }
}

/// Tells what the condition came to of a stop that counts, where it has one.
pub fn tell_counted<O: AnswerWriter + Drop>(
    counted: &CountedStop,
    holding: &Holding,
    page: &mut Page<O>,
) {
    let text = holding
        .conditions
        .condition(counted.reason.number())
        .unwrap_or(&[]);
    match &counted.verdict {
        Some(Verdict::Holds(lanes)) => tell_lanes(text, *lanes, page),
        Some(Verdict::NoValue(why)) => tell_fault(text, why, page),
        Some(Verdict::Fails) | None => {}
    }
}

/// Tells that the breakpoint or watch that stopped a move is disabled, or that its condition does not hold: such a move stops all the same.
pub fn tell_unheld<M: ExpressionMachine, O: AnswerWriter + Drop>(
    answer: &Answer<'_>,
    holding: &Holding,
    scene: Scene<'_>,
    session: &Session<M>,
    page: &mut Page<O>,
) {
    let Some(number) = stop_number(answer) else {
        return;
    };
    if holding.conditions.is_disabled(number) {
        page.put(IS_DISABLED);
        return;
    }
    let Some(text) = holding.conditions.condition(number) else {
        return;
    };
    if let Verdict::Fails = judge_condition(scene.alloc, text, session.machine()) {
        page.put(b"its condition does not hold here\n");
    }
}

/// The number of the breakpoint or watch that stopped a move.
fn stop_number(answer: &Answer<'_>) -> Option<u32> {
    match answer {
        Answer::AtBreakpoint(number) | Answer::AtWatch(number) => Some(*number),
        _ => None,
    }
}

/// Tells in which lanes a condition holds.
fn tell_lanes<O: AnswerWriter + Drop>(text: &[u8], found: HoldingLanes, page: &mut Page<O>) {
    page.put_masked(text);
    page.put(if is_one_lane(found) {
        b" holds in lane"
    } else {
        b" holds in lanes"
    });
    for lane in 0..found.width.min(WIDEST) {
        if found.lanes.has::<WIDEST>(lane) {
            page.put(b" ");
            page.put_number(lane as i128);
        }
    }
    page.put(b"\n");
}

/// Whether a condition holds in one lane alone.
fn is_one_lane(found: HoldingLanes) -> bool {
    let mut count = 0u32;
    for lane in 0..found.width.min(WIDEST) {
        if found.lanes.has::<WIDEST>(lane) {
            count = count.saturating_add(1);
        }
    }
    count == 1
}

/// Tells why a condition has no value.
fn tell_fault<O: AnswerWriter + Drop>(text: &[u8], why: &NoValue, page: &mut Page<O>) {
    page.put(b"it stops, since its condition has no value here: ");
    page.put_masked(text);
    page.put(b"\n");
    tell_no_value(why, Spelled { line: text, text }, page);
}

/// Writes the number of a breakpoint or watch.
fn put_number<O: AnswerWriter + Drop>(number: u32, page: &mut Page<O>) {
    page.put_number(i128::from(number));
}

/// Writes a number of stops.
fn put_counted<O: AnswerWriter + Drop>(count: u32, page: &mut Page<O>) {
    put_number(count, page);
    page.put(if count == 1 { b" stop" } else { b" stops" });
}
