//! Where a frame stands: the place, the lanes, and the source around it.
ghost use Rattle.std.specs.Prelude.{◌≡◌, ◌++◌, codes, decimal};
ghost use Rattle.gang_types.specs.Masks.{IsGangWidth, lanes_of};
ghost use Rattle.prompt_texts.specs.LaneShares.{right};
ghost use Rattle.prompt_texts.specs.Shown as spec;
ghost use Rattle.prompt_texts.specs.Shown.{Puts, marks, masked};
ghost use Rattle.prompt_texts.specs.SourceLines.{line_of, line_text};

use crate::marked::{digits, put_marked};
use crate::page::Page;
use crate::source::Source;
use debug_traits::{AnswerWriter, Position};
use gang_types::Mask;

/// How many lines are shown before and behind a place.
const AROUND: u32 = 2;

/// The widest gang.
const WIDEST: usize = 16;

/// The most columns of a line that no terminal breaks.
const COLUMNS: usize = 80;

/// How many columns a frame's number takes at most.
const NUMBER: usize = 5;

/// How many columns stand in a place around its words and numbers: `at`, two colons and `, lanes`.
const BETWEEN: usize = 14;

/// How many stand before the number of a depth.
const DEPTH: usize = 8;

/// How many stand before the number of a step.
const STEP: usize = 7;

/// Writes where the program stands, behind a reason of so many columns, on the same line if it has room there; and after how many
/// steps, where that is known.
pub(crate) fn put_place<O: AnswerWriter + Drop>(
    before: usize,
    position: Option<Position<'_>>,
    step: Option<usize>,
    source: Source<'_>,
    page: &mut Page<O>,
) {
    match position {
        None => {
            page.put(between(before, 0));
            page.put(b"the program has ended");
            put_last_step(step, page);
            page.put(b"\n");
        }
        Some(position) => {
            page.put(between(before, columns(&position, step, source)));
            put_place_alone(&position, step, source, page);
            page.put(b"\n");
        }
    }
}

/// Writes a place, and after how many steps it is, where that is known.
pub(crate) fn put_place_alone<O: AnswerWriter + Drop>(
    position: &Position<'_>,
    step: Option<usize>,
    source: Source<'_>,
    page: &mut Page<O>,
) {
    put_front(position, source, page);
    put_step(step, page);
    page.put(front_end(position, step, source));
    put_marks(position.width, position.lanes, page);
}

/// What stands between a reason of so many columns and a place.
fn between(before: usize, place: usize) -> &'static [u8] {
    if before == 0 {
        b""
    } else if before.saturating_add(place) < COLUMNS {
        b" "
    } else {
        b"\n"
    }
}

/// How many columns a place takes.
fn columns(position: &Position<'_>, step: Option<usize>, source: Source<'_>) -> usize {
    position
        .function
        .len()
        .saturating_add(source.name.len())
        .saturating_add(digits(position.place.line))
        .saturating_add(digits(position.place.col))
        .saturating_add(depth_columns(position.depth))
        .saturating_add(step_columns(step))
        .saturating_add(position.width)
        .saturating_add(BETWEEN)
}

/// How many columns a depth takes, which stands in a place where it is not 1.
fn depth_columns(depth: usize) -> usize {
    match depth {
        0 | 1 => 0,
        2..=9 => DEPTH + 1,
        _ => DEPTH + 2,
    }
}

/// How many columns the number of a step takes, where there is one.
fn step_columns(step: Option<usize>) -> usize {
    match step {
        None => 0,
        Some(step) => digits(u32::try_from(step).unwrap_or(u32::MAX)).saturating_add(STEP),
    }
}

/// What stands before the lanes' marks: behind long names they have a line of their own, so that no terminal breaks them.
fn front_end(position: &Position<'_>, step: Option<usize>, source: Source<'_>) -> &'static [u8] {
    if columns(position, step, source).saturating_add(NUMBER) > COLUMNS {
        b",\n    lanes "
    } else {
        b", lanes "
    }
}

/// Writes the function, the file, the line and the column, and the depth where it is not 1.
fn put_front<O: AnswerWriter + Drop>(
    position: &Position<'_>,
    source: Source<'_>,
    page: &mut Page<O>,
) {
    page.put(position.function);
    page.put(b" at ");
    page.put_masked(source.name);
    page.put(b":");
    page.put_number(i128::from(position.place.line));
    page.put(b":");
    page.put_number(i128::from(position.place.col));
    if position.depth > 1 {
        page.put(b", depth ");
        page.put_number(position.depth as i128);
    }
}

/// Writes the number of a step, where there is one.
fn put_step<O: AnswerWriter + Drop>(step: Option<usize>, page: &mut Page<O>) {
    if let Some(step) = step {
        page.put(b", step ");
        page.put_number(step as i128);
    }
}

/// Writes after how many steps the program has ended, where that is known.
fn put_last_step<O: AnswerWriter + Drop>(step: Option<usize>, page: &mut Page<O>) {
    if let Some(step) = step {
        page.put(b" after ");
        put_counted(step, b" step", b" steps", page);
    }
}

/// Writes a number, and what is counted: one, or others.
pub(crate) fn put_counted<O: AnswerWriter + Drop>(
    count: usize,
    one: &[u8],
    others: &[u8],
    page: &mut Page<O>,
) {
    page.put_number(count as i128);
    page.put(if count == 1 { one } else { others });
}

/// Writes a mark for each lane of the gang, lane 0 first: `#` where it is active, and `.` where it waits.
fn put_marks<O: AnswerWriter + Drop>(width: usize, lanes: Mask, page: &mut Page<O>)
    ensures { IsGangWidth width → Puts (marks (lanes_of width lanes)) page.old.has_failed page.new.has_failed (O.written page.old.writer) (O.written page.new.writer) }
{
    for lane in 0..width.min(WIDEST) {
        page.put(mark(lanes.has::<WIDEST>(lane)));
    }
}

/// The mark of a lane.
fn mark(is_active: bool) -> &'static [u8]
    ensures { result.now ≡ spec.mark is_active }
{
    if is_active { b"#" } else { b"." }
}

/// Writes the line of a place and those around it, with a mark under the column.
pub(crate) fn put_around<O: AnswerWriter + Drop>(
    position: &Position<'_>,
    source: Source<'_>,
    page: &mut Page<O>,
) {
    let line = position.place.line;
    for number in line.saturating_sub(AROUND).max(1)..line {
        put_line(number, b"   ", source, page);
    }
    put_column(line, position.place.col, source, page);
    for number in line.saturating_add(1)..line.saturating_add(AROUND + 1) {
        put_line(number, b"   ", source, page);
    }
}

/// Writes a line of the source behind a mark and its number, where there is one of this number.
pub(crate) fn put_line<O: AnswerWriter + Drop>(
    number: u32,
    mark: &[u8],
    source: Source<'_>,
    page: &mut Page<O>,
)
    ensures { Puts (line_text number mark.now (line_of source.entry.text.now number)) page.old.has_failed page.new.has_failed (O.written page.old.writer) (O.written page.new.writer) }
{
    match source.line(number) {
        Some(text) => put_numbered(number, mark, text, page),
        None => page.put(b""),
    }
}

/// Writes a line behind a mark and its number.
fn put_numbered<O: AnswerWriter + Drop>(number: u32, mark: &[u8], text: &[u8], page: &mut Page<O>)
    ensures { Puts (mark.now ++ right 5 (decimal number) ++ codes "  " ++ masked text.now ++ codes "\n") page.old.has_failed page.new.has_failed (O.written page.old.writer) (O.written page.new.writer) }
{
    page.put(mark);
    page.put_line_number(number);
    page.put(b"  ");
    page.put_masked(text);
    page.put(b"\n");
}

/// Writes a line of the source, where there is one of this number, with a mark under a column.
fn put_column<O: AnswerWriter + Drop>(
    number: u32,
    column: u32,
    source: Source<'_>,
    page: &mut Page<O>,
) {
    if let Some(text) = source.line(number) {
        put_marked(number, text, column.saturating_sub(1) as usize, page);
    }
}
