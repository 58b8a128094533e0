//! The tracks of the lanes.
ghost use Rattle.std.specs.Prelude.{◌≡◌, false, is_err};

use crate::columns::{Column, Seen, StepsEnd};
use crate::layout::{Layout, Point};
use crate::parts::Part::{Number, Text};
use crate::parts::write_parts;
use crate::sizes::WIDEST;
use crate::source::{StepKind, kind_at};
use crate::words::{fault_words, lane_colour, lane_fill};
use debug_traits::{AnswerWriter, Fault, WriteFault};

/// Where a lane was last.
#[derive(Clone, Copy, Debug)]
struct Stop {
    /// The column that follows its step, if that is one of the row.
    next: Option<usize>,
    at: Point,
    /// Whether its line is shown.
    is_shown: bool,
}

/// Writes the track of each lane in a row, and then all dots.
pub(crate) fn write_tracks<O: AnswerWriter>(
    seen: &Seen,
    lines: &[&[u8]],
    end: StepsEnd,
    layout: &Layout,
    writer: &mut O,
) -> Result<(), WriteFault>
    requires works { O.has_failed writer.old ≡ false }
    ensures failed { O.has_failed writer.new ≡ is_err result }
{
    for lane in 0..seen.width {
        write_group(lane, writer)?;
        write_ways(lane, seen, layout, writer)?;
        write_dots(lane, seen, lines, layout, writer)?;
        writer.write_all(b"</g>\n")?;
    }
    match end {
        StepsEnd::AtFault(fault) if layout.is_last(seen) => {
            write_fault(fault, seen, layout, writer)
        }
        _ => Ok(()),
    }
}

/// Writes the beginning of what has the colour of a lane.
fn write_group<O: AnswerWriter>(lane: usize, writer: &mut O) -> Result<(), WriteFault>
    requires works { O.has_failed writer.old ≡ false }
    ensures failed { O.has_failed writer.new ≡ is_err result }
{
    let parts = [
        Text(b"<g fill=\""),
        Text(lane_fill(lane)),
        Text(b"\" stroke=\""),
        Text(lane_colour(lane)),
        Text(b"\">\n"),
    ];
    write_parts(writer, &parts)
}

/// Writes the ways of a lane in a row: from each step that it does to its next one, from the left edge to its first one if it did one
/// before, and from its last one to the right edge if it goes on behind the row.
fn write_ways<O: AnswerWriter>(
    lane: usize,
    seen: &Seen,
    layout: &Layout,
    writer: &mut O,
) -> Result<(), WriteFault>
    requires works { O.has_failed writer.old ≡ false }
    ensures failed { O.has_failed writer.new ≡ is_err result }
{
    let mut last = came_in(lane, seen, layout);
    for (index, column) in layout.columns(seen).iter().enumerate() {
        if column.lanes.has::<WIDEST>(lane) {
            let at = layout.dot(index, column, lane);
            write_way(last, index, at, layout, writer)?;
            last = Some(Stop {
                next: Some(index.saturating_add(1)),
                at,
                is_shown: true,
            });
        }
    }
    match last {
        Some(last) if last.is_shown && layout.goes_on(lane) => {
            write_way_out(last, lane, seen, layout, writer)
        }
        _ => Ok(()),
    }
}

/// Where a lane comes into a row, if it did a step before: at the left edge, as high as it was.
fn came_in(lane: usize, seen: &Seen, layout: &Layout) -> Option<Stop> {
    let (column, is_next) = layout.came_from(seen, lane)?;
    let line = column.place.line as usize;
    Some(Stop {
        next: if is_next { Some(0) } else { None },
        at: Point {
            x: layout.column_left(0),
            y: layout.lane_line(line, lane),
        },
        is_shown: layout.shows(line),
    })
}

/// Writes the way of a lane to the right edge of a row: thick where it does the next row's first step from the last one of this.
fn write_way_out<O: AnswerWriter>(
    last: Stop,
    lane: usize,
    seen: &Seen,
    layout: &Layout,
    writer: &mut O,
) -> Result<(), WriteFault>
    requires works { O.has_failed writer.old ≡ false }
    ensures failed { O.has_failed writer.new ≡ is_err result }
{
    let is_straight = last.next == Some(layout.columns(seen).len())
        && layout
            .next_column(seen)
            .is_some_and(|column| column.lanes.has::<WIDEST>(lane));
    let to = Point {
        x: layout.right(),
        y: last.at.y,
    };
    write_line(
        if is_straight { b"goes" } else { b"waits" },
        last.at,
        to,
        writer,
    )
}

/// Writes the way from a step of a lane, if there was one, to its next: straight, or along its line while it waits.
fn write_way<O: AnswerWriter>(
    from: Option<Stop>,
    column: usize,
    to: Point,
    layout: &Layout,
    writer: &mut O,
) -> Result<(), WriteFault>
    requires works { O.has_failed writer.old ≡ false }
    ensures failed { O.has_failed writer.new ≡ is_err result }
{
    match from {
        None => Ok(()),
        Some(from) if from.next == Some(column) => write_line(b"goes", from.at, to, writer),
        Some(from) => write_wait(from.at, column, to, layout, writer),
    }
}

fn write_line<O: AnswerWriter>(
    class: &[u8],
    from: Point,
    to: Point,
    writer: &mut O,
) -> Result<(), WriteFault>
    requires works { O.has_failed writer.old ≡ false }
    ensures failed { O.has_failed writer.new ≡ is_err result }
{
    let parts = [
        Text(b"<line class=\""),
        Text(class),
        Text(b"\" x1=\""),
        Number(from.x),
        Text(b"\" y1=\""),
        Number(from.y),
        Text(b"\" x2=\""),
        Number(to.x),
        Text(b"\" y2=\""),
        Number(to.y),
        Text(b"\"/>\n"),
    ];
    write_parts(writer, &parts)
}

fn write_wait<O: AnswerWriter>(
    from: Point,
    column: usize,
    to: Point,
    layout: &Layout,
    writer: &mut O,
) -> Result<(), WriteFault>
    requires works { O.has_failed writer.old ≡ false }
    ensures failed { O.has_failed writer.new ≡ is_err result }
{
    let parts = [
        Text(b"<polyline class=\"waits\" points=\""),
        Number(from.x),
        Text(b","),
        Number(from.y),
        Text(b" "),
        Number(layout.middle(column.saturating_sub(1))),
        Text(b","),
        Number(from.y),
        Text(b" "),
        Number(to.x),
        Text(b","),
        Number(to.y),
        Text(b"\"/>\n"),
    ];
    write_parts(writer, &parts)
}

/// Writes a mark for each step of a lane in a row.
fn write_dots<O: AnswerWriter>(
    lane: usize,
    seen: &Seen,
    lines: &[&[u8]],
    layout: &Layout,
    writer: &mut O,
) -> Result<(), WriteFault>
    requires works { O.has_failed writer.old ≡ false }
    ensures failed { O.has_failed writer.new ≡ is_err result }
{
    for (index, column) in layout.columns(seen).iter().enumerate() {
        if column.lanes.has::<WIDEST>(lane) {
            let at = layout.dot(index, column, lane);
            let is_bar = kind_at(lines, column.place) == StepKind::Leaves;
            write_mark(at, is_bar, writer)?;
            write_title(layout.number(index), column, lane, writer)?;
            writer.write_all(if is_bar { b"</path>\n" } else { b"</circle>\n" })?;
        }
    }
    Ok(())
}

/// Writes the beginning of a mark: a bar where a lane leaves, else a dot.
fn write_mark<O: AnswerWriter>(at: Point, is_bar: bool, writer: &mut O) -> Result<(), WriteFault>
    requires works { O.has_failed writer.old ≡ false }
    ensures failed { O.has_failed writer.new ≡ is_err result }
{
    if is_bar {
        write_bar(at, writer)
    } else {
        write_dot(at, b"3", writer)
    }
}

/// Writes the beginning of a dot.
fn write_dot<O: AnswerWriter>(at: Point, radius: &[u8], writer: &mut O) -> Result<(), WriteFault>
    requires works { O.has_failed writer.old ≡ false }
    ensures failed { O.has_failed writer.new ≡ is_err result }
{
    let parts = [
        Text(b"<circle cx=\""),
        Number(at.x),
        Text(b"\" cy=\""),
        Number(at.y),
        Text(b"\" r=\""),
        Text(radius),
        Text(b"\">"),
    ];
    write_parts(writer, &parts)
}

/// Writes the beginning of the bar where a lane leaves.
fn write_bar<O: AnswerWriter>(at: Point, writer: &mut O) -> Result<(), WriteFault>
    requires works { O.has_failed writer.old ≡ false }
    ensures failed { O.has_failed writer.new ≡ is_err result }
{
    write_parts(
        writer,
        &[
            Text(b"<path class=\"leaves\" d=\"M"),
            Number(at.x),
            Text(b" "),
            Number(at.y),
            Text(b"m0 -5v10\">"),
        ],
    )
}

/// Writes what a mark tells.
fn write_title<O: AnswerWriter>(
    step: usize,
    column: &Column,
    lane: usize,
    writer: &mut O,
) -> Result<(), WriteFault>
    requires works { O.has_failed writer.old ≡ false }
    ensures failed { O.has_failed writer.new ≡ is_err result }
{
    let parts = [
        Text(b"<title>step "),
        Number(step),
        Text(b", line "),
        Number(column.place.line as usize),
        Text(b", lane "),
        Number(lane),
        Text(b"</title>"),
    ];
    write_parts(writer, &parts)
}

/// Writes the mark of a fault, at the last step of a row.
fn write_fault<O: AnswerWriter>(
    fault: Fault,
    seen: &Seen,
    layout: &Layout,
    writer: &mut O,
) -> Result<(), WriteFault>
    requires works { O.has_failed writer.old ≡ false }
    ensures failed { O.has_failed writer.new ≡ is_err result }
{
    let columns = layout.columns(seen);
    let Some(column) = columns.last() else {
        return Ok(());
    };
    let last = columns.len().saturating_sub(1);
    let at = layout.dot(last, column, fault.lane);
    writer.write_all(b"<g fill=\"#ff0000\" stroke=\"#ffffff\">")?;
    write_dot(at, b"6", writer)?;
    let parts = [
        Text(b"<title>"),
        Text(fault_words(fault.name)),
        Text(b" in lane "),
        Number(fault.lane),
        Text(b"</title></circle></g>\n"),
    ];
    write_parts(writer, &parts)
}
