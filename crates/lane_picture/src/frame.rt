//! What stands round the tracks: the lines of the source, the names of the lanes, the numbers of the steps, how the run ended.
ghost use Rattle.std.specs.Prelude.{◌≡◌, false, is_err};

use crate::columns::StepsEnd;
use crate::layout::Layout;
use crate::parts::Part::{Any, Number, Text};
use crate::parts::write_parts;
use crate::sheet::Sheet;
use crate::sizes::{FIRST_LANE, LANE_NAME};
use crate::source::{MOST_SHOWN, shown_part};
use crate::words::{fault_words, lane_colour, lane_fill};
use debug_traits::{AnswerWriter, WriteFault};

const STYLE: &[u8] = b"<style>
text{font:13px monospace;white-space:pre}
.number{font-size:10px;fill:#777777}
.value{font-size:10px}
.waits{fill:none;stroke-width:1;stroke-dasharray:2 2}
.goes{stroke-width:2.5}
.leaves{stroke-width:3}
@media (prefers-color-scheme:dark){
:root{background:#15181d}
svg{fill:#e2e6ec}
.number{fill:#98a2ae}
[fill=\"#ffffff\"]{fill:#15181d}
[fill=\"#f4f4f4\"]{fill:#1e2229}
[fill=\"#333333\"]{fill:#c8ced6}
[fill=\"#f0e442\"]{fill-opacity:0.3}
[fill=\"#000000\"]{fill:#f4f4f4}
[stroke=\"#000000\"]{stroke:#f4f4f4}
[fill=\"#0072b2\"]{fill:#3f9fe0}
[stroke=\"#0072b2\"]{stroke:#3f9fe0}
}
</style>
";

/// What a bar in place of a dot means, a yellow band, a darker ground and a red dot.
const LEGEND: &[u8] =
    b"bar: a lane leaves, yellow: rounds of a foreach, darker: inside calls, red: a fault";

/// Writes the head of the picture, and its ground.
pub(crate) fn write_head<O: AnswerWriter>(
    sheet: &Sheet,
    title: &[u8],
    writer: &mut O,
) -> Result<(), WriteFault>
    requires works { O.has_failed writer.old ≡ false }
    ensures failed { O.has_failed writer.new ≡ is_err result }
{
    let width = sheet.width();
    let height = sheet.height();
    let parts = [
        Text(b"<svg xmlns=\"http://www.w3.org/2000/svg\" width=\""),
        Number(width),
        Text(b"\" height=\""),
        Number(height),
        Text(b"\" viewBox=\"0 0 "),
        Number(width),
        Text(b" "),
        Number(height),
        Text(b"\">\n<title>"),
        Any(title),
        Text(b"</title>\n"),
        Text(STYLE),
        Text(b"<rect width=\"100%\" height=\"100%\" fill=\"#ffffff\"/>\n"),
    ];
    write_parts(writer, &parts)
}

/// Writes the lines of the source that a row shows, every second one on a darker ground.
pub(crate) fn write_lines<O: AnswerWriter>(
    lines: &[&[u8]],
    layout: &Layout,
    writer: &mut O,
) -> Result<(), WriteFault>
    requires works { O.has_failed writer.old ≡ false }
    ensures failed { O.has_failed writer.new ≡ is_err result }
{
    for (index, line) in layout.lines(lines).iter().enumerate() {
        let number = layout.first_line.saturating_add(index);
        write_ground(number, layout, writer)?;
        write_line(number, line, layout, writer)?;
    }
    Ok(())
}

/// Writes the darker ground of every second line.
fn write_ground<O: AnswerWriter>(
    line: usize,
    layout: &Layout,
    writer: &mut O,
) -> Result<(), WriteFault>
    requires works { O.has_failed writer.old ≡ false }
    ensures failed { O.has_failed writer.new ≡ is_err result }
{
    if line % 2 == 1 {
        return Ok(());
    }
    let parts = [
        Text(b"<rect x=\"0\" y=\""),
        Number(layout.line_top(line)),
        Text(b"\" width=\"100%\" height=\""),
        Number(layout.line_height(line)),
        Text(b"\" fill=\"#f4f4f4\"/>\n"),
    ];
    write_parts(writer, &parts)
}

/// Writes a line of the source with its number.
fn write_line<O: AnswerWriter>(
    number: usize,
    line: &[u8],
    layout: &Layout,
    writer: &mut O,
) -> Result<(), WriteFault>
    requires works { O.has_failed writer.old ≡ false }
    ensures failed { O.has_failed writer.new ≡ is_err result }
{
    let middle = layout
        .line_top(number)
        .saturating_add(layout.line_height(number) / 2)
        .saturating_add(4);
    let parts = [
        Text(b"<text class=\"number\" x=\"38\" y=\""),
        Number(middle),
        Text(b"\" text-anchor=\"end\">"),
        Number(number),
        Text(b"</text><text x=\"48\" y=\""),
        Number(middle),
        Text(b"\" xml:space=\"preserve\">"),
        Any(shown_part(line)),
        Text(if line.len() > MOST_SHOWN {
            b"\xE2\x80\xA6"
        } else {
            b""
        }),
        Text(b"</text>\n"),
    ];
    write_parts(writer, &parts)
}

/// Writes the names of the lanes in their colours, above the source.
pub(crate) fn write_lane_names<O: AnswerWriter>(
    width: usize,
    layout: &Layout,
    writer: &mut O,
) -> Result<(), WriteFault>
    requires works { O.has_failed writer.old ≡ false }
    ensures failed { O.has_failed writer.new ≡ is_err result }
{
    let baseline = layout.names_line();
    let head = [
        Text(b"<text class=\"number\" x=\"48\" y=\""),
        Number(baseline),
        Text(b"\">lanes</text>\n"),
    ];
    write_parts(writer, &head)?;
    for lane in 0..width {
        let x = lane.saturating_mul(LANE_NAME).saturating_add(FIRST_LANE);
        let parts = [
            Text(b"<circle cx=\""),
            Number(x),
            Text(b"\" cy=\""),
            Number(baseline.saturating_sub(4)),
            Text(b"\" r=\"3\" fill=\""),
            Text(lane_fill(lane)),
            Text(b"\" stroke=\""),
            Text(lane_colour(lane)),
            Text(b"\"/><text class=\"number\" x=\""),
            Number(x.saturating_add(6)),
            Text(b"\" y=\""),
            Number(baseline),
            Text(b"\">"),
            Number(lane),
            Text(b"</text>\n"),
        ];
        write_parts(writer, &parts)?;
    }
    Ok(())
}

/// Writes the numbers of the first step of a row and of each fifth one that is not next to it.
pub(crate) fn write_step_numbers<O: AnswerWriter>(
    columns: usize,
    layout: &Layout,
    writer: &mut O,
) -> Result<(), WriteFault>
    requires works { O.has_failed writer.old ≡ false }
    ensures failed { O.has_failed writer.new ≡ is_err result }
{
    for index in 0..columns {
        if index == 0 || (index > 2 && layout.number(index) % 5 == 0) {
            write_step_number(index, layout, writer)?;
        }
    }
    Ok(())
}

fn write_step_number<O: AnswerWriter>(
    index: usize,
    layout: &Layout,
    writer: &mut O,
) -> Result<(), WriteFault>
    requires works { O.has_failed writer.old ≡ false }
    ensures failed { O.has_failed writer.new ≡ is_err result }
{
    let parts = [
        Text(b"<text class=\"number\" x=\""),
        Number(layout.middle(index)),
        Text(b"\" y=\""),
        Number(layout.names_line()),
        Text(b"\" text-anchor=\"middle\">"),
        Number(layout.number(index)),
        Text(b"</text>\n"),
    ];
    write_parts(writer, &parts)
}

/// Writes what the marks mean that have no name where they stand.
pub(crate) fn write_legend<O: AnswerWriter>(sheet: &Sheet, writer: &mut O) -> Result<(), WriteFault>
    requires works { O.has_failed writer.old ≡ false }
    ensures failed { O.has_failed writer.new ≡ is_err result }
{
    let parts = [
        Text(b"<text class=\"number\" x=\"48\" y=\""),
        Number(sheet.height().saturating_sub(8)),
        Text(b"\">"),
        Text(LEGEND),
        Text(b"</text>\n"),
    ];
    write_parts(writer, &parts)
}

/// Writes how the run ended, after or at the step of this number.
pub(crate) fn write_end<O: AnswerWriter>(
    last: usize,
    end: StepsEnd,
    sheet: &Sheet,
    writer: &mut O,
) -> Result<(), WriteFault>
    requires works { O.has_failed writer.old ≡ false }
    ensures failed { O.has_failed writer.new ≡ is_err result }
{
    let parts = [
        Text(b"<text class=\"number\" x=\"48\" y=\""),
        Number(sheet.height().saturating_sub(24)),
        Text(b"\">"),
    ];
    write_parts(writer, &parts)?;
    match end {
        StepsEnd::Ended => {
            write_parts(writer, &[Text(b"ended after step "), Number(last)])?;
        }
        StepsEnd::StepLimit => {
            write_parts(writer, &[Text(b"step limit after step "), Number(last)])?;
        }
        StepsEnd::AtFault(fault) => {
            let told = [
                Text(b"fault "),
                Text(fault_words(fault.name)),
                Text(b" lane "),
                Number(fault.lane),
                Text(b" at step "),
                Number(last),
            ];
            write_parts(writer, &told)?;
        }
    }
    writer.write_all(b"</text>\n")
}
