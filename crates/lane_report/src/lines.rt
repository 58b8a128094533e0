//! The lines of a report.
ghost use Rattle.std.specs.Prelude.{◌≡◌, false, length};
ghost use Rattle.debug_traits.specs.Devices.{Writes};
ghost use Rattle.gang_model.specs.Source.Parsed.{functions_in};
ghost use Rattle.source_tree.specs.Tree.{function_view, tree_view};
ghost use Rattle.lane_report.specs.Reports.{function_line, function_lines};

use debug_texts::write_pieces;
use debug_traits::{AnswerWriter, WriteFault};
use itoa::Buffer;
use source_tree::{Function, Item, Tree};

/// Writes a line for each function of a source, with its answer.
///
/// # Errors
///
/// `WriteFault` where the writer fails or takes 0 bytes; a strict front of the lines has been written then.
pub(crate) fn write_lines<O: AnswerWriter>(
    tree: &Tree,
    answers: &[bool],
    writer: &mut O,
) -> Result<(), WriteFault>
    requires answers { length answers.now ≡ length (functions_in (tree_view tree.now)) }
    requires works { O.has_failed writer.old ≡ false }
    ensures { Writes (function_lines (functions_in (tree_view tree.now)) answers.now)
        (O.written writer.old) (O.written writer.new) (O.has_failed writer.new) result }
{
    let mut number = 0;
    for item in &tree.items {
        if let Item::Function(function) = item {
            write_line(function, answers[number], writer)?;
            number += 1;
        }
    }
    Ok(())
}

/// Writes the line of a function.
fn write_line<O: AnswerWriter>(
    function: &Function,
    is_lane_pure: bool,
    writer: &mut O,
) -> Result<(), WriteFault>
    requires { O.has_failed writer.old ≡ false }
    ensures { Writes (function_line (function_view function.now) is_lane_pure)
        (O.written writer.old) (O.written writer.new) (O.has_failed writer.new) result }
{
    let mut line = Buffer::new();
    let mut column = Buffer::new();
    let answer = if is_lane_pure {
        b"yes".as_slice()
    } else {
        b"no"
    };
    let pieces = [
        b"lane-pure ".as_slice(),
        line.format(function.place.line).as_bytes(),
        b":",
        column.format(function.place.col).as_bytes(),
        b" ",
        function.name.as_slice(),
        b": ",
        answer,
        b"\n",
    ];
    write_pieces(writer, &pieces)
}
