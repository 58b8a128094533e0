//! The texts that breakpoints write, as an editor's console shows them.
ghost use Rattle.std.specs.Prelude.{◌≡◌, IfOk, OnOk, map, string_bytes};
ghost use Rattle.log_points.specs.Points.{written_of};
ghost use Rattle.adapter_server.specs.Writing as spec;

use log_points::Written;
use std::alloc::{AllocError, Global};

/// The line that tells that texts are left out.
const LEFT_OUT: &str = "texts of log points are left out\n";

/// The lines of the console that tell the texts which were written, in their order, and whether some are left out.
pub(crate) fn console_lines(alloc: Global, written: &Written) -> Result<Vec<String>, AllocError>
    ensures { IfOk result (λ lines. map string_bytes lines.items ≡ spec.console_lines (written_of written.now)) }
{
    let mut lines = text_lines(alloc, &written.texts)?;
    put_left_out(alloc, written.is_cut, &mut lines)?;
    Ok(lines)
}

/// Each of some texts with an end of line behind it.
fn text_lines(alloc: Global, texts: &[String]) -> Result<Vec<String>, AllocError>
    ensures { IfOk result (λ lines. map string_bytes lines.items ≡ map spec.console_line (map string_bytes texts.now)) }
{
    let mut lines = Vec::new(alloc);
    for text in texts {
        lines.push(console_line(alloc, text.as_str())?)?;
    }
    Ok(lines)
}

/// A text with an end of line behind it.
fn console_line(alloc: Global, text: &str) -> Result<String, AllocError>
    ensures { IfOk result (λ line. string_bytes line ≡ spec.console_line text.now) }
{
    format!(in alloc; "{text}\n")
}

/// Puts behind others the line that tells that texts are left out, where some are.
fn put_left_out(alloc: Global, is_cut: bool, lines: &mut Vec<String>) -> Result<(), AllocError>
    ensures { OnOk result (map string_bytes lines.new.items ≡ spec.with_left_out is_cut (map string_bytes lines.old.items)) }
{
    if is_cut {
        lines.push(String::from_str(alloc, LEFT_OUT)?)?;
    }
    Ok(())
}
