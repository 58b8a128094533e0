//! Whether a text means something at a step.
ghost use Rattle.std.specs.Prelude.{◌≡◌, true, IfErr, OnOk};
ghost use Rattle.typed_tree.specs.Views.{program_view};
ghost use Rattle.expression_watches.specs.Meanings.{IsDenied, is_meant};

use gang_types::Spot;
use placed_expressions::{ExpressionRefusal, place_expression};
use std::alloc::Global;
use typed_tree::Program;

/// Whether the text of an expression means something at a step, so that it can be watched in a frame that stands there.
///
/// # Errors
///
/// Why it means nothing, as where its value is asked for; or out of memory.
pub fn judge_text(
    alloc: Global,
    text: &[u8],
    program: &Program,
    spot: Spot,
) -> Result<(), ExpressionRefusal>
    ensures meant { OnOk result (is_meant (program_view program.now) spot text.now ≡ true) }
    ensures denied { IfErr result (IsDenied text.now (program_view program.now) spot) }
{
    match place_expression(alloc, text, program, spot) {
        Ok(placed) => {
            let _code = placed.code;
            Ok(())
        }
        Err(refusal) => Err(refusal),
    }
}
