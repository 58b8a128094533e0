//! What an expression is read with, and the nestings in it.
ghost use Rattle.std.specs.Prelude.{◌≡◌, suc, IfOk};
ghost use Rattle.ispc_parser_words.specs.Front.{Gives};
ghost use Rattle.ispc_parser_expressions.specs.Parse.{within, parsers};

use gang_model::RefusalNumber;
use gang_types::Place;
use ispc_parser_words::refused;
use source_answers::SourceFault;
use std::alloc::Global;

/// What does not change while an expression is read, and how many nestings are left.
#[derive(Clone, Copy, Drop)]
pub(crate) struct Reader {
    pub(crate) alloc: Global,
    pub(crate) end: Place,
    pub(crate) depth: u32,
}

/// The reader inside the nesting that opens at this place.
#[tactic(auto, unfolding(crate::specs::Parse::parsers))]
pub(crate) fn open(reader: Reader, place: Place) -> Result<Reader, SourceFault>
    ensures read { Gives (λ inner. within (parsers inner.depth)) result (parsers reader.depth) }
    ensures deeper { IfOk result (λ inner. suc inner.depth ≡ reader.depth) }
{
    if reader.depth == 0 {
        return Err(refused(RefusalNumber::S4, place));
    }
    let depth = reader.depth - 1;
    Ok(Reader { depth, ..reader })
}
