//! The phases from a source to its program.
use crate::ends::{Ended, end_of};
use crate::samples::{FIRST, SOURCE, checked, named, tree};
use ispc_compiler::compile_source;
use ispc_lexer::{source_end, tokens};
use ispc_names::resolve;
use ispc_names_faults::names_fault;
use ispc_parser::parse;
use lane_pure::{is_pure_in_lanes, pure_functions};
use source_answers::{both_boxed, boxed};
use std::alloc::Global;
use type_check::{Checked, check, is_lane_pure, lane_pure_functions};

/// Makes the call of a name, if there is memory for what it is called on.
pub(crate) fn call(alloc: Global, name: &str) -> Option<Ended> {
    match name {
        "ispc_lexer::tokens" => Some(end_of(&tokens(alloc, SOURCE))),
        "ispc_parser::parse" => {
            let tokens = tokens(alloc, SOURCE).ok()?;
            Some(end_of(&parse(alloc, &tokens, source_end(SOURCE))))
        }
        "source_answers::boxed" => Some(end_of(&boxed(alloc, 1))),
        "source_answers::both_boxed" => Some(end_of(&both_boxed(alloc, 1, 2))),
        "ispc_names_faults::names_fault" => Some(end_of(&names_fault(alloc, &tree(alloc)?))),
        "ispc_names::resolve" => Some(end_of(&resolve(alloc, tree(alloc)?))),
        "type_check::check" => Some(end_of(&check(alloc, named(alloc)?))),
        "lane_pure::pure_functions" => Some(judge_all_lanes(alloc, &checked(alloc)?)),
        "lane_pure::is_pure_in_lanes" => Some(judge_lanes(alloc, &checked(alloc)?)),
        "type_check::is_lane_pure" => Some(end_of(&is_lane_pure(alloc, &checked(alloc)?, FIRST))),
        "type_check::lane_pure_functions" => {
            Some(end_of(&lane_pure_functions(alloc, &checked(alloc)?)))
        }
        "ispc_compiler::compile_source" => Some(end_of(&compile_source(alloc, SOURCE, None))),
        _ => None,
    }
}

/// Whether each function of a source is lane-pure.
fn judge_all_lanes(alloc: Global, checked: &Checked) -> Ended {
    end_of(&pure_functions(alloc, checked.tree(), checked.program()))
}

/// Whether the first function of a source is lane-pure.
fn judge_lanes(alloc: Global, checked: &Checked) -> Ended {
    let is_pure = is_pure_in_lanes(alloc, checked.tree(), checked.program(), FIRST);
    end_of(&is_pure)
}
