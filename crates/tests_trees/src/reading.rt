//! A source's tree.

use gang_model::{RefusalNumber, SourceRefusal};
use gang_types::Place;
use ispc_lexer::{source_end, tokens};
use ispc_parser::parse;
use source_answers::SourceFault;
use source_tree::{Item, Stmt, Tree};
use std::alloc::Global;

/// The tree of a source.
pub(crate) fn read(alloc: Global, source: &str) -> Result<Tree, SourceFault> {
    let bytes = source.as_bytes();
    let tokens = tokens(alloc, bytes)?;
    parse(alloc, &tokens, source_end(bytes))
}

/// Whether a source is refused so.
pub(crate) fn is_refused(
    alloc: Global,
    source: &str,
    number: RefusalNumber,
    line: u32,
    col: u32,
) -> bool {
    let place = Place { line, col };
    match read(alloc, source) {
        Ok(_) => false,
        Err(fault) => fault == SourceFault::Refused(SourceRefusal { number, place }),
    }
}

/// The statements of the function at this index.
pub(crate) fn body(tree: &Tree, index: usize) -> Option<&[Stmt]> {
    match tree.items.get(index)? {
        Item::Function(function) => Some(&function.body),
        Item::Global(_) => None,
    }
}
