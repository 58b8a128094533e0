//! An input read for the first function of a source.
use debug_inputs::{InputFault, InputRow, read_inputs};
use gang_types::{FuncId, VarId};
use ispc_lexer::{source_end, tokens};
use ispc_names::resolve;
use ispc_parser::parse;
use source_answers::SourceFault;
use std::alloc::Global;
use type_check::check;
use typed_tree::Program;

fn program(alloc: Global, source: &[u8]) -> Result<Program, SourceFault> {
    let tokens = tokens(alloc, source)?;
    let tree = parse(alloc, &tokens, source_end(source))?;
    let checked = check(alloc, resolve(alloc, tree)?)?;
    Ok(checked.into_program())
}

pub(crate) fn rows(
    alloc: Global,
    source: &[u8],
    input: &[u8],
) -> Result<Vec<InputRow>, InputFault> {
    let Ok(program) = program(alloc, source) else {
        return Err(InputFault::Memory);
    };
    read_inputs(alloc, input, &program, FuncId(0))
}

/// Whether there is one row, of this variable and these words.
pub(crate) fn is_row(rows: &Result<Vec<InputRow>, InputFault>, var: VarId, words: &[u64]) -> bool {
    match rows {
        Ok(rows) => rows.len() == 1 && has_row(rows, 0, var, words),
        Err(_) => false,
    }
}

/// Whether the row of this number has this variable and these words.
pub(crate) fn has_row(rows: &[InputRow], number: usize, var: VarId, words: &[u64]) -> bool {
    match rows.get(number) {
        Some(row) => row.var == var && row.values.as_slice() == words,
        None => false,
    }
}

/// Why an input is refused, with what is wanting lent.
#[derive(Clone, Copy)]
pub(crate) enum Fault<'a> {
    BadLine(u32),
    Range(u32),
    TooLarge(Option<u32>),
    Missing(&'a [u8]),
}

/// Whether an input of the source is refused so.
pub(crate) fn is_refused(alloc: Global, source: &[u8], input: &[u8], wanted: Fault<'_>) -> bool {
    match (&rows(alloc, source, input), wanted) {
        (Err(InputFault::BadLine(line)), Fault::BadLine(wanted)) => *line == wanted,
        (Err(InputFault::Range(line)), Fault::Range(wanted)) => *line == wanted,
        (Err(InputFault::TooLarge(line)), Fault::TooLarge(wanted)) => *line == wanted,
        (Err(InputFault::Missing(name)), Fault::Missing(wanted)) => name.as_slice() == wanted,
        _ => false,
    }
}
