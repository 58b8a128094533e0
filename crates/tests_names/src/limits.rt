//! Limits that a tree passes, which is read from its source.
use crate::told::holds;
use gang_model::{RefusalNumber, SourceRefusal};
use gang_types::Place;
use ispc_lexer::{source_end, tokens};
use ispc_parser::parse;
use source_answers::SourceFault;
use source_limits::limit_refusal;
use std::alloc::{AllocError, Global};

/// The first limit that a source passes.
fn refusal(alloc: Global, source: &[u8]) -> Result<Option<SourceRefusal>, SourceFault> {
    let tokens = tokens(alloc, source)?;
    let tree = parse(alloc, &tokens, source_end(source))?;
    Ok(limit_refusal(&tree))
}

fn refused(line: u32, col: u32) -> Result<Option<SourceRefusal>, SourceFault> {
    Ok(Some(SourceRefusal {
        number: RefusalNumber::S13,
        place: Place { line, col },
    }))
}

/// Puts a function of one parameter behind the source. Its variables stand in a block, each in a line of its own, at column 5.
fn add_function(source: &mut Vec<u8>, head: &[u8], locals: usize) -> Result<(), AllocError> {
    source.extend_from_slice(head)?;
    for _ in 0..locals {
        source.extend_from_slice(b"int x;\n")?;
    }
    source.extend_from_slice(b"} }\n")
}

/// The first limit that two functions with so many variables beside their parameter pass.
fn of_two_functions(
    alloc: Global,
    first: usize,
    second: usize,
) -> Result<Option<SourceRefusal>, SourceFault> {
    let mut source = Vec::new(alloc);
    add_function(&mut source, b"export void f(int a) { {\n", first)?;
    add_function(&mut source, b"export void g(int a) { {\n", second)?;
    refusal(alloc, &source)
}

// The first function has lines 1 to 257, and the 256th variable of the second stands in line 258 + 256.
#[test]
fn a_function_has_256_variables(rt: HostRuntime) {
    let all = of_two_functions(rt.alloc(), 255, 255);
    holds(&rt, all == Ok(None), "256 variables");
    let past = of_two_functions(rt.alloc(), 255, 256);
    holds(&rt, past == refused(514, 5), "257 variables");
}

#[test]
fn arrays_have_2_to_the_20_words(rt: HostRuntime) {
    let all = refusal(rt.alloc(), b"int g[1048575];\n    int g[1];");
    holds(&rt, all == Ok(None), "2 ^ 20 words");
    let past = refusal(rt.alloc(), b"int g[1048575];\n    int g[2];");
    holds(&rt, past == refused(2, 9), "a word more");
    let largest = refusal(rt.alloc(), b"int g[1];\n    int g[18446744073709551615];");
    holds(&rt, largest == refused(2, 9), "2 ^ 64 words");
}
