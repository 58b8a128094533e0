//! The values that calls are made on.
ghost use Rattle.std.specs.Prelude.{◌≡◌, None, Some, IfSome};
ghost use Rattle.ispc_compiler.specs.Front.{Compiles};

use gang_types::FuncId;
use ispc_compiler::{Compiled, compile_source};
use ispc_lexer::{source_end, tokens};
use ispc_names::{Named, resolve};
use ispc_options::{Options, Width};
use ispc_parser::parse;
use source_tree::Tree;
use std::alloc::Global;
use type_check::{Checked, check};

/// A source with a call, a `foreach`, a `switch`, a sum across lanes, and arrays of the file and of the entry.
pub(crate) const SOURCE: &[u8] = b"uniform int8 t[3];\n\
    int doubled(int x) { return x + x; }\n\
    export void go(uniform int n, uniform int a[]) {\n\
    int x = doubled(a[programIndex]);\n\
    foreach (i = 0 ... n) { a[i] += n; }\n\
    switch (programIndex) {\n\
    case 0: x += 1; break;\n\
    default: x = reduce_add(x);\n\
    }\n\
    t[n] = n;\n\
    }\n";

/// An input of the source.
pub(crate) const INPUT: &[u8] = b"n = 2\na = 5 6 7 8\n";

pub(crate) const OPTIONS: Options<'static> = Options {
    width: Width::Four,
    history: 2,
    steps: 100,
    entry: None,
    lane_pure: false,
};

/// The first function of the source.
pub(crate) const FIRST: FuncId = FuncId(0);

/// The tree of the source, if there is memory for it.
pub(crate) fn tree(alloc: Global) -> Option<Tree> {
    let tokens = tokens(alloc, SOURCE).ok()?;
    parse(alloc, &tokens, source_end(SOURCE)).ok()
}

/// The source without faults of its names, if there is memory for it.
pub(crate) fn named(alloc: Global) -> Option<Named> {
    resolve(alloc, tree(alloc)?).ok()
}

/// The source without faults of its types, if there is memory for it.
pub(crate) fn checked(alloc: Global) -> Option<Checked> {
    check(alloc, named(alloc)?).ok()
}

/// The program of the source with its entry, if there is memory for it.
pub(crate) fn compiled(alloc: Global) -> Option<Compiled>
    ensures { IfSome result (λ compiled. Compiles SOURCE.now None (Some compiled)) }
{
    match compile_source(alloc, SOURCE, None) {
        Ok(found) => found,
        Err(_) => None,
    }
}
