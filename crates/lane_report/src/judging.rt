//! A source without faults of names and types.
ghost use Rattle.std.specs.Prelude.{IfOk, IfErr};
ghost use Rattle.gang_model.specs.Source.Sources.{ReadsAs};
ghost use Rattle.gang_model.specs.Types.SourceRefusals.{IsAccepted};
ghost use Rattle.source_tree.specs.Tree.{tree_view};
ghost use Rattle.lane_report.specs.Refusals.{IsRefused};

use ispc_lexer::{source_end, tokens};
use ispc_names::resolve;
use ispc_parser::parse;
use source_answers::SourceFault;
use source_tree::Tree;
use std::alloc::Global;
use type_check::{Checked, check};

/// The tree that a source spells.
fn read_tree(alloc: Global, source: &[u8]) -> Result<Tree, SourceFault>
    ensures reads { IfOk result (λ tree. ReadsAs source.now (tree_view tree)) }
    ensures refused { IfErr result (IsRefused source.now) }
{
    let tokens = tokens(alloc, source)?;
    parse(alloc, tokens.as_slice(), source_end(source))
}

/// A source without faults of names and types.
///
/// # Errors
///
/// Out of memory, or the refusal of the first phase that finds a fault: S1, S2 or S13 by the tokens, S3, S4 or S13 by the tree,
/// then S5, S6, S11 or S12 by names, and S7 to S10 by types.
pub(crate) fn checked_source(alloc: Global, source: &[u8]) -> Result<Checked, SourceFault>
    ensures reads { IfOk result (λ checked. ReadsAs source.now (tree_view checked)) }
    ensures accepted { IfOk result (λ checked. IsAccepted (tree_view checked)) }
    ensures refused { IfErr result (IsRefused source.now) }
{
    let tree = read_tree(alloc, source)?;
    let named = resolve(alloc, tree)?;
    check(alloc, named)
}
