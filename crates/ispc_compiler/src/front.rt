//! The phases from a text to a program, each of which may refuse it.
ghost use Rattle.std.specs.Prelude.{◌≡◌, ◌⊎◌, ℕ, List, None, IfErr, IfOk, OnOk, option_map};
ghost use Rattle.gang_model.specs.Source.Limits as limits;
ghost use Rattle.gang_model.specs.Source.Sources.{ReadsAs};
ghost use Rattle.gang_model.specs.Texts.Run.{source_refusal};
ghost use Rattle.source_tree.specs.Tree.{tree_view};
ghost use Rattle.ispc_compiler.specs.Front.{Compiles, GivesTree, HasNoProgram, IsFault, IsOnly, IsRefused};

use gang_types::FuncId;
use ispc_lexer::{source_end, tokens};
use ispc_names::resolve;
use ispc_parser::parse;
use source_answers::SourceFault;
use source_limits::limit_refusal;
use source_tree::Tree;
use std::alloc::Global;
use type_check::{check, entry_of};
use typed_tree::Program;

/// A program, and the function that its run begins with.
#[derive(Drop)]
pub struct Compiled {
    pub program: Program,
    pub entry: FuncId,
}

/// The program of a source with its entry, the first exported function, of the given name if one is asked for; none where
/// the source has no such function. A text has no other program and no other entry, and none where it is refused.
///
/// # Errors
///
/// Out of memory, or the refusal of the first phase that finds a fault: S1, S2 or S13 by the tokens, S3, S4 or S13 by the
/// tree, then S5, S6, S11 or S12 by names, S7 to S10 by types, and S13 by the limits.
pub fn compile_source(
    alloc: Global,
    source: &[u8],
    asked: Option<&[u8]>,
) -> Result<Option<Compiled>, SourceFault>
    // What is compiled is a program of the text.
    ensures compiled { IfOk result (Compiles source.now (option_map (λ n. n.now) asked.entry)) }
    // No other is.
    ensures one { IfOk result (IsOnly source.now (option_map (λ n. n.now) asked.entry)) }
    ensures refused { IfErr result (IsRefused source.now) }
    // Where none is compiled, there is none, unless memory ran out.
    ensures none { IfErr result (λ fault. (fault ≡ SourceFault.Memory) ⊎ HasNoProgram source.now (option_map (λ n. n.now) asked.entry)) }
{
    let tree = read_tree(alloc, source)?;
    compile_tree(alloc, tree, asked)
}

/// The tree of a text.
fn read_tree(alloc: Global, source: &[u8]) -> Result<Tree, SourceFault>
    ensures reads { IfOk result (λ tree. ReadsAs source.now (tree_view tree)) }
    ensures refused { IfErr result (IsRefused source.now) }
{
    let tokens = tokens(alloc, source)?;
    let tree = parse(alloc, tokens.as_slice(), source_end(source))?;
    Ok(tree)
}

/// The program of a tree.
fn compile_tree(
    alloc: Global,
    tree: Tree,
    asked: Option<&[u8]>,
) -> Result<Option<Compiled>, SourceFault>
    requires reads { (text : List ℕ) × ReadsAs text (tree_view tree) }
    ensures compiled { IfOk result (GivesTree (tree_view tree) (option_map (λ n. n.now) asked.entry)) }
    ensures refused { IfErr result (IsFault (source_refusal (tree_view tree))) }
{
    let named = resolve(alloc, tree)?;
    let checked = check(alloc, named)?;
    check_limits(checked.tree())?;
    let Some(entry) = entry_of(&checked, asked) else {
        return Ok(None);
    };
    let program = checked.into_program();
    Ok(Some(Compiled { program, entry }))
}

/// Whether a tree passes no limit.
fn check_limits(tree: &Tree) -> Result<(), SourceFault>
    ensures sound { OnOk result (limits.limit_refusal (tree_view tree.now) ≡ None) }
    ensures refused { IfErr result (IsFault (limits.limit_refusal (tree_view tree.now))) }
{
    match limit_refusal(tree) {
        None => Ok(()),
        Some(refusal) => Err(SourceFault::Refused(refusal)),
    }
}
