//! The one tree of the tokens.
ghost use Rattle.std.specs.Prelude.{◌≡◌, ◌⊎◌, IfOk, IfErr};
ghost use Rattle.gang_model.specs.Source.Parsed.{ParsedSource};
ghost use Rattle.gang_model.specs.Source.SpellsSource.{IsTree};
ghost use Rattle.ispc_lexer.specs.Views.{lexemes_of};
ghost use Rattle.ispc_parser_words.specs.Front.{Gives};
ghost use Rattle.source_tree.specs.Tree.{tree_view};
ghost use Rattle.ispc_parser_shared.specs.Refusals.{IsRefusal};
ghost use Rattle.ispc_parser.specs.Source.{tree_of};

use crate::source::items;
use gang_types::Place;
use ispc_lexer::Token;
use ispc_parser_shared::Context;
use source_answers::SourceFault;
use source_tree::Tree;
use std::alloc::Global;

fn whole(alloc: Global, tokens: &[Token], end: Place) -> Result<Tree, SourceFault>
    ensures { Gives tree_view result (tree_of (lexemes_of tokens.now)) }
{
    let items = items(Context { alloc, end }, tokens)?;
    Ok(Tree { items })
}

/// The tree that the tokens of a source spell, where `end` is the place behind the last of them.
///
/// # Errors
///
/// S3 at the first token after which no source can follow, or at the end; S4 at the token that opens the 65th nesting; S13 at
/// the first token past a limit: of 256 operators, calls and indexings in one expression, 8 parameters, 3 dimensions. Out of
/// memory.
pub fn parse(alloc: Global, tokens: &[Token], end: Place) -> Result<Tree, SourceFault>
    // What is read is spelled so.
    ensures found { IfOk result (λ tree. IsTree (tree_view tree) (lexemes_of tokens.now)) }
    // No other tree is.
    ensures one { IfOk result (λ tree. (other : ParsedSource) → IsTree other (lexemes_of tokens.now) → other ≡ tree_view tree) }
    // Where none is read, none is spelled so, unless memory ran out.
    ensures none { IfErr result (λ fault. (fault ≡ SourceFault.Memory)
        ⊎ (IsRefusal fault × ((tree : ParsedSource) → IsTree tree (lexemes_of tokens.now) → ⊥))) }
{
    whole(alloc, tokens, end)
}
