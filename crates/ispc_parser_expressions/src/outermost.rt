//! Expressions that stand in no other one.
ghost use Rattle.std.specs.Prelude.{◌≡◌, ◌≤◌};
ghost use Rattle.ispc_lexer.specs.Views.{sort_of, lexemes_of};
ghost use Rattle.source_tree.specs.Expressions.{expr_view, arg_view, args_view};
ghost use Rattle.ispc_parser_words.specs.Front.{Gives};
ghost use Rattle.ispc_parser_expressions.specs.Parse.{whole_expr, whole_args};

use crate::budget::{Budget, MAX_OPERATORS};
use crate::descent::{args, expr};
use crate::reader::Reader;
use gang_types::Place;
use ispc_lexer::Token;
use source_answers::SourceFault;
use source_tree::{Arg, Expr};
use std::alloc::Global;

/// The expression at the front of the tokens, which stands in no other one, with so many nestings left, and the
/// tokens after it.
///
/// # Errors
///
/// Out of memory, or a refusal where no expression within the limits stands there: S3 at the first token after which none
/// can follow, or at the end; S4 at the token that opens a nesting where none is left; S13 at what comes
/// after 256 operators, calls and indexings: at the operator, a cast's `(`, the `?`, or the name of a call or indexing.
#[tactic(auto, unfolding(crate::specs::Parse::whole_expr))]
pub fn expression(
    alloc: Global,
    depth: u32,
    tokens: &[Token],
    end: Place,
) -> Result<(Expr, &[Token]), SourceFault>
    ensures { Gives (λ x. (expr_view x.0, lexemes_of x.1.now)) result (whole_expr depth (lexemes_of tokens.now)) }
{
    let reader = Reader { alloc, end, depth };
    let (expression, _, rest) = expr(reader, MAX_OPERATORS, tokens)?;
    Ok((Box::into_inner(expression), rest))
}

/// The arguments of a call that is a statement, up to its `)`, with so many nestings left inside the parentheses.
///
/// Each argument is an expression of its own, with its own 256 operators, calls and indexings.
///
/// # Errors
///
/// Those of [`expression`].
#[tactic(auto, unfolding(crate::specs::Parse::whole_args))]
pub fn arguments(
    alloc: Global,
    depth: u32,
    tokens: &[Token],
    end: Place,
) -> Result<(Vec<Arg>, &[Token]), SourceFault>
    ensures { Gives (λ x. (args_view x.0.items, lexemes_of x.1.now)) result (whole_args depth (lexemes_of tokens.now)) }
{
    let reader = Reader { alloc, end, depth };
    let (args, _, rest) = args(reader, Budget::Own, MAX_OPERATORS, tokens)?;
    Ok((args, rest))
}
