//! What stands between the word of a loop or a foreach form and its body.
ghost use Rattle.std.specs.Prelude.{◌≡◌, map, option_map};
ghost use Rattle.ispc_lexer.specs.Views.{lexemes_of};
ghost use Rattle.source_tree.specs.Expressions.{expr_view};
ghost use Rattle.ispc_parser_words.specs.Front.{Gives};
ghost use Rattle.ispc_parser_expressions.specs.Parse.{whole_expr};
ghost use Rattle.source_tree.specs.Tree.{dim_view, stmt_view};
ghost use Rattle.ispc_parser_shared.specs.Front.{name_view, name_of, in_parens};
ghost use Rattle.ispc_parser_shared.specs.Refusals.{IsRefusal};
ghost use Rattle.ispc_parser_heads.specs.Heads as spec;
ghost use Rattle.ispc_parser_heads.specs.Heads.{ForHead, UniqueHead, rounds_view, distinct_view, head_view, completed};

use gang_model::{Mark, RefusalNumber};
use gang_types::Place;
use ispc_lexer::{Kind, Token};
use ispc_parser_expressions::expression;
use ispc_parser_parts::{behind, between, declaration, simple};
use ispc_parser_shared::{Context, Identifier, Loop, Read, enter, name, refused_at, with_rest};
use ispc_parser_words::{after, begins, begins_word, take, unexpected};
use source_answers::SourceFault;
use source_tree::{Dim, Expr, Stmt};

/// How many dimensions a `foreach` may have.
const MAX_DIMS: usize = 3;

/// `start; test; update`, where each part may be missing.
pub struct Rounds {
    pub start: Box<Stmt>,
    pub test: Option<Expr>,
    pub update: Box<Stmt>,
}

impl Drop for Rounds {
    fn drop(self) {
        let Self {
            start: _,
            test: _,
            update: _,
        } = self;
    }
}

impl Rounds {
    /// The `for` at this place with these rounds and this body.
    fn with_body(self, place: Place, body: Box<Stmt>) -> Stmt
        ensures { stmt_view result ≡ completed (ForHead place (rounds_view self)) (stmt_view body.value) }
    {
        let Self {
            start,
            test,
            update,
        } = self;
        Stmt::For {
            place,
            start,
            test,
            update,
            body,
        }
    }
}

/// `name in value`.
pub struct Distinct {
    pub name: Identifier,
    pub value: Expr,
}

impl Drop for Distinct {
    fn drop(self) {
        let Self { name: _, value: _ } = self;
    }
}

impl Distinct {
    /// The `foreach_unique` at this place over these values with this body.
    fn with_body(self, place: Place, body: Box<Stmt>) -> Stmt
        ensures { stmt_view result ≡ completed (UniqueHead place (distinct_view self)) (stmt_view body.value) }
    {
        let Self { name, value } = self;
        Stmt::ForEachUnique {
            place,
            name_place: name.place,
            name: name.text,
            value,
            body,
        }
    }
}

/// A loop or a foreach form without its body, and the place of its word.
pub enum Head {
    While {
        place: Place,
        test: Expr,
    },
    For {
        place: Place,
        rounds: Rounds,
    },
    ForEach {
        place: Place,
        is_tiled: bool,
        dims: Vec<Dim>,
    },
    ForEachActive {
        place: Place,
        name: Identifier,
    },
    ForEachUnique {
        place: Place,
        distinct: Distinct,
    },
}

impl Drop for Head {
    fn drop(self) {
        match self {
            Head::While { place: _, test: _ }
            | Head::For {
                place: _,
                rounds: _,
            }
            | Head::ForEach {
                place: _,
                is_tiled: _,
                dims: _,
            }
            | Head::ForEachActive { place: _, name: _ }
            | Head::ForEachUnique {
                place: _,
                distinct: _,
            } => {}
        }
    }
}

impl Head {
    /// The loop or foreach form with its body.
    pub fn with_body(self, body: Box<Stmt>) -> Stmt
        ensures { stmt_view result ≡ completed (head_view self) (stmt_view body.value) }
    {
        match self {
            Head::While { place, test } => Stmt::While { place, test, body },
            Head::For { place, rounds } => rounds.with_body(place, body),
            Head::ForEach {
                place,
                is_tiled,
                dims,
            } => Stmt::ForEach {
                place,
                is_tiled,
                dims,
                body,
            },
            Head::ForEachActive { place, name } => Stmt::ForEachActive {
                place,
                name_place: name.place,
                name: name.text,
                body,
            },
            Head::ForEachUnique { place, distinct } => distinct.with_body(place, body),
        }
    }
}

/// `( e )`.
///
/// # Errors
///
/// S3 at the first token that nothing goes on with there, or at the end; S4 at the token that opens a nesting too many; S13 at the
/// 257th operator, call or indexing of an expression. Out of memory.
#[tactic(auto, unfolding(ispc_parser_shared::specs::Front::in_parens, ispc_parser_parts::specs::Parts::between))]
pub fn test(context: Context, depth: u32, tokens: &[Token]) -> Read<'_, Expr>
    ensures { Gives (λ x. (expr_view x.0, lexemes_of x.1.now)) result
        (in_parens whole_expr depth (lexemes_of tokens.now)) }
{
    between(context, depth, Mark::LeftParen, Mark::RightParen, tokens)
}

/// An expression before a `;`, which may be missing.
///
/// # Errors
///
/// S3 at the first token that nothing goes on with there, or at the end; S4 at the token that opens a nesting too many; S13 at the
/// 257th operator, call or indexing of an expression. Out of memory.
#[tactic(auto, unfolding(crate::specs::Heads::optional_of))]
pub fn optional(context: Context, depth: u32, tokens: &[Token]) -> Read<'_, Option<Expr>>
    ensures { Gives (λ x. (option_map expr_view x.0, lexemes_of x.1.now)) result
        (spec.optional_of depth (lexemes_of tokens.now)) }
{
    if begins(Mark::Semicolon, tokens) {
        return Ok((None, tokens));
    }
    let (value, rest) = expression(context.alloc, depth, tokens, context.end)?;
    Ok((Some(value), rest))
}

#[tactic(auto, unfolding(crate::specs::Heads::start_of))]
fn start(context: Context, depth: u32, tokens: &[Token]) -> Read<'_, Box<Stmt>>
    ensures { Gives (λ x. (stmt_view x.0.value, lexemes_of x.1.now)) result
        (spec.start_of depth (lexemes_of tokens.now)) }
{
    match tokens {
        [] => Err(unexpected(tokens, context.end)),
        [first, ..] => {
            if begins(Mark::Semicolon, tokens) {
                with_rest(context.alloc, Stmt::Empty, tokens)
            } else if begins_word(tokens) {
                declaration(context, depth, first.place, tokens)
            } else {
                simple(context, depth, tokens)
            }
        }
    }
}

#[tactic(auto, unfolding(crate::specs::Heads::update_of))]
fn update(context: Context, depth: u32, tokens: &[Token]) -> Read<'_, Box<Stmt>>
    ensures { Gives (λ x. (stmt_view x.0.value, lexemes_of x.1.now)) result
        (spec.update_of depth (lexemes_of tokens.now)) }
{
    if begins(Mark::RightParen, tokens) {
        with_rest(context.alloc, Stmt::Empty, tokens)
    } else {
        simple(context, depth, tokens)
    }
}

#[tactic(auto, unfolding(crate::specs::Heads::rounds_of))]
fn rounds_of(context: Context, depth: u32, tokens: &[Token]) -> Read<'_, Rounds>
    ensures { Gives (λ x. (rounds_view x.0, lexemes_of x.1.now)) result
        (spec.rounds_of depth (lexemes_of tokens.now)) }
{
    let (start, rest) = start(context, depth, tokens)?;
    let rest = take(Mark::Semicolon, rest, context.end)?;
    let (test, rest) = optional(context, depth, rest)?;
    let rest = take(Mark::Semicolon, rest, context.end)?;
    let (update, rest) = update(context, depth, rest)?;
    Ok((
        Rounds {
            start,
            test,
            update,
        },
        rest,
    ))
}

/// `name = low ... high`.
#[tactic(auto, unfolding(crate::specs::Heads::dim_of))]
fn dim(context: Context, depth: u32, tokens: &[Token]) -> Read<'_, Dim>
    ensures { Gives (λ x. (dim_view x.0, lexemes_of x.1.now)) result
        (spec.dim_of depth (lexemes_of tokens.now)) }
{
    let (name, rest) = name(context, tokens)?;
    let (low, rest) = behind(context, depth, Mark::Assign, rest)?;
    let (high, rest) = behind(context, depth, Mark::Dots, rest)?;
    let dim = Dim {
        place: name.place,
        name: name.text,
        low,
        high,
    };
    Ok((dim, rest))
}

/// The refusal of a dimension too many.
fn too_many(tokens: &[Token], end: Place) -> SourceFault
    ensures { IsRefusal result }
{
    match tokens {
        [first, ..] if matches!(first.kind, Kind::Name(_)) => refused_at(
            RefusalNumber::S13,
            tokens,
            end,
        ),
        _ => unexpected(tokens, end),
    }
}

/// The dimensions, with commas between them.
#[tactic(auto, unfolding(crate::specs::Heads::dims_of))]
fn dims(context: Context, depth: u32, tokens: &[Token]) -> Read<'_, Vec<Dim>>
    ensures { Gives (λ x. (map dim_view x.0.items, lexemes_of x.1.now)) result
        (spec.dims_of depth (lexemes_of tokens.now)) }
{
    let mut dims = Vec::new(context.alloc);
    let mut rest = tokens;
    for _ in 0..MAX_DIMS {
        let (dim, after_dim) = dim(context, depth, rest)?;
        dims.push(dim)?;
        let Some(next) = after(Mark::Comma, after_dim) else {
            return Ok((dims, after_dim));
        };
        rest = next;
    }
    Err(too_many(rest, context.end))
}

#[tactic(auto, unfolding(crate::specs::Heads::distinct_of))]
fn distinct_of(context: Context, depth: u32, tokens: &[Token]) -> Read<'_, Distinct>
    ensures { Gives (λ x. (distinct_view x.0, lexemes_of x.1.now)) result
        (spec.distinct_of depth (lexemes_of tokens.now)) }
{
    let (name, rest) = name(context, tokens)?;
    let (value, rest) = behind(context, depth, Mark::In, rest)?;
    Ok((Distinct { name, value }, rest))
}

/// What stands between the parentheses of a loop or a foreach form whose word stands at this place.
fn inside(
    context: Context,
    depth: u32,
    word: Loop,
    place: Place,
    tokens: &[Token],
) -> Read<'_, Head>
    ensures { Gives (λ x. (head_view x.0, lexemes_of x.1.now)) result
        (spec.inside_of word place depth (lexemes_of tokens.now)) }
{
    match word {
        Loop::While => {
            let (test, rest) = expression(context.alloc, depth, tokens, context.end)?;
            Ok((Head::While { place, test }, rest))
        }
        Loop::For => {
            let (rounds, rest) = rounds_of(context, depth, tokens)?;
            Ok((Head::For { place, rounds }, rest))
        }
        Loop::ForEach { is_tiled } => {
            let (dims, rest) = dims(context, depth, tokens)?;
            Ok((
                Head::ForEach {
                    place,
                    is_tiled,
                    dims,
                },
                rest,
            ))
        }
        Loop::ForEachActive => {
            let (name, rest) = name(context, tokens)?;
            Ok((Head::ForEachActive { place, name }, rest))
        }
        Loop::ForEachUnique => {
            let (distinct, rest) = distinct_of(context, depth, tokens)?;
            Ok((Head::ForEachUnique { place, distinct }, rest))
        }
    }
}

/// The same with its parentheses.
#[tactic(auto, unfolding(ispc_parser_shared::specs::Front::in_parens))]
fn parenthesized(
    context: Context,
    depth: u32,
    word: Loop,
    place: Place,
    tokens: &[Token],
) -> Read<'_, Head>
    ensures { Gives (λ x. (head_view x.0, lexemes_of x.1.now)) result
        (in_parens (spec.inside_of word place) depth (lexemes_of tokens.now)) }
{
    let (inner, rest) = enter(Mark::LeftParen, depth, tokens, context.end)?;
    let (head, rest) = inside(context, inner, word, place, rest)?;
    let rest = take(Mark::RightParen, rest, context.end)?;
    Ok((head, rest))
}

/// Behind the word of a loop or a foreach form, which stands at this place, up to its body.
///
/// # Errors
///
/// S3 at the first token that nothing goes on with there, or at the end; S4 at the token that opens a nesting too many; S13 at the
/// fourth dimension, or at the 257th operator, call or indexing of an expression. Out of memory.
pub fn head_of(
    context: Context,
    depth: u32,
    word: Loop,
    place: Place,
    tokens: &[Token],
) -> Read<'_, Head>
    ensures { Gives (λ x. (head_view x.0, lexemes_of x.1.now)) result
        (spec.head_of word depth place (lexemes_of tokens.now)) }
{
    parenthesized(context, depth, word, place, tokens)
}
