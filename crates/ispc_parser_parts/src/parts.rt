//! Declarations, assignments and calls, without the `;` that ends them.
ghost use Rattle.std.specs.Prelude.{◌≡◌, option_map};
ghost use Rattle.ispc_lexer.specs.Views.{sort_of, lexemes_of};
ghost use Rattle.gang_model.specs.Source.SpellsStatements as grammar;
ghost use Rattle.source_tree.specs.Expressions.{expr_view};
ghost use Rattle.ispc_parser_words.specs.Front.{Gives};
ghost use Rattle.source_tree.specs.Tree.{target_view, stmt_view};
ghost use Rattle.ispc_parser_shared.specs.Front.{name_view};
ghost use Rattle.ispc_parser_parts.specs.Parts as spec;

use gang_model::Mark;
use gang_types::{BinaryOp, Place};
use ispc_lexer::{Kind, Token};
use ispc_parser_expressions::{arguments, expression};
use ispc_parser_shared::{
    Context, Identifier, Read, closed, copied_name, enter, local_spec, name, with_rest,
};
use ispc_parser_words::{begins, take, unexpected};
use source_tree::{Expr, Stmt, Target};

/// What `op=` does, for such a mark.
fn change_of(mark: Mark) -> Option<BinaryOp>
    ensures { result ≡ grammar.change_of mark }
{
    match mark {
        Mark::PlusAssign => Some(BinaryOp::Add),
        Mark::MinusAssign => Some(BinaryOp::Sub),
        Mark::StarAssign => Some(BinaryOp::Mul),
        Mark::SlashAssign => Some(BinaryOp::Div),
        Mark::PercentAssign => Some(BinaryOp::Rem),
        Mark::AmpersandAssign => Some(BinaryOp::And),
        Mark::BarAssign => Some(BinaryOp::Or),
        Mark::CaretAssign => Some(BinaryOp::Xor),
        Mark::ShiftLeftAssign => Some(BinaryOp::Shl),
        Mark::ShiftRightAssign => Some(BinaryOp::Shr),
        _ => None,
    }
}

/// What `++` and `--` do.
fn increment_of(mark: Mark) -> Option<BinaryOp>
    ensures { result ≡ grammar.increment_of mark }
{
    match mark {
        Mark::PlusPlus => Some(BinaryOp::Add),
        Mark::MinusMinus => Some(BinaryOp::Sub),
        _ => None,
    }
}

/// An expression behind a mark.
///
/// # Errors
///
/// S3 at the first token that nothing goes on with there, or at the end; S4 at the token that opens a nesting too many; S13 at the
/// 257th operator, call or indexing of an expression. Out of memory.
#[tactic(auto, unfolding(crate::specs::Parts::behind))]
pub fn behind(context: Context, depth: u32, mark: Mark, tokens: &[Token]) -> Read<'_, Expr>
    ensures { Gives (λ x. (expr_view x.0, lexemes_of x.1.now)) result
        (spec.behind mark depth (lexemes_of tokens.now)) }
{
    let rest = take(mark, tokens, context.end)?;
    expression(context.alloc, depth, rest, context.end)
}

/// An expression in parentheses or brackets.
///
/// # Errors
///
/// S3 at the first token that nothing goes on with there, or at the end; S4 at the token that opens a nesting too many; S13 at the
/// 257th operator, call or indexing of an expression. Out of memory.
#[tactic(auto, unfolding(crate::specs::Parts::between))]
pub fn between(
    context: Context,
    depth: u32,
    opening: Mark,
    closing: Mark,
    tokens: &[Token],
) -> Read<'_, Expr>
    ensures { Gives (λ x. (expr_view x.0, lexemes_of x.1.now)) result
        (spec.between opening closing depth (lexemes_of tokens.now)) }
{
    let (inner, rest) = enter(opening, depth, tokens, context.end)?;
    let (value, rest) = expression(context.alloc, inner, rest, context.end)?;
    let rest = take(closing, rest, context.end)?;
    Ok((value, rest))
}

/// `= e`, which may be missing.
#[tactic(auto, unfolding(crate::specs::Parts::value_of))]
fn value(context: Context, depth: u32, tokens: &[Token]) -> Read<'_, Option<Expr>>
    ensures { Gives (λ x. (option_map expr_view x.0, lexemes_of x.1.now)) result
        (spec.value_of depth (lexemes_of tokens.now)) }
{
    if !begins(Mark::Assign, tokens) {
        return Ok((None, tokens));
    }
    let (value, rest) = behind(context, depth, Mark::Assign, tokens)?;
    Ok((Some(value), rest))
}

/// A declaration whose first word stands at this place.
///
/// # Errors
///
/// S3 at the first token that nothing goes on with there, or at the end; S4 at the token that opens a nesting too many; S13 at the
/// 257th operator, call or indexing of an expression. Out of memory.
#[tactic(auto, unfolding(crate::specs::Parts::declaration_of))]
pub fn declaration(
    context: Context,
    depth: u32,
    place: Place,
    tokens: &[Token],
) -> Read<'_, Box<Stmt>>
    ensures { Gives (λ x. (stmt_view x.0.value, lexemes_of x.1.now)) result
        (spec.declaration_of depth place (lexemes_of tokens.now)) }
{
    let (spec, rest) = local_spec(context, tokens)?;
    let (name, rest) = name(context, rest)?;
    let (value, rest) = value(context, depth, rest)?;
    let declared = Stmt::Declare {
        place,
        spec,
        name_place: name.place,
        name: name.text,
        value,
    };
    with_rest(context.alloc, declared, rest)
}

/// `[ e ]`, which may be missing.
#[tactic(auto, unfolding(crate::specs::Parts::index_of))]
fn index(context: Context, depth: u32, tokens: &[Token]) -> Read<'_, Option<Expr>>
    ensures { Gives (λ x. (option_map expr_view x.0, lexemes_of x.1.now)) result
        (spec.index_of depth (lexemes_of tokens.now)) }
{
    if !begins(Mark::LeftBracket, tokens) {
        return Ok((None, tokens));
    }
    let (index, rest) = between(
        context,
        depth,
        Mark::LeftBracket,
        Mark::RightBracket,
        tokens,
    )?;
    Ok((Some(index), rest))
}

/// A name, and its index where there is one.
#[tactic(auto, unfolding(crate::specs::Parts::target_of))]
fn target(context: Context, depth: u32, tokens: &[Token]) -> Read<'_, Target>
    ensures { Gives (λ x. (target_view x.0, lexemes_of x.1.now)) result
        (spec.target_of depth (lexemes_of tokens.now)) }
{
    let (name, rest) = name(context, tokens)?;
    let (index, rest) = index(context, depth, rest)?;
    let target = Target {
        place: name.place,
        name: name.text,
        index,
    };
    Ok((target, rest))
}

/// Behind a target and a mark, with the tokens from the mark on: a value, where the mark asks for one.
#[tactic(auto, unfolding(crate::specs::Parts::changed_of))]
fn changed<'a>(
    context: Context,
    depth: u32,
    target: Target,
    mark: Mark,
    tokens: &'a [Token],
    rest: &'a [Token],
) -> Read<'a, Box<Stmt>>
    ensures { Gives (λ x. (stmt_view x.0.value, lexemes_of x.1.now)) result
        (spec.changed_of depth (target_view target) mark (lexemes_of rest.now)) }
{
    let place = target.place;
    if let Some(operator) = increment_of(mark) {
        let increment = Stmt::Increment {
            place,
            target,
            operator,
        };
        return with_rest(context.alloc, increment, rest);
    }
    if mark == Mark::Assign {
        let (value, rest) = expression(context.alloc, depth, rest, context.end)?;
        let assigned = Stmt::Assign {
            place,
            target,
            value,
        };
        return with_rest(context.alloc, assigned, rest);
    }
    let Some(operator) = change_of(mark) else {
        return Err(unexpected(tokens, context.end));
    };
    let (value, rest) = expression(context.alloc, depth, rest, context.end)?;
    let changed = Stmt::Change {
        place,
        target,
        operator,
        value,
    };
    with_rest(context.alloc, changed, rest)
}

/// Behind a target.
#[tactic(auto, unfolding(crate::specs::Parts::assigned_of))]
fn assigned(context: Context, depth: u32, target: Target, tokens: &[Token]) -> Read<'_, Box<Stmt>>
    ensures { Gives (λ x. (stmt_view x.0.value, lexemes_of x.1.now)) result
        (spec.assigned_of depth (target_view target) (lexemes_of tokens.now)) }
{
    match tokens {
        [] => Err(unexpected(tokens, context.end)),
        [first, rest @ ..] => match first.kind {
            Kind::Mark(mark) => changed(context, depth, target, mark, tokens, rest),
            _ => Err(unexpected(tokens, context.end)),
        },
    }
}

/// Behind the name of a function that is called.
#[tactic(auto, unfolding(crate::specs::Parts::call_of, ispc_parser_shared::specs::Front::in_parens))]
fn call(context: Context, depth: u32, name: Identifier, tokens: &[Token]) -> Read<'_, Box<Stmt>>
    ensures { Gives (λ x. (stmt_view x.0.value, lexemes_of x.1.now)) result
        (spec.call_of depth (name_view name).0 (name_view name).1 (lexemes_of tokens.now)) }
{
    let (inner, rest) = enter(Mark::LeftParen, depth, tokens, context.end)?;
    let (args, rest) = arguments(context.alloc, inner, rest, context.end)?;
    let call = Stmt::Call {
        place: name.place,
        name: name.text,
        args,
    };
    closed(context, Mark::RightParen, call, rest)
}

/// Behind a name: a call, or an assignment or an increment of what it names.
#[tactic(auto, unfolding(crate::specs::Parts::named_of))]
fn named(context: Context, depth: u32, name: Identifier, tokens: &[Token]) -> Read<'_, Box<Stmt>>
    ensures { Gives (λ x. (stmt_view x.0.value, lexemes_of x.1.now)) result
        (spec.named_of depth (name_view name).0 (name_view name).1 (lexemes_of tokens.now)) }
{
    if begins(Mark::LeftParen, tokens) {
        return call(context, depth, name, tokens);
    }
    let (index, rest) = index(context, depth, tokens)?;
    let target = Target {
        place: name.place,
        name: name.text,
        index,
    };
    assigned(context, depth, target, rest)
}

/// Behind a mark that stands at this place, with the tokens from the mark on.
#[tactic(auto, unfolding(crate::specs::Parts::incremented_of))]
fn incremented<'a>(
    context: Context,
    depth: u32,
    place: Place,
    mark: Mark,
    tokens: &'a [Token],
    rest: &'a [Token],
) -> Read<'a, Box<Stmt>>
    ensures { Gives (λ x. (stmt_view x.0.value, lexemes_of x.1.now)) result
        (spec.incremented_of depth place mark (lexemes_of rest.now)) }
{
    let Some(operator) = increment_of(mark) else {
        return Err(unexpected(tokens, context.end));
    };
    let (target, rest) = target(context, depth, rest)?;
    let increment = Stmt::Increment {
        place,
        target,
        operator,
    };
    with_rest(context.alloc, increment, rest)
}

/// An assignment, an increment or a call.
///
/// # Errors
///
/// S3 at the first token that nothing goes on with there, or at the end; S4 at the token that opens a nesting too many; S13 at the
/// 257th operator, call or indexing of an expression. Out of memory.
#[tactic(auto, unfolding(crate::specs::Parts::simple_of))]
pub fn simple(context: Context, depth: u32, tokens: &[Token]) -> Read<'_, Box<Stmt>>
    ensures { Gives (λ x. (stmt_view x.0.value, lexemes_of x.1.now)) result
        (spec.simple_of depth (lexemes_of tokens.now)) }
{
    match tokens {
        [] => Err(unexpected(tokens, context.end)),
        [first, rest @ ..] => match &first.kind {
            Kind::Name(text) => {
                let name = copied_name(context.alloc, first.place, text)?;
                named(context, depth, name, rest)
            }
            Kind::Mark(mark) => incremented(context, depth, first.place, *mark, tokens, rest),
            Kind::Number(_) => Err(unexpected(tokens, context.end)),
        },
    }
}
