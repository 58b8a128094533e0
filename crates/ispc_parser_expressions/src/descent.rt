//! Expressions, by descent. Each function is told how many operators, calls and indexings are left to the expression,
//! and gives back how many are left after what it read.
ghost use Rattle.std.specs.Prelude.{◌≡◌, ◌≤◌};
ghost use Rattle.ispc_lexer.specs.Views.{sort_of, lexemes_of};
ghost use Rattle.source_tree.specs.Expressions.{expr_view, arg_view, args_view};
ghost use Rattle.ispc_parser_words.specs.Front.{Gives};
ghost use Rattle.ispc_parser_expressions.specs.Parse as spec;
ghost use Rattle.ispc_parser_expressions.specs.Parse.{within, parsers};

use crate::budget::{Budget, MAX_OPERATORS, spend};
use crate::reader::{Reader, open};
use gang_model::{Mark, RefusalNumber};
use gang_types::{Place, UnaryOp};
use ispc_lexer::{Kind, Token};
use ispc_parser_nodes as nodes;
use ispc_parser_words::{
    after, begins, begins_word, operator_at, place_of, refused, right_levels, take, take_cast_spec,
    truth_of, unary_op, unexpected,
};
use source_answers::SourceFault;
use source_tree::{Arg, Expr};

/// What was read, how many operators are left, and the tokens after it.
type Read<'a, T> = Result<(T, u32, &'a [Token]), SourceFault>;

// Behind a `[` at this place, up to its `]`.
#[cycle(expression)]
#[tactic(auto, unfolding(crate::specs::Parse::bracket_of))]
fn bracket(reader: Reader, place: Place, room: u32, tokens: &[Token]) -> Read<'_, Box<Expr>>
    ensures { Gives (λ x. (expr_view x.0.value, x.1, lexemes_of x.2.now)) result (spec.bracket_of (parsers reader.depth) room (lexemes_of tokens.now)) }
{
    let inner = open(reader, place)?;
    let (index, room, rest) = expr(inner, room, tokens)?;
    let rest = take(Mark::RightBracket, rest, reader.end)?;
    Ok((index, room, rest))
}

// Behind a name at this place.
#[cycle(expression)]
#[tactic(auto, unfolding(crate::specs::Parse::name_of))]
fn after_name<'a>(
    reader: Reader,
    place: Place,
    name: &[u8],
    room: u32,
    tokens: &'a [Token],
) -> Read<'a, Box<Expr>>
    ensures { Gives (λ x. (expr_view x.0.value, x.1, lexemes_of x.2.now)) result (spec.name_of (parsers reader.depth) place name.now room (lexemes_of tokens.now)) }
{
    if let Some(rest) = after(Mark::LeftParen, tokens) {
        let opening = place_of(tokens, reader.end);
        return call(reader, place, name, opening, room, rest);
    }
    if let Some(rest) = after(Mark::LeftBracket, tokens) {
        let opening = place_of(tokens, reader.end);
        return index(reader, place, name, opening, room, rest);
    }
    Ok((nodes::name(reader.alloc, place, name)?, room, tokens))
}

#[cycle(expression)]
#[tactic(auto, unfolding(crate::specs::Parse::call_of))]
fn call<'a>(
    reader: Reader,
    place: Place,
    name: &[u8],
    opening: Place,
    room: u32,
    tokens: &'a [Token],
) -> Read<'a, Box<Expr>>
    ensures { Gives (λ x. (expr_view x.0.value, x.1, lexemes_of x.2.now)) result (spec.call_of (parsers reader.depth) place name.now room (lexemes_of tokens.now)) }
{
    let room = spend(room, place)?;
    let inner = open(reader, opening)?;
    let (args, room, rest) = args(inner, Budget::Shared, room, tokens)?;
    let rest = take(Mark::RightParen, rest, reader.end)?;
    Ok((nodes::call(reader.alloc, place, name, args)?, room, rest))
}

#[cycle(expression)]
#[tactic(auto, unfolding(crate::specs::Parse::index_of))]
fn index<'a>(
    reader: Reader,
    place: Place,
    name: &[u8],
    opening: Place,
    room: u32,
    tokens: &'a [Token],
) -> Read<'a, Box<Expr>>
    ensures { Gives (λ x. (expr_view x.0.value, x.1, lexemes_of x.2.now)) result (spec.index_of (parsers reader.depth) place name.now room (lexemes_of tokens.now)) }
{
    let room = spend(room, place)?;
    let (index, room, rest) = bracket(reader, opening, room, tokens)?;
    Ok((nodes::index(reader.alloc, place, name, index)?, room, rest))
}

// Behind a `(` at this place.
#[cycle(expression)]
#[tactic(auto, unfolding(crate::specs::Parse::group_of))]
fn group(reader: Reader, place: Place, room: u32, tokens: &[Token]) -> Read<'_, Box<Expr>>
    ensures { Gives (λ x. (expr_view x.0.value, x.1, lexemes_of x.2.now)) result (spec.group_of (parsers reader.depth) place room (lexemes_of tokens.now)) }
{
    let inner = open(reader, place)?;
    if begins_word(tokens) {
        cast(inner, place, room, tokens)
    } else {
        paren(inner, place, room, tokens)
    }
}

#[cycle(expression)]
#[tactic(auto, unfolding(crate::specs::Parse::cast_of))]
fn cast(inner: Reader, place: Place, room: u32, tokens: &[Token]) -> Read<'_, Box<Expr>>
    ensures { Gives (λ x. (expr_view x.0.value, x.1, lexemes_of x.2.now)) result (spec.cast_of (within (parsers inner.depth)) place room (lexemes_of tokens.now)) }
{
    let room = spend(room, place)?;
    let (rate, value_type, rest) = take_cast_spec(tokens, inner.end)?;
    let rest = take(Mark::RightParen, rest, inner.end)?;
    let (operand, room, rest) = operand(inner, room, rest)?;
    let node = nodes::cast(inner.alloc, place, rate, value_type, operand)?;
    Ok((node, room, rest))
}

#[cycle(expression)]
#[tactic(auto, unfolding(crate::specs::Parse::paren_of))]
fn paren(inner: Reader, place: Place, room: u32, tokens: &[Token]) -> Read<'_, Box<Expr>>
    ensures { Gives (λ x. (expr_view x.0.value, x.1, lexemes_of x.2.now)) result (spec.paren_of (within (parsers inner.depth)) place room (lexemes_of tokens.now)) }
{
    let (inside, room, rest) = expr(inner, room, tokens)?;
    let rest = take(Mark::RightParen, rest, inner.end)?;
    Ok((nodes::paren(inner.alloc, place, inside)?, room, rest))
}

#[cycle(expression)]
#[tactic(auto, unfolding(crate::specs::Parse::unary_of))]
fn unary(
    reader: Reader,
    place: Place,
    operator: UnaryOp,
    room: u32,
    tokens: &[Token],
) -> Read<'_, Box<Expr>>
    ensures { Gives (λ x. (expr_view x.0.value, x.1, lexemes_of x.2.now)) result (spec.unary_of (parsers reader.depth) place operator room (lexemes_of tokens.now)) }
{
    let inner = open(reader, place)?;
    let room = spend(room, place)?;
    let (operand, room, rest) = operand(inner, room, tokens)?;
    Ok((
        nodes::unary(reader.alloc, place, operator, operand)?,
        room,
        rest,
    ))
}

/// A unary expression.
#[cycle(expression)]
#[tactic(auto, unfolding(crate::specs::Parse::operand_of))]
fn operand(reader: Reader, room: u32, tokens: &[Token]) -> Read<'_, Box<Expr>>
    ensures { Gives (λ x. (expr_view x.0.value, x.1, lexemes_of x.2.now)) result (spec.operand_of (parsers reader.depth) room (lexemes_of tokens.now)) }
{
    match tokens {
        [] => Err(unexpected(tokens, reader.end)),
        [first, rest @ ..] => match &first.kind {
            Kind::Number(number) => {
                let node = nodes::number(reader.alloc, first.place, *number)?;
                Ok((node, room, rest))
            }
            Kind::Name(name) => after_name(reader, first.place, name.as_slice(), room, rest),
            Kind::Mark(mark) => marked(reader, first.place, *mark, room, rest),
        },
    }
}

// Behind a mark at this place.
#[cycle(expression)]
#[tactic(auto, unfolding(crate::specs::Parse::marked_of))]
fn marked(
    reader: Reader,
    place: Place,
    mark: Mark,
    room: u32,
    tokens: &[Token],
) -> Read<'_, Box<Expr>>
    ensures { Gives (λ x. (expr_view x.0.value, x.1, lexemes_of x.2.now)) result (spec.marked_of (parsers reader.depth) place mark room (lexemes_of tokens.now)) }
{
    if let Some(operator) = unary_op(mark) {
        return unary(reader, place, operator, room, tokens);
    }
    if let Some(value) = truth_of(mark) {
        return Ok((nodes::truth(reader.alloc, place, value)?, room, tokens));
    }
    if mark == Mark::LeftParen {
        return group(reader, place, room, tokens);
    }
    Err(refused(RefusalNumber::S3, place))
}

/// The binary operators of so many levels, from the tightest.
#[cycle(expression)]
fn binary(reader: Reader, levels: u8, room: u32, tokens: &[Token]) -> Read<'_, Box<Expr>>
    requires { levels ≤ 10 }
    ensures { Gives (λ x. (expr_view x.0.value, x.1, lexemes_of x.2.now)) result (spec.binary_of (parsers reader.depth) levels room (lexemes_of tokens.now)) }
{
    if levels == 0 {
        return operand(reader, room, tokens);
    }
    let (mut left, mut remaining, mut rest) = binary(reader, levels - 1, room, tokens)?;
    while let Some((operator, place, after)) = operator_at(levels - 1, rest) {
        let less = spend(remaining, place)?;
        let (right, less, after) = binary(reader, right_levels(levels), less, after)?;
        left = nodes::binary(reader.alloc, operator, left, right)?;
        remaining = less;
        rest = after;
    }
    Ok((left, remaining, rest))
}

/// An expression.
#[cycle(expression)]
#[tactic(auto, unfolding(crate::specs::Parse::expr_of))]
pub(crate) fn expr(reader: Reader, room: u32, tokens: &[Token]) -> Read<'_, Box<Expr>>
    ensures { Gives (λ x. (expr_view x.0.value, x.1, lexemes_of x.2.now)) result (spec.expr_of (parsers reader.depth) room (lexemes_of tokens.now)) }
{
    let (test, room, rest) = binary(reader, 10, room, tokens)?;
    match after(Mark::Question, rest) {
        Some(after) => choice(reader, test, place_of(rest, reader.end), room, after),
        None => Ok((test, room, rest)),
    }
}

// Behind a `?` at this place.
#[cycle(expression)]
#[tactic(auto, unfolding(crate::specs::Parse::choice_of))]
fn choice(
    reader: Reader,
    test: Box<Expr>,
    place: Place,
    room: u32,
    tokens: &[Token],
) -> Read<'_, Box<Expr>>
    ensures { Gives (λ x. (expr_view x.0.value, x.1, lexemes_of x.2.now)) result (spec.choice_of (parsers reader.depth) (expr_view test.value) room (lexemes_of tokens.now)) }
{
    let inner = open(reader, place)?;
    let room = spend(room, place)?;
    let (first, room, rest) = expr(inner, room, tokens)?;
    let rest = take(Mark::Colon, rest, reader.end)?;
    let (second, room, rest) = expr(inner, room, rest)?;
    Ok((
        nodes::choice(reader.alloc, test, first, second)?,
        room,
        rest,
    ))
}

// Behind a `&`.
#[cycle(expression)]
#[tactic(auto, unfolding(crate::specs::Parse::part_of))]
fn part(reader: Reader, room: u32, tokens: &[Token]) -> Read<'_, Arg>
    ensures { Gives (λ x. (arg_view x.0, x.1, lexemes_of x.2.now)) result (spec.part_of (parsers reader.depth) room (lexemes_of tokens.now)) }
{
    let [first, rest @ ..] = tokens else {
        return Err(unexpected(tokens, reader.end));
    };
    let Kind::Name(name) = &first.kind else {
        return Err(unexpected(tokens, reader.end));
    };
    let Some(after) = after(Mark::LeftBracket, rest) else {
        let node = nodes::part(reader.alloc, first.place, name.as_slice())?;
        return Ok((node, room, rest));
    };
    let room = spend(room, first.place)?;
    let (index, room, after) = bracket(reader, place_of(rest, reader.end), room, after)?;
    let node = nodes::part_from(reader.alloc, first.place, name.as_slice(), index)?;
    Ok((node, room, after))
}

#[cycle(expression)]
#[tactic(auto, unfolding(crate::specs::Parse::arg_of))]
fn arg(reader: Reader, room: u32, tokens: &[Token]) -> Read<'_, Arg>
    ensures { Gives (λ x. (arg_view x.0, x.1, lexemes_of x.2.now)) result (spec.arg_of (parsers reader.depth) room (lexemes_of tokens.now)) }
{
    if let Some(rest) = after(Mark::Ampersand, tokens) {
        return part(reader, room, rest);
    }
    let (value, room, rest) = expr(reader, room, tokens)?;
    Ok((nodes::value_arg(value), room, rest))
}

#[cycle(expression)]
#[tactic(auto, unfolding(crate::specs::Parse::own_arg))]
fn next_arg(reader: Reader, budget: Budget, room: u32, tokens: &[Token]) -> Read<'_, Arg>
    ensures { Gives (λ x. (arg_view x.0, x.1, lexemes_of x.2.now)) result (spec.counted budget (parsers reader.depth) room (lexemes_of tokens.now)) }
{
    match budget {
        Budget::Shared => arg(reader, room, tokens),
        Budget::Own => {
            let (arg, _, rest) = arg(reader, MAX_OPERATORS, tokens)?;
            Ok((arg, room, rest))
        }
    }
}

/// The arguments up to a `)`.
#[cycle(expression)]
pub(crate) fn args(
    reader: Reader,
    budget: Budget,
    room: u32,
    tokens: &[Token],
) -> Read<'_, Vec<Arg>>
    ensures { Gives (λ x. (args_view x.0.items, x.1, lexemes_of x.2.now)) result (spec.args_of (spec.counted budget (parsers reader.depth)) room (lexemes_of tokens.now)) }
{
    let mut args = Vec::new(reader.alloc);
    if begins(Mark::RightParen, tokens) {
        return Ok((args, room, tokens));
    }
    let (first, mut remaining, mut rest) = next_arg(reader, budget, room, tokens)?;
    args.push(first)?;
    while let Some(after) = after(Mark::Comma, rest) {
        let (arg, less, after) = next_arg(reader, budget, remaining, after)?;
        args.push(arg)?;
        remaining = less;
        rest = after;
    }
    Ok((args, remaining, rest))
}
