//! Statements, by descent.
ghost use Rattle.std.specs.Prelude.{◌≡◌, ◌+◌, IfOk};
ghost use Rattle.ispc_lexer.specs.Views.{sort_of, lexemes_of};
ghost use Rattle.ispc_parser_words.specs.Front as front;
ghost use Rattle.ispc_parser_words.specs.Front.{Gives};
ghost use Rattle.source_tree.specs.Expressions.{expr_view};
ghost use Rattle.source_tree.specs.Tree.{stmt_view, stmts_view, segments_view};
ghost use Rattle.ispc_parser_shared.specs.Front.{ended_of};
ghost use Rattle.ispc_parser_parts.specs.Parts.{declaration_of, simple_of};
ghost use Rattle.ispc_parser_statements.specs.Statements as spec;
ghost use Rattle.ispc_parser_statements.specs.Statements.{within, parsers, segment_view};
ghost use Rattle.gang_model.specs.Source.SpellsStatements.{max_labels};
ghost use Rattle.ispc_parser_shared.specs.Refusals.{IsRefusal};

use gang_model::{Mark, RefusalNumber};
use gang_types::Place;
use ispc_lexer::{Kind, Token};
use ispc_parser_heads::{begins_label, head_of, label, optional, test};
use ispc_parser_parts::{declaration, simple};
use ispc_parser_shared::{
    Context, Loop, Opening, Plain, Read, block_of, closed, do_while, ended, if_else, if_then,
    opening_of, push, refused_at, switch_of, take_at, with_rest,
};
use ispc_parser_words::{after, begins, begins_word, take, unexpected};
use source_answers::SourceFault;
use source_tree::{Expr, Segment, Stmt};

/// How many labels a `switch` may have.
const MAX_LABELS: usize = 256;

/// What a list of statements stands in.
#[derive(Clone, Copy, Drop)]
enum Holder {
    Block,
    Segment,
}

// ---- statements that hold no other one

#[tactic(auto, unfolding(ispc_parser_shared::specs::Front::ended_of))]
fn ended_simple(context: Context, depth: u32, tokens: &[Token]) -> Read<'_, Box<Stmt>>
    ensures { Gives (λ x. (stmt_view x.0.value, lexemes_of x.1.now)) result
        (ended_of (simple_of depth) (lexemes_of tokens.now)) }
{
    let (simple, rest) = simple(context, depth, tokens)?;
    ended(simple, rest, context.end)
}

#[tactic(auto, unfolding(ispc_parser_shared::specs::Front::ended_of))]
fn ended_declaration(
    context: Context,
    depth: u32,
    place: Place,
    tokens: &[Token],
) -> Read<'_, Box<Stmt>>
    ensures { Gives (λ x. (stmt_view x.0.value, lexemes_of x.1.now)) result
        (ended_of (declaration_of depth place) (lexemes_of tokens.now)) }
{
    let (declared, rest) = declaration(context, depth, place, tokens)?;
    ended(declared, rest, context.end)
}

/// Behind `return`, which stands at this place.
#[tactic(auto, unfolding(crate::specs::Statements::plain_of))]
fn return_stmt<'a>(
    context: Context,
    depth: u32,
    place: Place,
    tokens: &'a [Token],
    rest: &'a [Token],
) -> Read<'a, Box<Stmt>>
    ensures { Gives (λ x. (stmt_view x.0.value, lexemes_of x.1.now)) result
        (spec.plain_of Plain.Return depth place (lexemes_of tokens.now) (lexemes_of rest.now)) }
{
    let (value, rest) = optional(context, depth, rest)?;
    closed(
        context,
        Mark::Semicolon,
        Stmt::Return { place, value },
        rest,
    )
}

/// A statement that holds no other one: all of its tokens, and those behind its first, which stands at this place.
#[tactic(auto, unfolding(crate::specs::Statements::plain_of))]
fn plain_stmt<'a>(
    context: Context,
    depth: u32,
    word: Plain,
    place: Place,
    tokens: &'a [Token],
    rest: &'a [Token],
) -> Read<'a, Box<Stmt>>
    ensures { Gives (λ x. (stmt_view x.0.value, lexemes_of x.1.now)) result
        (spec.plain_of word depth place (lexemes_of tokens.now) (lexemes_of rest.now)) }
{
    match word {
        Plain::Empty => with_rest(context.alloc, Stmt::Empty, rest),
        Plain::Break => closed(context, Mark::Semicolon, Stmt::Break { place }, rest),
        Plain::Continue => closed(context, Mark::Semicolon, Stmt::Continue { place }, rest),
        Plain::Return => return_stmt(context, depth, place, tokens, rest),
        Plain::Simple => ended_simple(context, depth, tokens),
    }
}

// ---- nestings

/// Whether a statement may begin so.
fn begins_statement(tokens: &[Token]) -> bool {
    match tokens {
        [] => false,
        [first, ..] => match first.kind {
            Kind::Name(_) => true,
            Kind::Number(_) => false,
            Kind::Mark(mark) => begins_word(tokens) || opening_of(mark).is_some(),
        },
    }
}

/// How many nestings are left inside the block that begins so.
#[tactic(auto, unfolding(crate::specs::Statements::parsers))]
fn inside_block(depth: u32, tokens: &[Token], end: Place) -> Result<u32, SourceFault>
    ensures inside { Gives (λ inner. within inner (parsers inner)) result (parsers depth) }
    ensures one_less { IfOk result (λ inner. inner + 1 ≡ depth) }
{
    if depth == 0 {
        Err(refused_at(RefusalNumber::S4, tokens, end))
    } else {
        Ok(depth - 1)
    }
}

/// How many nestings are left inside the body that begins so and is no block.
#[tactic(auto, unfolding(crate::specs::Statements::parsers))]
fn inside_body(depth: u32, tokens: &[Token], end: Place) -> Result<u32, SourceFault>
    ensures inside { Gives (λ inner. within inner (parsers inner)) result (parsers depth) }
    ensures one_less { IfOk result (λ inner. inner + 1 ≡ depth) }
{
    if depth != 0 {
        return Ok(depth - 1);
    }
    if begins_statement(tokens) {
        Err(refused_at(RefusalNumber::S4, tokens, end))
    } else {
        Err(unexpected(tokens, end))
    }
}

// ---- statements that hold others

#[cycle(statement)]
#[tactic(auto, unfolding(crate::specs::Statements::block_of))]
fn block(context: Context, depth: u32, tokens: &[Token]) -> Read<'_, Box<Stmt>>
    ensures { Gives (λ x. (stmt_view x.0.value, lexemes_of x.1.now)) result
        (spec.block_of (parsers depth) (lexemes_of tokens.now)) }
{
    let rest = take(Mark::LeftBrace, tokens, context.end)?;
    let inner = inside_block(depth, tokens, context.end)?;
    let (stmts, rest) = held(context, inner, Holder::Block, rest)?;
    closed(context, Mark::RightBrace, block_of(stmts), rest)
}

/// The body of a form that stands with so many nestings left.
#[cycle(statement)]
#[tactic(auto, unfolding(crate::specs::Statements::body_of))]
fn body(context: Context, depth: u32, tokens: &[Token]) -> Read<'_, Box<Stmt>>
    ensures { Gives (λ x. (stmt_view x.0.value, lexemes_of x.1.now)) result
        (spec.body_of (parsers depth) (lexemes_of tokens.now)) }
{
    if begins(Mark::LeftBrace, tokens) {
        return block(context, depth, tokens);
    }
    let inner = inside_body(depth, tokens, context.end)?;
    stmt(context, inner, tokens)
}

/// `else` and its body.
#[cycle(statement)]
#[tactic(auto, unfolding(crate::specs::Statements::else_of))]
fn else_body(context: Context, depth: u32, tokens: &[Token]) -> Read<'_, Box<Stmt>>
    ensures { Gives (λ x. (stmt_view x.0.value, lexemes_of x.1.now)) result
        (spec.else_of (parsers depth) (lexemes_of tokens.now)) }
{
    let rest = take(Mark::Else, tokens, context.end)?;
    body(context, depth, rest)
}

/// Whether an `else` follows. It belongs to the `if` whose body was read last.
fn has_else(tokens: &[Token]) -> bool
    ensures { result ≡ front.begins Mark.Else (lexemes_of tokens.now) }
{
    begins(Mark::Else, tokens)
}

/// Behind `if`, which stands at this place.
#[cycle(statement)]
#[tactic(auto, unfolding(crate::specs::Statements::if_of))]
fn if_stmt(context: Context, depth: u32, place: Place, tokens: &[Token]) -> Read<'_, Box<Stmt>>
    ensures { Gives (λ x. (stmt_view x.0.value, lexemes_of x.1.now)) result
        (spec.if_of depth (parsers depth) place (lexemes_of tokens.now)) }
{
    let (test, rest) = test(context, depth, tokens)?;
    let (first, rest) = body(context, depth, rest)?;
    if !has_else(rest) {
        return if_then(context.alloc, place, test, first, rest);
    }
    let (other, rest) = else_body(context, depth, rest)?;
    if_else(context.alloc, place, test, first, other, rest)
}

/// The refusal of what stands in place of the `}` that closes a `switch`.
fn too_many(tokens: &[Token], end: Place) -> SourceFault
    ensures { IsRefusal result }
{
    if begins_label(tokens) {
        refused_at(RefusalNumber::S13, tokens, end)
    } else {
        unexpected(tokens, end)
    }
}

/// The tokens after the `}` that closes a `switch`, behind as many labels as it may have.
fn close_switch(tokens: &[Token], end: Place) -> Result<&[Token], SourceFault>
    ensures { Gives (λ rest. lexemes_of rest.now) result (front.take Mark.RightBrace (lexemes_of tokens.now)) }
{
    match after(Mark::RightBrace, tokens) {
        Some(rest) => Ok(rest),
        None => Err(too_many(tokens, end)),
    }
}

/// Behind `switch`, which stands at this place.
#[cycle(statement)]
#[tactic(auto, unfolding(crate::specs::Statements::switch_of))]
fn switch_stmt(context: Context, depth: u32, place: Place, tokens: &[Token]) -> Read<'_, Box<Stmt>>
    ensures { Gives (λ x. (stmt_view x.0.value, lexemes_of x.1.now)) result
        (spec.switch_of depth (parsers depth) place (lexemes_of tokens.now)) }
{
    let (selector, opened) = test(context, depth, tokens)?;
    let rest = take(Mark::LeftBrace, opened, context.end)?;
    let inner = inside_block(depth, opened, context.end)?;
    let (segments, rest) = segments(context, inner, rest)?;
    let rest = close_switch(rest, context.end)?;
    with_rest(context.alloc, switch_of(place, selector, segments), rest)
}

/// `while ( e ) ;` behind the body of a `do`: the place of its word, and the test.
#[tactic(auto, unfolding(crate::specs::Statements::do_test_of))]
fn do_test(context: Context, depth: u32, tokens: &[Token]) -> Read<'_, (Place, Expr)>
    ensures { Gives (λ x. ((x.0.0, expr_view x.0.1), lexemes_of x.1.now)) result
        (spec.do_test_of depth (lexemes_of tokens.now)) }
{
    let (place, rest) = take_at(Mark::While, tokens, context.end)?;
    let (test, rest) = test(context, depth, rest)?;
    let rest = take(Mark::Semicolon, rest, context.end)?;
    Ok(((place, test), rest))
}

/// Behind `do`.
#[cycle(statement)]
#[tactic(auto, unfolding(crate::specs::Statements::do_of))]
fn do_stmt(context: Context, depth: u32, tokens: &[Token]) -> Read<'_, Box<Stmt>>
    ensures { Gives (λ x. (stmt_view x.0.value, lexemes_of x.1.now)) result
        (spec.do_of depth (parsers depth) (lexemes_of tokens.now)) }
{
    let (body, rest) = body(context, depth, tokens)?;
    let (tested, rest) = do_test(context, depth, rest)?;
    do_while(context.alloc, body, tested, rest)
}

/// Behind the word of a loop or a foreach form, which stands at this place.
#[cycle(statement)]
#[tactic(auto, unfolding(crate::specs::Statements::loop_of))]
fn loop_stmt(
    context: Context,
    depth: u32,
    word: Loop,
    place: Place,
    tokens: &[Token],
) -> Read<'_, Box<Stmt>>
    ensures { Gives (λ x. (stmt_view x.0.value, lexemes_of x.1.now)) result
        (spec.loop_of word depth (parsers depth) place (lexemes_of tokens.now)) }
{
    let (head, rest) = head_of(context, depth, word, place, tokens)?;
    let (body, rest) = body(context, depth, rest)?;
    with_rest(context.alloc, head.with_body(body), rest)
}

/// A statement with this opening: all of its tokens, and those behind its first, which stands at this place.
#[cycle(statement)]
fn opened_stmt<'a>(
    context: Context,
    depth: u32,
    opening: Opening,
    place: Place,
    tokens: &'a [Token],
    rest: &'a [Token],
) -> Read<'a, Box<Stmt>>
    ensures { Gives (λ x. (stmt_view x.0.value, lexemes_of x.1.now)) result
        (spec.opened_of opening depth (parsers depth) place (lexemes_of tokens.now) (lexemes_of rest.now)) }
{
    match opening {
        Opening::Plain(word) => plain_stmt(context, depth, word, place, tokens, rest),
        Opening::Block => block(context, depth, tokens),
        Opening::If => if_stmt(context, depth, place, rest),
        Opening::Switch => switch_stmt(context, depth, place, rest),
        Opening::Do => do_stmt(context, depth, rest),
        Opening::Loop(word) => loop_stmt(context, depth, word, place, rest),
    }
}

/// A statement, with so many nestings left.
#[cycle(statement)]
#[tactic(auto, unfolding(crate::specs::Statements::stmt_of))]
fn stmt(context: Context, depth: u32, tokens: &[Token]) -> Read<'_, Box<Stmt>>
    ensures { Gives (λ x. (stmt_view x.0.value, lexemes_of x.1.now)) result
        (spec.stmt_of depth (parsers depth) (lexemes_of tokens.now)) }
{
    match tokens {
        [] => Err(unexpected(tokens, context.end)),
        [first, rest @ ..] => {
            if begins_word(tokens) {
                return ended_declaration(context, depth, first.place, tokens);
            }
            match first.kind {
                Kind::Name(_) => ended_simple(context, depth, tokens),
                Kind::Number(_) => Err(unexpected(tokens, context.end)),
                Kind::Mark(mark) => {
                    let Some(opening) = opening_of(mark) else {
                        return Err(unexpected(tokens, context.end));
                    };
                    opened_stmt(context, depth, opening, first.place, tokens, rest)
                }
            }
        }
    }
}

/// Whether a list of statements ends here.
fn ends_stmts(tokens: &[Token]) -> bool
    ensures { result ≡ spec.ends_stmts (lexemes_of tokens.now) }
{
    match tokens {
        [] => true,
        [first, ..] => match first.kind {
            Kind::Mark(mark) => mark == Mark::RightBrace
                || mark == Mark::Case
                || mark == Mark::Default,
            _ => false,
        },
    }
}

/// A statement in a block or in a segment.
#[cycle(statement)]
#[tactic(auto, unfolding(crate::specs::Statements::segment_stmt_of))]
fn one(context: Context, depth: u32, holder: Holder, tokens: &[Token]) -> Read<'_, Box<Stmt>>
    ensures { Gives (λ x. (stmt_view x.0.value, lexemes_of x.1.now)) result
        (spec.one_of holder depth (parsers depth) (lexemes_of tokens.now)) }
{
    match holder {
        Holder::Block => stmt(context, depth, tokens),
        Holder::Segment => {
            if begins_word(tokens) {
                return Err(unexpected(tokens, context.end));
            }
            stmt(context, depth, tokens)
        }
    }
}

/// The statements up to a `}`, a label or the end.
#[cycle(statement)]
fn held(context: Context, depth: u32, holder: Holder, tokens: &[Token]) -> Read<'_, Vec<Stmt>>
    ensures { Gives (λ x. (stmts_view x.0.items, lexemes_of x.1.now)) result
        (spec.held_of holder depth (parsers depth) (lexemes_of tokens.now)) }
{
    let mut stmts = Vec::new(context.alloc);
    let mut rest = tokens;
    for _ in 0..tokens.len() {
        if ends_stmts(rest) {
            return Ok((stmts, rest));
        }
        let (stmt, next) = one(context, depth, holder, rest)?;
        push(&mut stmts, stmt)?;
        rest = next;
    }
    Ok((stmts, rest))
}

/// A label and the statements up to the next one.
#[cycle(statement)]
#[tactic(auto, unfolding(crate::specs::Statements::segment_of))]
fn segment(context: Context, depth: u32, tokens: &[Token]) -> Read<'_, Segment>
    ensures { Gives (λ x. (segment_view x.0, lexemes_of x.1.now)) result
        (spec.segment_of depth (parsers depth) (lexemes_of tokens.now)) }
{
    let ((place, label), rest) = label(tokens, context.end)?;
    let (body, rest) = held(context, depth, Holder::Segment, rest)?;
    let segment = Segment { place, label, body };
    Ok((segment, rest))
}

/// The segments of a `switch` up to its `}`, at most as many as it may have labels.
#[cycle(statement)]
fn segments(context: Context, depth: u32, tokens: &[Token]) -> Read<'_, Vec<Segment>>
    ensures { Gives (λ x. (segments_view x.0.items, lexemes_of x.1.now)) result
        (spec.segments_of (spec.segment_of depth (parsers depth)) max_labels (lexemes_of tokens.now)) }
{
    let mut segments = Vec::new(context.alloc);
    let mut rest = tokens;
    for _ in 0..MAX_LABELS {
        if begins(Mark::RightBrace, rest) {
            return Ok((segments, rest));
        }
        let (segment, next) = segment(context, depth, rest)?;
        segments.push(segment)?;
        rest = next;
    }
    Ok((segments, rest))
}

/// The statements up to a `}`, a label or the end, with so many nestings left.
///
/// # Errors
///
/// S3 at the first token that nothing goes on with there, or at the end; S4 at the token that opens a nesting too many; S13 at the
/// fourth dimension, at the 257th label of a `switch`, or at the 257th operator, call or indexing of an expression. Out of memory.
pub fn stmts(context: Context, depth: u32, tokens: &[Token]) -> Read<'_, Vec<Stmt>>
    ensures { Gives (λ x. (stmts_view x.0.items, lexemes_of x.1.now)) result
        ((within depth (parsers depth)).stmts (lexemes_of tokens.now)) }
{
    held(context, depth, Holder::Block, tokens)
}
