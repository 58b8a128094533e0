//! Functions, file-scope variables and whole sources.
ghost use Rattle.std.specs.Prelude.{◌≡◌, map, option_map};
ghost use Rattle.ispc_lexer.specs.Views.{sort_of, lexemes_of};
ghost use Rattle.ispc_parser_words.specs.Front.{Gives};
ghost use Rattle.gang_model.specs.Source.Parsed.{ParsedFunctionItem};
ghost use Rattle.source_tree.specs.Tree.{param_view, stmts_view, item_view};
ghost use Rattle.ispc_parser_shared.specs.Front.{name_view, digits_view};
ghost use Rattle.ispc_parser_shared.specs.Refusals.{IsRefusal};
ghost use Rattle.ispc_parser.specs.Source as spec;
ghost use Rattle.ispc_parser.specs.Source.{body_view, function_of, global_of, declared_of};

use gang_model::{GlobalForm, Literal, Mark, RefusalNumber, Spec};
use gang_types::Place;
use ispc_lexer::{Number, Token};
use ispc_parser_shared::{
    Context, Identifier, Read, local_spec, name, number, outer_spec, refused_at, take_at,
};
use ispc_parser_statements::stmts;
use ispc_parser_words::{after, begins, begins_word, take, unexpected};
use source_answers::SourceFault;
use source_tree::{Function, GlobalVariable, Item, Param, Stmt};

/// How many nestings are left inside a function's braces, of 64.
const INSIDE_FUNCTION: u32 = 63;

/// How many parameters a function may have.
const MAX_PARAMS: usize = 8;

// ---- functions

/// `[ ]`, which may be missing.
#[tactic(auto, unfolding(crate::specs::Source::brackets_of))]
fn brackets(tokens: &[Token], end: Place) -> Read<'_, bool>
    ensures { Gives (λ x. (x.0, lexemes_of x.1.now)) result
        (spec.brackets_of (lexemes_of tokens.now)) }
{
    if !begins(Mark::LeftBracket, tokens) {
        return Ok((false, tokens));
    }
    let rest = take(Mark::LeftBracket, tokens, end)?;
    let rest = take(Mark::RightBracket, rest, end)?;
    Ok((true, rest))
}

#[tactic(auto, unfolding(crate::specs::Source::param_of))]
fn param(context: Context, tokens: &[Token]) -> Read<'_, Param>
    ensures { Gives (λ x. (param_view x.0, lexemes_of x.1.now)) result
        (spec.param_of (lexemes_of tokens.now)) }
{
    let (spec, rest) = local_spec(context, tokens)?;
    let (name, rest) = name(context, rest)?;
    let (is_array, rest) = brackets(rest, context.end)?;
    let param = Param {
        place: name.place,
        name: name.text,
        spec,
        is_array,
    };
    Ok((param, rest))
}

/// The refusal of a parameter too many.
fn too_many(tokens: &[Token], end: Place) -> SourceFault
    ensures { IsRefusal result }
{
    if begins_word(tokens) {
        refused_at(RefusalNumber::S13, tokens, end)
    } else {
        unexpected(tokens, end)
    }
}

/// One or more parameters, with commas between them.
fn some_params(context: Context, tokens: &[Token]) -> Read<'_, Vec<Param>>
    ensures { Gives (λ x. (map param_view x.0.items, lexemes_of x.1.now)) result
        (spec.some_params_of (lexemes_of tokens.now)) }
{
    let mut params = Vec::new(context.alloc);
    let mut rest = tokens;
    for _ in 0..MAX_PARAMS {
        let (param, after_param) = param(context, rest)?;
        params.push(param)?;
        let Some(next) = after(Mark::Comma, after_param) else {
            return Ok((params, after_param));
        };
        rest = next;
    }
    Err(too_many(rest, context.end))
}

/// The tokens after `void`, where it stands alone before a `)`.
#[tactic(auto, unfolding(crate::specs::Source::lone_void))]
fn lone_void(tokens: &[Token]) -> Option<&[Token]>
    ensures { option_map (λ rest. lexemes_of rest.now) result ≡ spec.lone_void (lexemes_of tokens.now) }
{
    let rest = after(Mark::Void, tokens)?;
    if begins(Mark::RightParen, rest) {
        Some(rest)
    } else {
        None
    }
}

/// The parameters, up to a `)`.
#[tactic(auto, unfolding(crate::specs::Source::params_of))]
fn params(context: Context, tokens: &[Token]) -> Read<'_, Vec<Param>>
    ensures { Gives (λ x. (map param_view x.0.items, lexemes_of x.1.now)) result
        (spec.params_of (lexemes_of tokens.now)) }
{
    if begins(Mark::RightParen, tokens) {
        return Ok((Vec::new(context.alloc), tokens));
    }
    match lone_void(tokens) {
        Some(rest) => Ok((Vec::new(context.alloc), rest)),
        None => some_params(context, tokens),
    }
}

/// A function's statements, and the place of its closing brace.
#[derive(Drop)]
struct Body {
    stmts: Vec<Stmt>,
    closing: Place,
}

#[tactic(auto, unfolding(crate::specs::Source::function_body_of))]
fn function_body(context: Context, tokens: &[Token]) -> Read<'_, Body>
    ensures { Gives (λ x. (body_view x.0, lexemes_of x.1.now)) result
        (spec.function_body_of (lexemes_of tokens.now)) }
{
    let rest = take(Mark::LeftBrace, tokens, context.end)?;
    let (stmts, rest) = stmts(context, INSIDE_FUNCTION, rest)?;
    let (closing, rest) = take_at(Mark::RightBrace, rest, context.end)?;
    Ok((Body { stmts, closing }, rest))
}

/// The function of its parts.
fn function_item(spec: Spec, name: Identifier, params: Vec<Param>, body: Body) -> Item
    ensures { item_view result ≡ ParsedFunctionItem (record { at = name.place; name = name.text.items; spec = spec; params = map param_view params.items; body = stmts_view body.stmts.items; closing = body.closing }) }
{
    Item::Function(Function {
        place: name.place,
        name: name.text,
        spec,
        params,
        body: body.stmts,
        closing: body.closing,
    })
}

/// Behind a function's name.
#[tactic(auto, unfolding(crate::specs::Source::function_of))]
fn function(context: Context, spec: Spec, name: Identifier, tokens: &[Token]) -> Read<'_, Item>
    ensures { Gives (λ x. (item_view x.0, lexemes_of x.1.now)) result
        (function_of spec (name_view name).0 (name_view name).1 (lexemes_of tokens.now)) }
{
    let rest = take(Mark::LeftParen, tokens, context.end)?;
    let (params, rest) = params(context, rest)?;
    let rest = take(Mark::RightParen, rest, context.end)?;
    let (body, rest) = function_body(context, rest)?;
    Ok((function_item(spec, name, params, body), rest))
}

// ---- file-scope variables

/// The value of a number, or of its negative.
fn signed(is_negative: bool, number: Number) -> Literal
    ensures { result ≡ spec.signed is_negative (digits_view number) }
{
    Literal::Number {
        is_negative,
        value: number.value,
        is_unsigned: number.is_unsigned,
        is_long: number.is_long,
    }
}

/// A number, or its negative.
fn signed_number(is_negative: bool, tokens: &[Token], end: Place) -> Read<'_, Literal>
    ensures { Gives (λ x. (x.0, lexemes_of x.1.now)) result
        (spec.signed_number_of is_negative (lexemes_of tokens.now)) }
{
    let (number, rest) = number(tokens, end)?;
    Ok((signed(is_negative, number), rest))
}

/// A number with an optional minus, `true` or `false`.
#[tactic(auto, unfolding(crate::specs::Source::literal_of))]
fn literal(tokens: &[Token], end: Place) -> Read<'_, Literal>
    ensures { Gives (λ x. (x.0, lexemes_of x.1.now)) result
        (spec.literal_of (lexemes_of tokens.now)) }
{
    if let Some(rest) = after(Mark::Minus, tokens) {
        return signed_number(true, rest, end);
    }
    if let Some(rest) = after(Mark::True, tokens) {
        return Ok((Literal::Truth(true), rest));
    }
    if let Some(rest) = after(Mark::False, tokens) {
        return Ok((Literal::Truth(false), rest));
    }
    signed_number(false, tokens, end)
}

/// Behind a variable's name: its length, its first value, or nothing.
#[tactic(auto, unfolding(crate::specs::Source::form_of))]
fn form(tokens: &[Token], end: Place) -> Read<'_, GlobalForm>
    ensures { Gives (λ x. (x.0, lexemes_of x.1.now)) result (spec.form_of (lexemes_of tokens.now)) }
{
    if let Some(rest) = after(Mark::LeftBracket, tokens) {
        let (number, rest) = number(rest, end)?;
        let rest = take(Mark::RightBracket, rest, end)?;
        return Ok((GlobalForm::Array(number.value), rest));
    }
    if let Some(rest) = after(Mark::Assign, tokens) {
        let (value, rest) = literal(rest, end)?;
        return Ok((GlobalForm::Initial(value), rest));
    }
    Ok((GlobalForm::Plain, tokens))
}

/// Behind a variable's name, up to its `;`.
#[tactic(auto, unfolding(crate::specs::Source::global_of))]
fn global(context: Context, spec: Spec, name: Identifier, tokens: &[Token]) -> Read<'_, Item>
    ensures { Gives (λ x. (item_view x.0, lexemes_of x.1.now)) result
        (global_of spec (name_view name).0 (name_view name).1 (lexemes_of tokens.now)) }
{
    let (form, rest) = form(tokens, context.end)?;
    let rest = take(Mark::Semicolon, rest, context.end)?;
    let variable = GlobalVariable {
        place: name.place,
        name: name.text,
        spec,
        form,
    };
    Ok((Item::Global(variable), rest))
}

// ---- sources

/// Behind a name: `const` stands on no function, `export` and `inline` on no variable.
#[tactic(auto, unfolding(crate::specs::Source::declared_of))]
fn declared(context: Context, spec: Spec, name: Identifier, tokens: &[Token]) -> Read<'_, Item>
    ensures { Gives (λ x. (item_view x.0, lexemes_of x.1.now)) result
        (declared_of spec (name_view name).0 (name_view name).1 (lexemes_of tokens.now)) }
{
    if begins(Mark::LeftParen, tokens) {
        if spec.is_constant {
            return Err(unexpected(tokens, context.end));
        }
        return function(context, spec, name, tokens);
    }
    if spec.is_exported || spec.is_inline {
        return Err(unexpected(tokens, context.end));
    }
    global(context, spec, name, tokens)
}

/// A function or a file-scope variable.
#[tactic(auto, unfolding(crate::specs::Source::item_of))]
fn item(context: Context, tokens: &[Token]) -> Read<'_, Item>
    ensures { Gives (λ x. (item_view x.0, lexemes_of x.1.now)) result
        (spec.item_of (lexemes_of tokens.now)) }
{
    let (spec, rest) = outer_spec(context, tokens)?;
    let (name, rest) = name(context, rest)?;
    declared(context, spec, name, rest)
}

/// The functions and file-scope variables, to the end of the tokens.
pub(crate) fn items(context: Context, tokens: &[Token]) -> Result<Vec<Item>, SourceFault>
    ensures { Gives (λ items. map item_view items.items) result
        (spec.tree_of (lexemes_of tokens.now)) }
{
    let mut items = Vec::new(context.alloc);
    let mut rest = tokens;
    for _ in 0..tokens.len() {
        if rest.is_empty() {
            return Ok(items);
        }
        let (item, after_item) = item(context, rest)?;
        items.push(item)?;
        rest = after_item;
    }
    if rest.is_empty() {
        Ok(items)
    } else {
        Err(unexpected(rest, context.end))
    }
}
