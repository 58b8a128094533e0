//! Constant expressions.
use crate::operators::{Operator, binary, fitting, of_one, of_two, unary};
use port_draft::{Draft, value_of};
use port_tokens::{Kind, PortRefusal, Reason, Span, Token, is_one_of};
use std::alloc::{AllocError, Global};

const UNSIGNED: &[&[u8]] = &[b"unsigned", b"uint", b"uint32", b"uint64"];

/// The values and operators that wait.
struct Folding {
    values: Vec<i64>,
    operators: Vec<Operator>,
    is_unsigned: bool,
}

impl Drop for Folding {
    fn drop(self) {
        match self {
            Folding {
                values: _,
                operators: _,
                is_unsigned: _,
            } => {}
        }
    }
}

/// The value of a constant expression, or where none is.
#[derive(Clone, Copy)]
enum Folded {
    Value(i64),
    Refused(usize),
}

impl Folding {
    fn new(alloc: Global) -> Self {
        Folding {
            values: Vec::new(alloc),
            operators: Vec::new(alloc),
            is_unsigned: false,
        }
    }

    /// Lets a value wait.
    fn hold(&mut self, value: i64) -> Result<(), AllocError> {
        Ok(self.values.push(value)?)
    }

    /// Lets an operator wait.
    fn expect(&mut self, operator: Operator) -> Result<(), AllocError> {
        Ok(self.operators.push(operator)?)
    }

    /// Whether the last operator binds at least so tightly.
    fn binds(&self, strength: u8) -> bool {
        match self.operators.last() {
            Some(last) => last.strength() >= strength,
            None => false,
        }
    }

    /// Does the last operator; nothing where it cannot be done.
    fn reduce(&mut self) -> Option<i64> {
        let operator = self.operators.pop()?;
        let right = self.values.pop()?;
        let value = if operator.is_unary() {
            of_one(operator, right)?
        } else {
            let left = self.values.pop()?;
            of_two(operator, left, right)?
        };
        fitting(value, self.is_unsigned)
    }

    /// Does the operators that bind at least so tightly, and says whether they can be done.
    fn reduce_to(&mut self, strength: u8) -> Result<bool, AllocError> {
        for _ in 0..self.operators.len() {
            if !self.binds(strength) {
                break;
            }
            let Some(value) = self.reduce() else {
                return Ok(false);
            };
            self.hold(value)?;
        }
        Ok(true)
    }

    /// Reads a constant expression.
    fn fold(&mut self, draft: &Draft, part: Span) -> Result<Folded, AllocError> {
        let mut is_operand = true;
        for at in part.start..part.end {
            if draft.token(at).kind == Kind::Nothing {
                continue;
            }
            match self.read(draft, at, is_operand)? {
                Some(next) => is_operand = next,
                None => return Ok(Folded::Refused(at)),
            }
        }
        match self.end()? {
            Some(value) if !is_operand => Ok(Folded::Value(value)),
            _ => Ok(Folded::Refused(part.start)),
        }
    }

    /// Reads a token, and says whether the next has to begin an operand.
    fn read(
        &mut self,
        draft: &Draft,
        at: usize,
        is_operand: bool,
    ) -> Result<Option<bool>, AllocError> {
        if is_operand {
            return self.read_operand(draft, at);
        }
        if draft.is(at, b")") {
            return self.read_close();
        }
        let Some(operator) = binary(draft.text(at)) else {
            return Ok(None);
        };
        if !self.reduce_to(operator.strength())? {
            return Ok(None);
        }
        self.expect(operator)?;
        Ok(Some(true))
    }

    /// Reads a token where an operand begins.
    fn read_operand(&mut self, draft: &Draft, at: usize) -> Result<Option<bool>, AllocError> {
        if let Some(operator) = unary(draft.text(at)) {
            self.expect(operator)?;
            return Ok(Some(true));
        }
        if is_unsigned(draft, at) {
            self.is_unsigned = true;
        }
        let Some(value) = operand_value(draft, at) else {
            return Ok(None);
        };
        self.hold(value)?;
        Ok(Some(false))
    }

    /// Reads a closed parenthesis.
    fn read_close(&mut self) -> Result<Option<bool>, AllocError> {
        if !self.reduce_to(1)? {
            return Ok(None);
        }
        match self.operators.pop() {
            Some(Operator::Open) => Ok(Some(false)),
            _ => Ok(None),
        }
    }

    /// The value of all that was read.
    fn end(&mut self) -> Result<Option<i64>, AllocError> {
        if !self.reduce_to(1)? {
            return Ok(None);
        }
        let value = self.values.pop();
        if self.values.is_empty() && self.operators.is_empty() {
            Ok(value)
        } else {
            Ok(None)
        }
    }
}

/// The value of the number or constant there.
fn operand_value(draft: &Draft, at: usize) -> Option<i64> {
    let value = match draft.token(at).kind {
        Kind::Number => value_of(draft.text(at))?,
        Kind::Word => word_value(draft, at)?,
        _ => return None,
    };
    fitting(value, false)
}

fn word_value(draft: &Draft, at: usize) -> Option<i64> {
    if draft.is(at, b"true") {
        return Some(1);
    }
    if draft.is(at, b"false") {
        return Some(0);
    }
    draft.known(at)?.value
}

/// Whether the number or constant there is unsigned.
fn is_unsigned(draft: &Draft, at: usize) -> bool {
    if draft.token(at).kind == Kind::Number {
        return has_unsigned_letter(draft.text(at));
    }
    match draft.known(at) {
        Some(known) => is_unsigned_type(draft, known.body),
        None => false,
    }
}

fn has_unsigned_letter(text: &[u8]) -> bool {
    for letter in text {
        if *letter == b'u' || *letter == b'U' {
            return true;
        }
    }
    false
}

/// Whether a part of `bodies` is an unsigned type of at least 32 bits.
pub fn is_unsigned_type(draft: &Draft, body: Span) -> bool {
    draft.body_has_one(body, UNSIGNED)
}

/// The value of a constant expression.
///
/// # Errors
///
/// It is none; or out of memory.
pub fn constant(draft: &Draft, part: Span) -> Result<i64, PortRefusal> {
    let mut folding = Folding::new(draft.alloc);
    match folding.fold(draft, part)? {
        Folded::Value(value) => Ok(value),
        Folded::Refused(at) => Err(draft.refuse(at, Reason::Constant)),
    }
}

/// Puts a constant expression into the line as one number, with what was written for it as a comment. A number is itself.
///
/// # Errors
///
/// It is no constant; or out of memory.
pub fn push_folded(draft: &mut Draft, part: Span) -> Result<(), PortRefusal> {
    if is_literal(draft, part) {
        return Ok(push_part(draft, part)?);
    }
    let value = constant(draft, part)?;
    let text = folded_text(draft, part, value)?;
    let first = draft.token(part.start);
    Ok(draft.line.push(Token { text, ..first })?)
}

/// Puts the tokens of a part into the line.
fn push_part(draft: &mut Draft, part: Span) -> Result<(), AllocError> {
    draft.line.extend(draft.tokens.part(part))
}

/// A number, with a comment of what was written for it.
fn folded_text(draft: &mut Draft, part: Span, value: i64) -> Result<Span, AllocError> {
    let start = draft.pool.len();
    draft.pool.add_number(value)?;
    draft.pool.add(b" /* ")?;
    for at in part.start..part.end {
        let text = draft.token(at).text;
        draft.pool.repeat(text)?;
        draft.pool.add(b" ")?;
    }
    draft.pool.add(b"*/")?;
    Ok(draft.pool.since(start))
}

/// Whether a number stands there, with a minus or without.
fn is_literal(draft: &Draft, part: Span) -> bool {
    let number = if draft.is(part.start, b"-") {
        part.start.saturating_add(1)
    } else {
        part.start
    };
    let is_one = draft.token(number).kind == Kind::Number
        || is_one_of(draft.text(number), &[b"true", b"false"]);
    is_one && number.saturating_add(1) == part.end
}
