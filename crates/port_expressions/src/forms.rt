//! Which form an expression, an operand or an argument has.
use port_draft::Draft;
use port_tokens::{PortRefusal, Reason, Span};

/// Marks between the sides of an expression.
#[derive(Clone, Copy)]
pub(crate) enum Sides {
    Arms,
    Or,
    And,
}

impl Sides {
    /// Where the first side of a part ends.
    pub(crate) fn end(self, draft: &Draft, part: Span) -> usize {
        match self {
            Sides::Arms => {
                let end = draft.end_at(part, b"?");
                let arm = Span {
                    start: part.start,
                    end,
                };
                draft.end_at(arm, b":")
            }
            Sides::Or => draft.end_at(part, b"||"),
            Sides::And => draft.end_at(part, b"&&"),
        }
    }

    /// What stands before the variable in the test of the lanes that need a further side.
    pub(crate) fn guard(self) -> &'static [u8] {
        match self {
            Sides::And => b"if (",
            Sides::Arms | Sides::Or => b"if (!",
        }
    }
}

/// What an expression is: an assignment with its sign, sides that are written as they stand, sides with a variable for their truth, or operands.
#[derive(Clone, Copy)]
pub(crate) enum Form {
    Assignment(usize),
    Joined(Sides),
    Guarded(Sides),
    Operands,
}

/// The form of an expression.
pub(crate) fn form_of(draft: &Draft, part: Span) -> Result<Form, PortRefusal> {
    if let Some(comma) = draft.find_one(part, b",") {
        return Err(draft.refuse(comma, Reason::Comma));
    }
    if let Some(sign) = draft.find_assignment(part) {
        return Ok(Form::Assignment(sign));
    }
    if let Some(question) = draft.find_one(part, b"?") {
        return arms_form(draft, question, part.end);
    }
    if let Some(start) = draft.find_one(part, b"||") {
        return Ok(sides_form(draft, Sides::Or, start, part.end));
    }
    if let Some(start) = draft.find_one(part, b"&&") {
        return Ok(sides_form(draft, Sides::And, start, part.end));
    }
    Ok(Form::Operands)
}

fn arms_form(draft: &Draft, start: usize, end: usize) -> Result<Form, PortRefusal> {
    match draft.effect(Span { start, end }) {
        Some(at) => Err(draft.refuse(at, Reason::Arms)),
        None => Ok(Form::Joined(Sides::Arms)),
    }
}

fn sides_form(draft: &Draft, sides: Sides, start: usize, end: usize) -> Form {
    if draft.has_effect(Span { start, end }) {
        Form::Guarded(sides)
    } else {
        Form::Joined(sides)
    }
}

/// Refuses an assignment in an expression to what is no target or is named elsewhere.
pub(crate) fn check_assignment(draft: &Draft, part: Span, sign: usize) -> Result<(), PortRefusal> {
    if draft.target_end(part.start) != sign {
        return Err(draft.refuse(part.start, Reason::Word));
    }
    check_changed(draft, part)
}

/// Refuses a change of what is named elsewhere.
pub(crate) fn check_changed(draft: &Draft, part: Span) -> Result<(), PortRefusal> {
    if draft.is_named_outside(part) {
        Err(draft.refuse(part.start, Reason::ReadBesides))
    } else {
        Ok(())
    }
}

/// What an operand or operator is.
#[derive(Clone, Copy)]
pub(crate) enum OperandForm {
    /// A target that is changed by the sign there.
    Change(usize),
    Group,
    Call,
    Target,
    Alone,
}

/// An operand or operator: its form, the part that is its target, and where it ends.
#[derive(Clone, Copy)]
pub(crate) struct Operand {
    pub(crate) form: OperandForm,
    pub(crate) part: Span,
    pub(crate) end: usize,
}

/// The operand or operator that begins there.
pub(crate) fn operand_of(draft: &Draft, at: usize, end: usize) -> Result<Operand, PortRefusal> {
    if draft.is_change(at) {
        return changed_behind(draft, at, end);
    }
    if draft.is(at, b"(") {
        return Ok(up_to(OperandForm::Group, at, draft.partner(at)));
    }
    if !draft.is_word(at) || draft.is_spec(at) {
        return Ok(up_to(OperandForm::Alone, at, at));
    }
    let next = at.saturating_add(1);
    if draft.is(next, b"(") {
        return Ok(up_to(OperandForm::Call, at, draft.partner(next)));
    }
    Ok(target_at(draft, at, end))
}

/// An operand whose last token stands there.
fn up_to(form: OperandForm, start: usize, last: usize) -> Operand {
    Operand {
        form,
        part: Span { start, end: last },
        end: last.saturating_add(1),
    }
}

/// A target behind the sign that changes it.
fn changed_behind(draft: &Draft, sign: usize, end: usize) -> Result<Operand, PortRefusal> {
    let start = sign.saturating_add(1);
    let last = draft.target_end(start);
    if last > end {
        return Err(draft.refuse(sign, Reason::Word));
    }
    Ok(Operand {
        form: OperandForm::Change(sign),
        part: Span { start, end: last },
        end: last,
    })
}

/// A target, or one before the sign that changes it.
fn target_at(draft: &Draft, start: usize, end: usize) -> Operand {
    let last = draft.target_end(start);
    if last < end && draft.is_change(last) {
        return up_to(OperandForm::Change(last), start, last);
    }
    Operand {
        form: OperandForm::Target,
        part: Span { start, end: last },
        end: last,
    }
}

/// Where the argument ends that begins a rest. Parts of arrays are passed to held calls alone.
pub(crate) fn argument_end(draft: &Draft, at: usize, rest: Span) -> Result<usize, PortRefusal> {
    if draft.is(rest.start, b"&") && !draft.is_held_call(at) {
        return Err(draft.refuse(rest.start, Reason::Pointer));
    }
    Ok(draft.end_at(rest, b","))
}

/// Whether an argument is a part of an array.
pub(crate) fn is_part(draft: &Draft, part: Span) -> bool {
    let start = part.start.saturating_add(1);
    draft.is(part.start, b"&") && draft.target_end(start) == part.end
}
