//! The digits in which an editor is told values.
ghost use Rattle.std.specs.Prelude.{◌≡◌};
ghost use Rattle.adapter_replies.specs.Forms as spec;

use gang_types::IntType;
use value_digits::Digits;

/// How values are written.
#[derive(Clone, Copy, Debug, PartialEq, Eq)]
pub(crate) enum Form {
    /// As they are.
    Value,
    /// As hexadecimal numbers, but bools as words.
    Hexadecimal,
    /// In these digits.
    In(Digits),
}

/// The digits of the values of a type.
pub(crate) fn digits_for(form: Form, value_type: IntType) -> Digits
    ensures { result ≡ spec.digits_for form value_type }
{
    match (form, value_type) {
        (Form::Value, _) | (Form::Hexadecimal, IntType::Bool) => Digits::Decimal,
        (Form::Hexadecimal, _) => Digits::Hexadecimal,
        (Form::In(digits), _) => digits,
    }
}

/// The form that an editor asks for.
pub(crate) fn form_if(is_hexadecimal: bool) -> Form
    ensures { result ≡ spec.form_if is_hexadecimal }
{
    if is_hexadecimal {
        Form::Hexadecimal
    } else {
        Form::Value
    }
}

/// The form of a value for which a line of the console asks for digits, or for none.
pub(crate) fn asked_form(is_hexadecimal: bool, digits: Option<Digits>) -> Form
    ensures { result ≡ spec.asked_form is_hexadecimal digits }
{
    match digits {
        None => form_if(is_hexadecimal),
        Some(digits) => Form::In(digits),
    }
}
