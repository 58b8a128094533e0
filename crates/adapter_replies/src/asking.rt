//! What is asked for by a text that stands where an expression does.
ghost use Rattle.std.specs.Prelude.{◌≡◌, codes};
ghost use Rattle.gang_model.specs.Texts.CommandText as command;
ghost use Rattle.gang_model.specs.Texts.Spellings.{behind};
ghost use Rattle.adapter_replies.specs.Asking as spec;
ghost use Rattle.adapter_replies.specs.Asking.{asking_view, printed_option, printed_view};

use crate::console::{Asked, asked_in};
use crate::forms::{Form, asked_form};
use adapter_requests::Context;
use debug_words::is_blank;
use value_digits::{Digits, digits_of};

/// What is asked for in a context: a text whose value it may be, and the form of that.
#[derive(Clone, Copy)]
pub(crate) struct Asking<'a> {
    pub(crate) context: Context,
    pub(crate) asked: Asked,
    pub(crate) text: &'a [u8],
    pub(crate) form: Form,
}

/// A text whose value is asked for, and the digits, where it asks for some.
#[derive(Clone, Copy)]
struct Printed<'a> {
    digits: Option<Digits>,
    text: &'a [u8],
}

/// What a text asks for in a context, and whether it asks for hexadecimal numbers.
pub(crate) fn asking_of(context: Context, text: &str, is_hexadecimal: bool) -> Asking<'_>
    ensures { asking_view result ≡ spec.asking_of context text.now is_hexadecimal }
{
    let printed = printed_in(context, text.as_bytes());
    Asking {
        context,
        asked: asked_in(context, text),
        text: printed.text,
        form: asked_form(is_hexadecimal, printed.digits),
    }
}

/// What a text asks for: in the console what stands behind the word that prints, and else the whole.
fn printed_in(context: Context, text: &[u8]) -> Printed<'_>
    ensures { printed_view result ≡ spec.printed_in context text.now }
{
    match context {
        Context::Console => or_plain(printed_of(text), text),
        Context::Hover | Context::Watch => plain(text),
    }
}

/// A text as it stands.
fn plain(text: &[u8]) -> Printed<'_>
    ensures { printed_view result ≡ spec.plain text.now }
{
    Printed { digits: None, text }
}

/// What was read, else a text as it stands.
fn or_plain<'a>(printed: Option<Printed<'a>>, text: &'a [u8]) -> Printed<'a>
    ensures { printed_view result ≡ spec.or_plain (printed_option printed.entry) text.now }
{
    match printed {
        Some(printed) => printed,
        None => plain(text),
    }
}

/// What stands behind `print`, else behind `p`.
fn printed_of(text: &[u8]) -> Option<Printed<'_>>
    ensures { printed_option result ≡ spec.behind_print (behind (codes "print") text.now) text.now }
{
    match text.strip_prefix(b"print") {
        Some(rest) => printed_behind(rest),
        None => short_of(text),
    }
}

/// What stands behind `p`.
fn short_of(text: &[u8]) -> Option<Printed<'_>>
    ensures { printed_option result ≡ spec.behind_p (behind (codes "p") text.now) }
{
    match text.strip_prefix(b"p") {
        Some(rest) => printed_behind(rest),
        None => None,
    }
}

/// What follows the word that prints: `/` and the letter of digits, or a blank, and a text.
fn printed_behind(text: &[u8]) -> Option<Printed<'_>>
    ensures { printed_option result ≡ spec.printed_behind text.now }
{
    match text {
        [b'/', rest @ ..] => behind_slash(rest),
        [first, rest @ ..] => {
            if is_blank(*first) {
                Some(or_plain(slashed(rest), rest))
            } else {
                None
            }
        }
        [] => None,
    }
}

/// A text in the digits of a letter behind `/`.
fn slashed(text: &[u8]) -> Option<Printed<'_>>
    ensures { printed_option result ≡ spec.slashed text.now }
{
    match text {
        [b'/', rest @ ..] => behind_slash(rest),
        _ => None,
    }
}

/// A text in the digits of a letter before it.
fn behind_slash(text: &[u8]) -> Option<Printed<'_>>
    ensures { printed_option result ≡ spec.behind_slash text.now }
{
    match text {
        [letter, rest @ ..] => in_digits(digits_of(*letter), rest),
        [] => None,
    }
}

/// A text in digits, where there are some and it begins with a blank.
fn in_digits(digits: Option<Digits>, text: &[u8]) -> Option<Printed<'_>>
    ensures { printed_option result ≡ spec.in_digits digits text.now }
{
    match digits {
        Some(digits) => {
            if begins_blank(text) {
                Some(Printed {
                    digits: Some(digits),
                    text,
                })
            } else {
                None
            }
        }
        None => None,
    }
}

/// Whether a text begins with a blank.
fn begins_blank(text: &[u8]) -> bool
    ensures { result ≡ command.begins_blank text.now }
{
    match text {
        [first, ..] => is_blank(*first),
        [] => false,
    }
}
