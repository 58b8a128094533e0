//! The values that were printed, by their numbers.
ghost use Rattle.std.specs.Prelude.{◌≡◌, ◌≤◌, ◌++◌, codes, option_map, pos};
ghost use Rattle.std.specs.Fmt.{signed_decimal};
ghost use Rattle.gang_model.specs.Texts.Spellings as spelling;
ghost use Rattle.prompt_lines.specs.Readings.{bytes_option};
ghost use Rattle.prompt_texts.specs.Shown.{Puts};
ghost use Rattle.prompt_values.specs.Numbered as spec;

use crate::gang_values::GangValue;
use arrayvec::ArrayVec;
use debug_traits::AnswerWriter;
use frame_values::ExpressionValue;
use prompt_lines::{index, stripped};
use prompt_texts::{Page, Told, put_told, show_expression};
use value_digits::Digits;

/// How many values are kept.
const MOST: usize = 100;

/// The last number that is given to a value.
const LAST_NUMBER: u32 = 10_000_000;

/// What the name of a value begins with.
const DOLLAR: &[u8] = b"$";

/// How many values are listed at once.
const LISTED: u32 = 10;

/// A value that was printed.
#[derive(Drop)]
pub enum Printed {
    /// Of a variable, a lane or elements.
    Told(Told),
    /// Of an expression.
    Expression(GangValue),
}

impl Printed {
    /// The value of an expression, where it has a word for each lane of a gang.
    pub fn of_expression(value: ExpressionValue) -> Option<Printed>
        ensures { spec.IsExpressionOrNone value result }
    {
        match GangValue::of(value) {
            Some(value) => Some(Printed::Expression(value)),
            None => None,
        }
    }
}

/// A value that was printed, and its number.
#[derive(Drop)]
pub struct NumberedValue {
    pub number: u32,
    pub value: Printed,
}

/// The blank in an unused place.
impl Default for NumberedValue {
    ghost is_default = { λ entry. entry.number ≡ 0 };

    fn default() -> Self {
        NumberedValue {
            number: 0,
            value: Printed::Expression(GangValue::blank()),
        }
    }
}

/// How a value is named: by its number, or by how many were printed behind it.
#[derive(Clone, Copy, Debug, PartialEq, Eq)]
pub enum ValueName {
    Number(u32),
    Behind(u32),
}

/// The last values that were printed, the newest first, and the number of the next one.
#[derive(Drop)]
pub struct Values {
    values: ArrayVec<NumberedValue, MOST>,
    next: u32,
}

impl Values {
    /// No value was printed.
    pub fn new() -> Self
        ensures { spec.kept result ≡ spec.none }
    {
        Values {
            values: ArrayVec::new(),
            next: 1,
        }
    }

    /// Notes a value that was printed by the next number. Of more than 100 the newest are kept.
    pub fn note(&mut self, value: Printed)
        ensures { spec.kept self.new ≡ spec.noted value (spec.kept self.old) }
    {
        if self.next < LAST_NUMBER {
            self.values.truncate(MOST - 1);
            self.values.insert(
                0,
                NumberedValue {
                    number: self.next,
                    value,
                },
            );
            self.next += 1;
        }
    }

    /// Notes a value, if one was printed.
    pub fn note_if(&mut self, printed: Option<Printed>)
        ensures { spec.kept self.new ≡ spec.noted_if printed (spec.kept self.old) }
    {
        if let Some(value) = printed {
            self.note(value);
        }
    }

    /// The value of a name, if it is kept.
    fn named(&self, name: ValueName) -> Option<&NumberedValue>
        ensures { option_map (λ value. value.now) result ≡ spec.named name (spec.kept self.now) }
    {
        match name {
            ValueName::Number(number) if number < 1 || self.next <= number => None,
            ValueName::Number(number) => {
                self.values
                    .as_slice()
                    .get((self.next - 1 - number) as usize)
            }
            ValueName::Behind(places) => self.values.as_slice().get(places as usize),
        }
    }

    /// Writes the value of a name behind its number, or why there is none.
    pub fn show<O: AnswerWriter + Drop>(&self, name: ValueName, digits: Digits, page: &mut Page<O>)
        ensures { Puts (spec.named_text digits name (spec.kept self.now)) page.old.has_failed page.new.has_failed (O.written page.old.writer) (O.written page.new.writer) }
    {
        match self.named(name) {
            Some(value) => put_numbered(digits, value, page),
            None => tell_none(name, self.next, page),
        }
    }

    /// Writes ten values, the last ones, or those around a number.
    pub fn list<O: AnswerWriter + Drop>(&self, number: Option<u32>, page: &mut Page<O>)
        ensures { Puts (spec.listed_text number (spec.kept self.now)) page.old.has_failed page.new.has_failed (O.written page.old.writer) (O.written page.new.writer) }
    {
        tell_empty(self.next, page);
        self.put_from(self.first_listed(number), page);
    }

    /// The number of the first value that is listed.
    fn first_listed(&self, number: Option<u32>) -> u32
        ensures first { result ≡ spec.first_listed number (spec.kept self.now) }
        ensures few { result ≤ 10000000 }
    {
        let first = match number {
            Some(number) => number.saturating_sub(LISTED / 2),
            None => self.next.saturating_sub(LISTED),
        };
        first.max(1).min(LAST_NUMBER)
    }

    /// Writes a line for each of ten numbers from one on that a value has.
    fn put_from<O: AnswerWriter + Drop>(&self, first: u32, page: &mut Page<O>)
        requires { first ≤ 10000000 }
        ensures { Puts (spec.listed_lines (spec.kept self.now) first) page.old.has_failed page.new.has_failed (O.written page.old.writer) (O.written page.new.writer) }
    {
        for place in 0..LISTED {
            self.put_listed(first + place, page);
        }
    }

    /// Writes a line for the value of a number, if there is one.
    fn put_listed<O: AnswerWriter + Drop>(&self, number: u32, page: &mut Page<O>)
        ensures { Puts (spec.listed_line (spec.kept self.now) number) page.old.has_failed page.new.has_failed (O.written page.old.writer) (O.written page.new.writer) }
    {
        match self.named(ValueName::Number(number)) {
            Some(value) => put_numbered(Digits::Decimal, value, page),
            None => page.put(b""),
        }
    }
}

/// Writes that no value was printed, where the next one gets this number, if none was.
fn tell_empty<O: AnswerWriter + Drop>(next: u32, page: &mut Page<O>)
    ensures { Puts (spec.empty_text next) page.old.has_failed page.new.has_failed (O.written page.old.writer) (O.written page.new.writer) }
{
    if next <= 1 {
        page.put(b"No value was printed yet.\n");
    } else {
        page.put(b"");
    }
}

/// Writes why a name has no value, where the next one gets this number: it was never printed, or is kept no more.
fn tell_none<O: AnswerWriter + Drop>(name: ValueName, next: u32, page: &mut Page<O>)
    ensures { Puts (spec.none_text name next) page.old.has_failed page.new.has_failed (O.written page.old.writer) (O.written page.new.writer) }
{
    if next <= 1 {
        page.put(b"No value was printed yet: `print T` shows one, and gives it a number.\n");
    } else {
        page.put(b"There is no value ");
        put_name(name, page);
        put_count(next - 1, page);
    }
}

/// Writes behind a name how many values were printed, and how many are kept.
fn put_count<O: AnswerWriter + Drop>(count: u32, page: &mut Page<O>)
    ensures { Puts (spec.count_text count) page.old.has_failed page.new.has_failed (O.written page.old.writer) (O.written page.new.writer) }
{
    page.put(b": values printed so far: ");
    put_printed_number(count, page);
}

/// Writes how many values were printed, and how many are kept.
fn put_printed_number<O: AnswerWriter + Drop>(count: u32, page: &mut Page<O>)
    ensures { Puts (signed_decimal (pos count) ++ codes ", and the last 100 are kept.\n") page.old.has_failed page.new.has_failed (O.written page.old.writer) (O.written page.new.writer) }
{
    page.put_number(i128::from(count));
    page.put(b", and the last 100 are kept.\n");
}

/// Writes a line: a value behind its number.
fn put_numbered<O: AnswerWriter + Drop>(digits: Digits, value: &NumberedValue, page: &mut Page<O>)
    ensures { Puts (spec.numbered_line digits value.now) page.old.has_failed page.new.has_failed (O.written page.old.writer) (O.written page.new.writer) }
{
    page.put(b"$");
    page.put_number(i128::from(value.number));
    put_printed(digits, &value.value, page);
}

/// Writes a value behind `=`, and ends the line.
fn put_printed<O: AnswerWriter + Drop>(digits: Digits, value: &Printed, page: &mut Page<O>)
    ensures { Puts (spec.printed_line digits value.now) page.old.has_failed page.new.has_failed (O.written page.old.writer) (O.written page.new.writer) }
{
    match value {
        Printed::Told(told) => {
            page.put(b" =");
            put_told(digits, told, page);
        }
        Printed::Expression(value) => show_expression(&[], digits, &value.value, page),
    }
}

/// Writes the name of a value.
fn put_name<O: AnswerWriter + Drop>(name: ValueName, page: &mut Page<O>)
    ensures { Puts (spec.name_text name) page.old.has_failed page.new.has_failed (O.written page.old.writer) (O.written page.new.writer) }
{
    match name {
        ValueName::Number(number) => {
            page.put(b"$");
            page.put_number(i128::from(number));
        }
        ValueName::Behind(places) => {
            page.put(b"$$");
            page.put_number(i128::from(places));
        }
    }
}

/// The value that a text names: `$` the last one, `$$` the one before, `$N` that of a number, `$$N` the N-th before the last.
pub fn value_name(text: &[u8]) -> Option<ValueName>
    ensures { result ≡ spec.value_name text.now }
{
    match behind_dollar(stripped(text)) {
        Some(rest) => name_behind(rest),
        None => None,
    }
}

/// What follows `$`, in a text that begins with it.
fn behind_dollar(text: &[u8]) -> Option<&[u8]>
    ensures { bytes_option result ≡ spelling.behind (codes "$") text.now }
{
    text.strip_prefix(DOLLAR)
}

/// What `$` and a text behind it name.
fn name_behind(text: &[u8]) -> Option<ValueName>
    ensures { result ≡ spec.name_behind text.now }
{
    match text {
        [] => Some(ValueName::Behind(0)),
        [b'$', places @ ..] => places_behind(places),
        number => match index(number) {
            Some(number) => Some(ValueName::Number(number)),
            None => None,
        },
    }
}

/// What `$$` and a text behind it name.
fn places_behind(text: &[u8]) -> Option<ValueName>
    ensures { result ≡ spec.places_behind text.now }
{
    match text {
        [] => Some(ValueName::Behind(1)),
        places => match index(places) {
            Some(places) => Some(ValueName::Behind(places)),
            None => None,
        },
    }
}
