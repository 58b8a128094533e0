//! The items that are written of a value, on a line or in rows.
ghost use Rattle.std.specs.Prelude.{◌≡◌, ◌<◌, ◌++◌, codes, flat_map, length};
ghost use Rattle.std.specs.List.{list_all};
ghost use Rattle.gang_model.specs.Texts.Text.{word_text};
ghost use Rattle.value_digits.specs.Words.{form_text};
ghost use Rattle.prompt_texts.specs.Items as spec;
ghost use Rattle.prompt_texts.specs.Shown.{Puts};

use crate::forms::put_form;
use crate::page::Page;
use debug_traits::AnswerWriter;
use gang_types::{IntType, value};
use itoa::Buffer;
use value_digits::Digits;

/// How many items stand in a row, of such as take few columns.
const MANY: usize = 16;

/// How many others.
const FEW: usize = 8;

/// How an item stands there.
#[derive(Clone, Copy, Debug, PartialEq, Eq)]
pub enum Standing {
    /// An element, or of a lane that is active.
    Counts,
    /// Of a lane that waits.
    Waits,
}

/// A word of a lane, or of so many elements from one on.
#[derive(Clone, Copy, Debug, PartialEq, Eq)]
pub struct Item {
    pub index: usize,
    pub word: u64,
    pub count: usize,
    pub standing: Standing,
}

/// How many elements of an array are told at most, and how many equal ones in a row are told each by itself at most.
#[derive(Clone, Copy, Debug, PartialEq, Eq)]
pub struct Layout {
    pub elements: usize,
    pub repeats: usize,
}

/// Writes items on a line or, if there are more than a row has, in rows.
pub(crate) fn put_items<O: AnswerWriter + Drop>(
    digits: Digits,
    value_type: IntType,
    items: &[Item],
    page: &mut Page<O>,
)
    ensures { Puts (spec.items_text digits value_type items.now) page.old.has_failed page.new.has_failed (O.written page.old.writer) (O.written page.new.writer) }
{
    let size = row_size(digits, value_type, items);
    if size < items.len() {
        put_rows(digits, value_type, size, items, page);
    } else {
        put_line(digits, value_type, items, page);
    }
}

/// Writes items on a line.
fn put_line<O: AnswerWriter + Drop>(
    digits: Digits,
    value_type: IntType,
    items: &[Item],
    page: &mut Page<O>,
)
    ensures { Puts (flat_map (spec.item_text digits value_type) items.now) page.old.has_failed page.new.has_failed (O.written page.old.writer) (O.written page.new.writer) }
{
    for place in 0..items.len() {
        put_item(digits, value_type, items[place], page);
    }
}

/// Writes items in rows of so many.
fn put_rows<O: AnswerWriter + Drop>(
    digits: Digits,
    value_type: IntType,
    size: usize,
    items: &[Item],
    page: &mut Page<O>,
)
    requires { 0 < size }
    ensures { Puts (spec.rows_text digits value_type size 0 items.now) page.old.has_failed page.new.has_failed (O.written page.old.writer) (O.written page.new.writer) }
{
    for place in 0..items.len() {
        put_head(size, place, items[place].index, page);
        put_item(digits, value_type, items[place], page);
    }
}

/// Writes the index before the first item of a row, on a line of its own.
fn put_head<O: AnswerWriter + Drop>(size: usize, place: usize, index: usize, page: &mut Page<O>)
    requires { 0 < size }
    ensures { Puts (spec.head_text size place index) page.old.has_failed page.new.has_failed (O.written page.old.writer) (O.written page.new.writer) }
{
    if place % size == 0 {
        page.put(b"\n[");
        page.put_number(index as i128);
        page.put(b"]");
    }
}

/// Writes a blank and an item.
pub(crate) fn put_item<O: AnswerWriter + Drop>(
    digits: Digits,
    value_type: IntType,
    item: Item,
    page: &mut Page<O>,
)
    ensures { Puts (spec.item_text digits value_type item) page.old.has_failed page.new.has_failed (O.written page.old.writer) (O.written page.new.writer) }
{
    page.put(b" ");
    put_standing(digits, value_type, item, page);
    put_repeats(item.count, page);
}

/// Writes the word of an item, in brackets where its lane waits.
fn put_standing<O: AnswerWriter + Drop>(
    digits: Digits,
    value_type: IntType,
    item: Item,
    page: &mut Page<O>,
)
    ensures { Puts (spec.standing_text item.standing (form_text digits value_type item.word)) page.old.has_failed page.new.has_failed (O.written page.old.writer) (O.written page.new.writer) }
{
    match item.standing {
        Standing::Counts => put_form(digits, value_type, item.word, page),
        Standing::Waits => put_waiting(digits, value_type, item.word, page),
    }
}

/// Writes a word in brackets.
fn put_waiting<O: AnswerWriter + Drop>(
    digits: Digits,
    value_type: IntType,
    word: u64,
    page: &mut Page<O>,
)
    ensures { Puts (codes "(" ++ form_text digits value_type word ++ codes ")") page.old.has_failed page.new.has_failed (O.written page.old.writer) (O.written page.new.writer) }
{
    page.put(b"(");
    put_form(digits, value_type, word, page);
    page.put(b")");
}

/// Writes how often an item comes, if more than once.
fn put_repeats<O: AnswerWriter + Drop>(count: usize, page: &mut Page<O>)
    ensures { Puts (spec.repeats_text count) page.old.has_failed page.new.has_failed (O.written page.old.writer) (O.written page.new.writer) }
{
    if count > 1 {
        page.put(b" <repeats ");
        page.put_number(count as i128);
        page.put(b" times>");
    }
}

/// Writes that elements are left out, where they are.
pub(crate) fn put_rest<O: AnswerWriter + Drop>(is_cut: bool, page: &mut Page<O>)
    ensures { Puts (spec.rest_text is_cut) page.old.has_failed page.new.has_failed (O.written page.old.writer) (O.written page.new.writer) }
{
    if is_cut {
        page.put(b" ...");
    }
}

/// How many items stand in a row.
fn row_size(digits: Digits, value_type: IntType, items: &[Item]) -> usize
    ensures size { result ≡ spec.row_size digits value_type items.now }
    ensures some { 0 < result }
{
    if are_narrow(digits, value_type, items) {
        MANY
    } else {
        FEW
    }
}

/// Whether each word takes few columns.
fn are_narrow(digits: Digits, value_type: IntType, items: &[Item]) -> bool
    ensures { result ≡ list_all (λ item. spec.is_narrow digits value_type item.word) items.now }
{
    items
        .iter()
        .all(|item| is_narrow(digits, value_type, item.word))
}

/// Whether a word takes few columns: at most three in decimal digits.
fn is_narrow(digits: Digits, value_type: IntType, word: u64) -> bool
    ensures { result ≡ spec.is_narrow digits value_type word }
{
    match digits {
        Digits::Decimal => decimal_len(value_type, word) < 4,
        _ => false,
    }
}

/// How many columns a word takes in decimal digits.
fn decimal_len(value_type: IntType, word: u64) -> usize
    ensures { result ≡ length (word_text value_type word) }
{
    if value_type == IntType::Bool {
        if word == 0 { 5 } else { 4 }
    } else {
        let mut digits = Buffer::new();
        digits.format(value(value_type, word)).as_bytes().len()
    }
}
