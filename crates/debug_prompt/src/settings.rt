//! How much of an array is told, and how many lines are listed at once.
ghost use Rattle.std.specs.Prelude.{◌≡◌};
ghost use Rattle.prompt_texts.specs.Shown.{Puts};
ghost use Rattle.debug_prompt.specs.Listing as listing;

use debug_traits::AnswerWriter;
use prompt_lines::{argument, index, split_word, stripped};
use prompt_scenes::Scene;
use prompt_texts::{Layout, Page, tell_unknown};

/// What is told at first, as by GDB.
pub(crate) const USUAL: Layout = Layout {
    elements: 200,
    repeats: 10,
};

/// How many lines are listed at first, as by GDB.
pub(crate) const USUAL_LINES: u32 = 10;

/// The most lines that are listed at once, but for all.
const MOST_LINES: u32 = 1000;

/// How many lines are listed at once from now on, by a command line of two words: a number from 1 to 1000, or all by `unlimited`.
pub(crate) fn lines_named(text: &[u8]) -> Option<u32>
    ensures { result ≡ listing.size_of text.now }
{
    match argument(text) {
        Some(word) if is_unlimited(word) => Some(u32::MAX),
        Some(word) => within(index(word)),
        None => None,
    }
}

/// Whether a word stands for all.
fn is_unlimited(word: &[u8]) -> bool
    ensures { result ≡ listing.is_unlimited word.now }
{
    word == b"unlimited".as_slice()
}

/// A number of lines that can be listed at once.
fn within(number: Option<u32>) -> Option<u32>
    ensures { result ≡ listing.within number }
{
    match number {
        Some(number) if 1 <= number && number <= MOST_LINES => Some(number),
        _ => None,
    }
}

/// What is told behind a line: as much as it sets, else as before.
pub(crate) fn layout_after(line: &[u8], layout: Layout) -> Layout {
    let (set, rest) = split_word(line);
    let (print, rest) = split_word(rest);
    let (what, rest) = split_word(rest);
    if set != b"set".as_slice() || !is_print(print) {
        return layout;
    }
    match amount_of(rest.trim_ascii()) {
        Some(amount) => with_amount(what, amount, layout),
        None => layout,
    }
}

/// The same with another number for what is named.
fn with_amount(what: &[u8], amount: usize, layout: Layout) -> Layout {
    if what == b"elements".as_slice() {
        Layout {
            elements: amount,
            repeats: layout.repeats,
        }
    } else if what == b"repeats".as_slice() {
        Layout {
            elements: layout.elements,
            repeats: amount,
        }
    } else {
        layout
    }
}

/// Whether a word is `print`.
fn is_print(word: &[u8]) -> bool {
    word == b"print".as_slice() || word == b"p".as_slice()
}

/// The number of elements that a text names: a number, or all by 0 or `unlimited`.
fn amount_of(text: &[u8]) -> Option<usize> {
    if text == b"unlimited".as_slice() {
        return Some(usize::MAX);
    }
    match index(text)? {
        0 => Some(usize::MAX),
        number => Some(number as usize),
    }
}

/// Shows how many lines are listed at once, or how much of an array is told.
pub(crate) fn show_layout<O: AnswerWriter + Drop>(
    text: &[u8],
    lines: u32,
    scene: Scene<'_>,
    page: &mut Page<O>,
)
    ensures { listing.WritesSize (λ text. Puts text page.old.has_failed page.new.has_failed (O.written page.old.writer) (O.written page.new.writer)) (listing.asks_size text.now) lines }
{
    if asks_size(text) {
        put_lines(lines, page);
    } else {
        show_amounts(stripped(text), scene, page);
    }
}

/// Whether a text asks how many lines are listed at once.
fn asks_size(text: &[u8]) -> bool
    ensures { result ≡ listing.asks_size text.now }
{
    stripped(text) == b"listsize".as_slice()
}

/// Shows how much of an array is told.
fn show_amounts<O: AnswerWriter + Drop>(what: &[u8], scene: Scene<'_>, page: &mut Page<O>) {
    if what == b"elements".as_slice() {
        page.put(b"Limit on array elements to print is ");
        put_amount(scene.layout.elements, page);
    } else if what == b"repeats".as_slice() {
        page.put(b"Threshold for repeated print elements is ");
        put_amount(scene.layout.repeats, page);
    } else {
        tell_unknown(scene.line, page);
    }
}

/// Writes how many lines are listed at once.
fn put_lines<O: AnswerWriter + Drop>(lines: u32, page: &mut Page<O>)
    ensures { Puts (listing.lines_text lines) page.old.has_failed page.new.has_failed (O.written page.old.writer) (O.written page.new.writer) }
{
    page.put(b"Number of source lines that `list` shows is ");
    put_size(lines, page);
    page.put(b".\n");
}

/// Writes a number of lines, or that it is unlimited.
fn put_size<O: AnswerWriter + Drop>(lines: u32, page: &mut Page<O>)
    ensures { Puts (listing.size_text lines) page.old.has_failed page.new.has_failed (O.written page.old.writer) (O.written page.new.writer) }
{
    if lines == u32::MAX {
        page.put(b"unlimited");
    } else {
        page.put_number(i128::from(lines));
    }
}

/// Writes a number of elements, and ends the sentence.
fn put_amount<O: AnswerWriter + Drop>(amount: usize, page: &mut Page<O>) {
    if amount == usize::MAX {
        page.put(b"unlimited");
    } else {
        page.put_number(amount as i128);
    }
    page.put(b".\n");
}
