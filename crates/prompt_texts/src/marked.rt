//! A line of a text with a mark under one byte.
use crate::page::{Page, is_control};
use debug_traits::AnswerWriter;

/// How much of a long line is shown, and how much of that stands before the mark.
const SHOWN: usize = 60;

const BEFORE: usize = 30;

/// The longest line that is shown whole.
const WHOLE: usize = 68;

/// Writes a line behind its number, or 60 bytes of a long one, and `^` under a byte of it. Controls are masked.
pub fn put_marked<O: AnswerWriter + Drop>(number: u32, line: &[u8], at: usize, page: &mut Page<O>) {
    let at = at.min(line.len());
    let (from, to) = window(line, at);
    page.put(b"-> ");
    page.put_line_number(number);
    page.put(b"  ");
    put_cut(from > 0, page);
    page.put_masked(line.get(from..to).unwrap_or(&[]));
    put_cut(to < line.len(), page);
    page.put(b"\n");
    put_blanks(digits(number).max(5).saturating_add(5), page);
    put_blanks(if from > 0 { 3 } else { 0 }, page);
    put_caret(
        line.get(from..to).unwrap_or(&[]),
        at.saturating_sub(from),
        page,
    );
}

/// The part of a line that is shown: it begins and ends with whole characters.
fn window(line: &[u8], at: usize) -> (usize, usize) {
    if line.len() <= WHOLE {
        return (0, line.len());
    }
    let from = at
        .saturating_sub(BEFORE)
        .min(line.len().saturating_sub(SHOWN));
    let to = from.saturating_add(SHOWN).min(line.len());
    (character_from(line, from).min(at), character_from(line, to))
}

/// The first place from one on at which a character begins, or the line's end.
fn character_from(line: &[u8], at: usize) -> usize {
    let rest = line.get(at..).unwrap_or(&[]);
    let inner = rest.iter().take_while(|byte| is_inner(**byte)).count();
    at.saturating_add(inner).min(line.len())
}

/// Whether a byte stands within a character of several bytes.
fn is_inner(byte: u8) -> bool {
    matches!(byte, 0x80..=0xbf)
}

/// Writes that a line goes on.
fn put_cut<O: AnswerWriter + Drop>(is_cut: bool, page: &mut Page<O>) {
    if is_cut {
        page.put(b"...");
    }
}

/// Writes `^` under a byte of a text, and ends the line. There is a blank for each character before it, and a tab stays one.
pub(crate) fn put_caret<O: AnswerWriter + Drop>(text: &[u8], at: usize, page: &mut Page<O>) {
    let mut before = 0;
    for byte in text.iter().take(at) {
        match *byte {
            b'\t' => page.put(b"\t"),
            byte if is_inner(byte) && !is_control(before, byte) => {}
            _ => page.put(b" "),
        }
        before = *byte;
    }
    page.put(b"^\n");
}

fn put_blanks<O: AnswerWriter + Drop>(count: usize, page: &mut Page<O>) {
    for _ in 0..count {
        page.put(b" ");
    }
}

/// How many decimal digits a number has.
pub(crate) fn digits(number: u32) -> usize {
    let powers = [
        10u32,
        100,
        1_000,
        10_000,
        100_000,
        1_000_000,
        10_000_000,
        100_000_000,
        1_000_000_000,
    ];
    powers
        .iter()
        .filter(|power| number >= **power)
        .count()
        .saturating_add(1)
}
