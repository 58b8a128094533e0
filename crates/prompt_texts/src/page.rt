//! What texts are written on.
ghost use Rattle.std.specs.Prelude.{◌≡◌, decimal, false};
ghost use Rattle.std.specs.Fmt.{signed_decimal};
ghost use Rattle.prompt_texts.specs.LaneShares.{right};
ghost use Rattle.prompt_texts.specs.Shown as spec;
ghost use Rattle.prompt_texts.specs.Shown.{Puts, masked};

use crate::lanes::put_right;
use arrayvec::ArrayVec;
use debug_traits::AnswerWriter;
use itoa::Buffer;

/// The most bytes of a progress.
const PROGRESS: usize = 32;

/// Writes over what stands on a line of a terminal, as long as the longest progress.
const BLANK_LINE: &[u8] = b"\r                \r";

/// A writer that nothing more is written on once it has failed.
#[derive(Drop)]
pub struct Page<O: AnswerWriter + Drop> {
    writer: O,
    has_failed: bool,
    shows_progress: bool,
    ghost works: { has_failed ≡ false → O.has_failed writer ≡ false },
}

impl<O: AnswerWriter + Drop> Page<O> {
    /// A page on a writer that works.
    pub fn new(writer: O) -> Self
        requires { O.has_failed writer ≡ false }
    {
        Page {
            writer,
            has_failed: false,
            shows_progress: false,
        }
    }

    /// A page on a writer that works and writes to a terminal at once. It shows how far a long command has come.
    pub fn on_terminal(writer: O) -> Self
        requires { O.has_failed writer ≡ false }
    {
        Page {
            writer,
            has_failed: false,
            shows_progress: true,
        }
    }

    /// Writes how many moves a command has made, over what was written of it before, all at once.
    pub fn put_progress(&mut self, moves: u32) {
        if self.shows_progress {
            self.put(progress_text(moves).as_slice());
        }
    }

    /// Takes what was written of a command's progress off the line.
    pub fn clear_progress(&mut self) {
        if self.shows_progress {
            self.put(BLANK_LINE);
        }
    }

    /// Whether the writer has failed.
    pub fn has_failed(&self) -> bool
        ensures { result ≡ self.now.has_failed }
    {
        self.has_failed
    }

    /// Writes bytes.
    pub fn put(&mut self, bytes: &[u8])
        ensures { Puts bytes.now self.old.has_failed self.new.has_failed (O.written self.old.writer) (O.written self.new.writer) }
    {
        if !self.has_failed {
            self.has_failed = self.writer.write_all(bytes).is_err();
        }
    }

    /// Writes a number in decimal digits.
    pub fn put_number(&mut self, number: i128)
        ensures { Puts (signed_decimal number) self.old.has_failed self.new.has_failed (O.written self.old.writer) (O.written self.new.writer) }
    {
        let mut digits = Buffer::new();
        self.put(digits.format(number).as_bytes());
    }

    /// Writes a text as a terminal may have it: `?` stands for each byte by which it would do something in place of showing it.
    pub fn put_masked(&mut self, text: &[u8])
        ensures { Puts (masked text.now) self.old.has_failed self.new.has_failed (O.written self.old.writer) (O.written self.new.writer) }
    {
        let mut before = 0;
        for at in 0..text.len() {
            self.put(&[shown_byte(before, text[at])]);
            before = text[at];
        }
    }

    /// Writes a number in decimal digits, behind blanks to a width of five.
    pub(crate) fn put_line_number(&mut self, number: u32)
        ensures { Puts (right 5 (decimal number)) self.old.has_failed self.new.has_failed (O.written self.old.writer) (O.written self.new.writer) }
    {
        put_right(u64::from(number), 5, self);
    }
}

/// A byte as it is shown behind another one.
fn shown_byte(before: u8, byte: u8) -> u8
    ensures { result ≡ spec.shown_byte before byte }
{
    if is_control(before, byte) { b'?' } else { byte }
}

/// Whether a byte ends a control character: one of ASCII but the tab, or one of those that Unicode spells behind `0xc2`.
pub(crate) fn is_control(before: u8, byte: u8) -> bool
    ensures { result ≡ spec.is_control before byte }
{
    let is_small = matches!(byte, 0..=8 | 10..=31 | 127);
    let ends_large = before == 0xc2 && matches!(byte, 128..=159);
    is_small || ends_large
}

/// How many moves a command has made, with a comma before each three digits but the first ones, behind a return to the line's start.
fn progress_text(moves: u32) -> ArrayVec<u8, PROGRESS> {
    let mut digits = Buffer::new();
    let number = digits.format(moves).as_bytes();
    let mut text = ArrayVec::new();
    add(b'\r', &mut text);
    for (place, digit) in number.iter().enumerate() {
        if place > 0 && (number.len() - place) % 3 == 0 {
            add(b',', &mut text);
        }
        add(*digit, &mut text);
    }
    for byte in b" moves" {
        add(*byte, &mut text);
    }
    text
}

/// Adds a byte, where there is room.
fn add(byte: u8, text: &mut ArrayVec<u8, PROGRESS>) {
    if !text.is_full() {
        text.push(byte);
    }
}
