//! What is said of lines that begin with `set`.
use crate::explanations::{Reason, first_word, is_one_of, why_of};
use debug_words::{Marks, Radix, digits_number, is_blank_line, next_word};

/// The words behind `set` that change something, or cannot, and what may follow them.
const SETTINGS: [Reason; 5] = [
    Reason(
        &[b"exec-direction"],
        b"The direction is in the command: `reverse-step`, `reverse-next` and `reverse-continue` go back.",
    ),
    Reason(
        &[b"args", b"environment", b"cwd"],
        b"What the program is given is named when the debugger is called: rinddecade debug SOURCE --input FILE.",
    ),
    Reason(
        &[b"listsize"],
        b"A number may follow `set listsize`, of the lines that `list` shows: 1 to 1000, or `unlimited`.",
    ),
    Reason(
        &[b"height"],
        b"A number may follow `set height`, of the lines of a page on a terminal; 0 or `unlimited` ends the waiting.",
    ),
    Reason(
        &[b"width"],
        b"A number may follow `set width`, or `unlimited`; it changes nothing here.",
    ),
];

/// The words behind `set print` that change how much of an array is shown, and what may follow them.
const AMOUNTS: [Reason; 2] = [
    Reason(
        &[b"elements"],
        b"A number may follow `set print elements`, of the elements of an array that are shown: 1 to 10000000; 0 or `unlimited` shows all.",
    ),
    Reason(
        &[b"repeats"],
        b"A number may follow `set print repeats`, of equal elements in a row that are shown one by one: 1 to 10000000; 0 or `unlimited` shows all so.",
    ),
];

/// What is said of other words behind `set print`.
const PRINT: &[u8] =
    b"`set print elements N` says how many elements of an array are shown, `set print repeats N` how many equal ones in a row one by one.";

/// The most elements that a number names.
const MOST: u128 = 10_000_000;

/// The words behind `set` that change how GDB shows things.
const SILENT: [&[u8]; 14] = [
    b"pagination",
    b"confirm",
    b"verbose",
    b"style",
    b"history",
    b"logging",
    b"prompt",
    b"editing",
    b"complaints",
    b"debuginfod",
    b"disassembly-flavor",
    b"max-value-size",
    b"trace-commands",
    b"breakpoint",
];

/// The words behind `set print` that change how GDB shows values.
const SILENT_PRINT: [&[u8]; 20] = [
    b"address",
    b"array",
    b"array-indexes",
    b"characters",
    b"demangle",
    b"entry-values",
    b"frame-arguments",
    b"frame-info",
    b"max-depth",
    b"null-stop",
    b"object",
    b"pretty",
    b"sevenbit-strings",
    b"static-members",
    b"symbol",
    b"symbol-filename",
    b"thread-events",
    b"type",
    b"union",
    b"vtbl",
];

/// Whether a line is a setting that is taken, or one of how GDB shows things, which changes nothing here.
pub fn is_setting(text: &[u8]) -> bool {
    match next_word(Marks::OfCommands, text) {
        Some((word, rest)) => word == b"set".as_slice() && is_silent(rest),
        None => false,
    }
}

/// Why what stands behind `set` sets nothing, where it is known.
pub(crate) fn why_of_setting(text: &[u8]) -> Option<&'static [u8]> {
    let (word, rest) = setting_in(text)?;
    if is_print(word) {
        why_of(&AMOUNTS, first_word(rest)).or(Some(PRINT))
    } else {
        why_of(&SETTINGS, word)
    }
}

/// Whether what stands behind `set` is taken, or changes nothing here.
fn is_silent(text: &[u8]) -> bool {
    match setting_in(text) {
        Some((word, rest)) if is_print(word) => is_silent_print(rest),
        Some((word, rest)) if is_one_of(&[b"height", b"width"], word) => is_amount(rest),
        Some((word, _)) => is_one_of(&SILENT, word),
        None => false,
    }
}

/// Whether what stands behind `set print` is taken, or changes nothing here.
fn is_silent_print(text: &[u8]) -> bool {
    match next_word(Marks::OfCommands, text) {
        Some((word, rest)) if is_one_of(&[b"elements", b"repeats"], word) => is_amount(rest),
        Some((word, _)) => is_one_of(&SILENT_PRINT, word),
        None => false,
    }
}

/// The word of a setting, and what follows it; none where a variable of this name is to be set.
fn setting_in(text: &[u8]) -> Option<(&[u8], &[u8])> {
    let (word, rest) = next_word(Marks::OfCommands, text)?;
    if is_one_of(&[b"=", b"["], first_word(rest)) {
        None
    } else {
        Some((word, rest))
    }
}

/// Whether a word is `print`.
fn is_print(word: &[u8]) -> bool {
    is_one_of(&[b"print", b"p"], word)
}

/// Whether a text is a number of elements or lines, or `unlimited`.
fn is_amount(text: &[u8]) -> bool {
    match next_word(Marks::OfCommands, text) {
        Some((word, rest)) => is_blank_line(rest)
            && (word == b"unlimited".as_slice() || is_number(word)),
        None => false,
    }
}

/// Whether a word is a number of elements or lines.
fn is_number(word: &[u8]) -> bool {
    match digits_number(Radix::Decimal, word) {
        Some(number) => number <= MOST,
        None => false,
    }
}
