//! What to do in place of a line of the console that begins with a word of the prompt or of GDB and is no command here.
ghost use Rattle.std.specs.Prelude.{◌≡◌, ◌≤◌, ◌==◌, [], ◌∷◌, length, map, not};
ghost use Rattle.std.specs.List.{prefix_len};
ghost use Rattle.debug_commands.specs.LineWords.{texts};
ghost use Rattle.adapter_replies.specs.Hints as spec;
ghost use Rattle.adapter_replies.specs.Hints.{row_view};

use crate::completions::is_name_byte;
use debug_words::{Marks, is_same, next_word};

/// What is told of a line.
#[derive(Clone, Copy)]
pub(crate) enum Hint {
    /// Where the source is shown.
    Source,
    /// How to go to a line.
    Line,
    /// Where more than the line of a breakpoint is set.
    Breakpoints,
    /// How many breakpoints and watches are deleted.
    Deleting,
    /// What can be watched.
    Watches,
    /// Where an expression is shown at each stop.
    Displays,
    /// Where a frame is selected.
    Frames,
    /// How to begin anew.
    Beginning,
    /// How to pass stops.
    Going,
    /// Where types are shown.
    Types,
    /// Which lists there are.
    Lists,
    /// What can be set.
    Settings,
    /// That the prompt does it.
    AtThePrompt,
    /// That there is no such command.
    OfGdb,
}

/// What is told of a line, and whether it is one word alone, which may be meant for a variable.
#[derive(Clone, Copy)]
pub(crate) struct Hinted {
    pub(crate) hint: Hint,
    pub(crate) is_alone: bool,
}

/// Words, and what is told of a line that begins with one of them.
#[derive(Clone, Copy)]
pub(crate) struct Row(pub(crate) &'static [&'static [u8]], pub(crate) Hint);

/// Words of the prompt and of GDB that are no commands here, or not with all that may follow them there.
const ROWS: [Row; 14] = [
    Row(&[b"list", b"l"], Hint::Source),
    Row(&[b"until", b"u", b"advance", b"tbreak", b"tb"], Hint::Line),
    Row(
        &[
            b"break",
            b"b",
            b"br",
            b"condition",
            b"cond",
            b"ignore",
            b"commands",
            b"enable",
            b"en",
            b"disable",
            b"dis",
            b"clear",
            b"rbreak",
            b"hbreak",
        ],
        Hint::Breakpoints,
    ),
    Row(&[b"delete", b"d"], Hint::Deleting),
    Row(&[b"watch", b"rwatch", b"awatch"], Hint::Watches),
    Row(&[b"display", b"undisplay"], Hint::Displays),
    Row(&[b"frame", b"f", b"up", b"down"], Hint::Frames),
    Row(
        &[b"run", b"r", b"start", b"starti", b"restart", b"kill"],
        Hint::Beginning,
    ),
    Row(&[b"continue", b"c", b"cont"], Hint::Going),
    Row(&[b"whatis", b"ptype", b"explore"], Hint::Types),
    Row(&[b"info", b"i"], Hint::Lists),
    Row(&[b"set", b"show"], Hint::Settings),
    Row(
        &[
            b"goto",
            b"last",
            b"changes",
            b"when",
            b"lanes",
            b"record",
            b"checkpoint",
        ],
        Hint::AtThePrompt,
    ),
    Row(
        &[
            b"jump",
            b"call",
            b"return",
            b"thread",
            b"interrupt",
            b"printf",
            b"echo",
            b"output",
            b"disassemble",
            b"layout",
            b"apropos",
            b"source",
            b"define",
            b"alias",
            b"python",
            b"shell",
            b"catch",
            b"save",
        ],
        Hint::OfGdb,
    ),
];

/// The hint of a line: by its first word, where this stands alone or is followed by what no expression goes on by.
pub(crate) fn hint_in(line: &[u8]) -> Option<Hinted>
    ensures { result ≡ spec.hint_in line.now }
{
    let (word, rest) = next_word(Marks::OfCommands, line)?;
    match next_word(Marks::OfCommands, rest) {
        None => hint_by(true, word),
        Some((argument, _)) => hint_before(word, argument),
    }
}

/// The hint of a line of more words than one, by the first two.
fn hint_before(word: &[u8], argument: &[u8]) -> Option<Hinted>
    ensures { result ≡ spec.hint_of_words (word.now ∷ argument.now ∷ []) }
{
    if is_argument(argument) {
        hint_by(false, unformatted(word))
    } else {
        None
    }
}

/// The hint of a word, of a line of one word alone or of more.
fn hint_by(is_alone: bool, word: &[u8]) -> Option<Hinted>
    ensures { result ≡ spec.hint_by is_alone (spec.hint_of spec.rows word.now) }
{
    match hint_of(&ROWS, word) {
        Some(hint) => Some(Hinted { hint, is_alone }),
        None => None,
    }
}

/// The hint of the first row that has a word.
fn hint_of(rows: &[Row], word: &[u8]) -> Option<Hint>
    ensures { result ≡ spec.hint_of (map row_view rows.now) word.now }
{
    for Row(words, hint) in rows {
        if is_one_of(words, word) {
            return Some(*hint);
        }
    }
    None
}

/// Whether a word is one of some.
fn is_one_of(words: &[&[u8]], word: &[u8]) -> bool
    ensures { result ≡ spec.is_one_of (texts words.now) word.now }
{
    for other in words {
        if is_same(word, other) {
            return true;
        }
    }
    false
}

/// Whether a word behind a first one is such that no expression goes on by it.
fn is_argument(word: &[u8]) -> bool
    ensures { result ≡ spec.is_argument word.now }
{
    match word {
        [first, ..] => is_name_byte(*first) || *first == b'"',
        [] => false,
    }
}

/// A word without the letters of a format behind `/`.
fn unformatted(word: &[u8]) -> &[u8]
    ensures { result.now ≡ spec.unformatted word.now }
{
    &word[..plain_len(word)]
}

/// How many bytes stand before the first `/`.
fn plain_len(word: &[u8]) -> usize
    ensures run { result ≡ prefix_len (λ byte. not (byte == 47)) word.now }
    ensures within { result ≤ length word.now }
{
    word.iter().take_while(|byte| **byte != b'/').count()
}

/// What to do in place of such a line.
pub(crate) fn hint_text(hint: Hint) -> &'static str
    ensures { result.now ≡ spec.hint_text hint }
{
    match hint {
        Hint::Source => "The editor shows the source; `backtrace` lists where the frames stand.",
        Hint::Line => {
            "Set a breakpoint on the line, or go to it by the editor's jump to the cursor; `continue` and `next` are done here."
        }
        Hint::Breakpoints => {
            "`break LINE` and `delete N` are done here; functions, conditions, counts and messages are set at the editor's breakpoints."
        }
        Hint::Deleting => "`delete N` deletes one breakpoint or watch, `delete` alone all of them.",
        Hint::Watches => {
            "`watch T` takes a variable of the file, a lane or an element of one; its condition is set at the editor's data breakpoint."
        }
        Hint::Displays => {
            "Put the expression on the editor's watch list: it is shown at each stop."
        }
        Hint::Frames => {
            "Select the frame in the editor's call stack: what is typed here is looked up there."
        }
        Hint::Beginning => {
            "The editor's restart begins anew; `reverse-continue` goes back to a breakpoint or to the beginning."
        }
        Hint::Going => {
            "`continue` takes no number here: how often a stop is passed is set at the editor's breakpoint."
        }
        Hint::Types => {
            "The editor shows the types beside the variables of a frame; a name alone shows its values."
        }
        Hint::Lists => {
            "`info locals`, `info args` and `info breakpoints` are done here; the others are at the prompt: rinddecade debug SOURCE."
        }
        Hint::Settings => "`set var T = V` and `set record full insn-number-max N` are done here.",
        Hint::AtThePrompt => "This is done at the prompt: rinddecade debug SOURCE.",
        Hint::OfGdb => {
            "This command of GDB has nothing to do here; `help` lists what can be typed."
        }
    }
}
