//! Why there are no such commands as GDB has.
use crate::fronts::{is_info, whole_word};
use crate::settings::why_of_setting;
use debug_words::{Marks, next_word};

/// Words, and what is said of a line that begins with them.
#[derive(Clone, Copy)]
pub(crate) struct Reason(
    pub(crate) &'static [&'static [u8]],
    pub(crate) &'static [u8],
);

/// The first words of commands.
const COMMANDS: [Reason; 13] = [
    Reason(
        &[b"kill", b"k"],
        b"There is no process to kill: the program runs inside the debugger; `quit` ends it.",
    ),
    Reason(
        &[b"call"],
        b"A function is not called from the prompt: only the source calls functions.",
    ),
    Reason(
        &[b"x"],
        b"Memory has no addresses here: `print T` shows a variable or an array, `p/x T` in hexadecimal digits.",
    ),
    Reason(
        &[b"jump", b"j"],
        b"Going elsewhere is not possible: `reverse-step` and its kin go back the way that the program came.",
    ),
    Reason(
        &[b"return"],
        b"A function is not left early: `finish` runs it to its end, `reverse-finish` goes back to its call.",
    ),
    Reason(
        &[b"thread", b"threads", b"taas", b"tfaas"],
        b"There are no threads: the gang's lanes run together, and the marks behind a place show which are active.",
    ),
    Reason(
        &[b"inferior", b"inferiors", b"add-inferior"],
        b"There is one program.",
    ),
    Reason(
        &[b"interrupt"],
        b"The program stands while the prompt waits: `--steps N` limits the moves of one command.",
    ),
    Reason(
        &[b"apropos"],
        b"`help` lists all commands with what each does.",
    ),
    Reason(
        &[
            b"display/i",
            b"display/a",
            b"display/f",
            b"display/s",
            b"display/z",
        ],
        b"`display T` shows decimal digits after each move; the letters of other digits are `/x`, `/t`, `/o`, `/u` and `/c`.",
    ),
    Reason(
        &[b"frame/", b"faas", b"select-frame"],
        b"`frame N` selects a frame and shows it; `where` lists the frames with their numbers.",
    ),
    Reason(
        &[b"rwatch", b"awatch"],
        b"Only changes are watched, and not reads: `watch T` stops where T changes, `changes T` lists its changes, and `break N` stops on a line that reads it.",
    ),
    Reason(
        &[b"hbreak", b"thbreak", b"rbreak", b"dprintf"],
        b"There is one kind of breakpoint: `break N`, and `tbreak N`, which goes after its first stop.",
    ),
];

/// Further first words.
const FURTHER: [Reason; 14] = [
    Reason(
        &[b"catch", b"tcatch", b"handle", b"signal", b"signals"],
        b"There are no signals or exceptions: a fault stops the program by itself, before the statement that has it.",
    ),
    Reason(
        &[
            b"attach",
            b"detach",
            b"file",
            b"exec-file",
            b"load",
            b"core-file",
            b"symbol-file",
            b"directory",
        ],
        b"The source is named when the program is called: rinddecade debug SOURCE.",
    ),
    Reason(
        &[b"shell", b"make", b"!"],
        b"No other program is started from here.",
    ),
    Reason(
        &[
            b"source",
            b"define",
            b"document",
            b"python",
            b"py",
            b"guile",
            b"alias",
        ],
        b"There are no scripts or commands of one's own; lines may come from a file or a pipe on standard input.",
    ),
    Reason(
        &[b"printf", b"eval"],
        b"No format is filled in: `print T` shows a variable, `p/x T` in hexadecimal digits, `echo TEXT` writes a text.",
    ),
    Reason(
        &[
            b"layout",
            b"tui",
            b"focus",
            b"refresh",
            b"winheight",
            b"update",
        ],
        b"There are no windows: the source around the place is shown after each move.",
    ),
    Reason(
        &[b"disassemble", b"disas"],
        b"No machine code is shown: the debugger steps the source.",
    ),
    Reason(
        &[b"show"],
        b"Settings are not shown: `info` lists what there is, and `help` the commands.",
    ),
    Reason(
        &[b"target", b"monitor", b"remote", b"compile"],
        b"The program runs inside the debugger, and not elsewhere.",
    ),
    Reason(
        &[b"edit", b"search", b"forward-search"],
        b"The source is not edited or searched here; `list N` shows it.",
    ),
    Reason(
        &[
            b"save",
            b"dump",
            b"restore",
            b"generate-core-file",
            b"gcore",
        ],
        b"Nothing is saved: keep the lines in a file, which standard input may come from; the same lines give the same answers again.",
    ),
    Reason(
        &[
            b"macro",
            b"maintenance",
            b"mt",
            b"skip",
            b"tty",
            b"unset",
            b"cd",
            b"pwd",
        ],
        b"This command of GDB has nothing to do here; `help` lists those that there are.",
    ),
    Reason(
        &[b"explore"],
        b"`whatis T` shows the type of a variable, `print T` its values.",
    ),
    Reason(
        &[b"p/a", b"p/f", b"p/s", b"p/z", b"p/i", b"output/d"],
        b"Values are shown in decimal digits by `print T`; the letters of other digits are `/x`, `/t`, `/o`, `/u` and `/c`.",
    ),
];

/// The words behind `info`.
const LISTS: [Reason; 4] = [
    Reason(
        &[b"registers", b"all-registers", b"reg"],
        b"There are no registers: `info locals`, `info args` and `print T` show variables.",
    ),
    Reason(
        &[b"threads", b"inferiors"],
        b"There are no threads: the gang's lanes run together, and the marks behind a place show which are active.",
    ),
    Reason(
        &[b"types", b"symbol", b"scope", b"address"],
        b"Names have no addresses: `whatis T` shows the type of a variable, `info locals`, `info args` and `info variables` what there is.",
    ),
    Reason(
        &[
            b"signals",
            b"sharedlibrary",
            b"files",
            b"proc",
            b"target",
            b"macro",
            b"os",
        ],
        b"There is no such thing here: the program runs inside the debugger.",
    ),
];

/// What may stand in the text behind a command that shows or stops, and why nothing is done for it.
const PARTS: [Reason; 2] = [
    Reason(
        &[b"programIndex", b"programCount", b"taskIndex"],
        b"Lanes have no names here: values stand in the order of the lanes, lane 0 first, and `print T[K]` shows that of lane K.",
    ),
    Reason(
        &[b"("],
        b"No function is called from the prompt, and no expression is worked out: `break NAME` stops in a function, where `print T` shows its variables and `whatis T` their types.",
    ),
];

/// Marks that GDB's expressions have, and why none here has them.
const MARKS: [Reason; 2] = [
    Reason(
        &[b"@"],
        b"`print T` shows all elements of an array, `print T[K]` the element K, and `print T[K]@8` eight elements from there on.",
    ),
    Reason(
        &[b"$"],
        b"There are no registers, and a value that was printed stands alone: `print $3` shows number 3 again, `show values` lists the last ones.",
    ),
];

/// Why nothing else is enabled or disabled, and not for a time.
const ENABLING: [Reason; 2] = [
    Reason(
        &[b"once", b"delete", b"count"],
        b"What is enabled stays so: `tbreak N` makes a breakpoint that goes once it has stopped a move, `ignore N COUNT` passes stops.",
    ),
    Reason(
        &[b"display", b"mem"],
        b"Breakpoints and watches are enabled and disabled: `undisplay N` displays a value no more, `display T` again.",
    ),
];

/// Why nothing is done for an address.
const NO_ADDRESS: &[u8] = b"Variables have no addresses: `print T` shows one, `whatis T` its type.";

/// The commands whose text may have a part that nothing is done for.
const SHOWING: [&[u8]; 19] = [
    b"print", b"p", b"p/x", b"p/t", b"p/o", b"p/u", b"p/c", b"print/x", b"output", b"inspect",
    b"display", b"whatis", b"ptype", b"break", b"b", b"br", b"tbreak", b"tb", b"watch",
];

/// Why there is no such command, where it is known.
pub fn explanation(text: &[u8]) -> Option<&'static [u8]> {
    if text.first() == Some(&b'!') {
        return why_of_command(b"!");
    }
    let (typed, rest) = next_word(Marks::OfCommands, text)?;
    if is_info(typed) {
        return why_of(&LISTS, first_word(rest));
    }
    let word = whole_word(typed);
    if word == b"set".as_slice() {
        return why_of_setting(rest);
    }
    if is_one_of(&[b"enable", b"en", b"disable", b"dis"], word) {
        return why_of(&ENABLING, first_word(rest));
    }
    if is_one_of(&SHOWING, word) {
        return why_of_part(rest);
    }
    why_of_command(word).or(why_of_command(front(word)))
}

/// Why a text is no expression, where it has a mark that GDB's expressions have.
pub fn why_no_value(text: &[u8]) -> Option<&'static [u8]> {
    if begins_with_address(text) {
        return Some(NO_ADDRESS);
    }
    why_of_marks(&MARKS, text)
}

/// Why no command has a word, where it is known.
fn why_of_command(word: &[u8]) -> Option<&'static [u8]> {
    why_of(&COMMANDS, word).or(why_of(&FURTHER, word))
}

/// The first word of a text, or nothing.
pub(crate) fn first_word(text: &[u8]) -> &[u8] {
    match next_word(Marks::OfCommands, text) {
        Some((word, _)) => word,
        None => &[],
    }
}

/// Whether a word is one of these.
pub(crate) fn is_one_of(words: &[&[u8]], word: &[u8]) -> bool {
    words.iter().any(|other| *other == word)
}

/// Why nothing is done for what a text has.
fn why_of_part(text: &[u8]) -> Option<&'static [u8]> {
    why_no_value(text).or(why_of_marks(&PARTS, text))
}

/// Why nothing is done for the first of these parts that a text has.
fn why_of_marks(reasons: &[Reason], text: &[u8]) -> Option<&'static [u8]> {
    for Reason(parts, why) in reasons {
        if parts.iter().any(|part| has_part(text, part)) {
            return Some(why);
        }
    }
    None
}

/// Whether a text begins with a mark of an address, behind blanks.
fn begins_with_address(text: &[u8]) -> bool {
    match first_word(text).first() {
        Some(byte) => *byte == b'&' || *byte == b'*',
        None => false,
    }
}

/// Whether a text has a mark, or a word by itself.
fn has_part(text: &[u8], part: &[u8]) -> bool {
    if part.len() == 1 {
        return text.iter().any(|byte| part.first() == Some(byte));
    }
    let mut rest = text;
    for _ in 0..text.len() {
        match next_word(Marks::OfCommands, rest) {
            Some((word, behind)) => {
                if word == part {
                    return true;
                }
                rest = behind;
            }
            None => return false,
        }
    }
    false
}

/// A word up to its first `/`, behind which GDB has formats.
fn front(word: &[u8]) -> &[u8] {
    match word.iter().position(|byte| *byte == b'/') {
        Some(end) => word.get(..end).unwrap_or(word),
        None => word,
    }
}

/// The reason that has a word.
pub(crate) fn why_of(reasons: &[Reason], word: &[u8]) -> Option<&'static [u8]> {
    for Reason(words, why) in reasons {
        if words.iter().any(|other| *other == word) {
            return Some(why);
        }
    }
    None
}
