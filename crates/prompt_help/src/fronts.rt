//! Commands that are typed in part: by three letters or more, as `lis` for `list`.

/// The commands that have fronts. Of two with one front the first one counts; `reverse-` is none, so that no shorter front is one of its kin.
const COMMANDS: [&[u8]; 43] = [
    b"step",
    b"next",
    b"continue",
    b"finish",
    b"reverse-",
    b"reverse-step",
    b"reverse-next",
    b"reverse-continue",
    b"reverse-finish",
    b"until",
    b"advance",
    b"start",
    b"break",
    b"tbreak",
    b"watch",
    b"condition",
    b"ignore",
    b"delete",
    b"clear",
    b"disable",
    b"enable",
    b"print",
    b"output",
    b"display",
    b"undisplay",
    b"backtrace",
    b"where",
    b"frame",
    b"down",
    b"list",
    b"whatis",
    b"ptype",
    b"checkpoint",
    b"restart",
    b"goto",
    b"last",
    b"changes",
    b"record",
    b"info",
    b"inspect",
    b"help",
    b"quit",
    b"exit",
];

/// The fewest letters of a front.
const FEWEST: usize = 3;

/// The command of which a word is a front, else the word.
pub(crate) fn whole_word(word: &[u8]) -> &[u8] {
    if word.len() < FEWEST {
        return word;
    }
    for command in &COMMANDS {
        if is_front(word, command) {
            return command;
        }
    }
    word
}

/// Whether a word is `info` or a front of it.
pub(crate) fn is_info(word: &[u8]) -> bool {
    !word.is_empty() && is_front(word, b"info")
}

/// Whether a word asks `info` for the lanes: two letters or more, since one asks for the locals.
pub(crate) fn asks_lanes(word: &[u8]) -> bool {
    word.len() >= 2 && is_front(word, b"lanes")
}

/// Whether a word begins with another one, or is it.
fn is_front(front: &[u8], word: &[u8]) -> bool {
    word.strip_prefix(front).is_some()
}
