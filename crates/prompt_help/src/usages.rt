//! What may follow the words of a command.
use crate::explanations::{Reason, first_word, why_of};
use crate::fronts::whole_word;
use debug_words::{Marks, next_word};

/// The words of commands that move, print and stop, and what may follow them.
const FIRST: [Reason; 16] = [
    Reason(
        &[b"step", b"s", b"stepi", b"si"],
        b"A number of steps may follow `step`, from 1 to 10000000, as `step 3`; `until N` goes on to line N.",
    ),
    Reason(
        &[b"next", b"n", b"nexti", b"ni"],
        b"A number of steps may follow `next`, from 1 to 10000000, as `next 3`; `until N` goes on to line N.",
    ),
    Reason(
        &[b"finish", b"fin"],
        b"`finish` stands alone: it leaves the function of the top frame, and `up` shows the frame that it comes back to.",
    ),
    Reason(
        &[b"run", b"r"],
        b"`run` stands alone: what the program is given is named when the debugger is called, by --input and --entry.",
    ),
    Reason(
        &[b"continue", b"c", b"cont", b"fg"],
        b"`continue` stands alone, without a count or arguments: an empty line repeats it, and `ignore N COUNT` passes so many stops of a breakpoint.",
    ),
    Reason(
        &[b"until", b"u", b"advance"],
        b"A line follows `until`, as `until 12`, `until FILE:12`, or a function of the source.",
    ),
    Reason(
        &[b"start", b"starti"],
        b"`start` stands alone: it shows where the program begins.",
    ),
    Reason(
        &[b"reverse-step", b"rs", b"reverse-stepi", b"rsi"],
        b"A number of steps may follow `reverse-step`, from 1 to 10000000, as `reverse-step 3`.",
    ),
    Reason(
        &[b"reverse-next", b"rn", b"reverse-nexti", b"rni"],
        b"A number of steps may follow `reverse-next`, from 1 to 10000000, as `reverse-next 3`.",
    ),
    Reason(
        &[b"reverse-finish"],
        b"`reverse-finish` stands alone: it goes back to the call of the function of the top frame.",
    ),
    Reason(
        &[b"reverse-continue", b"rc"],
        b"`reverse-continue` stands alone, without a count: an empty line repeats it.",
    ),
    Reason(
        &[b"undo"],
        b"`undo` stands alone: an empty line repeats it.",
    ),
    Reason(
        &[b"print", b"p", b"inspect", b"output"],
        b"A variable or an expression is shown, in the frame that is selected, as `print x`, `print x[2]` and `print x + 1`; `print x = 3` sets a variable.",
    ),
    Reason(
        &[b"p/x", b"print/x", b"output/x"],
        b"A variable or an expression is shown in hexadecimal digits, as `p/x x`, `p/x x[2]` and `p/x x + 1`.",
    ),
    Reason(
        &[b"set"],
        b"`set var T = V` sets a variable, a lane or an element by its number to a number from -9223372036854775808 to 18446744073709551615, `true` or `false`, as `set var x[2] = -3`; no expression is worked out.",
    ),
    Reason(
        &[b"display"],
        b"A variable or an expression is displayed, as `display x`, `display x[2]` and `display x + 1`.",
    ),
];

/// The words of the other commands, and what may follow them.
const OTHERS: [Reason; 19] = [
    Reason(
        &[b"undisplay"],
        b"A number may follow `undisplay`, that of `info display`; without one nothing is displayed any more.",
    ),
    Reason(
        &[b"break", b"b", b"br"],
        b"A line follows `break`, as `break 12`, `break FILE:12` with the name of this source, or a function of the source; `if EXPRESSION` may stand behind it.",
    ),
    Reason(
        &[b"tbreak", b"tb"],
        b"A line follows `tbreak`, as `tbreak 12`, `tbreak FILE:12` with the name of this source, or a function of the source; `if EXPRESSION` may stand behind it.",
    ),
    Reason(
        &[b"watch"],
        b"A variable is watched, or a lane or an element of it by its number, as `watch total` and `watch table[3]`, or an expression, as `watch total > 9`; one of a function and an expression while its frame is there. `if EXPRESSION` may stand behind it.",
    ),
    Reason(
        &[b"delete", b"d", b"del"],
        b"Numbers and ranges may follow `delete`, those of `info breakpoints`, as `delete 1 3-5`; alone it deletes all.",
    ),
    Reason(
        &[b"clear"],
        b"A line follows `clear`, as `clear 12`, `clear FILE:12` with the name of this source, or a function of the source; `delete N` deletes a breakpoint by its number.",
    ),
    Reason(
        &[b"disable", b"dis"],
        b"Numbers and ranges may follow `disable`, those of `info breakpoints`, as `disable 1 3-5`; alone it disables all.",
    ),
    Reason(
        &[b"enable", b"en"],
        b"Numbers and ranges may follow `enable`, those of `info breakpoints`, as `enable 1 3-5`; alone it enables all.",
    ),
    Reason(
        &[b"info", b"i"],
        b"`info` lists: breakpoints, watchpoints, locals, args, variables, functions [TEXT], display, frame, stack, lanes, record, checkpoints, source, line [N], program.",
    ),
    Reason(
        &[b"backtrace", b"bt", b"where"],
        b"A number of frames may follow `backtrace`, the top one first, or `full`, which shows their variables.",
    ),
    Reason(
        &[b"frame", b"f"],
        b"The number of a frame may follow `frame`, as `where` lists them: 0 is the top one.",
    ),
    Reason(&[b"up"], b"A number of frames may follow `up`, as `up 2`."),
    Reason(
        &[b"down"],
        b"A number of frames may follow `down`, as `down 2`.",
    ),
    Reason(
        &[b"list", b"l"],
        b"A line or two may follow `list`, as `list 12`, `list 10,15`, `list -`, or a function of the source.",
    ),
    Reason(
        &[b"whatis", b"ptype"],
        b"A variable has a type, or a lane or an element of it, as `whatis x`; no type of another expression is told.",
    ),
    Reason(
        &[b"record"],
        b"All is recorded from the start, and it is not stopped, saved or deleted: `info record` says how much is kept, `set record full insn-number-max N` how much at most.",
    ),
    Reason(&[b"echo"], b"A text follows `echo`."),
    Reason(
        &[b"help", b"h"],
        b"`help` lists the commands, and `help step` says what one does.",
    ),
    Reason(&[b"quit", b"q", b"exit"], b"`quit` stands alone."),
];

/// How the number of events that are kept is set.
const HISTORY: &[u8] =
    b"`set record full insn-number-max N` says how many events are kept, from 1 to 65536, or `unlimited`.";

/// What may follow the first word of a text, where it is the word of a command or a front of it.
pub fn usage_of(text: &[u8]) -> Option<&'static [u8]> {
    let (typed, rest) = next_word(Marks::OfCommands, text)?;
    let word = whole_word(typed);
    if word == b"set".as_slice() && first_word(rest) == b"record".as_slice() {
        return Some(HISTORY);
    }
    why_of(&FIRST, word).or(why_of(&OTHERS, word))
}
