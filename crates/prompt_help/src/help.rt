//! What commands there are, and what each does.
use crate::explanations::first_word;
use crate::fronts::{asks_lanes, is_info, whole_word};
use debug_words::{Marks, next_word};

/// A command: the words that it begins with, how it is used, and what it does.
#[derive(Clone, Copy, Debug)]
pub struct Topic {
    names: &'static [&'static [u8]],
    pub usage: &'static [u8],
    pub text: &'static [u8],
}

/// The commands that move, print and stop, in the order in which help lists them.
const FIRST: [Topic; 16] = [
    Topic {
        names: &[b"step", b"s", b"stepi", b"si"],
        usage: b"step [N]",
        text: b"does N steps, also into functions; one step is one statement, test or round. `stepi` and `si` are the same.",
    },
    Topic {
        names: &[b"next", b"n", b"nexti", b"ni"],
        usage: b"next [N]",
        text: b"does N steps of this function, and over calls.",
    },
    Topic {
        names: &[b"finish", b"fin"],
        usage: b"finish",
        text: b"goes on until this function has returned, and tells the value that a variable got.",
    },
    Topic {
        names: &[b"run", b"r"],
        usage: b"run",
        text: b"begins the program: it stops at once at a breakpoint of the first line. Where it has begun, everything is taken back, also what `set var` set, and it begins anew.",
    },
    Topic {
        names: &[b"continue", b"c", b"cont", b"fg"],
        usage: b"continue",
        text: b"goes on to a breakpoint, a change of a watched variable, a fault or the end.",
    },
    Topic {
        names: &[b"until", b"u", b"advance"],
        usage: b"until [N]",
        text: b"goes on to the first line from N on that has a step; without N the same as `next`. `advance N` is the same; N may be a function.",
    },
    Topic {
        names: &[b"start", b"starti"],
        usage: b"start",
        text: b"shows where the program begins. Where it has begun, everything is taken back first.",
    },
    Topic {
        names: &[b"reverse-step", b"rs", b"reverse-stepi", b"rsi"],
        usage: b"reverse-step [N]",
        text: b"takes N steps back.",
    },
    Topic {
        names: &[b"reverse-next", b"rn", b"reverse-nexti", b"rni"],
        usage: b"reverse-next [N]",
        text: b"takes N steps of this function back, and over calls.",
    },
    Topic {
        names: &[b"reverse-finish"],
        usage: b"reverse-finish",
        text: b"goes back to the call of this function.",
    },
    Topic {
        names: &[b"reverse-continue", b"rc"],
        usage: b"reverse-continue",
        text: b"goes back to a breakpoint, a change of a watched variable, or as far as the history goes.",
    },
    Topic {
        names: &[b"undo"],
        usage: b"undo",
        text: b"takes the last step, or the last change by `set var`, back.",
    },
    Topic {
        names: &[b"print", b"p", b"inspect", b"output"],
        usage: b"print T",
        text: b"shows a variable T, one lane or element as T[K], eight elements of an array as T@8 or T[K]@8, or the value of an expression, in the frame that is selected; lanes that wait stand in brackets. `print T = V` sets it first. Each value gets a number: `print $3` shows it again, `show values` lists ten.",
    },
    Topic {
        names: &[
            b"p/x",
            b"print/x",
            b"output/x",
            b"p/t",
            b"p/o",
            b"p/u",
            b"p/c",
        ],
        usage: b"p/x T",
        text: b"shows a variable, a lane, an element or an expression in hexadecimal digits, `p/t` in binary and `p/o` in octal ones, `p/u` without a sign, `p/c` as a character. A negative number has the bits of its type.",
    },
    Topic {
        names: &[b"set"],
        usage: b"set var T = V",
        text: b"gives a variable, a lane or an element a value: T = V does for all lanes. `set T = V` is the same; `undo` takes it back.",
    },
    Topic {
        names: &[
            b"display",
            b"display/x",
            b"display/t",
            b"display/o",
            b"display/u",
            b"display/c",
        ],
        usage: b"display [T]",
        text: b"shows T, or the value of an expression, now and after each move; `display/x` and its like show it as `p/x` does. Without T all that is displayed is shown.",
    },
];

/// The other commands.
const OTHERS: [Topic; 22] = [
    Topic {
        names: &[b"undisplay"],
        usage: b"undisplay [N]",
        text: b"displays N no more, or nothing.",
    },
    Topic {
        names: &[b"break", b"b", b"br"],
        usage: b"break N [if E]",
        text: b"stops where the program comes to the first line from N on that has a step; N may be FILE:N or a function. With `if E` it stops only where E is not 0 in an active lane.",
    },
    Topic {
        names: &[b"tbreak", b"tb"],
        usage: b"tbreak N [if E]",
        text: b"as `break`, and is deleted when it has stopped a move.",
    },
    Topic {
        names: &[b"watch"],
        usage: b"watch [-w] T [if E]",
        text: b"stops where a variable, a lane or an element of it, or the value of an expression has changed, also going back; one of a function and an expression while its frame is there. With `-w` it stops behind each statement that sets a variable, an array or an element, whether that changes it or not.",
    },
    Topic {
        names: &[b"condition"],
        usage: b"condition N [E]",
        text: b"lets `continue`, `reverse-continue` and `run` stop at breakpoint or watch N only where E is not 0 in an active lane; without E always.",
    },
    Topic {
        names: &[b"ignore"],
        usage: b"ignore N COUNT",
        text: b"passes so many stops of breakpoint or watch N.",
    },
    Topic {
        names: &[b"commands"],
        usage: b"commands [N ..]",
        text: b"is followed by lines up to a line `end`: they are done each time one of these breakpoints and watches, or the last one, has stopped a move. No lines take those away that it had.",
    },
    Topic {
        names: &[b"delete", b"d", b"del"],
        usage: b"delete [N ..]",
        text: b"deletes the breakpoints and watches of these numbers, among them ranges as 3-5, or all.",
    },
    Topic {
        names: &[b"clear"],
        usage: b"clear N",
        text: b"deletes the first breakpoint on the line where `break N` would make one; N may be FILE:N or a function.",
    },
    Topic {
        names: &[b"disable", b"dis"],
        usage: b"disable [N ..]",
        text: b"lets `continue`, `reverse-continue` and `run` pass these breakpoints and watches, or all; conditions and counts stay.",
    },
    Topic {
        names: &[b"enable", b"en"],
        usage: b"enable [N ..]",
        text: b"lets them stop there again.",
    },
    Topic {
        names: &[b"info", b"i"],
        usage: b"info WHAT",
        text: b"lists: breakpoints, watchpoints, locals, args, variables, functions [TEXT], display, frame, stack, lanes, record, checkpoints, source, line [N], program.",
    },
    Topic {
        names: &[b"backtrace", b"bt", b"where"],
        usage: b"backtrace [N]",
        text: b"lists the frames, the top one first, or the first N; `backtrace full` with their variables.",
    },
    Topic {
        names: &[b"frame", b"f"],
        usage: b"frame [N]",
        text: b"selects frame N, the top one being 0, and shows it: names then stand for its variables, up to the next move.",
    },
    Topic {
        names: &[b"up"],
        usage: b"up [N]",
        text: b"selects the frame of the caller.",
    },
    Topic {
        names: &[b"down"],
        usage: b"down [N]",
        text: b"selects the frame that was called.",
    },
    Topic {
        names: &[b"list", b"l"],
        usage: b"list [N]",
        text: b"shows ten lines of the source, around line N or where the program stands; again shows the next ones. `list 3,9`, `list -` and `list NAME` show others, and `set listsize N` shows N at once.",
    },
    Topic {
        names: &[b"whatis", b"ptype"],
        usage: b"whatis T",
        text: b"shows the type of a variable.",
    },
    Topic {
        names: &[b"record"],
        usage: b"record",
        text: b"says how much can be taken back; all is recorded. `set record full insn-number-max N` sets how much at most.",
    },
    Topic {
        names: &[b"echo"],
        usage: b"echo TEXT",
        text: b"writes a text.",
    },
    Topic {
        names: &[b"help", b"h"],
        usage: b"help [COMMAND]",
        text: b"lists the commands, or says what one does.",
    },
    Topic {
        names: &[b"quit", b"q", b"exit"],
        usage: b"quit",
        text: b"ends; so does Ctrl-D on an empty line.",
    },
];

/// The commands that go to moments of the run, and tell of them.
const MOMENTS: [Topic; 7] = [
    Topic {
        names: &[b"goto"],
        usage: b"goto N",
        text: b"goes back or on to the moment after N steps of the run; no breakpoint stops it.",
    },
    Topic {
        names: &[b"last"],
        usage: b"last T",
        text: b"goes back to the statement that changed a variable, a lane or an element last; of a variable of a function within its frame, to its declaration or to where the frame began.",
    },
    Topic {
        names: &[b"changes"],
        usage: b"changes T [N]",
        text: b"lists its last ten changes, or N, the newest first; the program stands where it stood.",
    },
    Topic {
        names: &[b"when"],
        usage: b"when [-a] EXPR",
        text: b"tells the first moment of the run at which EXPR is not 0 in an active lane, with those lanes, and how many such moments there are; -a lists twenty. The program stands where it stood.",
    },
    Topic {
        names: &[b"lanes"],
        usage: b"info lanes",
        text: b"tells the share of the active lanes of the steps so far: of the line and the function of the frame that is selected, and of the run. The program stands where it stood.",
    },
    Topic {
        names: &[b"checkpoint"],
        usage: b"checkpoint",
        text: b"notes the moment; `info checkpoints` lists those that are noted, and `delete checkpoint N` notes one no more.",
    },
    Topic {
        names: &[b"restart"],
        usage: b"restart N",
        text: b"goes to the moment of checkpoint N.",
    },
];

/// All commands, in three parts, in the order in which help lists them.
pub fn topics() -> [&'static [Topic]; 3] {
    [&FIRST, &OTHERS, &MOMENTS]
}

/// The command that has the first word of a text, or of which this is a front; of `info lanes` what that tells.
pub fn topic_of(text: &[u8]) -> Option<Topic> {
    let (word, rest) = next_word(Marks::OfCommands, text)?;
    if is_info(word) && asks_lanes(first_word(rest)) {
        topic_in(&MOMENTS, b"lanes")
    } else {
        topic_named(whole_word(word))
    }
}

/// The command that has a word.
fn topic_named(word: &[u8]) -> Option<Topic> {
    topic_in(&FIRST, word)
        .or(topic_in(&OTHERS, word))
        .or(topic_in(&MOMENTS, word))
}

/// The command that has a word, among these.
fn topic_in(topics: &[Topic], word: &[u8]) -> Option<Topic> {
    for topic in topics {
        if topic.names.iter().any(|name| *name == word) {
            return Some(*topic);
        }
    }
    None
}
