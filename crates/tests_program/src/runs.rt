//! A worked row through devices that fail or give little, and refusals.
use crate::running::{AMPLE, Asked, Devices, OPTIONS, answers, is_told};
use crate::told::{holds, holds_at};
use gang_model::{RefusalNumber, SourceRefusal};
use gang_types::Place;
use ispc_debugger::run;
use ispc_options::Options;
use ispc_refusals::Refusal;
use ispc_script::split_script;
use tests_devices::{BlankReader, PieceWriter};
use transcript::Ending;

pub(crate) const SOURCE: &[u8] =
    b"export void go() {\n    int x = programIndex * 3;\n    x += 1;\n}\n";

const COMMANDS: &[u8] = b"step\nstep\nprint x\nreverse-step\nprint x\n";

const ANSWERS: &[u8] =
    b"at 3:5 go depth 1 lanes 1111\nat 4:1 go depth 1 lanes 1111\nx = 1 4 7 10\nat 3:5 go depth 1 lanes 1111\nx = 0 3 6 9\n";

/// A source whose last statement faults in each lane.
const FAULTY: &[u8] =
    b"uniform int t = 0;\nexport void go() {\n    int x = programIndex * 3;\n    t = 5;\n    x = 6 / (t - 5);\n}\n";

/// Commands with every kind of answer, where a forward command makes one move at most.
const EVERY_COMMAND: &[u8] = b"break 4\n\
    watch t\n\
    info breakpoints\n\
    info locals\n\
    continue\n\
    set var x[1] = 7\n\
    info locals\n\
    continue\n\
    step\n\
    backtrace\n\
    undo\n\
    undo\n\
    finish\n\
    reverse-continue\n\
    delete 2\n\
    delete\n\
    continue\n\
    next\n";

const EVERY_ANSWER: &[u8] = b"breakpoint 1 at line 4\n\
    watch 2: t\n\
    1 breakpoint line 4\n2 watch t\n\
    none\n\
    breakpoint 1: at 4:5 go depth 1 lanes 1111\n\
    x[1] = 7\n\
    x = 0 7 6 9\n\
    watch 2: at 5:5 go depth 1 lanes 1111\n\
    fault F1 DivideByZero lane 0: at 5:5 go depth 1 lanes 1111\n\
    at 5:5 go depth 1 lanes 1111\n\
    undone step: at 4:5 go depth 1 lanes 1111\n\
    undone poke: at 4:5 go depth 1 lanes 1111\n\
    C6 Outermost\n\
    history end: at 3:5 go depth 1 lanes 1111\n\
    deleted 2\n\
    deleted all\n\
    step limit: at 4:5 go depth 1 lanes 1111\n\
    at 5:5 go depth 1 lanes 1111\n";

// The worked run.
const WORKED: Asked<'static> = Asked {
    source: SOURCE,
    input: b"",
    commands: COMMANDS,
};

// The run with an answer of every kind.
const EVERY: Asked<'static> = Asked {
    source: FAULTY,
    input: b"",
    commands: EVERY_COMMAND,
};

#[test]
fn runs_forwards_and_back(rt: HostRuntime) {
    for &most in &[1, 2, 7, 29, 512] {
        let devices = Devices {
            given: most,
            taken: most,
            ..AMPLE
        };
        let end = Ending::EndOfCommands;
        let is_so = answers(rt.alloc(), WORKED, &OPTIONS, devices, end, ANSWERS);
        holds_at(&rt, is_so, "pieces", most);
    }
}

#[test]
fn stops_at_a_failed_write(rt: HostRuntime) {
    for room in 0..ANSWERS.len() {
        let devices = Devices {
            given: 7,
            taken: 3,
            room,
            ..AMPLE
        };
        let (end, text) = (Ending::WriteFault, &ANSWERS[..room]);
        let is_so = answers(rt.alloc(), WORKED, &OPTIONS, devices, end, text);
        holds_at(&rt, is_so, "a failed write", room);
    }
}

#[test]
fn stops_at_a_failed_write_of_any_answer(rt: HostRuntime) {
    let options = Options {
        steps: 1,
        ..OPTIONS
    };
    for room in 0..EVERY_ANSWER.len() + 1 {
        let devices = Devices {
            given: 64,
            taken: 5,
            room,
            ..AMPLE
        };
        let end = if room < EVERY_ANSWER.len() {
            Ending::WriteFault
        } else {
            Ending::EndOfCommands
        };
        let text = &EVERY_ANSWER[..room];
        let is_so = answers(rt.alloc(), EVERY, &options, devices, end, text);
        holds_at(&rt, is_so, "a failed write of any answer", room);
    }
}

/// A source of six statements that count.
const COUNTING: &[u8] =
    b"uniform int t = 0;\nexport void go() {\nt += 1;\nt += 1;\nt += 1;\nt += 1;\nt += 1;\nt += 1;\n}\n";

/// Commands that change how many events are kept.
const CHANGING: &[u8] = b"step 6\n\
    set record full insn-number-max 2\n\
    reverse-step 3\n\
    print t\n\
    set record full insn-number-max 6\n\
    step 2\n\
    reverse-step 2\n\
    reverse-step\n\
    set record full insn-number-max 65537\n\
    set record full insn-number-max 0\n\
    set record full insn-number-max 12345678\n\
    set record full insn-number-max 10000000\n";

const CHANGED: &[u8] = b"at 9:1 go depth 1 lanes 1111\n\
    history 2\n\
    history end: at 7:1 go depth 1 lanes 1111\n\
    t = 4\n\
    history 6\n\
    at 9:1 go depth 1 lanes 1111\n\
    at 7:1 go depth 1 lanes 1111\n\
    C3 NoHistory\n\
    C8 OutOfRange\n\
    C1 BadCommand\n\
    C1 BadCommand\n\
    C8 OutOfRange\n";

/// Commands that keep more events from the limit on, and take them back one by one.
const GROWING: &[u8] = b"step 4\n\
    set record full insn-number-max 6\n\
    set var t = 9\n\
    step 2\n\
    print t\n\
    undo\nundo\nundo\nundo\nundo\nundo\nundo\n\
    print t\n";

const GROWN: &[u8] = b"at 7:1 go depth 1 lanes 1111\n\
    history 6\n\
    t = 9\n\
    at 9:1 go depth 1 lanes 1111\n\
    t = 11\n\
    undone step: at 8:1 go depth 1 lanes 1111\n\
    undone step: at 7:1 go depth 1 lanes 1111\n\
    undone poke: at 7:1 go depth 1 lanes 1111\n\
    undone step: at 6:1 go depth 1 lanes 1111\n\
    undone step: at 5:1 go depth 1 lanes 1111\n\
    undone step: at 4:1 go depth 1 lanes 1111\n\
    C3 NoHistory\n\
    t = 1\n";

// A run of the source that counts.
fn counting<'a>(commands: &'a [u8]) -> Asked<'a> {
    Asked {
        source: COUNTING,
        input: b"",
        commands,
    }
}

#[test]
fn changes_the_history_limit(rt: HostRuntime) {
    let end = Ending::EndOfCommands;
    let options = Options {
        history: 4,
        ..OPTIONS
    };
    let asked = counting(CHANGING);
    let is_changed = answers(rt.alloc(), asked, &options, AMPLE, end, CHANGED);
    holds(&rt, is_changed, "a limit of 4 that changes");
    let options = Options {
        history: 3,
        ..OPTIONS
    };
    let asked = counting(GROWING);
    let is_grown = answers(rt.alloc(), asked, &options, AMPLE, end, GROWN);
    holds(&rt, is_grown, "a limit of 3 that grows");
}

#[test]
fn stops_at_a_failed_read(rt: HostRuntime) {
    for given in 0..COMMANDS.len() {
        let devices = Devices {
            given: 1,
            until_fault: given,
            taken: 100,
            room: 1000,
        };
        let written = match given {
            0..5 => 0,
            5..10 => 29,
            10..18 => 58,
            18..31 => 71,
            _ => 100,
        };
        let (end, text) = (Ending::ReadFault, &ANSWERS[..written]);
        let is_so = answers(rt.alloc(), WORKED, &OPTIONS, devices, end, text);
        holds_at(&rt, is_so, "a failed read", given);
    }
}

#[test]
fn reads_no_more_than_the_limit(rt: HostRuntime) {
    let mut reader = BlankReader::new();
    let mut writer = PieceWriter::new(100, 1000);
    let end = run(rt.alloc(), SOURCE, b"", &OPTIONS, &mut reader, &mut writer);
    holds(&rt, end == Ok(Ending::ReadFault), "the end");
    holds(&rt, reader.reads() == 16_777_216, "how often is read");
    holds(&rt, writer.bytes().is_empty(), "what is written");
}

// The text of each refusal of a source at the place 12:345.
const REFUSALS: &[(RefusalNumber, &str)] = &[
    (RefusalNumber::S1, "12:345: S1 BadByte\n"),
    (RefusalNumber::S2, "12:345: S2 BadNumber\n"),
    (RefusalNumber::S3, "12:345: S3 Unexpected\n"),
    (RefusalNumber::S4, "12:345: S4 TooDeep\n"),
    (RefusalNumber::S5, "12:345: S5 UnknownName\n"),
    (RefusalNumber::S6, "12:345: S6 Duplicate\n"),
    (RefusalNumber::S7, "12:345: S7 Rate\n"),
    (RefusalNumber::S8, "12:345: S8 Type\n"),
    (RefusalNumber::S9, "12:345: S9 NoOverload\n"),
    (RefusalNumber::S10, "12:345: S10 Ambiguous\n"),
    (RefusalNumber::S11, "12:345: S11 BadControl\n"),
    (RefusalNumber::S12, "12:345: S12 NestedCall\n"),
    (RefusalNumber::S13, "12:345: S13 Limit\n"),
];

#[test]
fn tells_each_refusal(rt: HostRuntime) {
    let place = Place { line: 12, col: 345 };
    for &(number, text) in REFUSALS {
        let refusal = Refusal::Source(SourceRefusal { number, place });
        holds(&rt, is_told(&refusal, 4, 512, true, text.as_bytes()), text);
    }
    let script = is_told(&Refusal::NoScript, 512, 512, true, b"script: E2 NoScript\n");
    holds(&rt, script, "no script");
    let entry = is_told(&Refusal::NoEntry, 512, 512, true, b"entry: E1 NoEntry\n");
    holds(&rt, entry, "no entry");
    let cut = is_told(&Refusal::Memory, 512, 3, false, b"mem");
    holds(&rt, cut, "a cut refusal");
}

// Scripts with their sources and commands.
const SCRIPTS: &[(&str, Option<(&[u8], &[u8])>)] = &[
    ("a\n%%\nb\n%%\n", Some((b"a\n", b"b\n%%\n"))),
    ("%%\nb", Some((b"", b"b"))),
    ("a\n%%", Some((b"a\n", b""))),
    ("a\n%%%\n%% \n", None),
    ("a%%\nb", None),
    ("", None),
    ("%", None),
];

#[test]
fn splits_scripts(rt: HostRuntime) {
    for &(text, parts) in SCRIPTS {
        holds(&rt, split_script(text.as_bytes()) == parts, text);
    }
}
