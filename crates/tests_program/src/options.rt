//! The words of the command line, of which each stands one blank behind the other.
use crate::running::OPTIONS;
use crate::told::holds;
use clap::error::ErrorKind;
use ispc_options::{Options, Paths, Width, read_options, wrong_arguments};
use std::alloc::{AllocError, Global};
use std::process::Abort;

/// Whether these words are read as these options and paths.
fn are_read(alloc: Global, words: &[&str], options: Options<'_>, paths: Paths<'_>) -> bool {
    match read_options(alloc, words) {
        Ok(read) => read == (options, paths),
        Err(_) => false,
    }
}

/// Whether the words of a line are read as these options and paths.
fn reads(
    alloc: Global,
    line: &str,
    options: Options<'_>,
    paths: Paths<'_>,
) -> Result<bool, AllocError> {
    let words: Vec<&str> = line.split(' ').collect(alloc)?;
    Ok(are_read(alloc, &words, options, paths))
}

/// How words are refused: the status, and whether they ask for help; out of memory is no refusal.
fn refusal(alloc: Global, words: &[&str]) -> Option<(i32, bool)> {
    match read_options(alloc, words) {
        Ok(_) => None,
        Err(fault) => match fault.kind() {
            ErrorKind::OutOfMemory => None,
            kind => Some((fault.exit_code(), kind == ErrorKind::DisplayHelp)),
        },
    }
}

/// How the words of a line are refused.
fn refusal_of(alloc: Global, line: &str) -> Result<Option<(i32, bool)>, AllocError> {
    let words: Vec<&str> = line.split(' ').collect(alloc)?;
    Ok(refusal(alloc, &words))
}

const NO_PATHS: Paths<'static> = Paths {
    source: None,
    input: None,
};

const SOURCE: Paths<'static> = Paths {
    source: Some("a.ispc"),
    input: None,
};

const INPUT: Paths<'static> = Paths {
    source: None,
    input: Some("b.txt"),
};

const BOTH: Paths<'static> = Paths {
    source: Some("a.ispc"),
    input: Some("b.txt"),
};

const GO: Options<'static> = Options {
    entry: Some("go"),
    ..OPTIONS
};

const ALL: Options<'static> = Options {
    width: Width::Eight,
    history: 7,
    steps: 9,
    entry: Some("go"),
    lane_pure: true,
};

// Lines with what they are read as.
const READ: &[(&str, Options<'static>, Paths<'static>)] = &[
    (
        "--width 4",
        Options {
            width: Width::Four,
            ..OPTIONS
        },
        NO_PATHS,
    ),
    (
        "--width 8",
        Options {
            width: Width::Eight,
            ..OPTIONS
        },
        NO_PATHS,
    ),
    (
        "--width 16",
        Options {
            width: Width::Sixteen,
            ..OPTIONS
        },
        NO_PATHS,
    ),
    // The ends of ranges.
    (
        "--history 1",
        Options {
            history: 1,
            ..OPTIONS
        },
        NO_PATHS,
    ),
    (
        "--history 2",
        Options {
            history: 2,
            ..OPTIONS
        },
        NO_PATHS,
    ),
    (
        "--history 65536",
        Options {
            history: 65_536,
            ..OPTIONS
        },
        NO_PATHS,
    ),
    (
        "--steps 1",
        Options {
            steps: 1,
            ..OPTIONS
        },
        NO_PATHS,
    ),
    (
        "--steps 2",
        Options {
            steps: 2,
            ..OPTIONS
        },
        NO_PATHS,
    ),
    (
        "--steps 10000000",
        Options {
            steps: 10_000_000,
            ..OPTIONS
        },
        NO_PATHS,
    ),
    // Names.
    ("--entry go", GO, NO_PATHS),
    ("--entry=go", GO, NO_PATHS),
    ("a.ispc", OPTIONS, SOURCE),
    ("--input b.txt", OPTIONS, INPUT),
    ("a.ispc --entry go", GO, SOURCE),
    ("--entry go a.ispc", GO, SOURCE),
    // Words in either order.
    (
        "a.ispc --lane-pure --input b.txt --entry go --width 8 --history 7 --steps 9",
        ALL,
        BOTH,
    ),
    (
        "--steps 9 --history 7 --width 8 --entry go --input b.txt a.ispc --lane-pure",
        ALL,
        BOTH,
    ),
];

#[test]
fn lines_are_read_as_options_and_paths(rt: HostRuntime) {
    holds(
        &rt,
        are_read(rt.alloc(), &[], OPTIONS, NO_PATHS),
        "no words",
    );
    for &(line, options, paths) in READ {
        let is_so = reads(rt.alloc(), line, options, paths) == Ok(true);
        holds(&rt, is_so, line);
    }
}

/// Each line is refused as wrong arguments.
fn are_refused(rt: &impl Abort, alloc: Global, lines: &[&str]) {
    for line in lines {
        let is_so = refusal_of(alloc, line) == Ok(Some((2, false)));
        holds(rt, is_so, line);
    }
}

// Words that are missing or doubled.
const MISSING_AND_DOUBLED: &[&str] = &[
    "--input",
    "a.ispc --input",
    "--input b.txt --input b.txt",
    "--input b.txt a.ispc --input b.txt",
    "--entry",
    "a.ispc --entry",
    "--entry go --entry go",
    "--entry go a.ispc --entry go",
    "--width",
    "a.ispc --width",
    "--width 8 --width 8",
    "--width 8 a.ispc --width 8",
    "--history",
    "a.ispc --history",
    "--history 7 --history 7",
    "--history 7 a.ispc --history 7",
    "--steps",
    "a.ispc --steps",
    "--steps 9 --steps 9",
    "--steps 9 a.ispc --steps 9",
    "a.ispc b.ispc",
];

#[test]
fn refuses_missing_and_doubled_words(rt: HostRuntime) {
    are_refused(&rt, rt.alloc(), MISSING_AND_DOUBLED);
}

// Numbers of which an option takes none. The last word of a line may be empty.
const OTHER_NUMBERS: &[&str] = &[
    "--width 0",
    "--width -4",
    "--width 5",
    "--width 32",
    "--width four",
    "--width ",
    "--width 4x",
    "--width 0x4",
    "--history 0",
    "--history -1",
    "--history 65537",
    "--history 4294967297",
    "--history many",
    "--history ",
    "--history 7x",
    "--history 0x7",
    "--history 1.0",
    "--steps 0",
    "--steps -1",
    "--steps 10000001",
    "--steps 4294967297",
    "--steps many",
    "--steps ",
    "--steps 9x",
    "--steps 0x9",
    "--steps 1.0",
];

#[test]
fn refuses_other_numbers(rt: HostRuntime) {
    are_refused(&rt, rt.alloc(), OTHER_NUMBERS);
}

const OTHER_OPTIONS: &[&str] = &[
    "--depth",
    "--depth 1",
    "-w 4",
    "a.ispc --help-me",
    "--lane-pure --lane-pure",
    "--lane-pure=true",
    "--lane",
];

#[test]
fn refuses_other_options(rt: HostRuntime) {
    are_refused(&rt, rt.alloc(), OTHER_OPTIONS);
}

const HELP: &[&str] = &["--help a.ispc", "--help", "-h"];

#[test]
fn tells_help(rt: HostRuntime) {
    for line in HELP {
        let is_so = refusal_of(rt.alloc(), line) == Ok(Some((0, true)));
        holds(&rt, is_so, line);
    }
}

#[test]
fn makes_a_fault_of_the_arguments(rt: HostRuntime) {
    let status = match wrong_arguments(rt.alloc(), "so it is") {
        Ok(fault) => Some(fault.exit_code()),
        Err(_) => None,
    };
    holds(&rt, status == Some(2), "wrong arguments");
}
