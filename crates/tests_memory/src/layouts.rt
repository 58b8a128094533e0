//! Where the words of a program lie, worked out by hand.

use crate::told::holds;
use gang_memory::{Layout, Part};
use gang_types::{IntType, Rate, VarId};
use ispc_names_table::StepScopes;
use std::alloc::{AllocError, Global as Memory};
use std::process::Abort;
use typed_tree::{Function, Global, Program, Variable};

fn variable(alloc: Memory, id: VarId, rate: Rate, is_array: bool) -> Result<Variable, AllocError> {
    Ok(Variable {
        name: Vec::from_slice(alloc, b"v")?,
        id,
        value_type: IntType::Int32,
        rate,
        is_array,
        is_parameter: false,
        is_constant: false,
    })
}

fn global(alloc: Memory, number: usize, rate: Rate, length: u64) -> Result<Global, AllocError> {
    Ok(Global {
        variable: variable(alloc, VarId::File(number), rate, length > 0)?,
        word: 0,
        length,
    })
}

// A function with so many variables.
fn function(alloc: Memory, count: usize) -> Result<Function, AllocError> {
    let mut variables = Vec::new(alloc);
    for number in 0..count {
        variables.push(variable(alloc, VarId::Local(number), Rate::Uniform, false)?)?;
    }
    Ok(Function {
        name: Vec::from_slice(alloc, b"f")?,
        result: Rate::Uniform,
        result_type: IntType::Int32,
        body: Vec::new(alloc),
        variables,
        scopes: StepScopes {
            declarations: Vec::new(alloc),
            standings: Vec::new(alloc),
        },
    })
}

// A uniform variable, a varying one and an array of three elements.
const GLOBALS: &[(Rate, u64)] = &[(Rate::Uniform, 0), (Rate::Varying, 0), (Rate::Uniform, 3)];

// How many variables each function has.
const VARIABLES: &[usize] = &[2, 3, 0];

// A program of these globals and functions.
fn program(alloc: Memory) -> Result<Program, AllocError> {
    let mut program = empty_program(alloc);
    for (number, &(rate, length)) in GLOBALS.iter().enumerate() {
        program.globals.push(global(alloc, number, rate, length)?)?;
    }
    for &count in VARIABLES {
        program.functions.push(function(alloc, count)?)?;
    }
    Ok(program)
}

fn empty_program(alloc: Memory) -> Program {
    Program {
        functions: Vec::new(alloc),
        globals: Vec::new(alloc),
    }
}

fn part(first: usize, len: usize) -> Part {
    Part { first, len }
}

// Whether these are the parts that are wanted.
fn are(rt: &impl Abort, found: &[Part], wanted: &[Part], what: &str) {
    holds(rt, found == wanted, what);
}

#[test]
fn ranges_lie_one_behind_the_other(rt: HostRuntime) -> Result<(), AllocError> {
    let program = program(rt.alloc())?;
    let layout = Layout::plan::<4>(rt.alloc(), &program, &[5, 0], &[2], &[1, 6])?;
    let file = [part(0, 1), part(1, 4), part(5, 3)];
    are(&rt, &layout.file, &file, "the file's variables");
    are(
        &rt,
        &layout.entry,
        &[part(8, 5), part(13, 0)],
        "the entry's arrays",
    );
    are(&rt, &layout.machine, &[part(13, 2)], "the machine's words");
    holds(
        &rt,
        layout.words == 15 + 64 * 19,
        "how many words there are",
    );
    // A frame has 7 words for its head and 4 for each of 3 variables.
    let frames = &layout.frames;
    holds(
        &rt,
        frames.first == 15 && frames.count == 64,
        "where frames lie",
    );
    holds(&rt, frames.variables == 3, "how many variables a frame has");
    holds(&rt, frames.head.len() == 2, "how many parts a head has");
    let heads = [frames.head::<4>(0, 0), frames.head::<4>(2, 1)];
    are(
        &rt,
        &heads,
        &[part(15, 1), part(15 + 2 * 19 + 1, 6)],
        "heads",
    );
    let variables = [frames.variable::<4>(0, 0), frames.variable::<4>(63, 2)];
    are(
        &rt,
        &variables,
        &[part(22, 4), part(layout.words - 4, 4)],
        "variables",
    );
    Ok(())
}

#[test]
fn a_wider_gang_has_more_words_for_each_variable(rt: HostRuntime) -> Result<(), AllocError> {
    let program = program(rt.alloc())?;
    let layout = Layout::plan::<16>(rt.alloc(), &program, &[], &[], &[])?;
    let file = [part(0, 1), part(1, 16), part(17, 3)];
    are(&rt, &layout.file, &file, "the file's variables");
    holds(
        &rt,
        layout.words == 20 + 64 * 48,
        "how many words there are",
    );
    Ok(())
}

// How many words a program without functions and globals has, or none where memory is short.
fn words(alloc: Memory, entry: &[usize], machine: &[usize], head: &[usize]) -> Option<usize> {
    match Layout::plan::<4>(alloc, &empty_program(alloc), entry, machine, head) {
        Ok(layout) => Some(layout.words),
        Err(_) => None,
    }
}

#[test]
fn more_words_than_a_usize_counts_are_out_of_memory(rt: HostRuntime) {
    let alloc = rt.alloc();
    let most = usize::MAX;
    holds(&rt, words(alloc, &[most], &[], &[]) == Some(most), "entry");
    holds(
        &rt,
        words(alloc, &[most, 1], &[], &[]).is_none(),
        "entry and 1",
    );
    holds(
        &rt,
        words(alloc, &[most], &[1], &[]).is_none(),
        "machine's word",
    );
    holds(
        &rt,
        words(alloc, &[most - 64], &[], &[1]) == Some(most),
        "heads",
    );
    holds(
        &rt,
        words(alloc, &[most - 63], &[], &[1]).is_none(),
        "heads and 1",
    );
    holds(
        &rt,
        words(alloc, &[], &[], &[most / 32]).is_none(),
        "large heads",
    );
}
