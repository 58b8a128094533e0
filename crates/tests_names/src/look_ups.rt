//! Two variables of one name, an inner one in a block, and a step in the block and one behind it.
use crate::told::holds_at;
use gang_types::Place;
use ispc_names_table::{Declaration, Standing, StepScopes};
use std::alloc::{AllocError, Global};

fn declaration(
    alloc: Global,
    name: &[u8],
    outside: Option<usize>,
) -> Result<Declaration, AllocError> {
    let name = name.to_vec(alloc)?;
    Ok(Declaration { name, outside })
}

fn standing(line: u32, innermost: Option<usize>) -> Standing {
    let place = Place { line, col: 1 };
    Standing { place, innermost }
}

/// `int x; int y; { int x; .. } ..`
fn table(alloc: Global) -> Result<StepScopes, AllocError> {
    let declarations = Vec::from_array(
        alloc,
        [
            declaration(alloc, b"x", None)?,
            declaration(alloc, b"y", Some(0))?,
            declaration(alloc, b"x", Some(1))?,
        ],
    )?;
    let standings = Vec::from_array(alloc, [standing(1, Some(2)), standing(2, Some(1))])?;
    Ok(StepScopes {
        declarations,
        standings,
    })
}

// At a step the number of a name's variable.
const FOUND: &[(usize, &str, Option<usize>)] = &[
    (0, "x", Some(2)),
    (1, "x", Some(0)),
    (0, "y", Some(1)),
    (0, "z", None),
    (2, "x", None),
];

#[test]
fn the_innermost_of_a_name_is_found(rt: HostRuntime) -> Result<(), AllocError> {
    let table = table(rt.alloc())?;
    for &(step, name, found) in FOUND {
        let is_so = table.find(step, name.as_bytes()) == found;
        holds_at(&rt, is_so, name, step);
    }
    Ok(())
}

// At a step the variable that is listed under a number.
const LISTED: &[(usize, usize, Option<usize>)] = &[
    (0, 0, Some(1)),
    (0, 1, Some(2)),
    (0, 2, None),
    (1, 0, Some(0)),
    (1, 1, Some(1)),
];

#[test]
fn what_is_hidden_is_not_listed(rt: HostRuntime) -> Result<(), AllocError> {
    let table = table(rt.alloc())?;
    for &(step, number, listed) in LISTED {
        let is_so = table.listed(step, number) == listed;
        let case = if step == 0 { "step 0" } else { "step 1" };
        holds_at(&rt, is_so, case, number);
    }
    Ok(())
}
