//! An input at the limit of its size and past it.
use crate::read::{Fault, is_refused};
use crate::told::holds;
use std::alloc::{AllocError, Global};

const SOURCE: &[u8] = b"export void go() { }";

/// Line feeds, as many as a power of 2.
fn blank_lines(alloc: Global, doublings: usize) -> Result<Vec<u8>, AllocError> {
    let mut lines = b"\n".to_vec(alloc)?;
    for _ in 0..doublings {
        let half = lines.as_slice().to_vec(alloc)?;
        lines.extend_from_slice(&half)?;
    }
    Ok(lines)
}

#[test]
fn an_input_has_at_most_4_194_304_bytes(rt: HostRuntime) -> Result<(), AllocError> {
    let mut input = blank_lines(rt.alloc(), 22)?;
    holds(&rt, input.len() == 4_194_304, "the most bytes");
    input.push(b'x')?;
    let fault = Fault::TooLarge(None);
    let is_so = is_refused(rt.alloc(), SOURCE, &input, fault);
    holds(&rt, is_so, "the fault of the last byte");
    Ok(())
}

#[test]
fn the_last_line_of_many_is_numbered(rt: HostRuntime) -> Result<(), AllocError> {
    let mut input = blank_lines(rt.alloc(), 10)?;
    input.push(b'x')?;
    let fault = Fault::BadLine(1_025);
    let is_so = is_refused(rt.alloc(), SOURCE, &input, fault);
    holds(&rt, is_so, "the fault of the last byte");
    Ok(())
}
