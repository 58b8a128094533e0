//! The points of switches, worked out by hand.
use crate::points::{Numbers, assign, numbers_of, program, read};
use mask_lowering::{Masked, Point, lower};
use std::alloc::{AllocError, Global};
use std::test::*;
use typed_tree::{Segment, Stmt};

/// Where a segment begins, by its label.
type Entry = (Option<u64>, usize);

fn segment(label: Option<u64>, body: Vec<Stmt>) -> Segment {
    Segment { label, body }
}

/// `switch (x)` with these segments.
fn switch_of(alloc: Global, step: usize, segments: Vec<Segment>) -> Result<Stmt, AllocError> {
    Ok(Stmt::Switch {
        step,
        selector: read(alloc)?,
        segments,
    })
}

/// Whether a point is a switch's whose segments have these labels and begin there.
fn begins(point: &Point<'_>, expected: &[Entry]) -> bool {
    match point {
        Point::Choose {
            segments,
            entries,
            ..
        } => {
            for ((segment, entry), (label, number)) in segments.iter().zip(entries).zip(expected) {
                if segment.label != *label || *entry != *number {
                    return false;
                }
            }
            segments.len() == expected.len() && entries.len() == expected.len()
        }
        _ => false,
    }
}

/// Whether the points of the one function are these, with a switch at one of them that has these entries.
fn are_points(masked: &Masked<'_>, expected: &[Numbers], at: usize, entries: &[Entry]) -> bool {
    for points in &masked.functions {
        if points.len() != expected.len() {
            return false;
        }
        for (i, (point, numbers)) in points.iter().zip(expected).enumerate() {
            if numbers_of(point) != *numbers || (i == at && !begins(point, entries)) {
                return false;
            }
        }
    }
    masked.functions.len() == 1
}

/// `x = 1; switch (x) { case 0: x = 1; case 2: x = 1; break; default: x = 1; } x = 1;`
#[test]
fn the_last_segment_may_be_the_default(rt: HostRuntime) -> Result<(), AllocError> {
    let alloc = rt.alloc();
    let first = segment(Some(0), vec![in alloc; assign(alloc, 2)?]?);
    let second = segment(
        Some(2),
        vec![in alloc; assign(alloc, 3)?, Stmt::Break { step: 4 }]?,
    );
    let default = segment(None, vec![in alloc; assign(alloc, 5)?]?);
    let switch = switch_of(alloc, 1, vec![in alloc; first, second, default]?)?;
    let body = vec![in alloc; assign(alloc, 0)?, switch, assign(alloc, 6)?]?;
    let program = program(alloc, body)?;
    let expected = [
        Numbers::Put(1),
        Numbers::Choose(6),
        Numbers::Put(3),
        Numbers::Put(4),
        Numbers::Go(6),
        Numbers::Put(6),
        Numbers::Put(7),
    ];
    let entries = [(Some(0), 2), (Some(2), 3), (None, 5)];
    assert!(&rt; are_points(&lower(alloc, &program)?, &expected, 1, &entries));
    Ok(())
}

/// `switch (x) { default: x = 1; break; case 7: x = 1; case -1: } x = 1;`
#[test]
fn the_first_segment_may_be_the_default(rt: HostRuntime) -> Result<(), AllocError> {
    let alloc = rt.alloc();
    let default = segment(
        None,
        vec![in alloc; assign(alloc, 1)?, Stmt::Break { step: 2 }]?,
    );
    let second = segment(Some(7), vec![in alloc; assign(alloc, 3)?]?);
    let last = segment(Some(4_294_967_295), Vec::new(alloc));
    let switch = switch_of(alloc, 0, vec![in alloc; default, second, last]?)?;
    let program = program(alloc, vec![in alloc; switch, assign(alloc, 4)?]?)?;
    let expected = [
        Numbers::Choose(4),
        Numbers::Put(2),
        Numbers::Go(4),
        Numbers::Put(4),
        Numbers::Put(5),
    ];
    let entries = [(None, 1), (Some(7), 3), (Some(4_294_967_295), 4)];
    assert!(&rt; are_points(&lower(alloc, &program)?, &expected, 0, &entries));
    Ok(())
}

/// `switch (x) { case 1: x = 1; default: case 3: x = 1; } x = 1;`
#[test]
fn a_default_in_the_middle_runs_on(rt: HostRuntime) -> Result<(), AllocError> {
    let alloc = rt.alloc();
    let first = segment(Some(1), vec![in alloc; assign(alloc, 1)?]?);
    let default = segment(None, Vec::new(alloc));
    let last = segment(Some(3), vec![in alloc; assign(alloc, 2)?]?);
    let switch = switch_of(alloc, 0, vec![in alloc; first, default, last]?)?;
    let program = program(alloc, vec![in alloc; switch, assign(alloc, 3)?]?)?;
    let expected = [
        Numbers::Choose(3),
        Numbers::Put(2),
        Numbers::Put(3),
        Numbers::Put(4),
    ];
    let entries = [(Some(1), 1), (None, 2), (Some(3), 2)];
    assert!(&rt; are_points(&lower(alloc, &program)?, &expected, 0, &entries));
    Ok(())
}

/// `switch (x) { } x = 1;`
#[test]
fn a_switch_without_a_label_is_one_step(rt: HostRuntime) -> Result<(), AllocError> {
    let alloc = rt.alloc();
    let switch = switch_of(alloc, 0, Vec::new(alloc))?;
    let program = program(alloc, vec![in alloc; switch, assign(alloc, 1)?]?)?;
    let expected = [Numbers::Choose(1), Numbers::Put(2)];
    assert!(&rt; are_points(&lower(alloc, &program)?, &expected, 0, &[]));
    Ok(())
}

/// `do { switch (x) { case 0: break; case 1: continue; } x = 1; } while (x);`
#[test]
fn continue_goes_through_a_switch(rt: HostRuntime) -> Result<(), AllocError> {
    let alloc = rt.alloc();
    let first = segment(Some(0), vec![in alloc; Stmt::Break { step: 1 }]?);
    let second = segment(Some(1), vec![in alloc; Stmt::Continue { step: 2 }]?);
    let switch = switch_of(alloc, 0, vec![in alloc; first, second]?)?;
    let inner = Stmt::Block(vec![in alloc; switch, assign(alloc, 3)?]?);
    let repeated = Stmt::BodyFirst {
        step: 4,
        test: read(alloc)?,
        body: Box::new(alloc, inner)?,
    };
    let program = program(alloc, vec![in alloc; repeated]?)?;
    let expected = [
        Numbers::Choose(3),
        Numbers::Go(3),
        Numbers::Go(4),
        Numbers::Put(4),
        Numbers::Branch(0, 5),
    ];
    let entries = [(Some(0), 1), (Some(1), 2)];
    assert!(&rt; are_points(&lower(alloc, &program)?, &expected, 0, &entries));
    Ok(())
}
