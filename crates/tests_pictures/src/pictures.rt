//! Pictures of runs: how they end, how many steps are tried, and which text is written.
use crate::keeping_writer::KeepingWriter;
use crate::walking_machine::{PLACES, WalkingMachine};
use debug_commands::Target;
use debug_session::Session;
use debug_traits::Fault;
use gang_types::FaultName;
use lane_picture::{Form, PictureEnd, Subject, draw};
use std::test::*;
use tests_devices::PieceWriter;

const SOURCE: &[u8] = b"int x = 0;\nx++;\nreturn;\nx++;\n}\n";

const FAULT: Fault = Fault {
    name: FaultName::Index,
    lane: 2,
};

/// A picture of so many steps at most.
fn subject(most_steps: u32, form: Form) -> Subject<'static> {
    Subject {
        title: b"a & b",
        source: SOURCE,
        watched: Some(Target {
            name: b"x",
            at: None,
        }),
        first_number: 1,
        most_steps,
        row_steps: 60,
        form,
    }
}

/// A picture of so many steps at most, how it ends, and how many steps are tried for it.
fn drawn(
    rt: &HostRuntime,
    most_steps: u32,
    fault: Option<(u32, Fault)>,
) -> (KeepingWriter, Option<PictureEnd>, u32) {
    let mut session = Session::open(WalkingMachine::new(fault), 100);
    let mut writer = KeepingWriter::new(rt.alloc());
    let subject = subject(most_steps, Form::Image);
    let end = draw(rt.alloc(), &mut session, &subject, &mut writer);
    (writer, end.ok(), session.machine().tries())
}

#[test]
fn tries_each_step_once(rt: HostRuntime) {
    for most in 0..PLACES + 3 {
        let (_, end, tries) = drawn(&rt, most, None);
        let wanted = if most < PLACES {
            PictureEnd::StepLimit
        } else {
            PictureEnd::Ended
        };
        assert!(rt; end == Some(wanted));
        assert!(rt; tries == most.min(PLACES));
    }
}

#[test]
fn ends_at_a_fault(rt: HostRuntime) {
    let (writer, end, tries) = drawn(&rt, 100, Some((2, FAULT)));
    assert!(rt; end == Some(PictureEnd::AtFault(FAULT)));
    assert!(rt; tries == 2);
    assert!(rt; writer.has(b"<title>F2 Index in lane 2</title>"));
    assert!(rt; writer.has(b">fault F2 Index lane 2 at step 2</text>"));
}

#[test]
fn writes_each_lane_of_each_step(rt: HostRuntime) {
    let (writer, _, _) = drawn(&rt, 100, None);
    assert!(rt; writer.has(b"<title>a &amp; b</title>"));
    assert!(rt; writer.has(b"<title>step 2, line 2, lane 3</title>"));
    assert!(rt; writer.has(b"<title>step 3, line 3, lane 1</title>"));
    assert!(rt; !writer.has(b"<title>step 3, line 3, lane 0</title>"));
    assert!(rt; writer.has(b"<title>depth 2</title>"));
    assert!(rt; writer.has(b">ended after step 5</text>"));
    assert!(rt; writer.ends_with(b"</svg>\n"));
}

#[test]
fn numbers_the_steps_of_rows(rt: HostRuntime) {
    let mut session = Session::open(WalkingMachine::new(None), 100);
    let mut writer = KeepingWriter::new(rt.alloc());
    let subject = Subject {
        first_number: 11,
        row_steps: 2,
        ..subject(9, Form::Image)
    };
    let end = draw(rt.alloc(), &mut session, &subject, &mut writer);
    assert!(rt; end.ok() == Some(PictureEnd::Ended));
    assert!(rt; writer.has(b"<title>step 11, line 1, lane 0</title>"));
    assert!(rt; writer.has(b"<title>step 12, line 2, lane 3</title>"));
    assert!(rt; writer.has(b"<title>step 15, line 5, lane 3</title>"));
    assert!(rt; writer.has(b">ended after step 15</text>"));
}

#[test]
fn writes_a_page(rt: HostRuntime) {
    let mut session = Session::open(WalkingMachine::new(None), 100);
    let mut writer = KeepingWriter::new(rt.alloc());
    let end = draw(
        rt.alloc(),
        &mut session,
        &subject(9, Form::Page),
        &mut writer,
    );
    assert!(rt; end.ok() == Some(PictureEnd::Ended));
    assert!(rt; writer.has(b"<!DOCTYPE html>"));
    assert!(rt; writer.ends_with(b"</svg>\n</body>\n</html>\n"));
}

#[test]
fn stops_where_the_writer_fails(rt: HostRuntime) {
    for room in [0, 1, 60, 400] {
        let mut session = Session::open(WalkingMachine::new(None), 100);
        let mut writer = PieceWriter::new(64, room);
        let end = draw(
            rt.alloc(),
            &mut session,
            &subject(9, Form::Image),
            &mut writer,
        );
        assert!(rt; end.ok() == Some(PictureEnd::WriteFault));
        assert!(rt; writer.bytes().len() == room);
        assert!(rt; session.machine().tries() == PLACES);
    }
}
