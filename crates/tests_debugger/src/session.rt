//! Commands on a machine with two frames.
use crate::two_frames::TwoFrames;
use debug_answers::{Answer, Refusal};
use debug_commands::{Command, Target};
use debug_session::Session;
use debug_traits::RecordedMachine;
use std::process::Abort;
use std::test::Fail;

/// What is looked at of an answer.
#[derive(Clone, Copy, Debug, PartialEq, Eq)]
enum Said {
    Here,
    Breakpoint(u32),
    Watch(u32),
    Fault,
    HistoryEnd,
    StepLimit,
    Undone,
    UndonePoke,
    Shows(usize),
    BreaksAt(u32, u32),
    Watches(u32),
    Deleted,
    Lists,
    Keeps(u32),
    Silent,
    Refused(Refusal),
}

fn told_by(answer: Answer<'_>) -> Said {
    match answer {
        Answer::Here => Said::Here,
        Answer::AtBreakpoint(number) => Said::Breakpoint(number),
        Answer::AtWatch(number) => Said::Watch(number),
        Answer::AtFault(_) => Said::Fault,
        Answer::HistoryEnd => Said::HistoryEnd,
        Answer::StepLimit => Said::StepLimit,
        Answer::UndoneStep => Said::Undone,
        Answer::UndonePoke => Said::UndonePoke,
        Answer::Shows { target: _, shown } => Said::Shows(shown.count),
        Answer::BreaksAt { number, line } => Said::BreaksAt(number, line),
        Answer::Watches { number, target: _ } => Said::Watches(number),
        Answer::Deleted(_) => Said::Deleted,
        Answer::ListsStops | Answer::ListsLocals | Answer::ListsFrames => Said::Lists,
        Answer::KeepsHistory(limit) => Said::Keeps(limit),
        Answer::Silent => Said::Silent,
        Answer::Refused(refusal) => Said::Refused(refusal),
    }
}

/// The last number of breakpoints and watches.
const MOST_NUMBER: u32 = 10_000_000;

/// Whether an answer tells of a breakpoint of this number on line 3.
fn is_breakpoint(answer: Answer<'_>, wanted: u32) -> bool {
    match answer {
        Answer::BreaksAt { number, line } => number == wanted && line == 3,
        _ => false,
    }
}

/// Does commands, each with what is said then and the line where the program stands, 0 where it has ended.
fn does(rt: &impl Abort, session: &mut Session<TwoFrames>, rows: &[(Command<'static>, Said, u32)]) {
    for (command, wanted, wanted_line) in rows {
        let answer = told_by(session.do_command(*command));
        let line = session.machine().position().map_or(0, |at| at.place.line);
        assert_eq!(rt; answer, *wanted, "{command:?}");
        assert_eq!(rt; line, *wanted_line, "{command:?}");
    }
}

/// A command that is refused, and the line where the program stands.
fn refused(
    command: Command<'static>,
    refusal: Refusal,
    line: u32,
) -> (Command<'static>, Said, u32) {
    (command, Said::Refused(refusal), line)
}

fn whole(name: &'static [u8]) -> Target<'static> {
    Target { name, at: None }
}

fn part(name: &'static [u8], index: u32) -> Target<'static> {
    Target {
        name,
        at: Some(index),
    }
}

fn set(target: Target<'static>, value: i128) -> Command<'static> {
    Command::Set { target, value }
}

#[test]
fn moves_by_steps_and_frames(rt: HostRuntime) -> Result<(), Fail> {
    let mut session = Session::open(TwoFrames::new(rt.alloc(), 64, None)?, 100);
    let rows = [
        refused(Command::ReverseStep(1), Refusal::NoHistory, 10),
        refused(Command::Undo, Refusal::NoHistory, 10),
        (Command::Step(1), Said::Here, 11),
        (Command::Next(1), Said::Here, 12),
        (Command::ReverseNext(1), Said::Here, 11),
        (Command::Step(2), Said::Here, 4),
        (Command::Finish, Said::Here, 12),
        (Command::ReverseStep(1), Said::Here, 5),
        (Command::ReverseFinish, Said::Here, 11),
        refused(Command::Finish, Refusal::Outermost, 11),
        refused(Command::ReverseFinish, Refusal::Outermost, 11),
        (Command::Undo, Said::Undone, 10),
        refused(Command::ReverseFinish, Refusal::NoHistory, 10),
        (Command::Next(3), Said::Here, 13),
        (Command::Continue, Said::Here, 0),
        refused(Command::Step(1), Refusal::Ended, 0),
        refused(Command::Finish, Refusal::Ended, 0),
        refused(Command::ReverseFinish, Refusal::Outermost, 0),
        (Command::ReverseContinue, Said::HistoryEnd, 10),
    ];
    does(&rt, &mut session, &rows);
    Ok(())
}

#[test]
fn stops_at_breakpoints_and_watches(rt: HostRuntime) -> Result<(), Fail> {
    let mut session = Session::open(TwoFrames::new(rt.alloc(), 64, None)?, 100);
    let rows = [
        refused(Command::Break(15), Refusal::NoLine, 10),
        (Command::Break(1), Said::BreaksAt(1, 3), 10),
        refused(Command::Watch(whole(b"n")), Refusal::NoSuchName, 10),
        refused(Command::Watch(whole(b"marks")), Refusal::NoSuchName, 10),
        refused(Command::Watch(part(b"size", 0)), Refusal::NoSuchName, 10),
        refused(Command::Watch(part(b"total", 4)), Refusal::OutOfRange, 10),
        (Command::Watch(whole(b"total")), Said::Watches(2), 10),
        (Command::Watch(part(b"marks", 2)), Said::Watches(3), 10),
        (Command::Watch(part(b"total", 0)), Said::Watches(4), 10),
        (Command::Break(4), Said::BreaksAt(5, 4), 10),
        (Command::Continue, Said::Breakpoint(1), 3),
        (Command::Continue, Said::Breakpoint(5), 4),
        refused(Command::Delete(Some(9)), Refusal::NoSuchNumber, 4),
        (Command::Delete(Some(5)), Said::Deleted, 4),
        (Command::Continue, Said::Watch(3), 5),
        (Command::ReverseContinue, Said::Watch(3), 4),
        (Command::ReverseContinue, Said::Breakpoint(1), 3),
        (Command::Delete(Some(1)), Said::Deleted, 3),
        (Command::Continue, Said::Watch(2), 4),
        (Command::InfoBreakpoints, Said::Lists, 4),
        (Command::Delete(None), Said::Deleted, 4),
        (Command::Continue, Said::Here, 0),
    ];
    does(&rt, &mut session, &rows);
    assert!(rt; session.stops().is_empty());
    Ok(())
}

#[test]
fn shows_and_sets(rt: HostRuntime) -> Result<(), Fail> {
    let mut session = Session::open(TwoFrames::new(rt.alloc(), 64, None)?, 100);
    let rows = [
        (Command::Print(whole(b"marks")), Said::Shows(3), 10),
        refused(Command::Print(part(b"marks", 3)), Refusal::OutOfRange, 10),
        refused(Command::Print(part(b"n", 0)), Refusal::NoSuchName, 10),
        refused(Command::Print(whole(b"m")), Refusal::NoSuchName, 10),
        refused(set(whole(b"marks"), 1), Refusal::NoSuchName, 10),
        refused(set(part(b"marks", 3), 128), Refusal::OutOfRange, 10),
        refused(set(part(b"marks", 1), 128), Refusal::OutOfRange, 10),
        refused(set(whole(b"size"), 2147483648), Refusal::OutOfRange, 10),
        refused(set(whole(b"size"), 3), Refusal::Constant, 10),
        refused(set(part(b"i", 1), 3), Refusal::Constant, 10),
        (set(part(b"marks", 1), -128), Said::Shows(3), 10),
        (set(whole(b"total"), -1), Said::Shows(4), 10),
        refused(Command::ReverseStep(1), Refusal::NoHistory, 10),
        (Command::Step(1), Said::Here, 11),
        (set(whole(b"n"), 5), Said::Shows(1), 11),
        (set(part(b"total", 3), 6), Said::Shows(4), 11),
        (Command::ReverseStep(1), Said::Here, 10),
        (Command::Undo, Said::UndonePoke, 10),
        (Command::Undo, Said::UndonePoke, 10),
        refused(Command::Undo, Refusal::NoHistory, 10),
        (Command::InfoLocals, Said::Lists, 10),
        (Command::Backtrace, Said::Lists, 10),
        (Command::Nothing, Said::Silent, 10),
        (Command::Quit, Said::Silent, 10),
    ];
    does(&rt, &mut session, &rows);
    Ok(())
}

#[test]
fn keeps_one_event(rt: HostRuntime) -> Result<(), Fail> {
    let mut session = Session::open(TwoFrames::new(rt.alloc(), 1, None)?, 100);
    let rows = [
        (Command::Step(3), Said::Here, 4),
        (Command::ReverseStep(2), Said::HistoryEnd, 3),
        (Command::Step(1), Said::Here, 4),
        (set(whole(b"n"), 7), Said::Shows(1), 4),
        refused(Command::ReverseStep(1), Refusal::NoHistory, 4),
        (Command::Undo, Said::UndonePoke, 4),
        refused(Command::Undo, Refusal::NoHistory, 4),
    ];
    does(&rt, &mut session, &rows);
    Ok(())
}

#[test]
fn ends_at_a_fault_and_at_the_limit(rt: HostRuntime) -> Result<(), Fail> {
    let mut session = Session::open(TwoFrames::new(rt.alloc(), 64, Some(6))?, 3);
    let rows = [
        (Command::Continue, Said::StepLimit, 4),
        (Command::Step(3), Said::Here, 13),
        (Command::Step(1), Said::Fault, 13),
        (Command::ReverseContinue, Said::HistoryEnd, 10),
    ];
    does(&rt, &mut session, &rows);
    Ok(())
}

#[test]
fn holds_sixty_four(rt: HostRuntime) -> Result<(), Fail> {
    let mut session = Session::open(TwoFrames::new(rt.alloc(), 64, None)?, 100);
    for _ in 0..64 {
        let _ = session.do_command(Command::Break(12));
    }
    let rows = [
        refused(Command::Break(12), Refusal::TableFull, 10),
        refused(Command::Watch(whole(b"total")), Refusal::TableFull, 10),
        (Command::Delete(Some(1)), Said::Deleted, 10),
        (Command::Break(12), Said::BreaksAt(65, 12), 10),
        (Command::Continue, Said::Breakpoint(2), 12),
    ];
    does(&rt, &mut session, &rows);
    Ok(())
}

/// Numbers go up to 10,000,000 and are not used again, so that no room is left then.
#[test]
fn numbers_up_to_ten_million(rt: HostRuntime) -> Result<(), Fail> {
    let mut session = Session::open(TwoFrames::new(rt.alloc(), 64, None)?, 100);
    let mut are_numbered = true;
    for number in 1..=MOST_NUMBER {
        let answer = session.do_command(Command::Break(3));
        are_numbered = are_numbered && is_breakpoint(answer, number);
        let _ = session.do_command(Command::Delete(None));
    }
    assert!(rt; are_numbered);
    let rows = [
        refused(Command::Break(3), Refusal::TableFull, 10),
        refused(Command::Watch(whole(b"total")), Refusal::TableFull, 10),
        (Command::Delete(None), Said::Deleted, 10),
        (Command::Continue, Said::Here, 0),
    ];
    does(&rt, &mut session, &rows);
    Ok(())
}

#[test]
fn changes_the_history(rt: HostRuntime) -> Result<(), Fail> {
    let mut session = Session::open(TwoFrames::new(rt.alloc(), 4, None)?, 100);
    let rows = [
        (Command::Step(6), Said::Here, 13),
        (Command::SetHistory(2), Said::Keeps(2), 13),
        (Command::ReverseStep(3), Said::HistoryEnd, 5),
        (Command::SetHistory(6), Said::Keeps(6), 5),
        (Command::Step(2), Said::Here, 13),
        (Command::ReverseStep(2), Said::Here, 5),
        refused(Command::ReverseStep(1), Refusal::NoHistory, 5),
        refused(Command::SetHistory(65_537), Refusal::OutOfRange, 5),
        refused(Command::SetHistory(0), Refusal::OutOfRange, 5),
        (Command::SetHistory(6), Said::Keeps(6), 5),
    ];
    does(&rt, &mut session, &rows);
    Ok(())
}

#[test]
fn keeps_more_events_from_the_limit_on(rt: HostRuntime) -> Result<(), Fail> {
    let mut session = Session::open(TwoFrames::new(rt.alloc(), 4, None)?, 100);
    let rows = [
        (Command::Step(5), Said::Here, 12),
        (set(whole(b"n"), 7), Said::Shows(1), 12),
        (Command::SetHistory(6), Said::Keeps(6), 12),
        (Command::Step(2), Said::Here, 14),
        (Command::Undo, Said::Undone, 13),
        (Command::Undo, Said::Undone, 12),
        (Command::Undo, Said::UndonePoke, 12),
        (Command::Undo, Said::Undone, 5),
        (Command::Undo, Said::Undone, 4),
        (Command::Undo, Said::Undone, 3),
        refused(Command::Undo, Refusal::NoHistory, 3),
    ];
    does(&rt, &mut session, &rows);
    Ok(())
}

#[test]
fn a_history_that_finds_no_memory_stays(rt: HostRuntime) -> Result<(), Fail> {
    let machine = TwoFrames::new(rt.alloc(), 3, None)?.with_most(3);
    let mut session = Session::open(machine, 100);
    let rows = [
        (Command::Step(4), Said::Here, 5),
        refused(Command::SetHistory(4), Refusal::Memory, 5),
        refused(Command::SetHistory(65_536), Refusal::Memory, 5),
        refused(Command::SetHistory(65_537), Refusal::OutOfRange, 5),
        (Command::Step(1), Said::Here, 12),
        (Command::ReverseStep(9), Said::HistoryEnd, 3),
        (Command::SetHistory(3), Said::Keeps(3), 3),
        (Command::SetHistory(1), Said::Keeps(1), 3),
        (Command::SetHistory(2), Said::Keeps(2), 3),
        (Command::Step(3), Said::Here, 12),
        (Command::ReverseStep(3), Said::HistoryEnd, 4),
    ];
    does(&rt, &mut session, &rows);
    Ok(())
}
