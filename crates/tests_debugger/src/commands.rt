//! Command lines, and the commands that they spell.
use debug_commands::{Command, Target, read_command};
use std::test::*;

fn is_target(target: &Target, wanted: &Target) -> bool {
    target.name == wanted.name && target.at == wanted.at
}

fn is_command(command: &Command, wanted: &Command) -> bool {
    match (command, wanted) {
        (Command::Step(times), Command::Step(others))
        | (Command::Next(times), Command::Next(others))
        | (Command::ReverseStep(times), Command::ReverseStep(others))
        | (Command::ReverseNext(times), Command::ReverseNext(others))
        | (Command::Break(times), Command::Break(others)) => times == others,
        (Command::Print(target), Command::Print(other))
        | (Command::Watch(target), Command::Watch(other)) => is_target(target, other),
        (
            Command::Set { target, value },
            Command::Set {
                target: other,
                value: new,
            },
        ) => is_target(target, other) && value == new,
        (Command::Delete(number), Command::Delete(other)) => number == other,
        (Command::SetHistory(limit), Command::SetHistory(other)) => limit == other,
        (Command::Finish, Command::Finish)
        | (Command::Continue, Command::Continue)
        | (Command::ReverseFinish, Command::ReverseFinish)
        | (Command::ReverseContinue, Command::ReverseContinue)
        | (Command::Undo, Command::Undo)
        | (Command::InfoBreakpoints, Command::InfoBreakpoints)
        | (Command::InfoLocals, Command::InfoLocals)
        | (Command::Backtrace, Command::Backtrace)
        | (Command::Nothing, Command::Nothing)
        | (Command::Quit, Command::Quit) => true,
        _ => false,
    }
}

fn spells(line: &[u8], wanted: &Command) -> bool {
    match read_command(line) {
        Some(command) => is_command(&command, wanted),
        None => false,
    }
}

fn whole<'a>(name: &'a [u8]) -> Target<'a> {
    Target { name, at: None }
}

fn part<'a>(name: &'a [u8], at: u32) -> Target<'a> {
    Target { name, at: Some(at) }
}

#[test]
fn movements(rt: HostRuntime) {
    let rows: [(&[u8], Command); 18] = [
        (b"step", Command::Step(1)),
        (b"s 3", Command::Step(3)),
        (b"next 2", Command::Next(2)),
        (b"n", Command::Next(1)),
        (b"finish", Command::Finish),
        (b"continue", Command::Continue),
        (b"c", Command::Continue),
        (b"reverse-step 10000000", Command::ReverseStep(10_000_000)),
        (b"rs", Command::ReverseStep(1)),
        (b"reverse-next", Command::ReverseNext(1)),
        (b"rn 12", Command::ReverseNext(12)),
        (b"reverse-continue", Command::ReverseContinue),
        (b"rc", Command::ReverseContinue),
        (b"reverse-finish", Command::ReverseFinish),
        (b"undo", Command::Undo),
        (b"quit", Command::Quit),
        (b"q", Command::Quit),
        (b"step\t0007 \r", Command::Step(7)),
    ];
    for (line, wanted) in &rows {
        assert!(rt; spells(line, wanted));
    }
}

#[test]
fn stops_and_lists(rt: HostRuntime) {
    let rows: [(&[u8], Command); 12] = [
        (b"break 14", Command::Break(14)),
        (b"b 1", Command::Break(1)),
        (b"watch sum", Command::Watch(whole(b"sum"))),
        (b"watch out[0]", Command::Watch(part(b"out", 0))),
        (b"delete", Command::Delete(None)),
        (b"delete 3", Command::Delete(Some(3))),
        (b"info breakpoints", Command::InfoBreakpoints),
        (b"info  locals", Command::InfoLocals),
        (b"backtrace", Command::Backtrace),
        (b"bt", Command::Backtrace),
        (b"", Command::Nothing),
        (b" \t \r", Command::Nothing),
    ];
    for (line, wanted) in &rows {
        assert!(rt; spells(line, wanted));
    }
}

#[test]
fn targets(rt: HostRuntime) {
    let rows: [(&[u8], Target); 5] = [
        (b"print x", whole(b"x")),
        (b"p _a1", whole(b"_a1")),
        (b"print x[4]", part(b"x", 4)),
        (b"p x [ 10000000 ]", part(b"x", 10_000_000)),
        (b"print while", whole(b"while")),
    ];
    for (line, target) in &rows {
        assert!(rt; spells(line, &Command::Print(*target)));
    }
}

#[test]
fn assignments(rt: HostRuntime) {
    let rows: [(&[u8], Target, i128); 8] = [
        (b"set var x = 5", whole(b"x"), 5),
        (b"set var x=-12", whole(b"x"), -12),
        (b"set var flag = true", whole(b"flag"), 1),
        (b"set var flag = false", whole(b"flag"), 0),
        (b"set var a[2] = 0x1f", part(b"a", 2), 31),
        (b"set var a [ 2 ] = -0xFf", part(b"a", 2), -255),
        (
            b"set var n = 18446744073709551615",
            whole(b"n"),
            18_446_744_073_709_551_615,
        ),
        (
            b"set var n = -0xffffffffffffffff",
            whole(b"n"),
            -18_446_744_073_709_551_615,
        ),
    ];
    for (line, target, value) in &rows {
        let wanted = Command::Set {
            target: *target,
            value: *value,
        };
        assert!(rt; spells(line, &wanted));
    }
}

#[test]
fn histories(rt: HostRuntime) {
    let rows: [(&[u8], u32); 4] = [
        (b"set record full insn-number-max 1", 1),
        (b"set record full insn-number-max 65537", 65_537),
        (b"set record full insn-number-max 10000000", 10_000_000),
        (b"set  record\tfull insn-number-max 0042 \r", 42),
    ];
    for (line, limit) in rows {
        assert!(rt; spells(line, &Command::SetHistory(limit)));
    }
}

#[test]
fn refused(rt: HostRuntime) {
    let lines: [&[u8]; 32] = [
        b" step",
        b"Step",
        b"steps",
        b"step 0",
        b"step 10000001",
        b"step 99999999999999999999999",
        b"step -1",
        b"step 0x2",
        b"step 1 2",
        b"finish 1",
        b"print",
        b"print 2x",
        b"print x[1",
        b"print x[]",
        b"print x[-1]",
        b"print x[1][2]",
        b"break",
        b"info",
        b"set x = 1",
        b"set var x 1",
        b"set var x = 0x",
        b"set var x = - 1",
        b"set var x = 18446744073709551616",
        b"set var a [ 2 ] = 1 1",
        b"set record full insn-number-max",
        b"set record full insn-number-max 0",
        b"set record full insn-number-max -1",
        b"set record full insn-number-max 0x10",
        b"set record full insn-number-max 12345678",
        b"set record full insn-number-max 6 6",
        b"set record insn-number-max 6",
        b"set record full insn-number 6",
    ];
    for line in lines {
        assert!(rt; read_command(line).is_none());
    }
}

#[test]
fn longest_line(rt: HostRuntime) {
    assert!(rt; spells(&[b' '; 256], &Command::Nothing));
    assert!(rt; read_command(&[b' '; 257]).is_none());
}
