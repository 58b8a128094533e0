//! Lines in pieces, `quit`, long lines, and devices that fail.
use crate::repeating::RepeatingDebugger;
use tests_devices::{BlankReader, Listener, PieceReader, PieceWriter};
use transcript::{Ending, answer_lines};

const COMMANDS: &[u8] = b"one\n\nthree\nlast";

const ANSWERS: &[u8] = b"one;;three;last;";

/// Commands, how many of their bytes a read gives at most, and how many bytes of answers had been written before each read.
const TURNS: &[(&[u8], usize, &[usize])] = &[
    (COMMANDS, 512, &[0, 11]),
    (COMMANDS, 4, &[0, 4, 5, 11, 11]),
    (
        COMMANDS,
        1,
        &[0, 0, 0, 0, 4, 5, 5, 5, 5, 5, 5, 11, 11, 11, 11, 11],
    ),
    (b"one\nquit\nthree\n", 512, &[0]),
    (b"one\nquit\nthree\n", 5, &[0, 4]),
    (b"one\nquit\nthree\n", 9, &[0]),
    (b"", 512, &[0]),
];

/// How the answering of some commands ends, and what is written, by devices that give and take a few bytes at a time.
fn repeated(commands: &[u8], most: usize) -> (Ending, PieceWriter) {
    let mut debugger = RepeatingDebugger::new();
    let mut reader = PieceReader::new(commands, most, 100_000);
    let mut writer = PieceWriter::new(most, 100_000);
    let end = answer_lines(&mut debugger, &mut reader, &mut writer);
    (end, writer)
}

#[test]
fn answers_each_line(rt: HostRuntime) {
    for most in [1, 2, 7, 512] {
        let (end, writer) = repeated(COMMANDS, most);
        assert_eq!(rt; end, Ending::EndOfCommands, "at {most}");
        assert!(rt; writer.bytes() == ANSWERS, "at {most}");
    }
}

#[test]
fn answers_all_that_came_before_it_reads_on(rt: HostRuntime) {
    for (commands, most, told) in TURNS {
        let mut debugger = RepeatingDebugger::new();
        let mut reader = Listener::new(commands, *most);
        let mut writer = PieceWriter::new(3, 1000);
        let _ = answer_lines(&mut debugger, &mut reader, &mut writer);
        assert!(rt; reader.told() == *told, "at {most}");
    }
}

#[test]
fn answers_no_line_after_quit(rt: HostRuntime) {
    for most in [1, 9, 512] {
        let (end, writer) = repeated(b"one\nquit\nthree\nquit", most);
        assert_eq!(rt; end, Ending::Quit, "at {most}");
        assert!(rt; writer.bytes() == b"one;".as_slice(), "at {most}");
    }
    let (end, writer) = repeated(b"one\nquit", 512);
    assert_eq!(rt; end, Ending::Quit);
    assert!(rt; writer.bytes() == b"one;".as_slice());
}

#[test]
fn holds_257_bytes_of_a_line(rt: HostRuntime) {
    let mut commands = [b'a'; 302];
    commands[300] = b'\n';
    let (end, writer) = repeated(&commands, 512);
    assert_eq!(rt; end, Ending::EndOfCommands);
    assert_eq!(rt; writer.bytes().len(), 257 + 1 + 2);
    assert!(rt; writer.bytes().ends_with(b"a;a;"));
}

#[test]
fn stops_at_a_failed_write(rt: HostRuntime) {
    for room in 0..ANSWERS.len() {
        let mut debugger = RepeatingDebugger::new();
        let mut reader = PieceReader::new(COMMANDS, 7, 1000);
        let mut writer = PieceWriter::new(3, room);
        let end = answer_lines(&mut debugger, &mut reader, &mut writer);
        assert_eq!(rt; end, Ending::WriteFault, "at {room}");
        assert!(rt; writer.bytes() == &ANSWERS[..room], "at {room}");
        assert_eq!(rt; writer.calls() as usize, room + 1, "at {room}");
    }
}

#[test]
fn stops_at_a_failed_read(rt: HostRuntime) {
    for (given, lines) in [
        (0, 0),
        (3, 0),
        (4, 1),
        (5, 2),
        (10, 2),
        (11, 3),
        (14, 3),
        (15, 3),
    ] {
        let mut debugger = RepeatingDebugger::new();
        let mut reader = PieceReader::new(COMMANDS, 2, given);
        let mut writer = PieceWriter::new(100, 1000);
        let end = answer_lines(&mut debugger, &mut reader, &mut writer);
        assert_eq!(rt; end, Ending::ReadFault, "at {given}");
        assert_eq!(rt; debugger.lines(), lines, "at {given}");
    }
}

#[test]
fn reads_no_more_than_the_limit(rt: HostRuntime) {
    let mut debugger = RepeatingDebugger::new();
    let mut reader = BlankReader::new();
    let mut writer = PieceWriter::new(100, 1000);
    let end = answer_lines(&mut debugger, &mut reader, &mut writer);
    assert_eq!(rt; end, Ending::ReadFault);
    assert_eq!(rt; reader.reads(), 16_777_216);
    assert!(rt; writer.bytes().is_empty());
}
