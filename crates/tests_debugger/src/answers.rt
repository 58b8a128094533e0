//! The texts of answers.
use crate::still_machine::{ARRAY, Standing, StillMachine};
use debug_answers::{Answer, NumberedStop, Refusal, Stop};
use debug_commands::Target;
use debug_texts::write_answer;
use debug_traits::Fault;
use gang_types::FaultName;
use tests_devices::PieceWriter;

const ELEMENT: Target<'static> = Target {
    name: b"a",
    at: Some(1),
};

const STOPS: [NumberedStop; 2] = [
    NumberedStop {
        number: 1,
        stop: Stop::Line(8),
    },
    NumberedStop {
        number: 2,
        stop: Stop::Watch {
            variable: 0,
            at: Some(1),
        },
    },
];

/// An answer of every kind.
const ANSWERS: [Answer<'static>; 18] = [
    Answer::Here,
    Answer::AtBreakpoint(1),
    Answer::AtWatch(2),
    Answer::AtFault(Fault {
        name: FaultName::Index,
        lane: 3,
    }),
    Answer::HistoryEnd,
    Answer::StepLimit,
    Answer::UndoneStep,
    Answer::UndonePoke,
    Answer::Shows {
        target: ELEMENT,
        shown: ARRAY,
    },
    Answer::BreaksAt { number: 1, line: 8 },
    Answer::Watches {
        number: 2,
        target: ELEMENT,
    },
    Answer::Deleted(None),
    Answer::ListsStops,
    Answer::ListsLocals,
    Answer::ListsFrames,
    Answer::KeepsHistory(7),
    Answer::Silent,
    Answer::Refused(Refusal::NoSuchNumber),
];

/// Their texts.
fn texts() -> &'static [u8] {
    b"at 2:5 f depth 2 lanes 0101\n\
breakpoint 1: at 2:5 f depth 2 lanes 0101\n\
watch 2: at 2:5 f depth 2 lanes 0101\n\
fault F2 Index lane 3: at 2:5 f depth 2 lanes 0101\n\
history end: at 2:5 f depth 2 lanes 0101\n\
step limit: at 2:5 f depth 2 lanes 0101\n\
undone step: at 2:5 f depth 2 lanes 0101\n\
undone poke: at 2:5 f depth 2 lanes 0101\n\
a[1] = -1\n\
breakpoint 1 at line 8\n\
watch 2: a[1]\n\
deleted all\n\
1 breakpoint line 8\n\
2 watch a[1]\n\
on = false true\n\
at 2:5 f depth 2 lanes 0101\n\
at 9:3 m depth 1 lanes 1000\n\
history 7\n\
C10 NoSuchNumber\n"
}

/// What is written for answers, up to the first fault of a writer that has so much room.
fn told(answers: &[Answer<'_>], at: Standing, stops: &[NumberedStop], room: usize) -> PieceWriter {
    let machine = StillMachine::new(at);
    let mut writer = PieceWriter::new(7, room);
    for answer in answers {
        if write_answer(answer, &machine, stops, &mut writer).is_err() {
            return writer;
        }
    }
    writer
}

/// What is written for an answer of every kind.
fn told_every(room: usize) -> PieceWriter {
    told(&ANSWERS, Standing::Inside, &STOPS, room)
}

#[test]
fn tells_every_answer(rt: HostRuntime) {
    assert!(rt; told_every(1000).bytes() == texts());
}

#[test]
fn tells_of_nothing(rt: HostRuntime) {
    let answers = [
        Answer::Here,
        Answer::ListsStops,
        Answer::ListsLocals,
        Answer::ListsFrames,
        Answer::Deleted(Some(7)),
        Answer::Shows {
            target: Target {
                name: b"a",
                at: None,
            },
            shown: ARRAY,
        },
        Answer::KeepsHistory(1),
        Answer::Refused(Refusal::TableFull),
        Answer::Refused(Refusal::Memory),
    ];
    let writer = told(&answers, Standing::Ended, &[], 1000);
    let texts =
        b"ended\nnone\nnone\nended\ndeleted 7\na = 7 -1 0\nhistory 1\nC11 TableFull\nC12 Memory\n";
    assert!(rt; writer.bytes() == texts.as_slice());
}

#[test]
fn stops_where_the_writer_fails(rt: HostRuntime) {
    let texts = texts();
    for room in 0..texts.len() {
        let writer = told_every(room);
        assert!(rt; writer.bytes() == &texts[..room], "room for {room}");
    }
}

#[test]
fn writes_a_wide_gang(rt: HostRuntime) {
    let machine = StillMachine::new(Standing::Wide);
    let mut writer = PieceWriter::new(64, 1000);
    let written = write_answer(&Answer::HistoryEnd, &machine, &[], &mut writer);
    assert!(rt; written.is_ok());
    let line = b"history end: at 12:1 sum depth 3 lanes 0000000000000001\n";
    assert!(rt; writer.bytes() == line.as_slice());
}
