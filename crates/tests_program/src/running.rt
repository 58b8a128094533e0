//! Runs through devices that give and take few bytes at a time, or fail.
ghost use Rattle.ispc_options.specs.Ranges.{AreInRange};

use ispc_debugger::run;
use ispc_options::{Options, Width};
use ispc_refusals::{Refusal, write_refusal};
use std::alloc::Global;
use tests_devices::{PieceReader, PieceWriter};
use transcript::Ending;

pub(crate) const OPTIONS: Options<'static> = Options {
    width: Width::Four,
    history: 64,
    steps: 1_000_000,
    entry: None,
    lane_pure: false,
};

/// How many bytes a reader gives at a time and in all, before it fails, and how many a writer takes at a time and in all.
#[derive(Clone, Copy)]
pub(crate) struct Devices {
    pub(crate) given: usize,
    pub(crate) until_fault: usize,
    pub(crate) taken: usize,
    pub(crate) room: usize,
}

/// Devices that do not fail.
pub(crate) const AMPLE: Devices = Devices {
    given: 512,
    until_fault: 1000,
    taken: 512,
    room: 1000,
};

/// What a run begins with, and the commands that it answers.
#[derive(Clone, Copy)]
pub(crate) struct Asked<'a> {
    pub(crate) source: &'a [u8],
    pub(crate) input: &'a [u8],
    pub(crate) commands: &'a [u8],
}

/// Whether a run through the devices ends so, and has written just this text.
pub(crate) fn answers(
    alloc: Global,
    asked: Asked<'_>,
    options: &Options<'_>,
    devices: Devices,
    wanted: Ending,
    text: &[u8],
) -> bool
    requires { AreInRange options.now }
{
    let mut reader = PieceReader::new(asked.commands, devices.given, devices.until_fault);
    let mut writer = PieceWriter::new(devices.taken, devices.room);
    let end = run(
        alloc,
        asked.source,
        asked.input,
        options,
        &mut reader,
        &mut writer,
    );
    end == Ok(wanted) && writer.bytes() == text
}

/// Whether a refusal is told with this text, and the writer's answer is so.
pub(crate) fn is_told(
    refusal: &Refusal,
    taken: usize,
    room: usize,
    is_whole: bool,
    text: &[u8],
) -> bool {
    let mut told = PieceWriter::new(taken, room);
    let written = write_refusal(refusal, &mut told);
    written.is_ok() == is_whole && told.bytes() == text
}

/// Whether a run of a source with this input is refused with this text, and writes nothing.
pub(crate) fn is_refused_for(alloc: Global, source: &[u8], input: &[u8], text: &[u8]) -> bool {
    let mut reader = PieceReader::new(b"step\n", 512, 1000);
    let mut writer = PieceWriter::new(512, 512);
    match run(alloc, source, input, &OPTIONS, &mut reader, &mut writer) {
        Err(refusal) => is_told(&refusal, 512, 512, true, text) && writer.calls() == 0,
        Ok(_) => false,
    }
}
