//! The libraries as another program calls them. docs/LIBRARY.md quotes `look_back`.
ghost use Rattle.std.specs.Prelude.{◌≡◌, false};
ghost use Rattle.tests_devices.specs.Devices.{writer_failed};

use crate::runs::SOURCE;
use crate::told::holds;
use debug_commands::{Command, read_command};
use ispc_debugger::{Options, Refusal, Width, open_session};
use std::alloc::Global;
use tests_devices::PieceWriter;
use transcript::write_answer;

/// Runs a source to its end, goes one step back and prints `x` there: the answers go to the writer. Whether it took all of them.
///
/// # Errors
///
/// Why the source has no session.
fn look_back(alloc: Global, source: &[u8], writer: &mut PieceWriter) -> Result<bool, Refusal>
    requires works { writer_failed writer.old ≡ false }
{
    let options = Options {
        width: Width::Eight,
        history: 1000,
        steps: 1_000_000,
        entry: None,
        lane_pure: false,
    };
    let mut session = open_session::<8>(alloc, source, b"", &options)?;
    let end = session.do_command(Command::Continue);
    if write_answer(&end, &session, writer).is_err() {
        return Ok(false);
    }
    let back = session.do_command(Command::ReverseStep(1));
    if write_answer(&back, &session, writer).is_err() {
        return Ok(false);
    }
    let Some(command) = read_command(b"print x") else {
        return Ok(false);
    };
    let values = session.do_command(command);
    Ok(write_answer(&values, &session, writer).is_ok())
}

const ANSWERS: &[u8] = b"ended\nat 4:1 go depth 1 lanes 11111111\nx = 1 4 7 10 13 16 19 22\n";

#[test]
fn the_end_and_one_step_before_it(rt: HostRuntime) {
    let mut writer = PieceWriter::new(512, 512);
    let told = look_back(rt.alloc(), SOURCE, &mut writer);
    let is_told = matches!(&told, Ok(true));
    holds(
        &rt,
        is_told && writer.bytes() == ANSWERS,
        "three answers of a session",
    );
}
