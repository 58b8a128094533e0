//! Each worked row is answered as it was worked out.
ghost use Rattle.ispc_debugger.specs.Records.{FitAtEachWidth};

use crate::row::Row;
use crate::table::{
    assertions, control, debugger, divisions, forms, indices, input_ends, inputs, lane_indices,
    library, order, refusals, runs, statements,
};
use crate::wanted::WantedWriter;
use ispc_debugger::{DeltaRing, NewRecord, SnapshotRing};
use std::alloc::Global;
use tests_devices::PieceReader;
use transcript::Ending;

const TABLES: [&str; 14] = [
    assertions::ROWS,
    control::ROWS,
    debugger::ROWS,
    divisions::ROWS,
    forms::ROWS,
    indices::ROWS,
    input_ends::ROWS,
    inputs::ROWS,
    lane_indices::ROWS,
    library::ROWS,
    order::ROWS,
    refusals::ROWS,
    runs::ROWS,
    statements::ROWS,
];

/// The name of the first row of a table that is not answered over a record of this kind, or a piece of it that is no row.
fn unanswered<T: NewRecord>(alloc: Global, table: &str) -> Option<&str>
    requires { FitAtEachWidth T.row T.Timeline }
{
    for piece in table.split("$\n") {
        let Some(row) = Row::read(piece) else {
            return if piece.is_empty() { None } else { Some(piece) };
        };
        if !row.is_answered::<T>(alloc) {
            return Some(row.name);
        }
    }
    None
}

#[test]
fn each_row_is_answered(rt: HostRuntime) {
    for table in TABLES {
        assert_eq!(rt; unanswered::<DeltaRing>(rt.alloc(), table), None);
    }
}

#[test]
fn each_row_is_answered_over_whole_copies(rt: HostRuntime) {
    for table in TABLES {
        assert_eq!(rt; unanswered::<SnapshotRing>(rt.alloc(), table), None);
    }
}

/// How many lines end in these bytes.
fn lines(bytes: &[u8]) -> usize {
    bytes.iter().filter(|byte| **byte == b'\n').count()
}

/// Each command has one line of answer, so that the lines that are still wanted are those of the commands that were not whole.
#[test]
fn a_read_that_fails_leaves_the_answers_before_it(rt: HostRuntime) {
    let row = debugger::ROWS.split("$\n").filter_map(Row::read).nth(1);
    assert!(rt; row.is_some());
    let Some(row) = row else { return };
    assert_eq!(rt; row.name, "BreakpointsAndWatches");
    for given in 0..row.commands.len() {
        let mut reader = PieceReader::new(row.commands, 7, given);
        let mut writer = WantedWriter::new(row.text);
        let end = row.ending::<DeltaRing, PieceReader<'_>>(rt.alloc(), &mut reader, &mut writer);
        assert_eq!(rt; end, Ok(Ending::ReadFault), "at {given}");
        assert_eq!(rt;
            lines(writer.rest()),
            lines(&row.commands[given..]),
            "at {given}"
        );
    }
}
