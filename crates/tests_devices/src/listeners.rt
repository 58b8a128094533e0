//! A reader that tells how much had been written before each read.
ghost use Rattle.std.specs.Prelude.{◌≡◌, Some, false};

use crate::readers::PieceReader;
use crate::writers::PieceWriter;
use arrayvec::ArrayVec;
use debug_traits::{CommandReader, ReadFault};

/// How many reads are noted.
const NOTED: usize = 64;

/// Gives some bytes, at most so many at a time, to one who writes on a `PieceWriter`, and notes of the first 64 reads how many bytes had
/// been written before each.
#[derive(Drop)]
pub struct Listener<'a> {
    reader: PieceReader<'a>,
    told: ArrayVec<usize, NOTED>,
}

impl<'a> Listener<'a> {
    ghost use Rattle.tests_devices.specs.Devices.{listened_failed, listened_reads, listened_rest};

    /// A reader of these bytes that gives at most so many a call, and at least one.
    pub fn new(bytes: &'a [u8], most: usize) -> Self
        ensures fresh { listened_reads result ≡ 0 }
        ensures works { listened_failed result ≡ false }
        ensures bytes { listened_rest result ≡ bytes.entry.now }
    {
        Listener {
            reader: PieceReader::new(bytes, most, usize::MAX),
            told: ArrayVec::new(),
        }
    }

    /// How many bytes had been written before each read, of the first 64.
    pub fn told(&self) -> &[usize] {
        self.told.as_slice()
    }
}

impl CommandReader<PieceWriter> for Listener<'_> {
    ghost left = { λ s. Some (s.reader.rest.now) };

    ghost reads = { λ s. s.reader.reads };

    ghost pieces = { λ s. s.reader.pieces };

    ghost has_failed = { λ s. s.reader.has_failed };

    ghost heard = { λ s. s.reader.journal.heard };

    fn read(&mut self, into: &mut [u8], writer: &PieceWriter) -> Result<usize, ReadFault> {
        if !self.told.is_full() {
            self.told.push(writer.bytes().len());
        }
        self.reader.read(into, writer)
    }
}
