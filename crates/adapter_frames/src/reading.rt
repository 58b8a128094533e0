//! The messages that a reader gives.
ghost use Rattle.std.specs.Prelude.{◌≡◌, IfErr, IfNone, IfOk, IfSome, ◌⊎◌};
ghost use Rattle.std.specs.Io.KnownBytes.{IsAtEnd, Keeps};
ghost use Rattle.adapter_frames.specs.Places.{HeadAt};
ghost use Rattle.adapter_frames.specs.declared.reading.FrameFault.TheVariants.{Memory};

use crate::heads::{Head, HeadFault, read_head};
use std::alloc::{AllocError, Global};
use std::io::Read;
use thiserror::Error;

/// Why no message was read.
#[derive(Clone, Copy, Debug, PartialEq, Eq, Error)]
pub enum FrameFault {
    #[error("{0}")]
    Head(HeadFault),
    #[error("Unfinished: the input ends inside a message")]
    Unfinished,
    #[error("the input cannot be read")]
    Read,
    #[error("out of memory")]
    Memory,
}

impl From<AllocError> for FrameFault {
    ghost from_gives = { λ _ fault. fault ≡ Memory };

    fn from(_: AllocError) -> Self {
        FrameFault::Memory
    }
}

/// Reads messages, one after another.
#[derive(Drop)]
pub struct FrameReader<R> {
    reader: R,
    /// What was read and is no part of a message that was given.
    bytes: Vec<u8>,
}

impl<R: Read> FrameReader<R> {
    ghost use Rattle.adapter_frames.specs.Reading.{Ended, Fails, Gives, IsReadBack, Takes, kept, reader_of, unread};

    /// A reader of the messages that another one gives.
    pub fn new(alloc: Global, reader: R) -> Self
        ensures { unread R.remaining result ≡ R.remaining reader }
    {
        FrameReader {
            reader,
            bytes: Vec::new(alloc),
        }
    }

    /// The next message; none where the input ends in front of one.
    ///
    /// # Errors
    ///
    /// Its head is refused, the input ends inside it or cannot be read, or out of memory. The head of a refused frame, and
    /// all that was read behind it, is let go; nothing else is.
    pub fn next_message(&mut self, alloc: Global) -> Result<Option<Vec<u8>>, FrameFault>
        ensures message { IfOk result (λ given. IfSome given
            (λ message. Gives (unread R.remaining self.old) (unread R.remaining self.new) message.items)) }
        ensures end { IfOk result (λ given. IfNone given
            (Keeps (unread R.remaining self.old) (unread R.remaining self.new) × IsAtEnd (unread R.remaining self.new))) }
        ensures fault { IfErr result
            (Fails (unread R.remaining self.old) (unread R.remaining self.new) (kept self.new) (R.remaining (reader_of self.new))) }
        ensures read_back { IsReadBack (unread R.remaining self.old) (unread R.remaining self.new) result }
    {
        for _ in 0..u64::MAX {
            if let Some(message) = self.taken(alloc)? {
                return Ok(Some(message));
            }
            if self.read_piece()? == 0 {
                return self.ended();
            }
        }
        Err(FrameFault::Read)
    }

    /// At the end of the input: no message, where nothing of one was read.
    fn ended(&self) -> Result<Option<Vec<u8>>, FrameFault>
        ensures { Ended (kept self.now) result }
    {
        if self.bytes.is_empty() {
            Ok(None)
        } else {
            Err(FrameFault::Unfinished)
        }
    }

    /// Reads some bytes more, and says how many.
    fn read_piece(&mut self) -> Result<usize, FrameFault>
        ensures keeps { Keeps (unread R.remaining self.old) (unread R.remaining self.new) }
        ensures end { IfOk result (λ count. count ≡ 0 → (kept self.new ≡ kept self.old) × IsAtEnd (R.remaining (reader_of self.new))) }
        ensures fault { IfErr result (λ fault. (fault ≡ FrameFault.Read) ⊎ (fault ≡ FrameFault.Memory)) }
    {
        self.bytes.reserve(4096)?;
        let mut piece = [0; 4096];
        match self.reader.read(&mut piece) {
            Ok(count) => {
                self.bytes.extend_from_slice(&piece[..count])?;
                Ok(count)
            }
            Err(_) => Err(FrameFault::Read),
        }
    }

    /// The message of the frame that was read, if it is whole.
    fn taken(&mut self, alloc: Global) -> Result<Option<Vec<u8>>, FrameFault>
        ensures taken { Takes (kept self.old) (kept self.new) result }
        ensures reader { reader_of self.new ≡ reader_of self.old }
    {
        match read_head(self.bytes.as_slice()) {
            Err(fault) => {
                self.bytes.clear();
                Err(FrameFault::Head(fault))
            }
            Ok(None) => Ok(None),
            Ok(Some(head)) => self.cut(alloc, head),
        }
    }

    /// The message behind a head, if it is whole, and what stands behind it is kept.
    fn cut(&mut self, alloc: Global, head: Head) -> Result<Option<Vec<u8>>, FrameFault>
        requires { HeadAt (kept self.old) head.start head.length }
        ensures cut { Takes (kept self.old) (kept self.new) result }
        ensures reader { reader_of self.new ≡ reader_of self.old }
    {
        let rest = &self.bytes[head.start..];
        if rest.len() < head.length {
            return Ok(None);
        }
        let (front, behind) = rest.split_at(head.length);
        let message = Vec::from_slice(alloc, front)?;
        let kept = Vec::from_slice(alloc, behind)?;
        self.bytes = kept;
        Ok(Some(message))
    }
}
