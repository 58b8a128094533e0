//! How a call ended.
use adapter_frames::FrameFault;
use adapter_messages::RequestFault;
use clap::error::{Error, ErrorKind};
use debug_answers::{Answer, Refusal as AnswerRefusal};
use debug_inputs::InputFault;
use frame_values::NoValue;
use ispc_refusals::Refusal;
use placed_expressions::ExpressionRefusal;
use source_answers::SourceFault;
use source_port::PortRefusal;
use std::alloc::AllocError;
use std::io;

/// How a call ended.
#[derive(Clone, Copy, Debug, PartialEq, Eq)]
pub enum Ended {
    /// It gave its result.
    Done,
    /// There was no memory.
    Memory,
    /// It was refused for something else, or did something else than it has to.
    Otherwise,
}

/// Why a call may end without a result.
pub(crate) trait CallFault {
    fn is_memory(&self) -> bool;
}

/// How the call ended that gave this.
pub(crate) fn end_of<T, E: CallFault>(given: &Result<T, E>) -> Ended {
    match given {
        Ok(_) => Ended::Done,
        Err(fault) if fault.is_memory() => Ended::Memory,
        Err(_) => Ended::Otherwise,
    }
}

/// How the command ended that was answered so.
pub(crate) fn end_of_command(answer: Answer<'_>) -> Ended {
    match answer {
        Answer::Refused(AnswerRefusal::Memory) => Ended::Memory,
        Answer::Refused(_) => Ended::Otherwise,
        _ => Ended::Done,
    }
}

impl CallFault for AllocError {
    fn is_memory(&self) -> bool {
        true
    }
}

impl CallFault for SourceFault {
    fn is_memory(&self) -> bool {
        matches!(self, SourceFault::Memory)
    }
}

impl CallFault for ExpressionRefusal {
    fn is_memory(&self) -> bool {
        matches!(self, ExpressionRefusal::Memory)
    }
}

impl CallFault for NoValue {
    fn is_memory(&self) -> bool {
        matches!(self, NoValue::Refused(ExpressionRefusal::Memory))
    }
}

impl CallFault for PortRefusal {
    fn is_memory(&self) -> bool {
        matches!(self, PortRefusal::Memory)
    }
}

impl CallFault for InputFault {
    fn is_memory(&self) -> bool {
        matches!(self, InputFault::Memory)
    }
}

impl CallFault for Refusal {
    fn is_memory(&self) -> bool {
        matches!(self, Refusal::Memory)
    }
}

impl CallFault for FrameFault {
    fn is_memory(&self) -> bool {
        matches!(self, FrameFault::Memory)
    }
}

impl CallFault for RequestFault {
    fn is_memory(&self) -> bool {
        matches!(self, RequestFault::Memory)
    }
}

impl CallFault for Error {
    fn is_memory(&self) -> bool {
        matches!(self.kind(), ErrorKind::OutOfMemory)
    }
}

impl CallFault for io::Error {
    fn is_memory(&self) -> bool {
        self.kind() == io::ErrorKind::OutOfMemory
    }
}
