//! What is told of a fault at which the program stands still.
ghost use Rattle.std.specs.Prelude.{◌≡◌, IfOk, Some};
ghost use Rattle.gang_model.specs.Texts.Text.{fault_text};
ghost use Rattle.adapter_replies.specs.Exceptions.{IsExceptionTold, IsFaultTold, fault_number, meaning, page_text, told_exception};

use adapter_requests::{Exception, Reply, StopReason};
use gang_types::FaultName;
use refusal_pages::{Page, page_of};
use std::alloc::{AllocError, Global};

/// Why it is refused where the last stop was at no fault.
pub(crate) const NO_FAULT: &str = "the program stands at no fault";

/// Which fault the last stop was at, by the reason of that stop; or a refusal where it was at none.
///
/// # Errors
///
/// Out of memory.
pub fn exception_reply(alloc: Global, stopped: StopReason) -> Result<Reply, AllocError>
    ensures { IfOk result (IsExceptionTold stopped) }
{
    match stopped {
        StopReason::Exception { name, lane } => fault_reply(alloc, name, lane),
        _ => Ok(Reply::Refused(String::from_str(alloc, NO_FAULT)?)),
    }
}

/// A fault of a lane: its number and name, the lane, and what its page says.
fn fault_reply(alloc: Global, name: FaultName, lane: usize) -> Result<Reply, AllocError>
    ensures { IfOk result (IsFaultTold name lane) }
{
    let page = page_of(fault_number(name).as_bytes());
    described(alloc, name, lane, page)
}

/// A fault of a lane, with what a page says.
fn described(
    alloc: Global,
    name: FaultName,
    lane: usize,
    page: Option<Page>,
) -> Result<Reply, AllocError>
    ensures { IfOk result (λ told. told_exception told ≡ Some (fault_text name, meaning lane page)) }
{
    let mut text = format!(in alloc; "in lane {lane}\n\n")?;
    let said = String::from_utf8_lossy(alloc, page_text(page))?;
    text.push_str(said.as_str())?;
    let name = String::from_str(alloc, fault_text(name))?;
    Ok(Reply::Exception(Exception { name, text }))
}

/// The text of a page.
fn page_text(page: Option<Page>) -> &'static [u8]
    ensures { result.now ≡ page_text page }
{
    match page {
        None => b"",
        Some(page) => page.text,
    }
}

/// The number of a fault.
fn fault_number(name: FaultName) -> &'static str
    ensures { result.now ≡ fault_number name }
{
    match name {
        FaultName::DivideByZero => "F1",
        FaultName::Index => "F2",
        FaultName::LaneIndex => "F3",
        FaultName::Assert => "F4",
        FaultName::CallDepth => "F5",
    }
}

/// The number and name of a fault.
pub(crate) fn fault_text(name: FaultName) -> &'static str
    ensures { result.now ≡ fault_text name }
{
    match name {
        FaultName::DivideByZero => "F1 DivideByZero",
        FaultName::Index => "F2 Index",
        FaultName::LaneIndex => "F3 LaneIndex",
        FaultName::Assert => "F4 Assert",
        FaultName::CallDepth => "F5 CallDepth",
    }
}
