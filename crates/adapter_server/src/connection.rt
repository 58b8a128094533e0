//! A connection to an editor: the messages that it sends, and what it is told.
ghost use Rattle.std.specs.Prelude.{◌≡◌, IfErr, MatchResult, OnOk, [], ◌∷◌, codes, false};
ghost use Rattle.std.specs.Io.KnownBytes.{Appends};
ghost use Rattle.serde_json.specs.View.{view};
ghost use Rattle.opened_texts.specs.Texts.{texts_of};

use adapter_frames::{FrameFault, FrameReader, HeadFault, write_frame};
use adapter_messages::{
    Head, change_body, event_message, failure_message, output_body, reply_message, stop_body,
};
use adapter_requests::{Reply, StopReason};
use opened_texts::OpenedTexts;
use serde_json::{Error as JsonError, Map, Value};
use std::alloc::{AllocError, Global};
use std::io::{self, Read, Write};
use thiserror::Error;

/// How a connection ended.
#[derive(Clone, Copy, Debug, PartialEq, Eq, Error)]
pub enum Ended {
    #[error("the editor has disconnected")]
    Disconnected,
    #[error("the input has ended")]
    EndOfInput,
    #[error("read fault")]
    ReadFault,
    #[error("write fault")]
    WriteFault,
    #[error("memory")]
    Memory,
}

impl From<AllocError> for Ended {
    ghost use Rattle.adapter_server.specs.declared.connection.Ended.TheVariants.{Memory};

    ghost from_gives = { λ _ ended. ended ≡ Memory };

    fn from(_: AllocError) -> Self {
        Ended::Memory
    }
}

/// Why a message was not sent.
#[derive(Clone, Copy, Debug, PartialEq, Eq)]
pub(crate) enum SendFault {
    Write,
    Memory,
}

impl From<AllocError> for SendFault {
    ghost use Rattle.adapter_server.specs.declared.connection.SendFault.TheVariants.{Memory};

    ghost from_gives = { λ _ fault. fault ≡ Memory };

    fn from(_: AllocError) -> Self {
        SendFault::Memory
    }
}

impl From<SendFault> for Ended {
    ghost use Rattle.adapter_server.specs.Ending.{ended_by};

    ghost from_gives = { λ fault ended. ended ≡ ended_by fault };

    fn from(fault: SendFault) -> Self {
        match fault {
            SendFault::Write => Ended::WriteFault,
            SendFault::Memory => Ended::Memory,
        }
    }
}

/// A connection to an editor.
#[derive(Drop)]
pub struct Connection<R, O> {
    pub(crate) alloc: Global,
    messages: FrameReader<R>,
    writer: O,
    /// The number of the next message.
    next: u64,
    /// The number of the request to restart that is not answered yet.
    pub(crate) restart: u64,
    /// Why the program stood still when the editor was last told so.
    pub(crate) stopped: StopReason,
    /// The expressions whose values have opened since then.
    pub(crate) opened: OpenedTexts,
    /// Whether the editor wants to hear that values have changed though the program stood still.
    pub(crate) hears_changes: bool,
}

impl<R: Read, O: Write> Connection<R, O> {
    ghost use Rattle.serde_json.specs.Data.{no_members, object};
    ghost use Rattle.serde_json.specs.Written.{has_float};
    ghost use Rattle.adapter_messages.specs.Messages.{event, failure};
    ghost use Rattle.adapter_messages.specs.Replies.{change_body, message_of, output_body, stop_body};
    ghost use Rattle.adapter_server.specs.Sending.{SaysLines, Sends, SendsOne, given, message_bytes, number_behind};
    ghost use Rattle.adapter_server.specs.Ending.{IsEndOf};
    ghost use Rattle.adapter_server.specs.Events.{Says};
    ghost use Rattle.adapter_server.specs.Serving.{LetsGo, Reads, ReadsJson, messages_of, unread};
    ghost use Rattle.adapter_server.specs.Telling.{SendsReply, SendsText};

    /// A connection by a reader and a writer.
    pub fn new(alloc: Global, reader: R, writer: O) -> Self
        ensures { unread R.remaining result ≡ R.remaining reader }
    {
        Connection {
            alloc,
            messages: FrameReader::new(alloc, reader),
            writer,
            next: 1,
            restart: 0,
            stopped: StopReason::Entry,
            opened: OpenedTexts::new(),
            hears_changes: false,
        }
    }

    /// The next message that is JSON. What comes before it is refused, and the console is told why.
    #[tactic(auto, using(crate::proofs::ReadMessages::lets_more_go, crate::proofs::ReadMessages::reading))]
    pub(crate) fn next_value(&mut self) -> Result<Value, Ended>
        ensures read { MatchResult result
            (λ value. ReadsJson (unread R.remaining self.old) (unread R.remaining self.new) (view value))
            (λ ended. LetsGo (unread R.remaining self.old) (unread R.remaining self.new)) }
        ensures ends { IfErr result (IsEndOf R.remaining self.new) }
        ensures said { OnOk result (SaysLines O.contents self.old self.new) }
    {
        for _ in 0..u64::MAX {
            let message = self.next_message()?;
            match Value::from_slice(self.alloc, message.as_slice()) {
                Ok(value) => return Ok(value),
                Err(fault) => self.refuse_text(&fault)?,
            }
        }
        Err(Ended::ReadFault)
    }

    /// Tells that a message is no JSON.
    fn refuse_text(&mut self, fault: &JsonError) -> Result<(), SendFault>
        ensures said { OnOk result (SaysLines O.contents self.old self.new) }
        ensures messages { messages_of self.new ≡ messages_of self.old }
    {
        if fault.is_memory() {
            return Err(SendFault::Memory);
        }
        self.tell_console("a message is refused: NoJson\n")
    }

    /// The next message. Frames that come before it are refused, and the console is told why.
    #[tactic(auto, using(crate::proofs::ReadMessages::lets_more_go, crate::proofs::ReadMessages::keeping))]
    fn next_message(&mut self) -> Result<Vec<u8>, Ended>
        ensures read { MatchResult result
            (λ message. Reads (unread R.remaining self.old) (unread R.remaining self.new) message.items)
            (λ ended. LetsGo (unread R.remaining self.old) (unread R.remaining self.new)) }
        ensures ends { IfErr result (IsEndOf R.remaining self.new) }
        ensures said { OnOk result (SaysLines O.contents self.old self.new) }
    {
        for _ in 0..u64::MAX {
            match self.messages.next_message(self.alloc) {
                Ok(Some(message)) => return Ok(message),
                Ok(None) => return Err(Ended::EndOfInput),
                Err(FrameFault::Read) => return Err(Ended::ReadFault),
                Err(FrameFault::Memory) => return Err(Ended::Memory),
                Err(FrameFault::Unfinished) => {
                    self.tell_console("a message is refused: Unfinished\n")?;
                    return Err(Ended::EndOfInput);
                }
                Err(FrameFault::Head(fault)) => self.refuse_head(fault)?,
            }
        }
        Err(Ended::ReadFault)
    }

    /// Tells why the head of a frame is refused.
    fn refuse_head(&mut self, fault: HeadFault) -> Result<(), SendFault>
        ensures said { OnOk result (SaysLines O.contents self.old self.new) }
        ensures messages { messages_of self.new ≡ messages_of self.old }
    {
        let text = format!(in self.alloc; "a message is refused: {fault}\n")?;
        self.tell_console(text.as_str())
    }

    /// Answers a request.
    pub(crate) fn reply(
        &mut self,
        head: Head<'_>,
        program: &str,
        reply: &Reply,
    ) -> Result<(), SendFault>
        ensures sent { OnOk result (SendsReply O.contents self.old self.new (λ number. message_of number head.entry.number head.entry.command.now program.now reply.now)) }
        ensures opened { self.new.opened ≡ self.old.opened }
        ensures messages { messages_of self.new ≡ messages_of self.old }
    {
        let number = self.number();
        let message = reply_message(self.alloc, number, head, program, reply)?;
        self.send(&message)
    }

    /// Refuses a request.
    pub(crate) fn refuse(&mut self, head: Head<'_>, text: &str) -> Result<(), SendFault>
        ensures sent { OnOk result (SendsReply O.contents self.old self.new (λ number. failure number head.entry.number head.entry.command.now text.now)) }
        ensures opened { self.new.opened ≡ self.old.opened }
        ensures messages { messages_of self.new ≡ messages_of self.old }
    {
        let number = self.number();
        let message = failure_message(self.alloc, number, head, text)?;
        self.send(&message)
    }

    /// Tells of an event that has nothing to tell but its name.
    pub(crate) fn tell(&mut self, name: &str) -> Result<(), SendFault>
        ensures sent { OnOk result (SendsOne O.contents self.old self.new (λ number. event number name.now (object no_members))) }
        ensures stopped { self.new.stopped ≡ self.old.stopped }
        ensures opened { self.new.opened ≡ self.old.opened }
        ensures messages { messages_of self.new ≡ messages_of self.old }
    {
        let body = Value::Object(Map::new(self.alloc));
        self.tell_with(name, body)
    }

    /// Tells why the program stands still, and which thread is shown first; no expression is open from then on.
    pub(crate) fn tell_stop(
        &mut self,
        reason: StopReason,
        thread: u64,
        text: &str,
    ) -> Result<(), SendFault>
        ensures sent { OnOk result (SendsOne O.contents self.old self.new (λ number. event number (codes "stopped") (stop_body reason thread text.now))) }
        ensures stopped { OnOk result (self.new.stopped ≡ reason) }
        ensures opened { OnOk result (texts_of self.new.opened ≡ []) }
        ensures messages { messages_of self.new ≡ messages_of self.old }
    {
        let body = stop_body(self.alloc, reason, thread, text)?;
        self.tell_with("stopped", body)?;
        self.stopped = reason;
        self.opened.clear();
        Ok(())
    }

    /// Tells that values have changed though the program stands still.
    pub(crate) fn tell_change(&mut self) -> Result<(), SendFault>
        ensures sent { OnOk result (SendsOne O.contents self.old self.new (λ number. event number (codes "invalidated") change_body)) }
        ensures stopped { self.new.stopped ≡ self.old.stopped }
        ensures opened { self.new.opened ≡ self.old.opened }
        ensures messages { messages_of self.new ≡ messages_of self.old }
    {
        let body = change_body(self.alloc)?;
        self.tell_with("invalidated", body)
    }

    /// Puts a text on the editor's console.
    pub(crate) fn tell_console(&mut self, text: &str) -> Result<(), SendFault>
        ensures sent { OnOk result (SendsOne O.contents self.old self.new (λ number. event number (codes "output") (output_body text.now))) }
        ensures said { OnOk result (Sends O.contents self.old self.new (Says text.now ∷ [])) }
        ensures stopped { self.new.stopped ≡ self.old.stopped }
        ensures opened { self.new.opened ≡ self.old.opened }
        ensures messages { messages_of self.new ≡ messages_of self.old }
    {
        let body = output_body(self.alloc, text)?;
        self.tell_with("output", body)
    }

    fn tell_with(&mut self, name: &str, body: Value) -> Result<(), SendFault>
        ensures sent { has_float (view body) ≡ false → OnOk result (SendsOne O.contents self.old self.new (λ number. event number name.now (view body))) }
        ensures stopped { self.new.stopped ≡ self.old.stopped }
        ensures opened { self.new.opened ≡ self.old.opened }
        ensures messages { messages_of self.new ≡ messages_of self.old }
    {
        let number = self.number();
        let message = event_message(self.alloc, number, name, body)?;
        self.send(&message)
    }

    /// The number of a new message.
    fn number(&mut self) -> u64
        ensures number { result ≡ self.old.next }
        ensures left { self.new ≡ record self.old { next = number_behind self.old.next } }
        ensures messages { messages_of self.new ≡ messages_of self.old }
    {
        let number = self.next;
        self.next = number.saturating_add(1);
        number
    }

    fn send(&mut self, message: &Value) -> Result<(), SendFault>
        ensures sent { has_float (view message.now) ≡ false
            → OnOk result (Appends (given O.contents self.old) (given O.contents self.new) (message_bytes (view message.now))) }
        ensures framed { OnOk result (SendsText O.contents self.old self.new (view message.now)) }
        ensures left { self.new ≡ record self.old { writer = self.new.writer } }
        ensures messages { messages_of self.new ≡ messages_of self.old }
    {
        let text = message.to_string(self.alloc)?;
        match write_frame(self.alloc, &mut self.writer, text.as_bytes()) {
            Ok(()) => Ok(()),
            Err(fault) if fault.kind() == io::ErrorKind::OutOfMemory => Err(SendFault::Memory),
            Err(_) => Err(SendFault::Write),
        }
    }
}
