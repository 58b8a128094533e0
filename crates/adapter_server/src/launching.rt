//! What comes before a launch.
ghost use Rattle.std.specs.Prelude.{◌≡◌, IfErr, IfOk, IfSome, OnOk};
ghost use Rattle.serde_json.specs.View.{view};
ghost use Rattle.adapter_requests.specs.declared.request.Launch.{Launch};
ghost use Rattle.adapter_requests.specs.declared.request.Request.TheVariants as variant;
ghost use Rattle.adapter_messages.specs.Arguments.{IsLaunch, head_of};
ghost use Rattle.adapter_server.specs.declared.launching.Before.TheVariants.{Launches};
ghost use Rattle.adapter_server.specs.Ending.{turn_before};
ghost use Rattle.adapter_server.specs.Hearing.{AwaitsLaunch, EndsBefore, HearsBefore, IsLaunching, Refuses, TellsBefore, head_in};
ghost use Rattle.adapter_server.specs.Serving.{messages_of, path_of, setup_by, setup_of};

use crate::connection::{Connection, Ended, SendFault};
use adapter_messages::{Head, read_head, read_request};
use adapter_requests::{Launch, Reply, Request};
use serde_json::Value;
use std::alloc::Global;
use std::io::{Read, Write};

/// A request to launch a program.
#[derive(Drop)]
pub struct LaunchMessage {
    alloc: Global,
    message: Value,
}

impl LaunchMessage {
    /// How the program is to be run; none where memory is wanting.
    #[tactic(auto, using(crate::proofs::Launches::launch_setup))]
    pub fn launch(&self) -> Option<Launch<'_>>
        ensures launch { IfSome result (IsLaunch (view self.now.message)) }
        ensures program { IfSome result (λ launch. launch.program.now ≡ path_of self.now) }
        ensures setup { IfSome result (λ launch. setup_by launch ≡ setup_of self.now) }
    {
        match read_request(self.alloc, "launch", &self.message) {
            Ok(Request::Launch(launch)) => Some(launch),
            _ => None,
        }
    }

    /// The number and the command of the request.
    pub(crate) fn head(&self) -> Head<'_>
        ensures number { result.number ≡ (head_in self.now).0 }
        ensures command { result.command.now ≡ (head_in self.now).1 }
    {
        match read_head(&self.message) {
            Some(head) => head,
            None => Head {
                number: 0,
                command: "launch",
            },
        }
    }
}

/// What a message before a launch leads to.
#[derive(Clone, Copy, Debug, PartialEq, Eq)]
enum Before {
    Goes,
    Launches,
    Disconnects,
}

impl<R: Read, O: Write> Connection<R, O> {
    /// Answers what comes before a launch, and gives the launch, which is not answered yet.
    ///
    /// # Errors
    ///
    /// How the connection ended before a launch came.
    pub fn await_launch(&mut self) -> Result<LaunchMessage, Ended>
        ensures launch { IfOk result (λ launch. AwaitsLaunch R.remaining O.contents launch self.old self.new) }
        ensures ends { IfErr result (EndsBefore R.remaining O.contents self.old self.new) }
    {
        for _ in 0..u64::MAX {
            let message = self.next_value()?;
            match self.answer_before(&message)? {
                Before::Goes => {}
                Before::Disconnects => return Err(Ended::Disconnected),
                Before::Launches => {
                    let alloc = self.alloc;
                    return Ok(LaunchMessage { alloc, message });
                }
            }
        }
        Err(Ended::ReadFault)
    }

    /// Refuses a launch, with the reason.
    ///
    /// # Errors
    ///
    /// The writer fails, or out of memory.
    pub fn refuse_launch(&mut self, launch: &LaunchMessage, text: &str) -> Result<(), Ended>
        ensures { OnOk result (Refuses O.contents (head_in launch.now) text.now self.old self.new) }
    {
        self.refuse(launch.head(), text)?;
        Ok(())
    }

    /// Answers a message before a launch, unless it launches.
    fn answer_before(&mut self, message: &Value) -> Result<Before, SendFault>
        ensures told { IfOk result (λ turn. HearsBefore O.contents turn (head_of (view message.now)) (view message.now) self.old self.new) }
        ensures launches { IfOk result (λ before. before ≡ Launches → IsLaunching (view message.now) × (self.new ≡ self.old)) }
        ensures messages { messages_of self.new ≡ messages_of self.old }
    {
        let Some(head) = read_head(message) else {
            self.tell_console("a message is refused: NoRequest\n")?;
            return Ok(Before::Goes);
        };
        match read_request(self.alloc, head.command, message) {
            Err(fault) => {
                let text = format!(in self.alloc; "{fault}")?;
                self.refuse(head, text.as_str())?;
                Ok(Before::Goes)
            }
            Ok(request) => self.answer_request_before(head, &request),
        }
    }

    /// Answers a request before a launch, unless it launches.
    fn answer_request_before(
        &mut self,
        head: Head<'_>,
        request: &Request<'_>,
    ) -> Result<Before, SendFault>
        ensures turn { IfOk result (λ turn. turn ≡ turn_before request.now) }
        ensures told { OnOk result (TellsBefore O.contents (head.entry.number, head.entry.command.now) request.now self.old self.new) }
        ensures launches { IfOk result (λ before. before ≡ Launches → (launch : Launch) × (request.now ≡ variant.Launch launch) × (self.new ≡ self.old)) }
        ensures messages { messages_of self.new ≡ messages_of self.old }
    {
        match request {
            Request::Launch(_) => return Ok(Before::Launches),
            Request::Initialize { hears_invalidated } => {
                self.hears_changes = *hears_invalidated;
                self.reply(head, "", &Reply::Capabilities)?;
            }
            Request::Disconnect => {
                self.reply(head, "", &Reply::Done)?;
                return Ok(Before::Disconnects);
            }
            Request::Unknown(name) => {
                let text = format!(in self.alloc; "no request {name}")?;
                self.refuse(head, text.as_str())?;
            }
            _ => self.refuse(head, "no program is launched")?,
        }
        Ok(Before::Goes)
    }
}
