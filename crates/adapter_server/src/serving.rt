//! The requests for a program that is launched.
ghost use Rattle.std.specs.Prelude.{◌≡◌, IfErr, IfOk, OnOk, codes};
ghost use Rattle.serde_json.specs.View.{view};
ghost use Rattle.gang_model.specs.Debugger.Debugger.{Debugger, Setting};
ghost use Rattle.debug_session.specs.Sessions.{StandsFor};
ghost use Rattle.adapter_requests.specs.declared.request.Request.TheVariants.{Continue};
ghost use Rattle.adapter_session.specs.Done.{DoesRequest};
ghost use Rattle.adapter_session.specs.Terms.{terms_of};
ghost use Rattle.adapter_server.specs.Events.{events_at_beginning, events_behind, events_on_entry};
ghost use Rattle.adapter_server.specs.Ending as spec;
ghost use Rattle.adapter_server.specs.Ending.{IsEndOf};
ghost use Rattle.adapter_server.specs.Hearing.{Hears, HearsLaunch, HearsRestart, HearsUntil, Refuses};
ghost use Rattle.adapter_server.specs.Sending.{Sends};
ghost use Rattle.adapter_server.specs.Serving.{Answers, Asks, Begins, DoesOne, Follows, HasBegun, MayDo, Serves, ServesAnew, messages_of, run_of, setup_by, setup_of, unread};
ghost use Rattle.adapter_server.specs.Telling.{Tells, TellsBeginning, TellsOne};
ghost use Rattle.adapter_server.specs.Threads.{threads_of};

use crate::connection::{Connection, Ended, SendFault};
use crate::events::{Told, events_at_beginning, events_behind, events_on_entry};
use crate::files::FileFinder;
use crate::launching::LaunchMessage;
use crate::opening::open_answer;
use crate::spelling::path_for;
use crate::threads::told_aside;
use adapter_messages::{Head, read_head, read_request};
use adapter_requests::{Launch, Reply, Request};
use adapter_session::{
    Answered, Beginning, Terms, answer_request, restore_stops, stop_at_beginning,
};
use debug_session::Session;
use frame_expressions::ExpressionMachine;
use lane_places::LaneMachine;
use serde_json::Value;
use std::alloc::{AllocError, Global};
use std::io::{Read, Write};

/// What the requests for a program led to.
#[derive(Clone, Copy, Debug, PartialEq, Eq)]
pub enum Served {
    /// The program is to be run anew; the request is not answered yet.
    Restarts,
    Disconnected,
}

impl<R: Read, O: Write> Connection<R, O> {
    /// Answers a launch whose program a session runs, and every request until the editor disconnects or restarts it.
    ///
    /// # Errors
    ///
    /// How the connection ended before that.
    #[tactic(auto, using(crate::proofs::ReadMessages::serves_nothing, crate::proofs::ReadMessages::lets_nothing_go))]
    pub fn serve<M: LaneMachine, F: FileFinder>(
        &mut self,
        launch: &LaunchMessage,
        terms: &mut Terms,
        session: &mut Session<M>,
        files: &F,
    ) -> Result<Served, Ended>
        ensures done { Serves M.stands (F.leads files.now) (setup_of launch.now) (unread R.remaining self.old) (unread R.remaining self.new)
            (run_of session.old terms.old) (run_of session.new terms.new) }
        ensures told { IfOk result (λ served. HearsLaunch M.stands (F.leads files.now) R.remaining O.contents launch.now (setup_of launch.now) served self.old self.new
            (run_of session.old terms.old) (run_of session.new terms.new)) }
        ensures ends { IfErr result (IsEndOf R.remaining self.new) }
    {
        self.reply(launch.head(), "", &Reply::Done)?;
        self.tell("initialized")?;
        self.go_on(launch, terms, session, files)
    }

    /// Answers a request to restart, once the program is run anew by a session: it gets the breakpoints and watches of the
    /// old one, and its requests are answered until the editor disconnects or restarts it.
    ///
    /// # Errors
    ///
    /// How the connection ended before that.
    pub fn restart<M: LaneMachine, F: FileFinder>(
        &mut self,
        launch: &LaunchMessage,
        old: &Session<M>,
        terms: &mut Terms,
        session: &mut Session<M>,
        files: &F,
    ) -> Result<Served, Ended>
        ensures done { ServesAnew M.stands (F.leads files.now) (setup_of launch.now) (unread R.remaining self.old) (unread R.remaining self.new) old.now
            (run_of session.old terms.old) (run_of session.new terms.new) }
        ensures told { IfOk result (λ served. HearsRestart M.stands (F.leads files.now) R.remaining O.contents (setup_of launch.now) old.now served self.old self.new
            (run_of session.old terms.old) (run_of session.new terms.new)) }
        ensures ends { IfErr result (IsEndOf R.remaining self.new) }
    {
        restore_stops(old, terms, session);
        self.opened.clear();
        self.reply(self.restarting(), "", &Reply::Done)?;
        let Some(asked) = launch.launch() else {
            return Err(Ended::Memory);
        };
        self.begin(&asked, terms, session)?;
        self.go_on(launch, terms, session, files)
    }

    /// Refuses a request to restart, with the reason.
    ///
    /// # Errors
    ///
    /// The writer fails, or out of memory.
    pub fn refuse_restart(&mut self, text: &str) -> Result<(), Ended>
        ensures { OnOk result (Refuses O.contents (self.old.restart, codes "restart") text.now self.old self.new) }
    {
        self.refuse(self.restarting(), text)?;
        Ok(())
    }

    /// The request to restart that is not answered yet.
    fn restarting(&self) -> Head<'static>
        ensures number { result.number ≡ self.now.restart }
        ensures command { result.command.now ≡ codes "restart" }
    {
        Head {
            number: self.restart,
            command: "restart",
        }
    }

    /// Answers every request until the editor disconnects or restarts the program.
    ///
    /// # Errors
    ///
    /// How the connection ended before that.
    #[tactic(auto, using(crate::proofs::ReadMessages::serves_nothing, crate::proofs::ReadMessages::lets_nothing_go))]
    pub fn go_on<M: LaneMachine, F: FileFinder>(
        &mut self,
        launch: &LaunchMessage,
        terms: &mut Terms,
        session: &mut Session<M>,
        files: &F,
    ) -> Result<Served, Ended>
        ensures done { Serves M.stands (F.leads files.now) (setup_of launch.now) (unread R.remaining self.old) (unread R.remaining self.new)
            (run_of session.old terms.old) (run_of session.new terms.new) }
        ensures told { IfOk result (λ served. HearsUntil M.stands (F.leads files.now) R.remaining O.contents (setup_of launch.now) served self.old self.new
            (run_of session.old terms.old) (run_of session.new terms.new)) }
        ensures ends { IfErr result (IsEndOf R.remaining self.new) }
    {
        let Some(asked) = launch.launch() else {
            return Err(Ended::Memory);
        };
        for _ in 0..u64::MAX {
            let message = self.next_value()?;
            if let Some(served) = self.answer(&asked, terms, session, &message, files)? {
                return Ok(served);
            }
        }
        Err(Ended::ReadFault)
    }

    /// Answers a message, and says what serving ends by behind it, where it ends.
    #[tactic(auto, using(crate::proofs::ServedRequests::answers_nothing, crate::proofs::ServedRequests::answers_following))]
    fn answer<M: LaneMachine, F: FileFinder>(
        &mut self,
        launch: &Launch<'_>,
        terms: &mut Terms,
        session: &mut Session<M>,
        message: &Value,
        files: &F,
    ) -> Result<Option<Served>, SendFault>
        ensures done { Answers M.stands (F.leads files.now) (setup_by launch.now) (view message.now) (run_of session.old terms.old) (run_of session.new terms.new) }
        ensures told { IfOk result (λ end. Hears M.stands (F.leads files.now) O.contents (setup_by launch.now) end (view message.now) self.old self.new
            (run_of session.old terms.old) (run_of session.new terms.new)) }
        ensures messages { messages_of self.new ≡ messages_of self.old }
    {
        let Some(head) = read_head(message) else {
            self.tell_console("a message is refused: NoRequest\n")?;
            return Ok(None);
        };
        match read_request(self.alloc, head.command, message) {
            Err(fault) => {
                let text = format!(in self.alloc; "{fault}")?;
                self.refuse(head, text.as_str())?;
                Ok(None)
            }
            Ok(request) => self.do_request(launch, terms, session, head, &request, files),
        }
    }

    /// Does a request, which knows the program by the path of its source where this is the program's, and answers it, and tells what came
    /// of it; a restart is not answered. It says what serving ends by behind the request, where it ends.
    #[tactic(auto, using(crate::proofs::ServedRequests::follows_nothing, crate::proofs::ServedRequests::follows_asking))]
    fn do_request<M: LaneMachine, F: FileFinder>(
        &mut self,
        launch: &Launch<'_>,
        terms: &mut Terms,
        session: &mut Session<M>,
        head: Head<'_>,
        request: &Request<'_>,
        files: &F,
    ) -> Result<Option<Served>, SendFault>
        ensures end { IfOk result (λ end. end ≡ spec.end_behind request.now) }
        ensures done { Follows M.stands (F.leads files.now) (setup_by launch.now) request.now (run_of session.old terms.old) (run_of session.new terms.new) }
        ensures told { OnOk result (Tells M.stands (F.leads files.now) O.contents (setup_by launch.now) (head.entry.number, head.entry.command.now) request.now self.old self.new
            (run_of session.old terms.old) (run_of session.new terms.new)) }
        ensures messages { messages_of self.new ≡ messages_of self.old }
    {
        if let Request::Restart = request {
            self.restart = head.number;
            return Ok(Some(Served::Restarts));
        }
        let reply = told_aside(
            self.alloc,
            launch,
            session,
            self.stopped,
            &self.opened,
            request,
        )?;
        if let Some(reply) = reply {
            self.reply(head, launch.program, &reply)?;
            return Ok(end_behind(request));
        }
        let path = path_for(self.alloc, files, launch.program, request)?;
        let answered = ask(self.alloc, path, terms, session, request)?;
        let told = open_answer(self.alloc, session, request, &mut self.opened, answered);
        self.reply(head, launch.program, &told.reply)?;
        self.tell_of(launch, session, request, &told)?;
        match request {
            Request::ConfigurationDone => {
                self.begin(launch, terms, session)?;
                Ok(None)
            }
            _ => Ok(end_behind(request)),
        }
    }

    /// Tells what is told behind the reply to a request.
    fn tell_of<M: ExpressionMachine>(
        &mut self,
        launch: &Launch<'_>,
        session: &Session<M>,
        request: &Request<'_>,
        answered: &Answered,
    ) -> Result<(), SendFault>
        ensures told { (s : Setting) (d : Debugger) → StandsFor M.stands session.now s d
            → OnOk result (Sends O.contents self.old self.new (events_behind (threads_of launch.now) self.old.hears_changes s d request.now self.old.stopped answered.now)) }
        ensures messages { messages_of self.new ≡ messages_of self.old }
    {
        let told = Told {
            last: self.stopped,
            hears_changes: self.hears_changes,
        };
        let events = events_behind(self.alloc, launch, session, told, request, answered)?;
        self.tell_events(events.as_slice())
    }

    /// Begins the run: the program stops before its first step, where it is to or a breakpoint counts there, or runs to where it
    /// stops by itself.
    fn begin<M: ExpressionMachine>(
        &mut self,
        launch: &Launch<'_>,
        terms: &mut Terms,
        session: &mut Session<M>,
    ) -> Result<(), SendFault>
        ensures done { Begins M.stands (setup_by launch.now) (run_of session.old terms.old) (run_of session.new terms.new) }
        ensures begun { OnOk result (HasBegun M.stands (setup_by launch.now) (run_of session.old terms.old) (run_of session.new terms.new)) }
        ensures told { OnOk result (TellsBeginning M.stands O.contents (threads_of launch.now) launch.now.program.now launch.now.stops_on_entry self.old self.new
            (run_of session.old terms.old) (run_of session.new terms.new)) }
        ensures messages { messages_of self.new ≡ messages_of self.old }
    {
        if launch.stops_on_entry {
            return self.tell_entry(launch, session);
        }
        let beginning = stop_at_beginning(self.alloc, terms, session);
        self.tell_beginning(launch, session, &beginning)?;
        match beginning.first {
            Some(_) => Ok(()),
            None => self.run_on(launch, terms, session),
        }
    }

    /// Runs to where the program stops by itself.
    fn run_on<M: ExpressionMachine>(
        &mut self,
        launch: &Launch<'_>,
        terms: &mut Terms,
        session: &mut Session<M>,
    ) -> Result<(), SendFault>
        ensures done { MayDo M.stands launch.now.program.now Continue (run_of session.old terms.old) (run_of session.new terms.new) }
        ensures gone { OnOk result (DoesOne M.stands launch.now.program.now Continue (run_of session.old terms.old) (run_of session.new terms.new)) }
        ensures told { OnOk result (TellsOne M.stands O.contents (threads_of launch.now) launch.now.program.now Continue self.old self.new
            (run_of session.old terms.old) (run_of session.new terms.new)) }
        ensures messages { messages_of self.new ≡ messages_of self.old }
    {
        let answered = ask(
            self.alloc,
            launch.program,
            terms,
            session,
            &Request::Continue,
        )?;
        self.tell_of(launch, session, &Request::Continue, &answered)
    }

    /// Tells that the program stands before its first step.
    fn tell_entry<M: ExpressionMachine>(
        &mut self,
        launch: &Launch<'_>,
        session: &Session<M>,
    ) -> Result<(), SendFault>
        ensures told { (s : Setting) (d : Debugger) → StandsFor M.stands session.now s d
            → OnOk result (Sends O.contents self.old self.new (events_on_entry (threads_of launch.now) s d)) }
        ensures messages { messages_of self.new ≡ messages_of self.old }
    {
        let events = events_on_entry(self.alloc, launch, session)?;
        self.tell_events(events.as_slice())
    }

    /// Tells what the breakpoints came to where the run begins.
    fn tell_beginning<M: ExpressionMachine>(
        &mut self,
        launch: &Launch<'_>,
        session: &Session<M>,
        beginning: &Beginning,
    ) -> Result<(), SendFault>
        ensures told { (s : Setting) (d : Debugger) → StandsFor M.stands session.now s d
            → OnOk result (Sends O.contents self.old self.new (events_at_beginning (threads_of launch.now) s d beginning.now)) }
        ensures messages { messages_of self.new ≡ messages_of self.old }
    {
        let events = events_at_beginning(self.alloc, launch, session, beginning)?;
        self.tell_events(events.as_slice())
    }
}

/// What serving ends by behind a request, where it ends.
fn end_behind(request: &Request<'_>) -> Option<Served>
    ensures { result ≡ spec.end_behind request.now }
{
    match request {
        Request::Restart => Some(Served::Restarts),
        Request::Disconnect => Some(Served::Disconnected),
        _ => None,
    }
}

/// Does a request.
fn ask<M: ExpressionMachine>(
    alloc: Global,
    program: &str,
    terms: &mut Terms,
    session: &mut Session<M>,
    request: &Request<'_>,
) -> Result<Answered, AllocError>
    ensures asked { Asks M.stands program.now request.now (run_of session.old terms.old) (run_of session.new terms.new) result }
    ensures done { (s : Setting) (d : Debugger) → StandsFor M.stands session.old s d
        → IfOk result (λ answered. DoesRequest M.stands s program.now request.now d (terms_of terms.old) answered session.new (terms_of terms.new)) }
{
    answer_request(alloc, program, terms, session, request)
}
