//! Events that are sent.
ghost use Rattle.std.specs.Prelude.{◌≡◌, ◌∷◌, [], OnOk, map};
ghost use Rattle.opened_texts.specs.Texts.{texts_of};

use crate::connection::{Connection, SendFault};
use crate::events::Event;
use std::io::{Read, Write};

impl<R: Read, O: Write> Connection<R, O> {
    ghost use Rattle.adapter_server.specs.Events.{event_view, last_stop};
    ghost use Rattle.adapter_server.specs.Sending.{Sends, SendsOne, event_data, left_open};
    ghost use Rattle.adapter_server.specs.Serving.{messages_of};

    /// Sends events, one after another.
    pub(crate) fn tell_events(&mut self, events: &[Event]) -> Result<(), SendFault>
        ensures sent { OnOk result (Sends O.contents self.old self.new (map event_view events.now)) }
        ensures messages { messages_of self.new ≡ messages_of self.old }
    {
        for event in events {
            self.tell_event(event)?;
        }
        Ok(())
    }

    /// Sends an event.
    fn tell_event(&mut self, event: &Event) -> Result<(), SendFault>
        ensures sent { OnOk result (SendsOne O.contents self.old self.new (event_data (event_view event.now))) }
        ensures stopped { OnOk result (self.new.stopped ≡ last_stop self.old.stopped (event_view event.now ∷ [])) }
        ensures opened { OnOk result (texts_of self.new.opened ≡ left_open (texts_of self.old.opened) (event_view event.now ∷ [])) }
        ensures messages { messages_of self.new ≡ messages_of self.old }
    {
        match event {
            Event::Line(text) => self.tell_console(text.as_str()),
            Event::Stop {
                reason,
                thread,
                text,
            } => self.tell_stop(*reason, *thread, text.as_str()),
            Event::Change => self.tell_change(),
            Event::End => self.tell("terminated"),
        }
    }
}
