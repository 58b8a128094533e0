//! The breakpoints and watches, in the order of their numbers.
ghost use Rattle.std.specs.Prelude.{◌≡◌, ℕ, ◌≤◌, List, [], Some, length};
ghost use Rattle.gang_model.specs.Debugger.Debugger as model;
ghost use Rattle.gang_model.specs.Debugger.Debugger.{Setting, first_stop, on_line};
ghost use Rattle.debug_answers.specs.Meanings.{AreStops, IsStop};
ghost use Rattle.debug_session.specs.Tables.{given_number, has_number, with_stop, without_number};

use arrayvec::ArrayVec;
use debug_answers::{NumberedStop, Stop};
use std::marker::Model;

/// How many breakpoints and watches can be there.
pub(crate) const ROOM: usize = 64;

/// The last number that a breakpoint or watch is given.
const LAST_NUMBER: u32 = 10_000_000;

/// At most 64 breakpoints and watches, and the number that the next one is given.
#[derive(Drop)]
pub(crate) struct StopTable {
    entries: ArrayVec<NumberedStop, ROOM>,
    next: u32,
}

impl Model for StopTable {
    ghost use Rattle.debug_session.specs.Stops.{Table};

    ghost Value = { Table };

    ghost view = { λ t. record { items = t.entries.items; next = t.next } };
}

impl StopTable {
    /// A table with nothing in it.
    pub(crate) fn new() -> Self
        ensures { result ≡ record { items = []; next = 1 } }
    {
        StopTable {
            entries: ArrayVec::new(),
            next: 1,
        }
    }

    /// What is in it.
    pub(crate) fn as_slice(&self) -> &[NumberedStop]
        ensures value { result.now ≡ self.now.items }
        ensures fits { length result.now ≤ 64 }
    {
        self.entries.as_slice()
    }

    /// Puts a breakpoint or watch behind the others and gives it the next number, unless the table is full or there is no
    /// number left.
    pub(crate) fn add(&mut self, stop: Stop) -> Option<u32>
        ensures number { result ≡ given_number self.old }
        ensures table { self.new ≡ with_stop stop self.old }
    {
        let number = self.next;
        if self.entries.is_full() || number > LAST_NUMBER {
            return None;
        }
        self.entries.push(NumberedStop { number, stop });
        self.next += 1;
        Some(number)
    }

    /// Whether one has this number.
    pub(crate) fn has(&self, number: u32) -> bool
        ensures { result ≡ has_number number self.now }
    {
        self.as_slice().iter().any(|entry| entry.number == number)
    }

    /// Takes out those of a number.
    pub(crate) fn remove(&mut self, number: u32)
        ensures { self.new ≡ without_number number self.old }
    {
        self.entries.retain(|entry| entry.number != number);
    }

    /// Takes all out.
    pub(crate) fn clear(&mut self)
        ensures { self.new ≡ record self.old { items = [] } }
    {
        self.entries.clear();
    }

    /// The least number of a breakpoint on a line, if there is a line.
    pub(crate) fn breakpoint_on(&self, line: Option<u32>) -> Option<u32>
        ensures { (s : Setting) (meant : List (ℕ × model.Stop)) → AreStops s self.now.items meant → result ≡ first_stop (on_line line) meant }
    {
        let line = line?;
        breakpoint_on(line, self.as_slice())
    }
}

/// The least number of a breakpoint on a line.
pub fn breakpoint_on(line: u32, stops: &[NumberedStop]) -> Option<u32>
    ensures { (s : Setting) (meant : List (ℕ × model.Stop)) → AreStops s stops.now meant → result ≡ first_stop (on_line (Some line)) meant }
{
    for entry in stops {
        if is_on_line(entry.stop, line) {
            return Some(entry.number);
        }
    }
    None
}

/// Whether this is a breakpoint on a line.
fn is_on_line(stop: Stop, line: u32) -> bool
    ensures { (s : Setting) (meant : model.Stop) → IsStop s stop meant → result ≡ on_line (Some line) meant }
{
    match stop {
        Stop::Line(own) => line == own,
        Stop::Watch { .. } => false,
    }
}
