//! Breakpoints that write a text in place of stopping, and the texts that were written.
ghost use Rattle.std.specs.Prelude.{◌≡◌, ◌==◌, [], find, map, option_map};
ghost use Rattle.conditional_stops.specs.Views.{table_of};
ghost use Rattle.log_points.specs.Points as spec;
ghost use Rattle.log_points.specs.Points.{log_of, logs_of, message_of, with_log, written_of};

use arrayvec::{ArrayString, ArrayVec};
use conditional_stops::Conditions;
use std::alloc::Global;

/// How many texts of one move are written.
pub const MOST_TEXTS: usize = 1000;

/// How many breakpoints can write a text: as many as can be there.
const ROOM: usize = 64;

/// The most bytes of a message.
const LONGEST_MESSAGE: usize = 256;

/// A message, in which each `{EXPR}` stands for the value of an expression.
type Message = ArrayString<LONGEST_MESSAGE>;

/// A breakpoint that writes a text, by its number.
#[derive(Drop)]
pub(crate) struct LogPoint {
    pub(crate) number: u32,
    pub(crate) message: Message,
}

/// The blank in an unused place.
impl Default for LogPoint {
    ghost is_default = { λ point. point.number ≡ 0 };

    fn default() -> Self {
        LogPoint {
            number: 0,
            message: Message::new(),
        }
    }
}

/// The breakpoints that write a text, in the order in which they were put in, with the conditions on which each does so, and how many
/// of its stops are still to be passed first.
#[derive(Drop)]
pub struct Logs {
    pub(crate) points: ArrayVec<LogPoint, ROOM>,
    pub(crate) terms: Conditions,
}

impl Logs {
    /// None, with the conditions and the counts of those that are put in.
    pub fn new(terms: Conditions) -> Self
        ensures points { logs_of result ≡ [] }
        ensures terms { result.terms ≡ terms }
    {
        Logs {
            points: ArrayVec::new(),
            terms,
        }
    }

    /// Lets a breakpoint write a text in place of stopping, where its message has at most 256 bytes and fewer than 64 are there.
    pub fn put(&mut self, number: u32, message: &str)
        ensures points { logs_of self.new ≡ with_log number message.now (logs_of self.old) }
        ensures terms { self.new.terms ≡ self.old.terms }
    {
        let Ok(message) = Message::from(message) else {
            return;
        };
        if self.points.len() >= ROOM {
            return;
        }
        self.points.push(LogPoint { number, message });
    }

    /// The message of a breakpoint, if it writes one.
    pub fn message(&self, number: u32) -> Option<&str>
        ensures { option_map (λ text. text.now) result ≡ message_of number (logs_of self.now) }
    {
        match self.find(number) {
            Some(point) => Some(point.message.as_str()),
            None => None,
        }
    }

    /// The first of a number.
    fn find(&self, number: u32) -> Option<&LogPoint>
        ensures { option_map (λ point. point.now) result ≡ find (λ point. point.number == number) self.now.points.items }
    {
        self.points
            .as_slice()
            .iter()
            .find(|point| point.number == number)
    }

    /// The conditions and the counts of those that are there, as the run has left them.
    pub fn terms(&self) -> &Conditions
        ensures { result.now ≡ self.now.terms }
    {
        &self.terms
    }

    /// Disables those that write a text: none of their stops counts.
    pub fn silence(&self, conditions: &mut Conditions)
        ensures { table_of conditions.new ≡ spec.silenced (logs_of self.now) (table_of conditions.old) }
    {
        silence(self.points.as_slice(), conditions);
    }
}

/// Texts that were written, one after another.
#[derive(Drop)]
pub struct Written {
    pub texts: Vec<String>,
    /// More were to be written than can be, or memory was wanting for one: those are left out.
    pub is_cut: bool,
}

impl Written {
    /// No text.
    pub fn new(alloc: Global) -> Self
        ensures { written_of result ≡ spec.no_text }
    {
        Written {
            texts: Vec::new(alloc),
            is_cut: false,
        }
    }
}

/// Disables the breakpoints that write a text: none of their stops counts.
pub(crate) fn silence(points: &[LogPoint], conditions: &mut Conditions)
    ensures { table_of conditions.new ≡ spec.silenced (map log_of points.now) (table_of conditions.old) }
{
    for point in points {
        conditions.disable(point.number);
    }
}
