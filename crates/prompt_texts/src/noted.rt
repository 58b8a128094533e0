//! What the scalars of the file or of a frame showed at a moment.
use crate::changes::{WIDEST, Words, depth, put_all, words_of};
use crate::frames::lanes_at;
use crate::items::put_item;
use crate::page::Page;
use crate::told::{is_of_lanes, lane_item};
use arrayvec::ArrayVec;
use debug_traits::{AnswerWriter, FramedMachine, NamedVariable, Position, RecordedMachine, Shown};
use gang_types::{Mask, VarId};
use value_digits::Digits;

/// How many variables are noted at most, and how many of the file or of a function are looked at.
pub(crate) const MOST: usize = 64;

/// How much of a function's name is noted.
const NAME: usize = 256;

/// What scalars showed: those of the file, or those of a frame, with the name of its function and the lanes that were active.
#[derive(Drop)]
pub(crate) struct Noted {
    pub(crate) function: ArrayVec<u8, NAME>,
    lanes: Mask,
    ids: ArrayVec<u64, MOST>,
    words: ArrayVec<Words, MOST>,
}

impl Noted {
    /// Notes what the scalars of the file show.
    pub(crate) fn of_file<M: RecordedMachine>(machine: &M) -> Self {
        let mut noted = Noted {
            function: ArrayVec::new(),
            lanes: lanes_at(depth(machine), machine),
            ids: ArrayVec::new(),
            words: ArrayVec::new(),
        };
        for number in 0..MOST {
            if let Some(named) = machine.file_variable(number) {
                noted.add(named.shown, words_of(named.shown, machine));
            }
        }
        noted
    }

    /// Notes what the parameters and the locals in scope of the frame at a depth show.
    pub(crate) fn of_frame<M: FramedMachine>(depth: usize, machine: &M) -> Self {
        let mut noted = Noted {
            function: function_at(depth, machine),
            lanes: lanes_at(depth, machine),
            ids: ArrayVec::new(),
            words: ArrayVec::new(),
        };
        noted.add_parameters(depth, machine);
        noted.add_locals(depth, machine);
        noted
    }

    /// Notes what the parameters of the frame at a depth show.
    fn add_parameters<M: FramedMachine>(&mut self, depth: usize, machine: &M) {
        let mut place = 0;
        for _ in 0..MOST {
            if let Some(parameter) = machine.next_parameter_at(depth, place) {
                let shown = parameter.variable.shown;
                self.add(shown, words_at(depth, shown, machine));
                place = parameter.next;
            }
        }
    }

    /// Notes what the locals of the frame at a depth show.
    fn add_locals<M: FramedMachine>(&mut self, depth: usize, machine: &M) {
        let mut place = 0;
        for _ in 0..MOST {
            if let Some(local) = machine.next_local_at(depth, place) {
                let shown = local.variable.shown;
                self.add(shown, words_at(depth, shown, machine));
                place = local.next;
            }
        }
    }

    /// Notes a scalar with its words, where there is room.
    fn add(&mut self, shown: Shown, words: Words) {
        if !shown.is_array && !self.ids.is_full() && !self.words.is_full() {
            self.ids.push(key(shown.id));
            self.words.push(words);
        }
    }

    /// Writes a line for each parameter that shows other words than before.
    pub(crate) fn tell_parameters<M: RecordedMachine, O: AnswerWriter + Drop>(
        &self,
        machine: &M,
        page: &mut Page<O>,
    ) {
        let mut place = 0;
        for _ in 0..MOST {
            if let Some(parameter) = machine.next_parameter(place) {
                self.tell_change(parameter.variable, machine, page);
                place = parameter.next;
            }
        }
    }

    /// Writes a line for each local that is new or shows other words than before.
    pub(crate) fn tell_locals<M: RecordedMachine, O: AnswerWriter + Drop>(
        &self,
        machine: &M,
        page: &mut Page<O>,
    ) {
        let mut place = 0;
        for _ in 0..MOST {
            if let Some(local) = machine.next_local(place) {
                self.tell_change(local.variable, machine, page);
                place = local.next;
            }
        }
    }

    /// Writes a line for a scalar that is new, or shows other words than before.
    pub(crate) fn tell_change<M: RecordedMachine, O: AnswerWriter + Drop>(
        &self,
        named: NamedVariable<'_>,
        machine: &M,
        page: &mut Page<O>,
    ) {
        if named.shown.is_array {
            return;
        }
        let now = words_of(named.shown, machine);
        match self.noted(key(named.shown.id)) {
            Some(old) if old == now.as_slice() => {}
            Some(old) => {
                put_name(named, page);
                put_shown(named.shown, self.lanes, old, page);
                page.put(b" ->");
                put_now(named.shown, now.as_slice(), machine, page);
            }
            None if self.ids.is_full() => {}
            None => {
                put_name(named, page);
                put_now(named.shown, now.as_slice(), machine, page);
            }
        }
    }

    /// The words that were noted of a variable.
    fn noted(&self, key: u64) -> Option<&[u64]> {
        let place = self.ids.as_slice().iter().position(|id| *id == key)?;
        let words = self.words.as_slice().get(place)?;
        Some(words.as_slice())
    }
}

/// Writes what a scalar shows now, and ends the line.
fn put_now<M: RecordedMachine, O: AnswerWriter + Drop>(
    shown: Shown,
    words: &[u64],
    machine: &M,
    page: &mut Page<O>,
) {
    put_shown(shown, lanes_at(depth(machine), machine), words, page);
    page.put(b"\n");
}

/// Writes a blank and the value of each word of a scalar, in brackets where it is of a lane that waits.
fn put_shown<O: AnswerWriter + Drop>(shown: Shown, lanes: Mask, words: &[u64], page: &mut Page<O>) {
    if !is_of_lanes(shown.is_array, shown.rate) {
        put_all(shown.value_type, words, page);
        return;
    }
    for (lane, word) in words.iter().enumerate() {
        let item = lane_item(lanes, lane, *word);
        put_item(Digits::Decimal, shown.value_type, item, page);
    }
}

/// Writes a name and ` =`, behind blanks.
fn put_name<O: AnswerWriter + Drop>(named: NamedVariable<'_>, page: &mut Page<O>) {
    page.put(b"  ");
    page.put(named.name);
    page.put(b" =");
}

/// The name of the function of the frame at a depth, its first bytes; none where there is no such frame.
pub(crate) fn function_at<M: RecordedMachine>(depth: usize, machine: &M) -> ArrayVec<u8, NAME> {
    let mut name = ArrayVec::new();
    let Some(position) = position_at(depth, machine) else {
        return name;
    };
    for byte in position.function {
        if !name.is_full() {
            name.push(*byte);
        }
    }
    name
}

/// Where the frame at a depth stands: the top one, or one that made a call.
fn position_at<M: RecordedMachine>(depth: usize, machine: &M) -> Option<Position<'_>> {
    let position = machine.position()?;
    if position.depth == depth {
        Some(position)
    } else {
        machine.call(depth)
    }
}

/// A number for each variable: twice its own, and one more for one of a function.
fn key(id: VarId) -> u64 {
    match id {
        VarId::File(number) => (number as u64).wrapping_mul(2),
        VarId::Local(number) => (number as u64).wrapping_mul(2).wrapping_add(1),
    }
}

/// The words of a scalar of the frame at a depth.
fn words_at<M: FramedMachine>(depth: usize, shown: Shown, machine: &M) -> Words {
    let mut words = Words::new();
    for index in 0..shown.count.min(WIDEST) {
        if !words.is_full() {
            words.push(machine.word_at(depth, shown, index));
        }
    }
    words
}
