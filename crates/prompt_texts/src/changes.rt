//! Which variables a move changed.
use crate::answers::put_target;
use crate::moments::step_of;
use crate::noted::{MOST, Noted, function_at};
use crate::page::Page;
use crate::places::put_place_alone;
use crate::source::Source;
use crate::values::put_word;
use arrayvec::ArrayVec;
use debug_commands::Target;
use debug_session::Session;
use debug_traits::{AnswerWriter, FramedMachine, RecordedMachine, Shown};
use gang_types::IntType;
use value_digits::Digits;

/// The most lanes of a gang.
pub(crate) const WIDEST: usize = 16;

/// The words of a scalar.
pub(crate) type Words = ArrayVec<u64, WIDEST>;

/// What the scalars in sight showed before a move: those of the file, of the top frame, and of the frame that called it.
#[derive(Drop)]
pub struct Before {
    depth: usize,
    file: Noted,
    top: Noted,
    caller: Noted,
}

impl Before {
    /// Notes what the scalars in sight show, and those that are in sight once the top frame is left.
    pub fn note<M: FramedMachine>(machine: &M) -> Self {
        let depth = depth(machine);
        Before {
            depth,
            file: Noted::of_file(machine),
            top: Noted::of_frame(depth, machine),
            caller: Noted::of_frame(depth.saturating_sub(1), machine),
        }
    }

    /// Writes a line for each scalar in sight that is new or shows other words than before. The variables of a function are those of a frame of
    /// the same depth and function: other ones have the same numbers.
    pub fn tell_changes<M: RecordedMachine, O: AnswerWriter + Drop>(
        &self,
        machine: &M,
        page: &mut Page<O>,
    ) {
        for number in 0..MOST {
            if let Some(named) = machine.file_variable(number) {
                self.file.tell_change(named, machine, page);
            }
        }
        if let Some(noted) = self.of_top(machine) {
            noted.tell_parameters(machine, page);
            noted.tell_locals(machine, page);
        }
    }

    /// What the frame showed that is at the top now, where one of the same function was there at its depth: it was the top one, or the top one
    /// has been left.
    fn of_top<M: RecordedMachine>(&self, machine: &M) -> Option<&Noted> {
        let now = depth(machine);
        let noted = if now == self.depth {
            &self.top
        } else if self.depth.checked_sub(1) == Some(now) {
            &self.caller
        } else {
            return None;
        };
        if noted.function.as_slice() == function_at(now, machine).as_slice() {
            Some(noted)
        } else {
            None
        }
    }
}

/// Where the way back ends that found no change of a variable of a frame: at the statement that declares it, where its frame began, or where
/// the history goes back no further.
#[derive(Clone, Copy)]
pub enum Beginning {
    Declaration,
    Entry,
    Start,
}

/// What a variable, or a lane or an element of one, shows; and whether a later change was told.
#[derive(Drop)]
pub struct Watched<'a> {
    target: Target<'a>,
    value_type: IntType,
    words: Words,
    is_told: bool,
}

impl<'a> Watched<'a> {
    /// What a target shows: words of a type, so many at most as a gang can have lanes.
    pub fn showing(target: Target<'a>, value_type: IntType, shown: &[u64]) -> Self {
        let mut words = Words::new();
        for word in shown {
            if !words.is_full() {
                words.push(*word);
            }
        }
        Watched {
            target,
            value_type,
            words,
            is_told: false,
        }
    }

    /// Notes what a target shows, a variable of the file.
    pub fn note<M: RecordedMachine>(target: Target<'a>, machine: &M) -> Self {
        let mut watched = Watched::showing(target, IntType::Int32, &[]);
        let Some(number) = machine.find_in_file(target.name) else {
            return watched;
        };
        let Some(named) = machine.file_variable(number) else {
            return watched;
        };
        watched.value_type = named.shown.value_type;
        watched.words = match target.at {
            None => words_of(named.shown, machine),
            Some(index) => word_at(named.shown, index as usize, machine),
        };
        watched
    }

    /// What is watched.
    pub fn target(&self) -> Target<'a> {
        self.target
    }

    /// What the same target shows: other words.
    pub fn with_words(&self, shown: &[u64]) -> Self {
        Watched::showing(self.target, self.value_type, shown)
    }

    /// Writes what the statement at the place changed, where the target shows the older words.
    pub fn tell_last<O: AnswerWriter + Drop>(&self, older: &Self, page: &mut Page<O>) {
        put_target(self.target, page);
        page.put(b" =");
        older.put_before(self, page);
        page.put(b" by this statement:\n");
    }

    /// Writes a line for the place, if the statement there changed what is shown, where the target shows the older words; gives these.
    pub fn tell_change<M: RecordedMachine, O: AnswerWriter + Drop>(
        self,
        mut older: Self,
        source: Source<'_>,
        session: &Session<M>,
        page: &mut Page<O>,
    ) -> Self {
        let machine = session.machine();
        older.is_told = self.is_told;
        if older.words.as_slice() != self.words.as_slice() {
            put_change_place(source, machine, page);
            older.put_before(&self, page);
            page.put(b"\n");
            older.is_told = true;
        }
        older
    }

    /// Writes what is shown where the way back ends; or, where no change was told, that there was none.
    pub fn tell_first<M: RecordedMachine, O: AnswerWriter + Drop>(
        &self,
        session: &Session<M>,
        page: &mut Page<O>,
    ) {
        if self.is_told {
            page.put(if is_whole(session) {
                b"at the start:"
            } else {
                b"at the first step that is kept:"
            });
            put_all(self.value_type, self.words.as_slice(), page);
            page.put(b"\n");
        } else {
            tell_never_changed(self.target, session, page);
        }
    }

    /// Writes what is shown where the way back within a frame ends.
    pub fn tell_beginning<M: RecordedMachine, O: AnswerWriter + Drop>(
        &self,
        beginning: Beginning,
        source: Source<'_>,
        session: &Session<M>,
        page: &mut Page<O>,
    ) {
        match beginning {
            Beginning::Start => return self.tell_first(session, page),
            Beginning::Declaration => {
                put_change_place(source, session.machine(), page);
                page.put(b" declared,");
            }
            Beginning::Entry => page.put(b"when its frame was entered:"),
        }
        put_all(self.value_type, self.words.as_slice(), page);
        page.put(b"\n");
    }

    /// Writes what is shown, and what was shown then.
    fn put_before<O: AnswerWriter + Drop>(&self, newer: &Self, page: &mut Page<O>) {
        put_all(self.value_type, self.words.as_slice(), page);
        page.put(b" ->");
        put_all(self.value_type, newer.words.as_slice(), page);
    }
}

/// Writes that a target has not changed.
pub fn tell_never_changed<M: RecordedMachine, O: AnswerWriter + Drop>(
    target: Target<'_>,
    session: &Session<M>,
    page: &mut Page<O>,
) {
    put_target(target, page);
    page.put(if is_whole(session) {
        b" has had its value from the start\n"
    } else {
        b" has had its value since the first step that is kept\n"
    });
}

/// Writes since when a variable of a frame has had its value: where the program stands.
pub fn tell_since<M: RecordedMachine, O: AnswerWriter + Drop>(
    target: Target<'_>,
    beginning: Beginning,
    session: &Session<M>,
    page: &mut Page<O>,
) {
    let since: &[u8] = match beginning {
        Beginning::Start => return tell_never_changed(target, session, page),
        Beginning::Declaration => b" has had its value since it was declared, by this step:\n",
        Beginning::Entry => b" has had its value since its frame was entered:\n",
    };
    put_target(target, page);
    page.put(since);
}

/// Whether the way back leads to the start.
fn is_whole<M: RecordedMachine>(session: &Session<M>) -> bool {
    step_of(session.machine()).is_some()
}

/// Writes the place of a change, and how many steps lead to it.
fn put_change_place<M: RecordedMachine, O: AnswerWriter + Drop>(
    source: Source<'_>,
    machine: &M,
    page: &mut Page<O>,
) {
    if let Some(position) = machine.position() {
        put_place_alone(&position, step_of(machine), source, page);
        page.put(b":");
    }
}

/// The word of a lane or of an element.
fn word_at<M: RecordedMachine>(shown: Shown, index: usize, machine: &M) -> Words {
    let mut words = Words::new();
    if index < shown.count {
        words.push(machine.word(shown, index));
    }
    words
}

/// Writes a blank and the value of each word.
pub(crate) fn put_all<O: AnswerWriter + Drop>(
    value_type: IntType,
    words: &[u64],
    page: &mut Page<O>,
) {
    for word in words {
        put_word(Digits::Decimal, value_type, *word, page);
    }
}

/// The depth of the top frame, 0 where the program has ended.
pub(crate) fn depth<M: RecordedMachine>(machine: &M) -> usize {
    match machine.position() {
        Some(position) => position.depth,
        None => 0,
    }
}

/// The words of a scalar.
pub(crate) fn words_of<M: RecordedMachine>(shown: Shown, machine: &M) -> Words {
    let mut words = Words::new();
    for index in 0..shown.count.min(WIDEST) {
        if !words.is_full() {
            words.push(machine.word(shown, index));
        }
    }
    words
}
