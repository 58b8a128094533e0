//! The conditions and the counts of breakpoints and watches, by their numbers, and which of them are disabled.
ghost use Rattle.std.specs.Prelude.{◌≡◌, ◌==◌, not, ℕ, filter, find, map, option_map, MatchResult, None, Some};
ghost use Rattle.std.specs.List.{count_by};
ghost use Rattle.conditional_stops.specs.Tables as spec;
ghost use Rattle.conditional_stops.specs.Views.{condition_view, count_view, table_of};

use arrayvec::ArrayVec;

/// How many conditions, and how many counts, can be there.
const ROOM: usize = 64;

/// How many breakpoints and watches can be disabled: as many as can be there, those of variables of frames among them.
const DISABLED: usize = 80;

/// The most bytes of a condition.
pub const LONGEST_CONDITION: usize = 256;

/// The text of a condition.
type Text = ArrayVec<u8, LONGEST_CONDITION>;

/// Why a condition or a count is not taken.
#[derive(Clone, Copy, Debug, PartialEq, Eq)]
pub enum ConditionRefusal {
    /// The condition has more than 256 bytes.
    TooLong,
    /// As many others are there as can be: 64.
    TableFull,
}

/// The condition of a breakpoint or watch.
#[derive(Drop)]
pub(crate) struct Condition {
    number: u32,
    text: Text,
}

/// The blank in an unused place.
impl Default for Condition {
    ghost is_default = { λ condition. condition.number ≡ 0 };

    fn default() -> Self {
        Condition {
            number: 0,
            text: Text::new(),
        }
    }
}

/// How many stops of a breakpoint or watch are still to be passed, at least one.
#[derive(Clone, Copy, Debug, PartialEq, Eq)]
pub(crate) struct Count {
    number: u32,
    left: u32,
}

/// The blank in an unused place.
impl Default for Count {
    ghost is_default = { λ count. count.number ≡ 0 };

    fn default() -> Self {
        Count { number: 0, left: 0 }
    }
}

/// The conditions and the counts of at most 64 breakpoints and watches each, and the numbers of those that are disabled.
#[derive(Drop)]
pub struct Conditions {
    conditions: ArrayVec<Condition, ROOM>,
    counts: ArrayVec<Count, ROOM>,
    disabled: ArrayVec<u32, DISABLED>,
}

impl Conditions {
    /// No condition and no count, and nothing is disabled.
    pub fn new() -> Self
        ensures { table_of result ≡ spec.nothing }
    {
        Conditions {
            conditions: ArrayVec::new(),
            counts: ArrayVec::new(),
            disabled: ArrayVec::new(),
        }
    }

    /// Whether no condition and no count is there, and nothing is disabled.
    pub fn is_empty(&self) -> bool
        ensures { result ≡ spec.is_nothing (table_of self.now) }
    {
        self.conditions.is_empty() && self.counts.is_empty() && self.disabled.is_empty()
    }

    /// The condition of a breakpoint or watch, if it has one.
    pub fn condition(&self, number: u32) -> Option<&[u8]>
        ensures { option_map (λ text. text.now) result ≡ spec.condition_of number (table_of self.now) }
    {
        match self.find_condition(number) {
            Some(condition) => Some(condition.text.as_slice()),
            None => None,
        }
    }

    /// The condition that is asked: none of what is disabled.
    pub(crate) fn asked_condition(&self, number: u32) -> Option<&[u8]>
        ensures { option_map (λ text. text.now) result ≡ spec.asked_condition number (table_of self.now) }
    {
        if self.is_disabled(number) {
            None
        } else {
            self.condition(number)
        }
    }

    /// Whether a breakpoint or watch is disabled.
    pub fn is_disabled(&self, number: u32) -> bool
        ensures { result ≡ spec.is_disabled number (table_of self.now) }
    {
        self.disabled
            .as_slice()
            .iter()
            .any(|disabled| *disabled == number)
    }

    /// How many stops of a breakpoint or watch are still to be passed.
    pub fn passes(&self, number: u32) -> u32
        ensures { result ≡ spec.passes_of number (table_of self.now) }
    {
        match self.find_count(number) {
            Some(count) => count.left,
            None => 0,
        }
    }

    /// Gives a breakpoint or watch a condition, in place of that which it has.
    ///
    /// # Errors
    ///
    /// The condition is too long, or no room is left; then nothing changes.
    pub fn set_condition(&mut self, number: u32, text: &[u8]) -> Result<(), ConditionRefusal>
        ensures taken { MatchResult result (λ done. spec.condition_refusal number text.now (table_of self.old) ≡ None)
            (λ refusal. spec.condition_refusal number text.now (table_of self.old) ≡ Some refusal) }
        ensures table { MatchResult result (λ done. table_of self.new ≡ spec.with_condition number text.now (table_of self.old))
            (λ refusal. self.new ≡ self.old) }
    {
        let Ok(text) = Text::try_from(text) else {
            return Err(ConditionRefusal::TooLong);
        };
        if self.conditions_beside(number) >= ROOM {
            return Err(ConditionRefusal::TableFull);
        }
        self.clear_condition(number);
        self.conditions.push(Condition { number, text });
        Ok(())
    }

    /// Takes the condition of a breakpoint or watch away.
    pub fn clear_condition(&mut self, number: u32)
        ensures { table_of self.new ≡ spec.without_condition number (table_of self.old) }
    {
        self.conditions
            .retain(|condition| condition.number != number);
    }

    /// Lets so many stops of a breakpoint or watch be passed from now on.
    ///
    /// # Errors
    ///
    /// No room is left; then nothing changes.
    pub fn set_passes(&mut self, number: u32, count: u32) -> Result<(), ConditionRefusal>
        ensures taken { MatchResult result (λ done. spec.count_refusal number count (table_of self.old) ≡ None)
            (λ refusal. spec.count_refusal number count (table_of self.old) ≡ Some refusal) }
        ensures table { MatchResult result (λ done. table_of self.new ≡ spec.with_passes number count (table_of self.old))
            (λ refusal. self.new ≡ self.old) }
    {
        if count > 0 && self.counts_beside(number) >= ROOM {
            return Err(ConditionRefusal::TableFull);
        }
        self.put_passes(number, count);
        Ok(())
    }

    /// Disables a breakpoint or watch: its stops do not count, and use no count.
    pub fn disable(&mut self, number: u32)
        ensures { table_of self.new ≡ spec.with_disabled number (table_of self.old) }
    {
        if !self.is_disabled(number) && !self.disabled.is_full() {
            self.disabled.push(number);
        }
    }

    /// Enables a breakpoint or watch. Its condition and its count are those of before.
    pub fn enable(&mut self, number: u32)
        ensures { table_of self.new ≡ spec.without_disabled number (table_of self.old) }
    {
        self.disabled.retain(|disabled| *disabled != number);
    }

    /// Forgets the condition and the count of a breakpoint or watch, which was deleted, and that it was disabled.
    pub fn forget(&mut self, number: u32)
        ensures { table_of self.new ≡ spec.without number (table_of self.old) }
    {
        self.clear_condition(number);
        self.clear_passes(number);
        self.enable(number);
    }

    /// Forgets all conditions and counts, and what was disabled.
    pub fn forget_all(&mut self)
        ensures { table_of self.new ≡ spec.nothing }
    {
        self.conditions.clear();
        self.counts.clear();
        self.disabled.clear();
    }

    /// Lets so many stops be passed, where there is room.
    pub(crate) fn put_passes(&mut self, number: u32, count: u32)
        ensures { table_of self.new ≡ spec.with_passes number count (table_of self.old) }
    {
        self.clear_passes(number);
        if count > 0 && !self.counts.is_full() {
            self.counts.push(Count {
                number,
                left: count,
            });
        }
    }

    /// Lets no stop of a breakpoint or watch be passed.
    fn clear_passes(&mut self, number: u32)
        ensures { table_of self.new ≡ spec.without_passes number (table_of self.old) }
    {
        self.counts.retain(|count| count.number != number);
    }

    /// The condition of a number.
    fn find_condition(&self, number: u32) -> Option<&Condition>
        ensures { option_map (λ condition. condition.now) result ≡ find (λ condition. condition.number == number) self.now.conditions.items }
    {
        self.conditions
            .as_slice()
            .iter()
            .find(|condition| condition.number == number)
    }

    /// The count of a number.
    fn find_count(&self, number: u32) -> Option<&Count>
        ensures { option_map (λ count. count.now) result ≡ find (λ count. count.number == number) self.now.counts.items }
    {
        self.counts
            .as_slice()
            .iter()
            .find(|count| count.number == number)
    }

    /// How many others have a condition.
    fn conditions_beside(&self, number: u32) -> usize
        ensures { result ≡ count_by (λ condition. not (condition.number == number)) self.now.conditions.items }
    {
        self.conditions
            .as_slice()
            .iter()
            .filter(|condition| condition.number != number)
            .count()
    }

    /// How many others have a count.
    fn counts_beside(&self, number: u32) -> usize
        ensures { result ≡ count_by (λ count. not (count.number == number)) self.now.counts.items }
    {
        self.counts
            .as_slice()
            .iter()
            .filter(|count| count.number != number)
            .count()
    }
}
