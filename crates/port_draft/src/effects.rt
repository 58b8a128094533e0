//! What an expression does besides giving a value, and whether all lanes have the same one.
use crate::draft::Draft;
use port_tokens::{Kind, Span, is_one_of};

/// The marks that change a variable between two values.
const ASSIGNMENTS: &[&[u8]] = &[
    b"=", b"+=", b"-=", b"*=", b"/=", b"%=", b"&=", b"|=", b"^=", b"<<=", b">>=",
];

const CHANGES: &[&[u8]] = &[b"++", b"--"];

const PACKED: &[&[u8]] = &[b"packed_store_active", b"packed_load_active", b"assert"];

/// The library's calls whose values lanes may have of their own.
const LIBRARY: &[&[u8]] = &[
    b"broadcast",
    b"insert",
    b"rotate",
    b"shift",
    b"shuffle",
    b"exclusive_scan_add",
    b"exclusive_scan_and",
    b"exclusive_scan_or",
    b"min",
    b"max",
    b"clamp",
    b"abs",
    b"select",
    b"popcnt",
];

/// The library's calls that give one value for all lanes.
const UNIFORM: &[&[u8]] = &[
    b"any",
    b"all",
    b"none",
    b"reduce_add",
    b"reduce_min",
    b"reduce_max",
    b"reduce_equal",
    b"extract",
    b"lanemask",
    b"packmask",
];

const UNIFORM_WORDS: &[&[u8]] = &[b"true", b"false", b"programCount"];

impl Draft {
    /// Whether a call begins there that gives its value only behind `=` and `return`.
    pub fn is_held_call(&self, at: usize) -> bool {
        self.is_call(at) && (is_one_of(self.text(at), PACKED) || self.is_function(at))
    }

    /// Whether a call begins there of a function that is neither the source's nor the library's.
    pub fn is_unknown_call(&self, at: usize) -> bool {
        !self.is_held_call(at)
            && !is_one_of(self.text(at), LIBRARY)
            && !is_one_of(self.text(at), UNIFORM)
    }

    /// Whether this part is such a call, and nothing besides.
    pub fn is_whole_call(&self, part: Span) -> bool {
        let open = part.start.saturating_add(1);
        self.is_held_call(part.start) && self.partner(open).saturating_add(1) == part.end
    }

    /// Whether such a call stands in this part.
    pub fn has_held_call(&self, part: Span) -> bool {
        for at in part.start..part.end {
            if self.is_held_call(at) {
                return true;
            }
        }
        false
    }

    /// Whether a call may stand as a whole behind the sign there, before which the line has this target.
    pub fn may_hold(&self, sign: usize, target: Span) -> bool {
        self.is(sign, b"=") && target.end == target.start.saturating_add(1)
    }

    /// Whether `++` or `--` stands there.
    pub fn is_change(&self, at: usize) -> bool {
        is_one_of(self.text(at), CHANGES)
    }

    fn is_effect(&self, at: usize) -> bool {
        self.is_change(at) || is_one_of(self.text(at), ASSIGNMENTS) || self.is_held_call(at)
    }

    /// Where this part calls or changes something first.
    pub fn effect(&self, part: Span) -> Option<usize> {
        for at in part.start..part.end {
            if self.is_effect(at) {
                return Some(at);
            }
        }
        None
    }

    /// Where the first assignment between closed brackets stands.
    pub fn find_assignment(&self, part: Span) -> Option<usize> {
        let mut next = part.start;
        for at in part.start..part.end {
            if at < next {
                continue;
            }
            if is_one_of(self.text(at), ASSIGNMENTS) {
                return Some(at);
            }
            next = self.partner(at);
        }
        None
    }

    /// Whether this is `?:` with an arm that calls or changes something.
    pub fn has_full_arms(&self, part: Span) -> bool {
        match self.find_one(part, b"?") {
            Some(start) => {
                let arms = Span {
                    start,
                    end: part.end,
                };
                self.has_effect(arms)
            }
            None => false,
        }
    }

    /// Whether this part calls or changes something.
    pub fn has_effect(&self, part: Span) -> bool {
        match self.effect(part) {
            Some(_) => true,
            None => false,
        }
    }

    /// Whether this part has one value for all lanes, as far as its names tell.
    pub fn is_uniform(&self, part: Span) -> bool {
        let mut next = part.start;
        for at in part.start..part.end {
            if at < next || self.token(at).kind != Kind::Word {
                continue;
            }
            let open = at.saturating_add(1);
            if self.is(open, b"(") && is_one_of(self.text(at), UNIFORM) {
                next = self.partner(open);
                continue;
            }
            if !self.is_uniform_word(at) {
                return false;
            }
        }
        true
    }

    /// Whether the word there keeps a value the same for all lanes.
    fn is_uniform_word(&self, at: usize) -> bool {
        if self.is_spec(at) {
            return !self.is(at, b"varying");
        }
        if is_one_of(self.text(at), UNIFORM_WORDS) {
            return true;
        }
        if self.is_call(at) {
            return self.are_uniform(at);
        }
        match self.known(at) {
            Some(known) => self.body_has(known.body, b"uniform"),
            None => false,
        }
    }

    /// Whether all functions of the name there give one value for all lanes.
    fn are_uniform(&self, at: usize) -> bool {
        let name = self.token(at).text;
        for number in 0..self.functions.len() {
            let function = self.functions.function(number);
            let is_named = self.pool.are_same(function.name, name);
            if is_named && !self.body_has(function.body, b"uniform") {
                return false;
            }
        }
        true
    }

    /// Whether the first word of a part stands outside of it too, in the part in which what changes may be named once.
    pub fn is_named_outside(&self, part: Span) -> bool {
        let name = self.token(part.start).text;
        for at in self.region.start..self.region.end {
            let is_outside = at < part.start || part.end <= at;
            if is_outside && self.pool.are_same(self.token(at).text, name) {
                return true;
            }
        }
        false
    }

    /// Where the variable or element ends that begins there.
    pub fn target_end(&self, from: usize) -> usize {
        if !self.is_word(from) {
            return from;
        }
        let mut end = from.saturating_add(1);
        for _ in from..self.tokens.len() {
            if !self.is(end, b"[") {
                break;
            }
            end = self.partner(end).saturating_add(1);
        }
        end
    }
}
