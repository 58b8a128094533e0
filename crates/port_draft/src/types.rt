//! Words of types.
use crate::draft::Draft;
use port_tokens::{Kind, is_one_of};

const SPEC: &[&[u8]] = &[
    b"export",
    b"static",
    b"inline",
    b"const",
    b"uniform",
    b"varying",
    b"unsigned",
    b"void",
    b"bool",
    b"int",
    b"int8",
    b"int16",
    b"int32",
    b"int64",
    b"uint",
    b"uint8",
    b"uint16",
    b"uint32",
    b"uint64",
    b"signed",
];

const BESIDES: &[&[u8]] = &[b"export", b"static", b"inline", b"const"];

impl Draft {
    /// Whether a word of a type or its kin stands there.
    pub fn is_spec(&self, at: usize) -> bool {
        is_one_of(self.text(at), SPEC)
    }

    /// Whether what stands there is said besides a type.
    pub(crate) fn is_besides(&self, at: usize) -> bool {
        is_one_of(self.text(at), BESIDES)
    }

    /// Where the words of a type end that begin there.
    pub fn spec_end(&self, from: usize) -> usize {
        for at in from..self.tokens.len() {
            if !self.is_spec(at) {
                return at;
            }
        }
        from
    }

    /// Whether a type that is not read stands there, before a name.
    pub fn is_foreign_type(&self, at: usize) -> bool {
        self.is_word(at) && self.is_word(at.saturating_add(1))
    }

    /// Whether the word there is in the place of a type: before a name, or as a cast.
    pub fn is_type_place(&self, at: usize) -> bool {
        let next = at.saturating_add(1);
        if self.is_word(next) {
            return !self.is(next, b"in");
        }
        let is_alone = at > 0 && self.is(at.saturating_sub(1), b"(") && self.is(next, b")");
        is_alone && self.begins_operand(at.saturating_add(2))
    }

    fn begins_operand(&self, at: usize) -> bool {
        match self.token(at).kind {
            Kind::Word | Kind::Number => true,
            _ => self.is(at, b"("),
        }
    }
}
