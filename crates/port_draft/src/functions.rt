//! The functions of a source: what they give, and which may call themselves.
use crate::draft::Draft;
use port_tokens::{NONE, Pool, PortRefusal, Reason, Span};
use std::alloc::{AllocError, Global};

/// A function: its name, the part of `bodies` that is its type, and the tokens of its body, which a prototype has not.
#[derive(Clone, Copy)]
pub struct Function {
    pub name: Span,
    pub body: Span,
    pub statements: Span,
    pub is_exported: bool,
}

/// No function.
const NO_FUNCTION: Function = Function {
    name: NONE,
    body: NONE,
    statements: NONE,
    is_exported: false,
};

impl Function {
    /// Whether its statements begin there.
    fn begins_at(&self, start: usize) -> bool {
        self.statements.start == start && self.statements.end > start
    }
}

/// The functions and prototypes in their order; and of a search for calls, which were seen, and which wait.
pub struct Functions {
    list: Vec<Function>,
    is_seen: Vec<bool>,
    waiting: Vec<Function>,
}

impl Drop for Functions {
    fn drop(self) {
        match self {
            Functions {
                list: _,
                is_seen: _,
                waiting: _,
            } => {}
        }
    }
}

impl Functions {
    /// No functions.
    pub fn new(alloc: Global) -> Self {
        Functions {
            list: Vec::new(alloc),
            is_seen: Vec::new(alloc),
            waiting: Vec::new(alloc),
        }
    }

    /// How many there are.
    pub fn len(&self) -> usize {
        self.list.len()
    }

    /// The one of this number, from 0 on.
    pub fn function(&self, number: usize) -> Function {
        match self.list.get(number) {
            Some(function) => *function,
            None => NO_FUNCTION,
        }
    }

    fn push(&mut self, function: Function) -> Result<(), AllocError> {
        Ok(self.list.push(function)?)
    }

    /// Begins a search with the function whose statements begin there.
    fn search(&mut self, start: usize) -> Result<(), AllocError> {
        self.is_seen.truncate(0);
        self.waiting.truncate(0);
        for number in 0..self.list.len() {
            self.is_seen.push(false)?;
            let function = self.function(number);
            if function.begins_at(start) {
                self.waiting.push(function)?;
            }
        }
        Ok(())
    }

    /// Lets a function wait, if it was not seen.
    fn wait(&mut self, number: usize) -> Result<(), AllocError> {
        let Some(seen) = self.is_seen.get_mut(number) else {
            return Ok(());
        };
        if *seen {
            return Ok(());
        }
        *seen = true;
        let function = self.function(number);
        Ok(self.waiting.push(function)?)
    }

    /// Lets the functions of this name wait, and says whether the one whose statements begin there is one.
    fn wait_for(&mut self, pool: &Pool, name: Span, start: usize) -> Result<bool, AllocError> {
        for number in 0..self.list.len() {
            let called = self.function(number);
            if !pool.are_same(called.name, name) {
                continue;
            }
            if called.begins_at(start) {
                return Ok(true);
            }
            self.wait(number)?;
        }
        Ok(false)
    }
}

impl Draft {
    /// Finds the functions, and the prototypes.
    pub fn find_functions(&mut self) -> Result<(), AllocError> {
        let mut next = 0usize;
        for at in 0..self.tokens.len() {
            if at < next {
                continue;
            }
            next = self.find_function(at)?;
        }
        Ok(())
    }

    /// Finds the function that begins there, if one does, and says where what is next at file scope begins.
    fn find_function(&mut self, at: usize) -> Result<usize, AllocError> {
        let name = self.spec_end(at);
        if !self.is_call(name) || name == at {
            return Ok(self.partner(at).max(at).saturating_add(1));
        }
        let behind = self.partner(name.saturating_add(1)).saturating_add(1);
        let end = self.partner(behind);
        let words = Span {
            start: at,
            end: name,
        };
        let body = self.keep_type(words)?;
        let function = Function {
            name: self.token(name).text,
            body,
            statements: self.statements_at(behind),
            is_exported: self.has_word(words, b"export"),
        };
        self.functions.push(function)?;
        Ok(end.max(at).saturating_add(1))
    }

    /// What stands between the braces there, if there are some.
    fn statements_at(&self, brace: usize) -> Span {
        if self.is(brace, b"{") {
            Span {
                start: brace.saturating_add(1),
                end: self.partner(brace),
            }
        } else {
            NONE
        }
    }

    /// Whether a function of the source has this name.
    pub fn is_function(&self, at: usize) -> bool {
        let name = self.token(at).text;
        for number in 0..self.functions.len() {
            let function = self.functions.function(number);
            if function.statements != NONE && self.pool.are_same(function.name, name) {
                return true;
            }
        }
        false
    }

    /// What the functions of this name give.
    ///
    /// # Errors
    ///
    /// They give different types; or out of memory.
    pub fn given_type(&mut self, at: usize) -> Result<Span, PortRefusal> {
        if !self.is_function(at) {
            return Ok(self.keep_words(&[b"uniform", b"int"])?);
        }
        let mut found = None;
        let name = self.token(at).text;
        for number in 0..self.functions.len() {
            let function = self.functions.function(number);
            if !self.pool.are_same(function.name, name) {
                continue;
            }
            if !self.may_give(found, function.body) {
                return Err(self.refuse(at, Reason::ManyResults));
            }
            found = Some(function.body);
        }
        match found {
            Some(body) => Ok(body),
            None => Ok(NONE),
        }
    }

    /// Whether a function may give this type where another of its name gives one, or none was found.
    fn may_give(&self, found: Option<Span>, body: Span) -> bool {
        match found {
            Some(other) => self.have_same_words(other, body),
            None => true,
        }
    }

    /// Whether two parts of `bodies` have the same words.
    fn have_same_words(&self, left: Span, right: Span) -> bool {
        let length = left.end.saturating_sub(left.start);
        if length != right.end.saturating_sub(right.start) {
            return false;
        }
        for offset in 0..length {
            let one = self.bodies.token(left.start.saturating_add(offset));
            let other = self.bodies.token(right.start.saturating_add(offset));
            if !self.pool.are_same(one.text, other.text) {
                return false;
            }
        }
        true
    }

    /// Whether the function whose statements begin there may call itself.
    pub fn may_call_itself(&mut self, start: usize) -> Result<bool, AllocError> {
        self.functions.search(start)?;
        for _ in 0..self.functions.len().saturating_add(1) {
            let Some(function) = self.functions.waiting.pop() else {
                return Ok(false);
            };
            if self.calls(function.statements, start)? {
                return Ok(true);
            }
        }
        Ok(false)
    }

    /// Lets the functions wait that a part calls, and says whether the one whose statements begin there is one.
    fn calls(&mut self, part: Span, start: usize) -> Result<bool, AllocError> {
        for at in part.start..part.end {
            if !self.is_call(at) {
                continue;
            }
            let name = self.token(at).text;
            if self.functions.wait_for(&self.pool, name, start)? {
                return Ok(true);
            }
        }
        Ok(false)
    }
}
