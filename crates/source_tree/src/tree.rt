//! The tree of a source.

use crate::expressions::{Arg, Expr};
use gang_model::{GlobalForm, Label, Spec};
use gang_types::{BinaryOp, Place};

/// The functions and file-scope variables of a source, in order.
pub struct Tree {
    pub items: Vec<Item>,
}

impl Drop for Tree {
    fn drop(self) {
        let Self { items: _ } = self;
    }
}

/// A function or a file-scope variable.
pub enum Item {
    Function(Function),
    Global(GlobalVariable),
}

impl Drop for Item {
    fn drop(self) {
        match self {
            Item::Function(_) | Item::Global(_) => {}
        }
    }
}

/// A function: its place is that of its name, and `closing` that of its closing brace.
pub struct Function {
    pub place: Place,
    pub name: Vec<u8>,
    pub spec: Spec,
    pub params: Vec<Param>,
    pub body: Vec<Stmt>,
    pub closing: Place,
}

impl Drop for Function {
    fn drop(self) {
        let Self {
            place: _,
            name: _,
            spec: _,
            params: _,
            body: _,
            closing: _,
        } = self;
    }
}

/// A parameter, at its name.
pub struct Param {
    pub place: Place,
    pub name: Vec<u8>,
    pub spec: Spec,
    pub is_array: bool,
}

impl Drop for Param {
    fn drop(self) {
        let Self {
            place: _,
            name: _,
            spec: _,
            is_array: _,
        } = self;
    }
}

/// A file-scope variable, at its name.
pub struct GlobalVariable {
    pub place: Place,
    pub name: Vec<u8>,
    pub spec: Spec,
    pub form: GlobalForm,
}

impl Drop for GlobalVariable {
    fn drop(self) {
        let Self {
            place: _,
            name: _,
            spec: _,
            form: _,
        } = self;
    }
}

/// What is assigned, at its name.
pub struct Target {
    pub place: Place,
    pub name: Vec<u8>,
    pub index: Option<Expr>,
}

impl Drop for Target {
    fn drop(self) {
        let Self {
            place: _,
            name: _,
            index: _,
        } = self;
    }
}

/// A dimension `name = low ... high`, at its name.
pub struct Dim {
    pub place: Place,
    pub name: Vec<u8>,
    pub low: Expr,
    pub high: Expr,
}

impl Drop for Dim {
    fn drop(self) {
        let Self {
            place: _,
            name: _,
            low: _,
            high: _,
        } = self;
    }
}

/// A statement. Its place is that of its first token, and that of `do` is its `while`.
#[cycle(statement)]
pub enum Stmt {
    Empty,
    Block(Vec<Stmt>),
    Declare {
        place: Place,
        spec: Spec,
        name_place: Place,
        name: Vec<u8>,
        value: Option<Expr>,
    },
    Assign {
        place: Place,
        target: Target,
        value: Expr,
    },
    /// An assignment with an operator, as `+=`.
    Change {
        place: Place,
        target: Target,
        operator: BinaryOp,
        value: Expr,
    },
    /// `++` and `--`, as `Add` and `Sub`, on either side of the target.
    Increment {
        place: Place,
        target: Target,
        operator: BinaryOp,
    },
    Call {
        place: Place,
        name: Vec<u8>,
        args: Vec<Arg>,
    },
    Break {
        place: Place,
    },
    Continue {
        place: Place,
    },
    Return {
        place: Place,
        value: Option<Expr>,
    },
    If {
        place: Place,
        test: Expr,
        first: Box<Stmt>,
        other: Option<Box<Stmt>>,
    },
    While {
        place: Place,
        test: Expr,
        body: Box<Stmt>,
    },
    Do {
        body: Box<Stmt>,
        place: Place,
        test: Expr,
    },
    /// The start is a declaration, an assignment, an increment, a call or empty; the update likewise, but no declaration.
    For {
        place: Place,
        start: Box<Stmt>,
        test: Option<Expr>,
        update: Box<Stmt>,
        body: Box<Stmt>,
    },
    Switch {
        place: Place,
        selector: Expr,
        segments: Vec<Segment>,
    },
    ForEach {
        place: Place,
        is_tiled: bool,
        dims: Vec<Dim>,
        body: Box<Stmt>,
    },
    ForEachActive {
        place: Place,
        name_place: Place,
        name: Vec<u8>,
        body: Box<Stmt>,
    },
    ForEachUnique {
        place: Place,
        name_place: Place,
        name: Vec<u8>,
        value: Expr,
        body: Box<Stmt>,
    },
}

impl Drop for Stmt {
    #[cycle(statement)]
    fn drop(self) {
        match self {
            Stmt::Empty
            | Stmt::Block(_)
            | Stmt::Declare {
                place: _,
                spec: _,
                name_place: _,
                name: _,
                value: _,
            }
            | Stmt::Assign {
                place: _,
                target: _,
                value: _,
            }
            | Stmt::Change {
                place: _,
                target: _,
                operator: _,
                value: _,
            }
            | Stmt::Increment {
                place: _,
                target: _,
                operator: _,
            }
            | Stmt::Call {
                place: _,
                name: _,
                args: _,
            }
            | Stmt::Break { place: _ }
            | Stmt::Continue { place: _ }
            | Stmt::Return { place: _, value: _ }
            | Stmt::If {
                place: _,
                test: _,
                first: _,
                other: _,
            }
            | Stmt::While {
                place: _,
                test: _,
                body: _,
            }
            | Stmt::Do {
                body: _,
                place: _,
                test: _,
            }
            | Stmt::For {
                place: _,
                start: _,
                test: _,
                update: _,
                body: _,
            }
            | Stmt::Switch {
                place: _,
                selector: _,
                segments: _,
            }
            | Stmt::ForEach {
                place: _,
                is_tiled: _,
                dims: _,
                body: _,
            }
            | Stmt::ForEachActive {
                place: _,
                name_place: _,
                name: _,
                body: _,
            }
            | Stmt::ForEachUnique {
                place: _,
                name_place: _,
                name: _,
                value: _,
                body: _,
            } => {}
        }
    }
}

/// A label of a `switch`, `None` for `default`, and the statements up to the next one.
#[cycle(statement)]
pub struct Segment {
    pub place: Place,
    pub label: Option<Label>,
    pub body: Vec<Stmt>,
}

impl Drop for Segment {
    #[cycle(statement)]
    fn drop(self) {
        let Self {
            place: _,
            label: _,
            body: _,
        } = self;
    }
}
