//! Places in a source, and the names of what stands there.

/// Where a token begins: lines and columns from 1, columns in bytes.
#[derive(Clone, Copy, Debug, PartialEq, Eq, Drop)]
pub struct Place {
    pub line: u32,
    pub col: u32,
}

/// A function, by its number in the order of the source.
#[derive(Clone, Copy, Debug, PartialEq, Eq, Drop)]
pub struct FuncId(pub usize);

/// A step's place in the tree: the function, and the step's number in the order in which steps run.
#[derive(Clone, Copy, Debug, PartialEq, Eq, Drop)]
pub struct Spot {
    pub function: FuncId,
    pub number: usize,
}

/// A variable: of the file or of a function, by its number in the order of the declarations.
#[derive(Clone, Copy, Debug, PartialEq, Eq, Drop)]
pub enum VarId {
    File(usize),
    Local(usize),
}
