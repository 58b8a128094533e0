//! The integer types, and how many values a variable has.

/// One of the nine types of values.
#[derive(Clone, Copy, Debug, PartialEq, Eq, Drop)]
pub enum IntType {
    Bool,
    Int8,
    Int16,
    Int32,
    Int64,
    Uint8,
    Uint16,
    Uint32,
    Uint64,
}

/// One value for the gang, or one for each lane.
#[derive(Clone, Copy, Debug, PartialEq, Eq, Drop)]
pub enum Rate {
    Uniform,
    Varying,
}
