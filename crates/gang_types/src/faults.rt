//! Why a statement cannot be done.

/// The faults of a running program, `F1` to `F5`.
#[derive(Clone, Copy, Debug, PartialEq, Eq, Drop)]
pub enum FaultName {
    DivideByZero,
    Index,
    LaneIndex,
    Assert,
    CallDepth,
}
