//! A machine whose pokes want for no memory.

use crate::machine::RecordedMachine;

/// A machine that sets each value that it is given: no poke of it fails.
pub trait PokesSurely: RecordedMachine {
    // A poke never wants for memory.
    ghost pokes_surely: { Self.may_want → ⊥ };
}
