//! Arguments of calls.

use crate::entries::Entry;
use gang_types::Place;
use type_check_values::Typed;
use typed_tree::Expr;

/// An argument: a value, with its first token; an array from an index on, at its name; `&x`, at its name.
#[derive(Drop)]
pub enum Passing<'a> {
    Scalar {
        place: Place,
        value: Typed,
    },
    View {
        place: Place,
        entry: Entry<'a>,
        from: Option<Box<Expr>>,
    },
    Reference {
        place: Place,
        entry: Entry<'a>,
    },
}
