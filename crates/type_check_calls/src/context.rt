//! What a call may mean.

use gang_types::{IntType, Rate};
use source_tree::Function;

/// The functions of the source, and the result of the function that a statement stands in, `None` being `void`.
#[derive(Clone, Copy, Drop)]
pub struct Context<'a> {
    pub functions: &'a [&'a Function],
    pub result: Option<(IntType, Rate)>,
}
