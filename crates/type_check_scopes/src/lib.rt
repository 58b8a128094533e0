//! What names declare where a part of a tree is typed, what arguments pass, and how parts that are judged each by itself are put
//! together.
#![tactic(auto)]

mod entries;
mod passings;
mod scope;

pub use entries::{BuiltIn, Declared, Entry, built_in, declared_with, index_variable};
pub use passings::Passing;
pub use scope::{TypeMark, TypeScope};
