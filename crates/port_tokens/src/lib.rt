//! The tokens of a source that is ported, and why one is not.
#![tactic(auto)]

mod lists;
mod marks;
mod partners;
mod places;
mod pool;
mod reading;
mod refusals;
mod tokens;

pub use lists::Tokens;
pub use partners::Partners;
pub use places::{Place, place_of};
pub use pool::Pool;
pub use reading::{blanks_end, byte, read_tokens, word_end};
pub use refusals::{PortRefusal, Reason, Refused, refusal_at};
pub use tokens::{Kind, NONE, NOTHING, Span, Token, is_one_of};
