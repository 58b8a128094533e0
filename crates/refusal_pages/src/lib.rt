//! What each refusal and each fault means, with an example and a cure.
#![tactic(auto)]

mod command_texts;
mod fault_texts;
mod finding;
mod page;
mod run_texts;
mod source_texts;
mod topics;
mod writing;

pub use finding::page_of;
pub use page::Page;
pub use writing::write_page;
