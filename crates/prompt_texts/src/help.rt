//! What commands there are, and what each does.
use crate::page::Page;
use debug_traits::AnswerWriter;
use prompt_help::{Topic, explanation, topic_of, topics};

/// The width of the column that says how commands are used.
const USAGE: usize = 20;

/// Writes a line for each command.
pub(crate) fn put_help<O: AnswerWriter + Drop>(page: &mut Page<O>) {
    for topics in topics() {
        put_entries(topics, page);
    }
    page.put(
        b"A place has a mark for each lane: # is active, and . waits. An empty line repeats a move, `print`, `list`, `up` or `down`.\n",
    );
}

/// Writes a line for each of these commands.
fn put_entries<O: AnswerWriter + Drop>(topics: &[Topic], page: &mut Page<O>) {
    for topic in topics {
        put_entry(*topic, page);
    }
}

/// Writes how a command is used, and what it does.
fn put_entry<O: AnswerWriter + Drop>(topic: Topic, page: &mut Page<O>) {
    page.put(topic.usage);
    for _ in topic.usage.len()..USAGE {
        page.put(b" ");
    }
    page.put(topic.text);
    page.put(b"\n");
}

/// Writes what a command does, why there is none of this name, or where all are listed.
pub(crate) fn put_topic<O: AnswerWriter + Drop>(text: &[u8], page: &mut Page<O>) {
    if let Some(topic) = topic_of(text) {
        put_entry(topic, page);
    } else if let Some(why) = explanation(text) {
        page.put(why);
        page.put(b"\n");
    } else {
        page.put(b"there is no such command; `help` lists those that there are\n");
    }
}
