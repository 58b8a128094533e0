//! The messages of an editor, and those that it is sent.
use crate::ends::{Ended, end_of};
use adapter_frames::{FrameReader, write_frame};
use adapter_messages::{
    Head, change_body, event_message, failure_message, output_body, read_request, reply_message,
    stop_body,
};
use adapter_paths::is_same_file;
use adapter_requests::{Reply, StopReason};
use serde_json::Value;
use std::alloc::Global;
use std::io;

/// A request that sets two breakpoints.
const REQUEST: &str = r#"{"seq": 3, "type": "request", "command": "setBreakpoints",
    "arguments": {"source": {"path": "it.ispc"}, "breakpoints": [{"line": 4}, {"line": 10}]}}"#;

const HEAD: Head<'static> = Head {
    number: 3,
    command: "setBreakpoints",
};

/// Makes the call of a name, if there is memory for what it is called on.
pub(crate) fn call(alloc: Global, name: &str) -> Option<Ended> {
    match name {
        "adapter_frames::FrameReader::next_message" => Some(read_frame(alloc)),
        "adapter_frames::write_frame" => Some(end_of(&write_frame(alloc, &mut io::sink(), b"{}"))),
        "adapter_messages::read_request" => read_breakpoints(alloc),
        "adapter_messages::reply_message" => Some(reply(alloc)),
        "adapter_messages::failure_message" => {
            Some(end_of(&failure_message(alloc, 1, HEAD, "no such line")))
        }
        "adapter_messages::event_message" => {
            Some(end_of(&event_message(alloc, 1, "initialized", Value::Null)))
        }
        "adapter_messages::stop_body" => {
            Some(end_of(&stop_body(alloc, StopReason::Breakpoint(1), 2, "here")))
        }
        "adapter_messages::change_body" => Some(end_of(&change_body(alloc))),
        "adapter_messages::output_body" => Some(end_of(&output_body(alloc, "a text"))),
        "adapter_paths::is_same_file" => {
            Some(end_of(&is_same_file(alloc, "/a/b/../it.ispc", "/a/it.ispc")))
        }
        _ => None,
    }
}

/// Reads the message of a frame.
fn read_frame(alloc: Global) -> Ended {
    let frame = b"Content-Length: 2\r\n\r\n{}".as_slice();
    end_of(&FrameReader::new(alloc, frame).next_message(alloc))
}

/// Reads the request that a message is.
fn read_breakpoints(alloc: Global) -> Option<Ended> {
    let message = Value::from_str(alloc, REQUEST).ok()?;
    Some(end_of(&read_request(alloc, HEAD.command, &message)))
}

/// Replies what the adapter can do.
fn reply(alloc: Global) -> Ended {
    end_of(&reply_message(alloc, 1, HEAD, "it.ispc", &Reply::Capabilities))
}
