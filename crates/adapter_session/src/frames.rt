//! The frames in which requests set values.
ghost use Rattle.std.specs.Prelude.{◌≡◌};
ghost use Rattle.adapter_session.specs.Requested as spec;

use adapter_replies::depth_in;
use adapter_requests::Request;

/// The depth of the frame in which a request sets a value, where it is another one than the top one; variables of the file are in none.
pub(crate) fn frame_of(top: usize, request: &Request<'_>) -> Option<usize>
    ensures { result ≡ spec.frame_of top request.now }
{
    match request {
        Request::SetVariable {
            reference,
            name: _,
            value: _,
            is_hexadecimal: _,
        } => outer(top, depth_in(top, *reference)),
        Request::SetExpression {
            expression: _,
            value: _,
            frame,
            is_hexadecimal: _,
        } => outer_frame(top, *frame),
        Request::Evaluate {
            expression: _,
            frame,
            context: _,
            is_hexadecimal: _,
        } => outer_frame(top, *frame),
        _ => None,
    }
}

/// The depth of a frame, where it is another one than the top one.
fn outer(top: usize, depth: usize) -> Option<usize>
    ensures { result ≡ spec.outer top depth }
{
    if depth == top { None } else { Some(depth) }
}

/// The same of the frame of a number, if one is asked for.
fn outer_frame(top: usize, frame: Option<u64>) -> Option<usize>
    ensures { result ≡ spec.outer_frame top frame }
{
    match frame {
        None => None,
        Some(frame) => outer(top, frame as usize),
    }
}

/// Whether there is a frame of a number: the top one, where none is asked for.
pub(crate) fn has_frame(top: usize, frame: Option<u64>) -> bool
    ensures { result ≡ spec.has_frame top frame }
{
    match frame {
        None => true,
        Some(frame) => frame > 0 && frame as usize <= top,
    }
}
