//! Lines and columns.
ghost use Rattle.std.specs.Prelude.{◌≡◌, ◌+◌, ◌≤◌, ◌<◌, ◌^◌, length};
ghost use Rattle.gang_model.specs.Source.Lexes as model;

use gang_types::Place;

pub const FIRST: Place = Place { line: 1, col: 1 };

fn next_place(place: Place, byte: u8) -> Place
    requires line { place.line + 1 < 2 ^ 32 }
    requires col { place.col + 1 < 2 ^ 32 }
    ensures { result ≡ model.next_place place byte }
{
    if byte == b'\n' {
        Place {
            line: place.line + 1,
            col: 1,
        }
    } else {
        Place {
            line: place.line,
            col: place.col + 1,
        }
    }
}

/// The place behind these bytes.
pub fn place_after(place: Place, bytes: &[u8]) -> Place
    requires line { place.line + length bytes.now < 2 ^ 32 }
    requires col { place.col + length bytes.now < 2 ^ 32 }
    ensures { result ≡ model.place_after place bytes.now }
{
    let mut next = place;
    for byte in bytes {
        next = next_place(next, *byte);
    }
    next
}

/// The place behind the last byte of a source.
pub fn source_end(source: &[u8]) -> Place
    requires { length source.now ≤ model.max_source }
    ensures { result ≡ model.place_after model.first_place source.now }
{
    place_after(FIRST, source)
}
