//! The page of a name.
ghost use Rattle.std.specs.Prelude.{◌≡◌, find, map, option_map};
ghost use Rattle.refusal_pages.specs.Pages.{heading_of, heading_view, headings, is_named};

use crate::page::Page;
use crate::topics::{HEADINGS, Heading, text_of};

/// The page of a refusal or a fault, by its number, as `S7`, or its name, as `Rate`, in letters of either case; none where there
/// is no such one.
pub fn page_of(name: &[u8]) -> Option<Page>
    ensures { option_map heading_of result ≡ find (is_named name.now) headings }
{
    page_in(&HEADINGS, name)
}

/// The page of the first of some headings that has a name.
fn page_in(headings: &[Heading], name: &[u8]) -> Option<Page>
    ensures { option_map heading_of result ≡ find (is_named name.now) (map heading_view headings.now) }
{
    for heading in headings {
        if has_name(heading, name) {
            return Some(page_under(heading));
        }
    }
    None
}

/// Whether a heading has a name or a number.
fn has_name(heading: &Heading, name: &[u8]) -> bool
    ensures { result ≡ is_named name.now (heading_view heading.now) }
{
    name.eq_ignore_ascii_case(heading.number) || name.eq_ignore_ascii_case(heading.name)
}

/// The page of a heading.
fn page_under(heading: &Heading) -> Page
    ensures { heading_of result ≡ heading_view heading.now }
{
    Page {
        number: heading.number,
        name: heading.name,
        text: text_of(heading.topic),
    }
}
