//! Which of many children an editor asks for.
ghost use Rattle.std.specs.Prelude.{◌≡◌, ◌≤◌, ◌+◌, ◌<◌, ◌^◌, IfOk, drop, unwrap_or};
ghost use Rattle.std.specs.List.{range_with_len};
ghost use Rattle.adapter_replies.specs.Pages.{asks_places, named_children, page_count, paged};

use adapter_requests::{Filter, Page, Variable};
use std::alloc::{AllocError, Global};

/// Whether a page asks for children by their places.
pub(crate) fn asks_places(page: Page) -> bool
    ensures { result ≡ asks_places page }
{
    page.start.is_some() || page.count.is_some()
}

/// Of so many places, from one on, those that a page asks for: the first of them, and how many there are.
pub(crate) fn span(page: Page, first: usize, count: usize) -> (usize, usize)
    requires { first + count < 2 ^ 64 }
    ensures places { range_with_len result.0 result.1 ≡ paged page (range_with_len first count) }
    ensures within { result.0 + result.1 ≤ first + count }
{
    let skipped = start_of(page).min(count);
    (first + skipped, count_of(page, count - skipped))
}

/// The place at which a page starts.
fn start_of(page: Page) -> usize
    ensures { result ≡ unwrap_or page.start 0 }
{
    match page.start {
        None => 0,
        Some(start) => start as usize,
    }
}

/// How many of so many a page asks for.
fn count_of(page: Page, left: usize) -> usize
    ensures count { result ≡ page_count page.count left }
    ensures within { result ≤ left }
{
    match page.count {
        None | Some(0) => left,
        Some(count) => (count as usize).min(left),
    }
}

/// The variables of a scope for which a page asks.
pub(crate) fn named_of(
    alloc: Global,
    told: Vec<Variable>,
    page: Page,
) -> Result<Vec<Variable>, AllocError>
    ensures { IfOk result (λ kept. kept.items ≡ named_children page.filter (paged page told.items)) }
{
    match page.filter {
        Filter::Indexed => Ok(Vec::new(alloc)),
        Filter::All | Filter::Named => paged(alloc, told, page),
    }
}

/// Those for which a page asks.
pub(crate) fn paged<T: Drop>(alloc: Global, told: Vec<T>, page: Page) -> Result<Vec<T>, AllocError>
    ensures { IfOk result (λ kept. kept.items ≡ paged page told.items) }
{
    let mut kept = behind(alloc, told, start_of(page))?;
    match page.count {
        None | Some(0) => Ok(kept),
        Some(count) => {
            kept.truncate(count as usize);
            Ok(kept)
        }
    }
}

/// Those from a place on.
fn behind<T: Drop>(alloc: Global, told: Vec<T>, start: usize) -> Result<Vec<T>, AllocError>
    ensures { IfOk result (λ kept. kept.items ≡ drop start told.items) }
{
    told.into_iter().skip(start).collect(alloc)
}
