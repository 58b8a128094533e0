//! How the elements that lanes touch lie to each other.
ghost use Rattle.std.specs.Prelude.{◌≡◌, ◌<◌, ◌≤◌, ◌+◌, ◌==◌, drop, if◌then◌else◌, length, slice_index};
ghost use Rattle.std.specs.List.{list_any};
ghost use Rattle.element_touches.specs.Touches.{different, is_consecutive, is_equal};

/// How many different elements there are.
pub fn different(elements: &[u64]) -> usize
    ensures value { result ≡ different elements.now }
    ensures within { result ≤ length elements.now }
{
    let mut count = 0;
    for place in 0..elements.len() {
        count += one_if_last(elements, place);
    }
    count
}

/// 1 for an element that does not come again behind its place, else 0.
fn one_if_last(elements: &[u64], place: usize) -> usize
    requires { place < length elements.now }
    ensures value { result ≡ (if list_any (λ other. other == slice_index elements.now place) (drop (place + 1) elements.now) then 0 else 1) }
    ensures few { result ≤ 1 }
{
    if has(&elements[place + 1..], elements[place]) {
        0
    } else {
        1
    }
}

/// Whether an element is among others.
fn has(elements: &[u64], element: u64) -> bool
    ensures { result ≡ list_any (λ other. other == element) elements.now }
{
    for other in elements {
        if *other == element {
            return true;
        }
    }
    false
}

/// Whether each element is the one after the one before it.
pub fn is_consecutive(elements: &[u64]) -> bool
    ensures { result ≡ is_consecutive elements.now }
{
    for place in 1..elements.len() {
        if !follows(elements[place - 1], elements[place]) {
            return false;
        }
    }
    true
}

/// Whether an element is the one after another.
fn follows(before: u64, element: u64) -> bool
    ensures { result ≡ (element == before + 1) }
{
    match before.checked_add(1) {
        Some(next) => element == next,
        None => false,
    }
}

/// Whether all elements are one.
pub fn is_equal(elements: &[u64]) -> bool
    ensures { result ≡ is_equal elements.now }
{
    for place in 1..elements.len() {
        if elements[place] != elements[0] {
            return false;
        }
    }
    true
}
