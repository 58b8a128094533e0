//! The pages of refusals and faults.
use refusal_pages::page_of;
use std::test::*;

#[test]
fn finds_numbers_and_names(rt: HostRuntime) {
    for name in [b"S7".as_slice(), b"s7", b"Rate", b"rATE"] {
        let number = page_of(name).map(|page| page.number);
        assert!(rt; number == Some(b"S7".as_slice()));
    }
}

#[test]
fn finds_no_other_names(rt: HostRuntime) {
    for name in [
        b"".as_slice(),
        b"S",
        b"S0",
        b"S14",
        b"C5",
        b"S7 ",
        b"S7 Rate",
        b"F6",
        b"Rates",
    ] {
        assert!(rt; page_of(name).is_none());
    }
}
