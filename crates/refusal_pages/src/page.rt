//! A page.

/// What a refusal or a fault means: its number, its name, and its text, which has an example and a cure.
#[derive(Clone, Copy, Debug)]
pub struct Page {
    pub number: &'static [u8],
    pub name: &'static [u8],
    pub text: &'static [u8],
}
