//! A table of texts, each where the frame at a depth stands.
ghost use Rattle.std.specs.Prelude.{◌≡◌, ◌<◌, [], IfSome, length, option_map, position, slice_get};
ghost use Rattle.opened_texts.specs.Texts as spec;
ghost use Rattle.opened_texts.specs.Texts.{kept_view, noted, opened_view, place_behind, place_noted, put_behind, texts_of};

use arrayvec::ArrayVec;

/// How many texts have a place.
pub const MOST_TEXTS: usize = 64;

/// How many bytes a text has at most.
pub const LONGEST_TEXT: usize = 256;

/// The bytes of a text.
type Text = ArrayVec<u8, LONGEST_TEXT>;

/// A text, and the depth of the frame where it stands.
#[derive(Clone, Copy, Debug, PartialEq, Eq)]
pub struct OpenedText<'a> {
    pub depth: usize,
    pub text: &'a [u8],
}

/// A text that is kept.
#[derive(Drop)]
struct KeptText {
    depth: usize,
    text: Text,
}

/// The blank in an unused place.
impl Default for KeptText {
    ghost is_default = { λ kept. kept.depth ≡ 0 };

    fn default() -> Self {
        KeptText {
            depth: 0,
            text: Text::new(),
        }
    }
}

/// A table of at most 64 texts of at most 256 bytes, each of which stands there once for each frame.
#[derive(Drop)]
pub struct OpenedTexts {
    texts: ArrayVec<KeptText, MOST_TEXTS>,
}

impl OpenedTexts {
    /// No text has a place.
    pub fn new() -> Self
        ensures { texts_of result ≡ [] }
    {
        OpenedTexts {
            texts: ArrayVec::new(),
        }
    }

    /// The place of a text where the frame at a depth stands: the one that it has, or else one behind all others, where it is put. None,
    /// and nothing changes, where it has none and the table is full or the text is too long.
    pub fn note(&mut self, depth: usize, text: &[u8]) -> Option<usize>
        ensures place { result ≡ place_noted depth text.now (texts_of self.old) }
        ensures texts { texts_of self.new ≡ noted depth text.now (texts_of self.old) }
        ensures within { IfSome result (λ place. place < 64) }
    {
        match self.place_of(depth, text) {
            Some(place) => Some(place),
            None => self.put(depth, text),
        }
    }

    /// No text has a place from then on.
    pub fn clear(&mut self)
        ensures { texts_of self.new ≡ [] }
    {
        self.texts.clear();
    }

    /// The text at a place, if one is there.
    pub fn at(&self, place: usize) -> Option<OpenedText<'_>>
        ensures { option_map opened_view result ≡ slice_get (texts_of self.now) place }
    {
        match self.texts.as_slice().get(place) {
            Some(kept) => Some(OpenedText {
                depth: kept.depth,
                text: kept.text.as_slice(),
            }),
            None => None,
        }
    }

    /// The first place where a text of the frame at a depth stands.
    fn place_of(&self, depth: usize, text: &[u8]) -> Option<usize>
        ensures first { result ≡ position (spec.is_text depth text.now) (texts_of self.now) }
        ensures within { IfSome result (λ place. place < 64) }
    {
        first_of(self.texts.as_slice(), depth, text)
    }

    /// Puts a text behind all others, and gives its place, where there is room.
    fn put(&mut self, depth: usize, text: &[u8]) -> Option<usize>
        ensures place { result ≡ place_behind text.now (texts_of self.old) }
        ensures texts { texts_of self.new ≡ put_behind depth text.now (texts_of self.old) }
        ensures within { IfSome result (λ place. place < 64) }
    {
        let place = self.texts.len();
        if place >= MOST_TEXTS {
            return None;
        }
        match Text::try_from(text) {
            Ok(text) => {
                self.texts.push(KeptText { depth, text });
                Some(place)
            }
            Err(_) => None,
        }
    }
}

/// The first of what is kept that is a text of the frame at a depth.
fn first_of(texts: &[KeptText], depth: usize, text: &[u8]) -> Option<usize>
    ensures first { result ≡ position (λ kept. spec.is_text depth text.now (kept_view kept)) texts.now }
    ensures within { IfSome result (λ place. place < length texts.now) }
{
    texts.iter().position(|kept| is_text(kept, depth, text))
}

/// Whether what is kept is a text of the frame at a depth.
fn is_text(kept: &KeptText, depth: usize, text: &[u8]) -> bool
    ensures { result ≡ spec.is_text depth text.now (kept_view kept.now) }
{
    kept.depth == depth && kept.text.as_slice() == text
}
