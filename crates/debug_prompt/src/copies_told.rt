//! What is told of the copies that the machine keeps of moments of its run.
use debug_traits::AnswerWriter;
use prompt_texts::Page;
use whole_runs::KeptCopies;

/// How many bytes a word has.
const WORD_BYTES: usize = 8;

/// Writes how many copies of other moments than the start there are, how many there can be, and what they take with that of the start.
pub(crate) fn tell_copies<O: AnswerWriter + Drop>(kept: KeptCopies, page: &mut Page<O>) {
    let copies = kept.count.saturating_add(1);
    let bytes = kept.words.saturating_mul(WORD_BYTES).saturating_mul(copies);
    page.put(b"copies of moments of the run: ");
    page.put_number(kept.count as i128);
    page.put(b" of ");
    page.put_number(kept.most as i128);
    page.put(b" at most, and that of the start; they take ");
    page.put_number(bytes as i128);
    page.put(b" bytes\n");
}
