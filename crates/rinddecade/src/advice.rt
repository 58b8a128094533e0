//! What can be done about a refusal.
use crate::explaining::page_in;
use crate::refusing::Texts;
use crate::words_of_source::put_exported;
use debug_inputs::InputFault;
use debug_streams::StreamWriter;
use debug_traits::AnswerWriter;
use desk_options::Program;
use ispc_refusals::{Refusal, write_refusal};
use prompt_texts::Page;
use std::alloc::Global;

/// Writes to standard error what can be done about a refusal, and where it is explained.
pub(crate) fn advise(rt: &HostRuntime, refusal: &Refusal, program: &Program<'_>, texts: Texts<'_>) {
    let mut page = Page::new(StreamWriter::new(rt.stderr()));
    match refusal {
        Refusal::Memory | Refusal::Input(InputFault::Memory) => return,
        Refusal::NoEntry => put_entries(
            rt.alloc(),
            program.options.entry,
            texts.source.text,
            &mut page,
        ),
        Refusal::Input(InputFault::Missing(name)) => put_missing(name, program, &mut page),
        Refusal::NoScript => page.put(
            b"a script is a source, a line of just `%%`, and command lines\n",
        ),
        Refusal::Source(_) | Refusal::Input(_) => {}
    }
    put_explained(rt.alloc(), refusal, &mut page);
}

/// Writes to standard error how a source is debugged, where it is named in place of a verb.
pub(crate) fn advise_verb(rt: &HostRuntime, words: &[&str]) {
    let Some(word) = words.first().filter(|word| word.ends_with(".ispc")) else {
        return;
    };
    let mut page = Page::new(StreamWriter::new(rt.stderr()));
    page.put(b"to debug a program: rinddecade debug ");
    page.put_masked(word.as_bytes());
    page.put(b"\n");
}

/// Writes that no exported function has the name that was asked for, if one was, and which functions of a source a run may begin with.
pub(crate) fn put_entries<O: AnswerWriter + Drop>(
    alloc: Global,
    entry: Option<&str>,
    source: &[u8],
    page: &mut Page<O>,
) {
    if let Some(name) = entry {
        page.put(b"no exported function is called ");
        page.put_masked(name.as_bytes());
        page.put(b"\n");
    }
    page.put(b"exported functions: ");
    if put_exported(alloc, source, page) == 0 {
        page.put(b"none; write `export` before the function that the run begins with");
    }
    page.put(b"\n");
}

/// Writes how a parameter of the entry is given its values.
fn put_missing<O: AnswerWriter + Drop>(name: &[u8], program: &Program<'_>, page: &mut Page<O>) {
    page.put(b"the entry function has a parameter ");
    page.put_masked(name);
    page.put(b": write a line `");
    page.put_masked(name);
    page.put(b" = VALUE`, of an array with all its values, into ");
    match program.input {
        Some(path) => page.put_masked(path.as_bytes()),
        None => page.put(b"a file, and name that by --input FILE"),
    }
    page.put(b"\n");
}

/// Writes the call that explains a refusal.
fn put_explained<O: AnswerWriter + Drop>(alloc: Global, refusal: &Refusal, page: &mut Page<O>) {
    let mut told = Vec::new(alloc);
    let _ = write_refusal(refusal, &mut StreamWriter::new(&mut told));
    if let Some(explained) = page_in(&told) {
        page.put(b"`rinddecade explain ");
        page.put(explained.number);
        page.put(b"` says what this means, with an example and a cure\n");
    }
}
