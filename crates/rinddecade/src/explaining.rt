//! What a refusal or a fault means.
use crate::refusing::{refuse_because, write_fault};
use debug_streams::StreamWriter;
use refusal_pages::{Page, page_of, write_page};
use std::process::ExitCode;

/// Writes the page of the refusal or fault that the words name, which may be those of a whole line.
pub(crate) fn explain(rt: &HostRuntime, words: &[&str]) -> ExitCode {
    let Some(page) = words.iter().find_map(|word| page_in(word.as_bytes())) else {
        let named = words.first().copied().unwrap_or("");
        return refuse_because(
            rt,
            b"there are S1 to S13, E1, E2, I1 to I4, F1 to F5 and C1 to C12, but no ",
            named.as_bytes(),
        );
    };
    let mut writer = StreamWriter::new(rt.stdout());
    match write_page(&page, &mut writer) {
        Ok(()) => ExitCode::SUCCESS,
        Err(_) => write_fault(rt),
    }
}

/// The page of the first word of a line that names one.
pub(crate) fn page_in(line: &[u8]) -> Option<Page> {
    line.split(|byte| !byte.is_ascii_alphanumeric())
        .find_map(|word| page_of(word))
}
