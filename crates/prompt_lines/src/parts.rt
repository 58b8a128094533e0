//! Elements of an array in the lines that people type.
ghost use Rattle.std.specs.Prelude.{◌≡◌, ◌≤◌, ◌==◌, not, length};
ghost use Rattle.std.specs.List.{suffix_len};
ghost use Rattle.prompt_lines.specs.Parts as spec;

/// Where the number of elements begins in a text such as `table@8`: behind the last `@`, or 0 where there is none.
pub fn count_place(text: &[u8]) -> usize
    ensures place { result ≡ spec.count_place text.now }
    ensures within { result ≤ length text.now }
{
    text.len() - count_len(text)
}

/// How many bytes stand behind the last `@`.
fn count_len(text: &[u8]) -> usize
    ensures run { result ≡ suffix_len (λ byte. not (byte == 64)) text.now }
    ensures within { result ≤ length text.now }
{
    text.iter().rev().take_while(|byte| **byte != b'@').count()
}
