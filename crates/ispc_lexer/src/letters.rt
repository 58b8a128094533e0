//! What a byte may be part of.
ghost use Rattle.std.specs.Prelude.{◌≡◌, ◌≤◌, length};
ghost use Rattle.std.specs.List.{prefix_len};
ghost use Rattle.gang_model.specs.Source.Spelling as spelling;
ghost use Rattle.ispc_lexer.specs.Pieces as spec;

/// Whether it is a space, a tab, a line feed or a carriage return.
pub fn is_blank(byte: u8) -> bool
    ensures { result ≡ spelling.is_blank byte }
{
    matches!(byte, b' ' | b'\t' | b'\n' | b'\r')
}

/// Whether it is a decimal digit.
pub fn is_digit(byte: u8) -> bool
    ensures { result ≡ spelling.is_digit byte }
{
    matches!(byte, b'0'..=b'9')
}

fn is_letter(byte: u8) -> bool
    ensures { result ≡ spelling.is_letter byte }
{
    matches!(byte, b'A'..=b'Z' | b'a'..=b'z' | b'_')
}

/// Whether names, reserved words and numbers may have this byte.
pub fn is_word(byte: u8) -> bool
    ensures { result ≡ spelling.is_word byte }
{
    is_letter(byte) || is_digit(byte)
}

/// How many bytes the word at the front has.
pub fn word_len(bytes: &[u8]) -> usize
    ensures run { result ≡ prefix_len spelling.is_word bytes.now }
    ensures within { result ≤ length bytes.now }
{
    bytes.iter().take_while(|byte| is_word(**byte)).count()
}

/// How many bytes stand before the line's end.
pub fn line_len(bytes: &[u8]) -> usize
    ensures run { result ≡ prefix_len spec.is_not_line_end bytes.now }
    ensures within { result ≤ length bytes.now }
{
    bytes.iter().take_while(|byte| **byte != b'\n').count()
}
