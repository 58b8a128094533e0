//! Digits, and the letters that ask for them.
ghost use Rattle.std.specs.Prelude.{◌≡◌};
ghost use Rattle.value_digits.specs.Digits as spec;

/// The digits that values are written in.
#[derive(Clone, Copy, Debug, PartialEq, Eq)]
pub enum Digits {
    /// The value.
    Decimal,
    /// The bits, as many as the type has, as a number without a sign.
    Unsigned,
    /// The bits behind `0x`.
    Hexadecimal,
    /// The bits behind a 0.
    Octal,
    /// The bits.
    Binary,
    /// What a cast to 8 bits gives, and the character that this is.
    Character,
}

/// The digits that a letter asks for behind the `/` of a command that prints; none where it asks for none.
pub fn digits_of(letter: u8) -> Option<Digits>
    ensures { result ≡ spec.digits_of letter }
{
    match letter {
        b'd' => Some(Digits::Decimal),
        b'x' => Some(Digits::Hexadecimal),
        b'o' => Some(Digits::Octal),
        b't' => Some(Digits::Binary),
        b'u' => Some(Digits::Unsigned),
        b'c' => Some(Digits::Character),
        _ => None,
    }
}
