//! Marks and reserved words.
ghost use Rattle.std.specs.Prelude.{◌≡◌};
ghost use Rattle.gang_model.specs.Source.Spelling as spelling;
ghost use Rattle.ispc_lexer.specs.Pieces as spec;

use gang_model::Mark;

const RESERVED: [Mark; 41] = [
    Mark::Export,
    Mark::Static,
    Mark::Inline,
    Mark::Const,
    Mark::Uniform,
    Mark::Varying,
    Mark::Unsigned,
    Mark::Void,
    Mark::Bool,
    Mark::Int,
    Mark::Int8,
    Mark::Int16,
    Mark::Int32,
    Mark::Int64,
    Mark::Uint,
    Mark::Uint8,
    Mark::Uint16,
    Mark::Uint32,
    Mark::Uint64,
    Mark::True,
    Mark::False,
    Mark::If,
    Mark::Else,
    Mark::Cif,
    Mark::While,
    Mark::Cwhile,
    Mark::Do,
    Mark::Cdo,
    Mark::For,
    Mark::Cfor,
    Mark::Break,
    Mark::Continue,
    Mark::Return,
    Mark::Foreach,
    Mark::ForeachTiled,
    Mark::ForeachActive,
    Mark::ForeachUnique,
    Mark::In,
    Mark::Switch,
    Mark::Case,
    Mark::Default,
];

// The longest first.
const PUNCTUATION: [Mark; 44] = [
    Mark::ShiftLeftAssign,
    Mark::ShiftRightAssign,
    Mark::Dots,
    Mark::ShiftLeft,
    Mark::ShiftRight,
    Mark::LessEqual,
    Mark::GreaterEqual,
    Mark::EqualEqual,
    Mark::NotEqual,
    Mark::AndAnd,
    Mark::OrOr,
    Mark::PlusAssign,
    Mark::MinusAssign,
    Mark::StarAssign,
    Mark::SlashAssign,
    Mark::PercentAssign,
    Mark::AmpersandAssign,
    Mark::BarAssign,
    Mark::CaretAssign,
    Mark::PlusPlus,
    Mark::MinusMinus,
    Mark::LeftParen,
    Mark::RightParen,
    Mark::LeftBrace,
    Mark::RightBrace,
    Mark::LeftBracket,
    Mark::RightBracket,
    Mark::Comma,
    Mark::Semicolon,
    Mark::Question,
    Mark::Colon,
    Mark::Plus,
    Mark::Minus,
    Mark::Star,
    Mark::Slash,
    Mark::Percent,
    Mark::Ampersand,
    Mark::Bar,
    Mark::Caret,
    Mark::Tilde,
    Mark::Exclamation,
    Mark::Less,
    Mark::Greater,
    Mark::Assign,
];

/// The bytes of a mark or a reserved word.
#[tactic(auto, unfolding(gang_model::specs::Source::Spelling::text_of))]
pub fn text_of(mark: Mark) -> &'static [u8]
    ensures { result.now ≡ spelling.text_of mark }
{
    match mark {
        Mark::LeftParen => b"(",
        Mark::RightParen => b")",
        Mark::LeftBrace => b"{",
        Mark::RightBrace => b"}",
        Mark::LeftBracket => b"[",
        Mark::RightBracket => b"]",
        Mark::Comma => b",",
        Mark::Semicolon => b";",
        Mark::Question => b"?",
        Mark::Colon => b":",
        Mark::Plus => b"+",
        Mark::Minus => b"-",
        Mark::Star => b"*",
        Mark::Slash => b"/",
        Mark::Percent => b"%",
        Mark::Ampersand => b"&",
        Mark::Bar => b"|",
        Mark::Caret => b"^",
        Mark::Tilde => b"~",
        Mark::Exclamation => b"!",
        Mark::Less => b"<",
        Mark::Greater => b">",
        Mark::ShiftLeft => b"<<",
        Mark::ShiftRight => b">>",
        Mark::LessEqual => b"<=",
        Mark::GreaterEqual => b">=",
        Mark::EqualEqual => b"==",
        Mark::NotEqual => b"!=",
        Mark::AndAnd => b"&&",
        Mark::OrOr => b"||",
        Mark::Assign => b"=",
        Mark::PlusAssign => b"+=",
        Mark::MinusAssign => b"-=",
        Mark::StarAssign => b"*=",
        Mark::SlashAssign => b"/=",
        Mark::PercentAssign => b"%=",
        Mark::AmpersandAssign => b"&=",
        Mark::BarAssign => b"|=",
        Mark::CaretAssign => b"^=",
        Mark::ShiftLeftAssign => b"<<=",
        Mark::ShiftRightAssign => b">>=",
        Mark::PlusPlus => b"++",
        Mark::MinusMinus => b"--",
        Mark::Dots => b"...",
        Mark::Export => b"export",
        Mark::Static => b"static",
        Mark::Inline => b"inline",
        Mark::Const => b"const",
        Mark::Uniform => b"uniform",
        Mark::Varying => b"varying",
        Mark::Unsigned => b"unsigned",
        Mark::Void => b"void",
        Mark::Bool => b"bool",
        Mark::Int => b"int",
        Mark::Int8 => b"int8",
        Mark::Int16 => b"int16",
        Mark::Int32 => b"int32",
        Mark::Int64 => b"int64",
        Mark::Uint => b"uint",
        Mark::Uint8 => b"uint8",
        Mark::Uint16 => b"uint16",
        Mark::Uint32 => b"uint32",
        Mark::Uint64 => b"uint64",
        Mark::True => b"true",
        Mark::False => b"false",
        Mark::If => b"if",
        Mark::Else => b"else",
        Mark::Cif => b"cif",
        Mark::While => b"while",
        Mark::Cwhile => b"cwhile",
        Mark::Do => b"do",
        Mark::Cdo => b"cdo",
        Mark::For => b"for",
        Mark::Cfor => b"cfor",
        Mark::Break => b"break",
        Mark::Continue => b"continue",
        Mark::Return => b"return",
        Mark::Foreach => b"foreach",
        Mark::ForeachTiled => b"foreach_tiled",
        Mark::ForeachActive => b"foreach_active",
        Mark::ForeachUnique => b"foreach_unique",
        Mark::In => b"in",
        Mark::Switch => b"switch",
        Mark::Case => b"case",
        Mark::Default => b"default",
    }
}

fn reserved_in(marks: &[Mark], text: &[u8]) -> Option<Mark>
    ensures { result ≡ spec.reserved_in marks.now text.now }
{
    marks.iter().copied().find(|mark| text == text_of(*mark))
}

/// The reserved word that the whole text is, if it is one.
#[tactic(auto, unfolding(crate::specs::Pieces::reserved_of))]
pub fn reserved(text: &[u8]) -> Option<Mark>
    ensures { result ≡ spec.reserved_of text.now }
{
    reserved_in(&RESERVED, text)
}

fn first_of(marks: &[Mark], bytes: &[u8]) -> Option<Mark>
    ensures { result ≡ spec.first_of marks.now bytes.now }
{
    marks
        .iter()
        .copied()
        .find(|mark| bytes.starts_with(text_of(*mark)))
}

/// The longest mark at the front.
#[tactic(auto, unfolding(crate::specs::Pieces::mark_of))]
pub fn longest_mark(bytes: &[u8]) -> Option<Mark>
    ensures { result ≡ spec.mark_of bytes.now }
{
    first_of(&PUNCTUATION, bytes)
}
