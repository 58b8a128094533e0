//! What the first mark of a statement says.
ghost use Rattle.std.specs.Prelude.{◌≡◌};
ghost use Rattle.ispc_parser_shared.specs.Openings as spec;

use gang_model::Mark;

/// A loop or a foreach form, by its word.
#[derive(Clone, Copy, Drop)]
pub enum Loop {
    While,
    For,
    ForEach { is_tiled: bool },
    ForEachActive,
    ForEachUnique,
}

/// A statement that holds no other one, by its first mark.
#[derive(Clone, Copy, Drop)]
pub enum Plain {
    Empty,
    Break,
    Continue,
    Return,
    Simple,
}

/// A statement by its first mark.
#[derive(Clone, Copy, Drop)]
pub enum Opening {
    Plain(Plain),
    Block,
    If,
    Switch,
    Do,
    Loop(Loop),
}

/// What a statement is that begins with this mark.
pub fn opening_of(mark: Mark) -> Option<Opening>
    ensures { result ≡ spec.opening_of mark }
{
    match mark {
        Mark::Semicolon => Some(Opening::Plain(Plain::Empty)),
        Mark::Break => Some(Opening::Plain(Plain::Break)),
        Mark::Continue => Some(Opening::Plain(Plain::Continue)),
        Mark::Return => Some(Opening::Plain(Plain::Return)),
        Mark::PlusPlus | Mark::MinusMinus => Some(Opening::Plain(Plain::Simple)),
        Mark::LeftBrace => Some(Opening::Block),
        Mark::If | Mark::Cif => Some(Opening::If),
        Mark::Switch => Some(Opening::Switch),
        Mark::Do | Mark::Cdo => Some(Opening::Do),
        Mark::While | Mark::Cwhile => Some(Opening::Loop(Loop::While)),
        Mark::For | Mark::Cfor => Some(Opening::Loop(Loop::For)),
        Mark::Foreach => Some(Opening::Loop(Loop::ForEach { is_tiled: false })),
        Mark::ForeachTiled => Some(Opening::Loop(Loop::ForEach { is_tiled: true })),
        Mark::ForeachActive => Some(Opening::Loop(Loop::ForEachActive)),
        Mark::ForeachUnique => Some(Opening::Loop(Loop::ForEachUnique)),
        _ => None,
    }
}
