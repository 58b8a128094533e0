//! Which form a statement has.
use port_draft::Draft;
use port_statements::{declaration, read_leaving, read_return, simple};
use port_tokens::{PortRefusal, Reason};

/// The forms of statements: the first hold others.
#[derive(Clone, Copy)]
pub(crate) enum Form {
    Block,
    If,
    While,
    Do,
    For,
    Switch,
    Foreach,
    Leaving,
    Return,
    Empty,
    Other,
}

const FORMS: &[(&[u8], Form)] = &[
    (b"{", Form::Block),
    (b"if", Form::If),
    (b"cif", Form::If),
    (b"while", Form::While),
    (b"cwhile", Form::While),
    (b"do", Form::Do),
    (b"cdo", Form::Do),
    (b"for", Form::For),
    (b"cfor", Form::For),
    (b"switch", Form::Switch),
    (b"foreach", Form::Foreach),
    (b"foreach_tiled", Form::Foreach),
    (b"foreach_active", Form::Foreach),
    (b"foreach_unique", Form::Foreach),
    (b"break", Form::Leaving),
    (b"continue", Form::Leaving),
    (b"return", Form::Return),
    (b";", Form::Empty),
];

/// The form of the statement that begins there.
pub(crate) fn form_at(draft: &Draft, at: usize) -> Form {
    let text = draft.text(at);
    for row in FORMS {
        if row.0 == text {
            return row.1;
        }
    }
    Form::Other
}

/// Reads a statement that holds no others, and says where what is next stands.
pub(crate) fn read_leaf(draft: &mut Draft, at: usize, form: Form) -> Result<usize, PortRefusal> {
    match form {
        Form::Leaving => read_leaving(draft, at),
        Form::Return => read_return(draft, at),
        Form::Empty => read_empty(draft, at),
        _ => read_other(draft, at),
    }
}

fn read_empty(draft: &mut Draft, at: usize) -> Result<usize, PortRefusal> {
    draft.copy(at)?;
    draft.statements = draft.statements.saturating_add(1);
    Ok(at.saturating_add(1))
}

/// Reads a declaration, an assignment, a change or a call.
fn read_other(draft: &mut Draft, at: usize) -> Result<usize, PortRefusal> {
    if draft.is_spec(at) {
        return declaration(draft, at);
    }
    if !draft.is_foreign_type(at) {
        return simple(draft, at);
    }
    let reason = if draft.is(at, b"goto") {
        Reason::Word
    } else {
        Reason::Type
    };
    Err(draft.refuse(at, reason))
}
