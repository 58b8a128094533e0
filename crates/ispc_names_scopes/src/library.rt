//! The library's names.
ghost use Rattle.std.specs.Prelude.{◌≡◌};
ghost use Rattle.std.specs.List.{list_any};
ghost use Rattle.gang_model.specs.Source.Names.{same_text};
ghost use Rattle.gang_model.specs.Types.LibraryTable as table;
ghost use Rattle.ispc_names_scopes.specs.Names.{statement_call_view};

use crate::texts::is_same;

/// The names of the calls that stand in expressions.
const EXPRESSION_CALLS: [&[u8]; 25] = [
    b"any",
    b"all",
    b"none",
    b"reduce_add",
    b"reduce_min",
    b"reduce_max",
    b"reduce_equal",
    b"broadcast",
    b"extract",
    b"insert",
    b"rotate",
    b"shift",
    b"shuffle",
    b"shuffle",
    b"exclusive_scan_add",
    b"exclusive_scan_and",
    b"exclusive_scan_or",
    b"min",
    b"max",
    b"clamp",
    b"abs",
    b"select",
    b"popcnt",
    b"lanemask",
    b"packmask",
];

/// A library call that is a statement, or stands whole after `=` or `return`.
#[derive(Clone, Copy, Debug, PartialEq, Eq, Drop)]
pub enum StatementCall {
    Assert,
    PackedStore,
    PackedLoad,
}

fn is_among(name: &[u8], names: &[&[u8]]) -> bool
    ensures { result ≡ list_any (λ known. same_text name.now known.now) names.now }
{
    names.iter().any(|known| is_same(name, known))
}

/// Whether this is the name of a library call that stands in expressions.
pub fn is_library_name(name: &[u8]) -> bool
    ensures { result ≡ table.is_library_name name.now }
{
    is_among(name, &EXPRESSION_CALLS)
}

/// The library's statement call of this name.
pub fn statement_call(name: &[u8]) -> Option<StatementCall>
    ensures { statement_call_view result ≡ table.statement_call name.now }
{
    if is_same(b"assert", name) {
        Some(StatementCall::Assert)
    } else if is_same(b"packed_store_active", name) {
        Some(StatementCall::PackedStore)
    } else if is_same(b"packed_load_active", name) {
        Some(StatementCall::PackedLoad)
    } else {
        None
    }
}
