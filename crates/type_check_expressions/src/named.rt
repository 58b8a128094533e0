//! What the names in expressions declare.
ghost use Rattle.std.specs.Prelude.{◌≡◌, [], option_map};
ghost use Rattle.source_tree.specs.Expressions.{expr_view};
ghost use Rattle.gang_model.specs.Types.Typing as typing;
ghost use Rattle.type_check_scopes.specs.Entries.{declared_view, entry_view};

use source_tree::Expr;
use type_check_scopes::{Declared, Entry, TypeScope};

/// The innermost declaration of a name.
pub(crate) fn entry_of<'a>(name: &'a [u8], scope: &TypeScope) -> Option<Entry<'a>>
    ensures { option_map entry_view result ≡ typing.entry_of scope.now.entries name.now }
{
    let declared = scope.find(name)?;
    Some(Entry { name, declared })
}

/// The entry that an expression names, parentheses left out.
pub(crate) fn named_entry<'a>(expr: &'a Expr, scope: &TypeScope) -> Option<Entry<'a>>
    ensures { option_map entry_view result ≡ typing.named_entry (expr_view expr.now) scope.now.entries }
{
    match expr {
        Expr::Name { name, .. } => entry_of(name, scope),
        Expr::Paren { inner, .. } => named_entry(inner, scope),
        _ => None,
    }
}

/// The array that an expression names.
pub(crate) fn named_array<'a>(expr: &'a Expr, scope: &TypeScope) -> Option<Entry<'a>>
    ensures { option_map entry_view result ≡ typing.array_of (typing.named_entry (expr_view expr.now) scope.now.entries) }
{
    let entry = named_entry(expr, scope)?;
    if entry.declared.is_array {
        Some(entry)
    } else {
        None
    }
}

/// Whether it is an array, or a `void` variable: it has no value by itself.
pub(crate) fn has_no_value(declared: Declared) -> bool
    ensures { result ≡ typing.has_no_value (declared_view [] declared) }
{
    declared.is_array || declared.is_void
}

/// Whether an expression names an array or a `void` variable.
pub(crate) fn names_no_value(expr: &Expr, scope: &TypeScope) -> bool
    ensures { result ≡ typing.names_no_value (typing.named_entry (expr_view expr.now) scope.now.entries) }
{
    match named_entry(expr, scope) {
        None => false,
        Some(entry) => has_no_value(entry.declared),
    }
}
