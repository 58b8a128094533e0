//! Look-ups of what is in scope at a step.
ghost use Rattle.std.specs.Prelude.{◌≡◌, option_map, slice_get};
ghost use Rattle.gang_types.specs.declared.places.VarId.TheVariants.{Local};
ghost use Rattle.gang_model.specs.Names.Scope.{declaration, names_at, unhidden};
ghost use Rattle.ispc_names_table.specs.Scopes.{in_scope, standings_view};

use crate::table::{Declaration, StepScopes};

/// The number of the first variable of a name, from the innermost variable in scope outwards.
fn found(declarations: &[Declaration], innermost: Option<usize>, name: &[u8]) -> Option<usize>
    ensures { option_map Local result ≡ declaration (in_scope declarations.now innermost) name.now }
{
    let mut below = declarations.len();
    let mut link = innermost;
    while let Some(number) = link {
        if number >= below {
            return None;
        }
        let declaration = &declarations[number];
        if declaration.name.as_slice() == name {
            return Some(number);
        }
        below = number;
        link = declaration.outside;
    }
    None
}

/// The number of the k-th variable that is not hidden: those that their own names stand for are not.
fn nth_listed(declarations: &[Declaration], innermost: Option<usize>, k: usize) -> Option<usize>
    ensures { option_map Local result ≡ option_map (λ b. b.id) (slice_get (unhidden (in_scope declarations.now innermost)) k) }
{
    let mut left = k;
    for (number, declaration) in declarations.iter().enumerate() {
        if found(declarations, innermost, &declaration.name) == Some(number) {
            if left == 0 {
                return Some(number);
            }
            left -= 1;
        }
    }
    None
}

impl StepScopes {
    /// The number of the variable that a name stands for at a step: the time is that of the variables in scope there.
    pub fn find(&self, step: usize, name: &[u8]) -> Option<usize>
        ensures { option_map Local result ≡ declaration (names_at (slice_get (standings_view self.now) step)) name.now }
    {
        let standing = self.standings.get(step)?;
        found(&self.declarations, standing.innermost, name)
    }

    /// The number of the k-th variable that is listed at a step, in the order of declaration, without those that an inner
    /// declaration hides: the time is that of a `find` for each variable of the function.
    pub fn listed(&self, step: usize, k: usize) -> Option<usize>
        ensures { option_map Local result ≡ option_map (λ b. b.id) (slice_get (names_at (slice_get (standings_view self.now) step)) k) }
    {
        let standing = self.standings.get(step)?;
        nth_listed(&self.declarations, standing.innermost, k)
    }
}
