//! What may stand at a place.
ghost use Rattle.std.specs.Prelude.{◌≡◌, [], List, ℕ};
ghost use Rattle.gang_model.specs.Names.NameFaults as names;
ghost use Rattle.ispc_names_expressions.specs.MayStand.{allowed_view};

/// Which of `break`, `continue`, `return` and `foreach` may stand at a place.
#[derive(Clone, Copy, Debug, PartialEq, Eq, Drop)]
pub struct Allowed {
    pub breaks: bool,
    pub continues: bool,
    pub returns: bool,
    pub domains: bool,
}

/// What may stand in a function, outside loops, switches and foreach forms.
pub fn in_function() -> Allowed
    ensures { (functions : List (List ℕ)) → allowed_view functions result ≡ names.in_function functions }
{
    Allowed {
        breaks: false,
        continues: false,
        returns: true,
        domains: true,
    }
}

impl Allowed {
    /// What may stand in a loop.
    pub fn in_loop(self) -> Allowed
        ensures { (functions : List (List ℕ)) → allowed_view functions result ≡ names.in_loop (allowed_view functions self) }
    {
        Allowed {
            continues: true,
            ..self.in_switch()
        }
    }

    /// What may stand in a switch: `break` belongs to it, `continue` to the loop or round outside.
    pub fn in_switch(self) -> Allowed
        ensures { (functions : List (List ℕ)) → allowed_view functions result ≡ names.in_switch (allowed_view functions self) }
    {
        Allowed {
            breaks: true,
            ..self
        }
    }

    /// What may stand in `foreach_active` and `foreach_unique`, where `continue` ends the round.
    pub fn in_round(self) -> Allowed
        ensures { (functions : List (List ℕ)) → allowed_view functions result ≡ names.in_round (allowed_view functions self) }
    {
        Allowed {
            breaks: false,
            continues: true,
            returns: false,
            ..self
        }
    }

    /// What may stand in `foreach` and `foreach_tiled`, where neither stands inside.
    pub fn in_domain_round(self) -> Allowed
        ensures { (functions : List (List ℕ)) → allowed_view functions result ≡ names.in_domain_round (allowed_view functions self) }
    {
        Allowed {
            domains: false,
            ..self.in_round()
        }
    }
}
