//! When a command's moves are enough.
ghost use Rattle.std.specs.Prelude.{◌≡◌};
ghost use Rattle.gang_model.specs.Debugger.Debugger.{towards};
ghost use Rattle.debug_session.specs.Goals.{goal_option, goal_view};

/// What the moves of a command are to reach.
#[derive(Clone, Copy, Debug)]
pub(crate) enum Goal {
    /// So many moves.
    Moves(u32),
    /// So many times a move, and more until the depth is at most the one before it.
    Groups { left: u32, base: usize },
    /// A depth below this one.
    Above(usize),
    /// Nothing: the moves go on until something else ends them.
    Endless,
}

impl Goal {
    /// The goal that is left after a move to this depth; none where it is reached.
    pub(crate) fn towards(self, depth: usize) -> Option<Goal>
        ensures { goal_option result ≡ towards (goal_view self) depth }
    {
        match self {
            Goal::Moves(left) if left <= 1 => None,
            Goal::Moves(left) => Some(Goal::Moves(left - 1)),
            Goal::Groups { left: _, base } if depth > base => Some(self),
            Goal::Groups { left, base: _ } if left <= 1 => None,
            Goal::Groups { left, base: _ } => Some(Goal::Groups {
                left: left - 1,
                base: depth,
            }),
            Goal::Above(base) if depth < base => None,
            Goal::Above(_) | Goal::Endless => Some(self),
        }
    }
}
