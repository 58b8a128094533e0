//! What ends an evaluation before it has a value.
ghost use Rattle.std.specs.Prelude.{◌≡◌};
ghost use Rattle.expression_runs.specs.declared.stop.Stop.TheVariants.{Fault};

use gang_types::FaultName;

/// Why an expression has no value.
#[derive(Clone, Copy, PartialEq, Eq, Debug, Drop)]
pub enum Stop {
    /// A fault, with its lane.
    Fault((usize, FaultName)),
    /// The code keeps more vectors or masks than there is room for, or is not that of an expression.
    NoRoom,
}

impl From<(usize, FaultName)> for Stop {
    ghost from_gives = { λ found stop. stop ≡ Fault found };

    fn from(found: (usize, FaultName)) -> Stop {
        Stop::Fault(found)
    }
}
