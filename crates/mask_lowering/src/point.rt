//! What a step does with the lanes that wait for it.
ghost use Rattle.std.specs.Prelude.{◌≡◌, [], ◌∷◌, ◌++◌, OnOk};

use std::alloc::AllocError;
use typed_tree::{Arg, Expr, ResultFor, Rounds, Segment, Stmt};

/// What a step does, and the numbers of the steps that its lanes wait for next.
pub enum Point<'a> {
    /// The statement, which moves no lane.
    Put {
        statement: &'a Stmt,
        next: usize,
    },
    /// Nothing: `break` and `continue`.
    Go {
        next: usize,
    },
    Branch {
        test: &'a Expr,
        yes: usize,
        no: usize,
    },
    /// A switch: its segments, where each of them begins, and what follows them.
    Choose {
        selector: &'a Expr,
        segments: &'a [Segment],
        entries: Vec<usize>,
        next: usize,
    },
    /// A foreach form: the number of its rounds, and what follows it.
    Begin {
        form: &'a Rounds,
        rounds: usize,
        next: usize,
    },
    /// The next round of a foreach form: where its body begins.
    Turn {
        body: usize,
    },
    /// A call; its lanes go on when it is left.
    Enter {
        function: usize,
        args: &'a [Arg],
        result_for: ResultFor,
        next: usize,
    },
}

impl Drop for Point<'_> {
    fn drop(self) {
        match self {
            Point::Put {
                statement: _,
                next: _,
            }
            | Point::Go { next: _ }
            | Point::Branch {
                test: _,
                yes: _,
                no: _,
            }
            | Point::Choose {
                selector: _,
                segments: _,
                entries: _,
                next: _,
            }
            | Point::Begin {
                form: _,
                rounds: _,
                next: _,
            }
            | Point::Turn { body: _ }
            | Point::Enter {
                function: _,
                args: _,
                result_for: _,
                next: _,
            } => {}
        }
    }
}

/// One more point.
pub(crate) fn put<'a>(points: &mut Vec<Point<'a>>, point: Point<'a>) -> Result<(), AllocError>
    ensures { OnOk result (points.new.items ≡ points.old.items ++ point.entry ∷ []) }
{
    points.push(point)?;
    Ok(())
}
