//! Where lanes go on after a statement.
ghost use Rattle.std.specs.Prelude.{◌≡◌, Some};
ghost use Rattle.gang_model.specs.Types.Tree.{Function};
ghost use Rattle.mask_states.specs.Points as points;
ghost use Rattle.typed_tree.specs.Views.{result_view};
ghost use Rattle.mask_lowering.specs.Lowering.{ways_view};

use typed_tree::ResultFor;

/// Where lanes go on after a statement, and after a `break`, a `continue` and a `return` in it, where one may stand.
#[derive(Clone, Copy)]
pub(crate) struct Ways {
    pub(crate) next: usize,
    pub(crate) on_break: Option<usize>,
    pub(crate) on_continue: Option<usize>,
    pub(crate) on_return: Option<usize>,
}

impl Ways {
    /// Those of a function's body, whose closing brace has this number.
    pub(crate) fn of_function(closing: usize) -> Ways
        ensures { (f : Function) → closing ≡ points.closing_number f → ways_view result ≡ points.function_ways f }
    {
        Ways {
            next: closing,
            on_break: None,
            on_continue: None,
            on_return: Some(closing),
        }
    }

    /// Those of a statement that is followed by another step.
    pub(crate) fn before_step(self, next: usize) -> Ways
        ensures { ways_view result ≡ points.before_step next (ways_view self) }
    {
        Ways { next, ..self }
    }

    /// Those of a loop's body; the loop's update begins at `again`.
    pub(crate) fn of_body(self, again: usize) -> Ways
        ensures { ways_view result ≡ points.body_ways again (ways_view self) }
    {
        Ways {
            next: again,
            on_break: Some(self.next),
            on_continue: Some(again),
            on_return: self.on_return,
        }
    }

    /// Those of a loop's update, which its test follows.
    pub(crate) fn of_update(self, test: usize) -> Ways
        ensures { ways_view result ≡ points.update_ways test (ways_view self) }
    {
        Ways {
            next: test,
            on_break: Some(self.next),
            ..self
        }
    }

    /// Those of a switch's segments.
    pub(crate) fn of_segments(self) -> Ways
        ensures { let ways = ways_view self in ways_view result ≡ record ways { on_break = Some ways.next } }
    {
        Ways {
            on_break: Some(self.next),
            ..self
        }
    }

    /// Those of the body of a foreach form, out of which only `continue` leads.
    pub(crate) fn of_round(rounds: usize) -> Ways
        ensures { ways_view result ≡ points.round_ways rounds }
    {
        Ways {
            next: rounds,
            on_break: None,
            on_continue: Some(rounds),
            on_return: None,
        }
    }

    /// Where lanes go on that have a result for this.
    pub(crate) fn after_result(self, result_for: ResultFor) -> usize
        ensures { result ≡ points.after_result (result_view result_for) (ways_view self) }
    {
        match result_for {
            ResultFor::Nothing | ResultFor::Declares(_) | ResultFor::Assigns(_) => self.next,
            ResultFor::Returns => self.on_return.unwrap_or(self.next),
        }
    }
}
