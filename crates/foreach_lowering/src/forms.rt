//! The forms of a function's steps of rounds, and how many forms stand in one another.
ghost use Rattle.std.specs.Prelude.{◌≡◌, ℕ, length, map, max, IfOk};
ghost use Rattle.gang_types.specs.Masks.{IsGangWidth};
ghost use Rattle.gang_model.specs.Running.RunningOrder.{IsNumbered};
ghost use Rattle.gang_model.specs.Types.Tree.{Function, Program};
ghost use Rattle.mask_states.specs.Points.{points_in};
ghost use Rattle.mask_lowering.specs.PointViews.{point_view};
ghost use Rattle.mask_lowering.specs.Views.{table_view};
ghost use Rattle.foreach_lowering.specs.Forms.{HaveForms, form_at, function_forms, passed, round_forms};
ghost use Rattle.foreach_lowering.specs.FormViews.{forms_view, form_view, nesting_view};
ghost use Rattle.foreach_lowering.specs.Law.{CountsRounds};

use mask_lowering::{Masked, Point};
use std::alloc::{AllocError, Global};
use typed_tree::Rounds;

/// What the steps of a function need of its foreach forms, beside its points.
#[derive(Drop)]
pub struct FunctionForms<'a> {
    /// For each point the form whose rounds it is, with its index variables and their bounds; none of points that are no rounds.
    pub rounds: Vec<Option<&'a Rounds>>,
    /// The most forms that stand round one step.
    pub depth: usize,
}

/// The forms round the point that comes next, the innermost last, and the most forms round a point before it.
#[derive(Drop)]
struct Nesting<'a> {
    forms: Vec<&'a Rounds>,
    depth: usize,
}

impl<'a> Nesting<'a> {
    /// Goes past a point; answers the form whose rounds it is.
    fn pass(&mut self, point: &Point<'a>) -> Result<Option<&'a Rounds>, AllocError>
        ensures form { IfOk result (λ form. form_view form ≡ form_at (point_view point.now) (nesting_view self.old)) }
        ensures round { IfOk result (λ form. nesting_view self.new ≡ passed (point_view point.now) (nesting_view self.old)) }
        ensures depth { IfOk result (λ form. self.new.depth ≡ max self.old.depth (length (nesting_view self.old))) }
    {
        self.depth = self.depth.max(self.forms.len());
        match point {
            Point::Begin { form, .. } => {
                self.forms.push(*form)?;
                Ok(None)
            }
            Point::Turn { .. } => Ok(self.forms.pop()),
            _ => Ok(None),
        }
    }
}

/// The forms of a function, by its points.
fn forms_of<'a>(alloc: Global, points: &[Point<'a>]) -> Result<FunctionForms<'a>, AllocError>
    ensures { (f : Function) → map point_view points.now ≡ points_in f → IfOk result (λ forms. forms_view forms ≡ function_forms f) }
{
    let mut nesting = Nesting {
        forms: Vec::new(alloc),
        depth: 0,
    };
    let mut rounds = Vec::with_capacity(alloc, points.len())?;
    for point in points {
        let form = nesting.pass(point)?;
        rounds.push(form)?;
    }
    let depth = nesting.depth;
    Ok(FunctionForms { rounds, depth })
}

/// For each function of a program in points which form's rounds each of its points is, and how many forms stand in one another. With it
/// the rounds of a form under way can be counted (`RoundsLeft`): the n-th round by what is kept is the n-th of the meaning's list,
/// whatever the form, its lanes and the state in which it begins (`law`).
///
/// # Errors
///
/// Out of memory.
pub fn lower_rounds<'a>(
    alloc: Global,
    masked: &Masked<'a>,
) -> Result<Vec<FunctionForms<'a>>, AllocError>
    ensures forms { (p : Program) → table_view masked.now ≡ map points_in p.functions → IfOk result (λ forms. map forms_view forms.items ≡ map function_forms p.functions) }
    ensures heads { (f : Function) → IsNumbered 0 f.body → HaveForms (points_in f) (round_forms f) }
    ensures law { (width : ℕ) → IsGangWidth width → CountsRounds width }
{
    let mut functions = Vec::new(alloc);
    for points in &masked.functions {
        let forms = forms_of(alloc, points)?;
        functions.push(forms)?;
    }
    Ok(functions)
}
