//! How many values something has.
ghost use Rattle.std.specs.Prelude.{◌≡◌};
ghost use Rattle.gang_model.specs.Types.Conversions as model;

use gang_types::Rate;

/// Whether there is a value for each lane.
pub fn is_varying(rate: Rate) -> bool
    ensures { result ≡ model.is_varying rate }
{
    match rate {
        Rate::Uniform => false,
        Rate::Varying => true,
    }
}

/// Varying if one of the two is.
pub fn joined_rate(left: Rate, right: Rate) -> Rate
    ensures { result ≡ model.joined_rate left right }
{
    match left {
        Rate::Uniform => right,
        Rate::Varying => Rate::Varying,
    }
}

/// Whether a value of a rate may be given to what has another: any but a varying one to a uniform.
pub fn may_become(from: Rate, to: Rate) -> bool
    ensures { result ≡ model.may_become from to }
{
    !is_varying(from) || is_varying(to)
}
