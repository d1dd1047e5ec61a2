// The one number that an operation needs for a value, in place of a row of factors.
ghost use Rattle.std.specs.Prelude.{◌≡◌, ◌<◌, FitsSigned};
ghost use Rattle.kernel_step.specs.Forms.{factor, factors_at};

use crate::form::Form;
use crate::numerator::Numerator;

/// The number, in the place of a row of factors.
pub fn with_single(number: i128) -> [i128; 5]
    ensures { factor result 0 ≡ number }
{
    [number, 0, 0, 0, 0]
}

/// The number that a form has for value v.
pub fn single_of<N: Numerator>(form: &Form, v: usize) -> N
    requires v { v < 4 }
    requires fits { FitsSigned N.width (factor (factors_at form.now v) 0) }
    ensures { N.value result ≡ factor (factors_at form.now v) 0 }
{
    N::of(form.factors[v][0])
}
