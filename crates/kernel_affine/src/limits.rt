// Limits that may be given.
ghost use Rattle.std.specs.Prelude.{◌≡◌};
ghost use Rattle.kernel_affine.specs.Affine.{bound_below, bound_above, bound_by};

use kernel_step::Numerator;

// A number, but at least a limit, where one is given.
#[tactic(auto, unfolding(crate::specs::Affine::bound_below))]
fn raised_to<N: Numerator>(least: Option<N>, x: N) -> N
    ensures { N.value result ≡ bound_below N.value least (N.value x) }
{
    match least {
        Some(least) => x.but_at_least(least),
        None => x,
    }
}

// A number, but at most a limit, where one is given.
#[tactic(auto, unfolding(crate::specs::Affine::bound_above))]
fn lowered_to<N: Numerator>(greatest: Option<N>, x: N) -> N
    ensures { N.value result ≡ bound_above N.value greatest (N.value x) }
{
    match greatest {
        Some(greatest) => x.but_at_most(greatest),
        None => x,
    }
}

// A number, but at least one limit, and then at most the other.
pub fn held<N: Numerator>(low: Option<N>, high: Option<N>, x: N) -> N
    ensures { N.value result ≡ bound_by N.value low high (N.value x) }
{
    lowered_to(high, raised_to(low, x))
}
