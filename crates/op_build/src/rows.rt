// Rows over the colours.
ghost use Rattle.std.specs.Prelude.{◌≡◌};
ghost use Rattle.op_build.specs.Recipe.{over_three};

use frac_math::Frac;

/// Rows over the first three values; the fourth stays.
pub fn over_three(rows: &[[Frac; 3]; 3]) -> [[Frac; 5]; 4]
    ensures { result ≡ over_three rows.now }
{
    let [[a, b, c], [d, e, f], [g, h, i]] = *rows;
    let zero = Frac::whole(0);
    let one = Frac::whole(1);
    [
        [a, b, c, zero, zero],
        [d, e, f, zero, zero],
        [g, h, i, zero, zero],
        [zero, zero, zero, one, zero],
    ]
}
