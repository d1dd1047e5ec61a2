// Rows of a linear map that give a value back.
ghost use Rattle.std.specs.Prelude.{◌≡◌, ◌<◌};
ghost use Rattle.op_list.specs.Identity.{identity_coefficient, is_identity_row};

use frac_math::Frac;

// Coefficient j of the row that gives value i back.
fn identity_coefficient(i: usize, j: usize) -> Frac
    ensures { result ≡ identity_coefficient i j }
{
    Frac::whole(if j == i { 1 } else { 0 })
}

/// Whether a row of a linear map gives value i back, for i from 0 to 3: its own coefficient is 1,
/// and the others and the constant are 0.
#[tactic(auto, unfolding(crate::specs::Identity::is_identity_row))]
pub fn is_identity_row(i: usize, row: &[Frac; 5]) -> bool
    requires { i < 4 }
    ensures { result ≡ is_identity_row i row.now }
{
    row[0] == identity_coefficient(i, 0)
        && row[1] == identity_coefficient(i, 1)
        && row[2] == identity_coefficient(i, 2)
        && row[3] == identity_coefficient(i, 3)
        && row[4] == identity_coefficient(i, 4)
}
