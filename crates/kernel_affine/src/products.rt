ghost use Rattle.std.specs.Prelude.{◌≡◌, ℕ, ◌<◌, ◌≤◌, ◌⊎◌, true, pos, IfSome};
ghost use Rattle.kernel_step.specs.Forms.{factor};
ghost use Rattle.kernel_affine.specs.Affine.{AreTaken};

/// Which products a row of factors has.
#[derive(Clone, Copy, Debug)]
pub enum Products {
    /// One alone, or none: that of the value at this place.
    One(usize),
    /// Those of the first three values.
    Three,
}

// Whether every factor of a row but that at one place is 0.
fn is_alone(row: &[i128; 5], place: usize) -> bool
    ensures { result ≡ true → (j : ℕ) → j < 4 → (j ≡ place) ⊎ (factor row.now j ≡ pos 0) }
{
    (row[0] == 0 || place == 0)
        && (row[1] == 0 || place == 1)
        && (row[2] == 0 || place == 2)
        && (row[3] == 0 || place == 3)
}

/// The products of a row of the first values, where they are such ones.
pub fn products_of(row: &[i128; 5], count: usize) -> Option<Products>
    ensures { IfSome result (λ products. AreTaken products row.now count) }
{
    for place in 0..count {
        if is_alone(row, place) {
            return Some(Products::One(place));
        }
    }
    if count < 3 {
        return None;
    }
    if row[3] != 0 {
        return None;
    }
    Some(Products::Three)
}
