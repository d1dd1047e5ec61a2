// Values in another type.
ghost use Rattle.std.specs.Prelude.{◌≡◌, ◌≤◌, ◌^◌, true, false, if◌then◌else◌, slice_index};
ghost use Rattle.frac_math.specs.Fraction.{floor, nat};
ghost use Rattle.op_list.specs.Types.{bits};
ghost use Rattle.op_list.specs.Values.{four, fraction_in};
ghost use Rattle.op_list.specs.Whole.{modulo};
ghost use Rattle.op_list.specs.Apply.{as_numbers, converted};

use crate::numbers::multiplied;
use crate::types::PixType;
use crate::values::Values;
use frac_math::Frac;

impl Values {
    // The values in another type.
    pub(crate) fn converted(&self, to: PixType, expand: bool) -> Values
        ensures { result ≡ converted to expand self.now }
    {
        match to {
            PixType::Rat => self.as_fractions(),
            _ => self.as_numbers(expand, to.bits()),
        }
    }

    fn as_fractions(&self) -> Values
        ensures { result ≡ converted PixType.Rat false self.now }
    {
        match self {
            Values::Numbers(values) => Values::Fractions([
                Frac::whole(i128::from(values[0])),
                Frac::whole(i128::from(values[1])),
                Frac::whole(i128::from(values[2])),
                Frac::whole(i128::from(values[3])),
            ]),
            Values::Fractions(values) => Values::Fractions(*values),
        }
    }

    fn as_numbers(&self, expand: bool, bits: u32) -> Values
        requires { bits ≤ 32 }
        ensures { result ≡ as_numbers expand bits self.now }
    {
        match self {
            Values::Numbers(values) => Values::Numbers(multiplied(values, factor(expand), bits)),
            Values::Fractions(values) => Values::Numbers(floors(values, bits)),
        }
    }
}

fn factor(expand: bool) -> u32
    ensures { result ≡ (if expand then 257 else 1) }
{
    if expand { 257 } else { 1 }
}

// The floors, modulo 2^bits.
fn floors(values: &[Frac; 4], bits: u32) -> [u32; 4]
    requires { bits ≤ 32 }
    ensures { result ≡ four (λ i. modulo (floor (fraction_in values.now i)) (2 ^ bits)) }
{
    [
        floor_of(&values[0], bits),
        floor_of(&values[1], bits),
        floor_of(&values[2], bits),
        floor_of(&values[3], bits),
    ]
}

fn floor_of(value: &Frac, bits: u32) -> u32
    requires { bits ≤ 32 }
    ensures { result ≡ modulo (floor value.now) (2 ^ bits) }
{
    value.floor().rem_euclid(1i128 << bits) as u32
}
