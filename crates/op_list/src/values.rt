ghost use Rattle.std.specs.Prelude.{◌≡◌, ◌<◌, All, true, false};
ghost use Rattle.op_list.specs.Values.{four, number, are_fractions};
ghost use Rattle.op_list.specs.Apply.{swizzled};

use crate::fractions::swizzled_fractions;
use crate::numbers::swizzled_numbers;
use frac_math::Frac;

// The four values of a pixel.
#[derive(Clone, Copy, Debug)]
pub enum Values {
    // Of a whole type.
    Numbers([u32; 4]),
    // Of the type of fractions.
    Fractions([Frac; 4]),
}

impl Values {
    // The numbers of a whole type.
    pub(crate) fn numbers(&self) -> &[u32; 4]
        requires { are_fractions self.now ≡ false }
        ensures { self.now ≡ Values.Numbers result.now }
    {
        match self {
            Values::Numbers(values) => values,
            Values::Fractions(_) => unreachable!(),
        }
    }

    // The numbers, one after the other.
    pub(crate) fn elements(&self) -> [u32; 4]
        requires { are_fractions self.now ≡ false }
        ensures { result ≡ four (λ i. number self.now i) }
    {
        let numbers = self.numbers();
        [numbers[0], numbers[1], numbers[2], numbers[3]]
    }

    // The fractions of the type of fractions.
    pub(crate) fn fractions(&self) -> &[Frac; 4]
        requires { are_fractions self.now ≡ true }
        ensures { self.now ≡ Values.Fractions result.now }
    {
        match self {
            Values::Numbers(_) => unreachable!(),
            Values::Fractions(values) => values,
        }
    }

    // New value i is old value from[i].
    pub(crate) fn swizzled(&self, from: &[u8; 4]) -> Values
        requires { All (λ i. i < 4) from.now }
        ensures { result ≡ swizzled from.now self.now }
    {
        match self {
            Values::Numbers(values) => Values::Numbers(swizzled_numbers(from, values)),
            Values::Fractions(values) => Values::Fractions(swizzled_fractions(from, values)),
        }
    }
}
