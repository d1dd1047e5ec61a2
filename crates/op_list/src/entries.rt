// Entries that take the place of values.
ghost use Rattle.std.specs.Prelude.{◌≡◌, ◌≤◌, true, false, slice_index, unsigned_abs};
ghost use Rattle.op_list.specs.Typing.{all_fit, fits_bits, entry_fits};
ghost use Rattle.op_list.specs.Values.{four, fraction_in, entry, are_fractions};
ghost use Rattle.op_list.specs.Apply.{cleared, cleared_number, cleared_fraction};

use crate::values::Values;
use frac_math::Frac;

impl Values {
    // The given entries in place of the values, where numbers have so many bits.
    pub(crate) fn cleared(&self, entries: &[Option<Frac>; 4], bits: u32) -> Values
        requires bits { bits ≤ 32 }
        requires fit { are_fractions self.now ≡ false → all_fit bits entries.now ≡ true }
        ensures { result ≡ cleared entries.now self.now }
    {
        match self {
            Values::Numbers(values) => Values::Numbers(cleared_numbers(entries, values, bits)),
            Values::Fractions(values) => Values::Fractions(cleared_fractions(entries, values)),
        }
    }
}

fn cleared_numbers(entries: &[Option<Frac>; 4], values: &[u32; 4], bits: u32) -> [u32; 4]
    requires bits { bits ≤ 32 }
    requires fit { all_fit bits entries.now ≡ true }
    ensures { result ≡ four (λ i. cleared_number (entry entries.now i) (slice_index values.now i)) }
{
    [
        cleared_number(&entries[0], values[0], bits),
        cleared_number(&entries[1], values[1], bits),
        cleared_number(&entries[2], values[2], bits),
        cleared_number(&entries[3], values[3], bits),
    ]
}

fn cleared_number(entry: &Option<Frac>, value: u32, bits: u32) -> u32
    requires bits { bits ≤ 32 }
    requires fits { entry_fits bits entry.now ≡ true }
    ensures { result ≡ cleared_number entry.now value }
{
    match entry {
        Some(entry) => whole_number(entry, bits),
        None => value,
    }
}

// A fraction that is a whole number of so many bits.
fn whole_number(value: &Frac, bits: u32) -> u32
    requires bits { bits ≤ 32 }
    requires fits { fits_bits bits value.now ≡ true }
    ensures { result ≡ unsigned_abs value.now.numerator }
{
    value.num() as u32
}

fn cleared_fractions(entries: &[Option<Frac>; 4], values: &[Frac; 4]) -> [Frac; 4]
    ensures { result
        ≡ four (λ i. cleared_fraction (entry entries.now i) (fraction_in values.now i)) }
{
    [
        cleared_fraction(&entries[0], &values[0]),
        cleared_fraction(&entries[1], &values[1]),
        cleared_fraction(&entries[2], &values[2]),
        cleared_fraction(&entries[3], &values[3]),
    ]
}

fn cleared_fraction(entry: &Option<Frac>, value: &Frac) -> Frac
    ensures { result ≡ cleared_fraction entry.now value.now }
{
    match entry {
        Some(entry) => *entry,
        None => *value,
    }
}
