// One component of a pixel of a plane's row.
ghost use Rattle.std.specs.Prelude.{◌≡◌, ℕ, ◌+◌, ◌*◌, ◌/◌, ◌%◌, ◌^◌, ◌<◌, ◌≤◌, length, slice_index};
ghost use Rattle.std.specs.Prelude.{IsTrue};
ghost use Rattle.std.specs.Int.{bit_at};
ghost use Rattle.pix_desc.specs.Component.{component_of, is_narrow, bytes_read, start_of};
ghost use Rattle.pix_desc.specs.Component.{number_at, component, KeepsOtherBits};
ghost use Rattle.pix_desc.specs.Layouts.{IsValid};

use crate::positions::{first_byte_index, is_narrow};
use crate::{Comp, Desc};
use byteorder::{BigEndian, ByteOrder, LittleEndian};

/// Where in a row the first byte stands that the component of pixel `x` is read from.
fn start_of(desc: &Desc, comp: &Comp, x: u32) -> usize
    ensures { result ≡ start_of desc.now comp.now x }
{
    let step = comp.step;
    x as usize * usize::from(step) + usize::from(first_byte_index(desc, comp))
}

/// The number that the component is read from: one byte, or two in the format's byte order.
fn number_at(desc: &Desc, comp: &Comp, row: &[u8], at: usize) -> u16
    requires { at + bytes_read comp.now ≤ length row.now }
    ensures { result ≡ number_at desc.now comp.now row.now at }
{
    if is_narrow(comp) {
        u16::from(row[at])
    } else if desc.be {
        BigEndian::read_u16(&row[at..at + 2])
    } else {
        LittleEndian::read_u16(&row[at..at + 2])
    }
}

/// Writes the number that the component is read from.
fn set_number_at(desc: &Desc, comp: &Comp, row: &mut [u8], at: usize, number: u16)
    requires inside { at + bytes_read comp.now ≤ length row.old }
    requires fits { IsTrue (is_narrow comp.now) → number < 2 ^ 8 }
    ensures reads { number_at desc.now comp.now row.new at ≡ number }
    ensures before { (k : ℕ) → k < at → slice_index row.new k ≡ slice_index row.old k }
    ensures behind { (k : ℕ) → at + bytes_read comp.now ≤ k
        → slice_index row.new k ≡ slice_index row.old k }
{
    if is_narrow(comp) {
        row[at] = number as u8;
    } else if desc.be {
        BigEndian::write_u16(&mut row[at..at + 2], number);
    } else {
        LittleEndian::write_u16(&mut row[at..at + 2], number);
    }
}

/// The `depth` bits of the number from `shift` on.
fn bits_of(number: u16, shift: u8, depth: u8) -> u32
    requires { shift + depth ≤ 16 }
    ensures { result ≡ number / 2 ^ shift % 2 ^ depth }
{
    (u32::from(number) >> shift) & ((1 << depth) - 1)
}

/// The number with `value` for its `depth` bits from `shift` on.
fn with_bits(number: u16, shift: u8, depth: u8, value: u16) -> u16
    requires deep { 0 < depth }
    requires bits { shift + depth ≤ 16 }
    requires small { value < 2 ^ depth }
    ensures value { result / 2 ^ shift % 2 ^ depth ≡ value }
    ensures below { (i : ℕ) → i < shift → bit_at result i ≡ bit_at number i }
    ensures above { (i : ℕ) → shift + depth ≤ i → bit_at result i ≡ bit_at number i }
    ensures narrow { shift + depth ≤ 8 → number < 2 ^ 8 → result < 2 ^ 8 }
{
    let ones = ((1u32 << depth) - 1) as u16;
    (number & !(ones << shift)) | (value << shift)
}

/// The value of component `j` of pixel `x` of a plane's row. Of a palette format it is the index.
pub fn read_comp(desc: &Desc, j: u8, row: &[u8], x: u32) -> u32
    requires valid { IsValid desc.now }
    requires listed { j < desc.now.count }
    requires inside { (x + 1) * (component_of desc.now j).step ≤ length row.now }
    ensures value { result ≡ component desc.now j row.now x }
    ensures bound { result < 2 ^ (component_of desc.now j).depth }
{
    let comp = desc.comps[j as usize];
    let number = number_at(desc, &comp, row, start_of(desc, &comp, x));
    bits_of(number, comp.shift, comp.depth)
}

/// Writes the value of component `j` of pixel `x` of a plane's row.
pub fn write_comp(desc: &Desc, j: u8, row: &mut [u8], x: u32, v: u32)
    requires valid { IsValid desc.now }
    requires listed { j < desc.now.count }
    requires inside { (x + 1) * (component_of desc.now j).step ≤ length row.old }
    requires value { v < 2 ^ (component_of desc.now j).depth }
    ensures reads { component desc.now j row.new x ≡ v }
    ensures others { KeepsOtherBits desc.now j x row.old row.new }
{
    let comp = desc.comps[j as usize];
    let at = start_of(desc, &comp, x);
    let number = number_at(desc, &comp, row, at);
    let changed = with_bits(number, comp.shift, comp.depth, v as u16);
    set_number_at(desc, &comp, row, at, changed);
}
