// A conversion in plain numbers.
ghost use Rattle.std.specs.Prelude.{◌≡◌, ◌<◌, false, IfOk, IsTrue};
ghost use Rattle.desc_table.specs.Format.{desc_of, format_count};
ghost use Rattle.row_plan.specs.Evaluated.{IsPlannable};
ghost use Rattle.frame_calls.specs.Conversion.{is_named, has_formats, has_matrices, has_ranges};
ghost use Rattle.frame_calls.specs.Conversion.{has_parts, matrix_of, range_of, side_of};
ghost use Rattle.frame_calls.specs.Conversion.{pair_of, pair_asked};

use crate::refusal::Refusal;
use colour_matrix::{Matrix, Range};
use desc_table::{at, count, desc};
use pix_desc::Desc;
use pix_meaning::{Pair, Side};

/// One side of a conversion. Its numbers may be any.
#[repr(C)]
#[derive(Clone, Copy, Debug, PartialEq, Eq)]
pub struct ConversionSide {
    /// A row of the table of formats, counted from 0.
    pub format: u32,
    /// The parts of luma, of which `r` are red and `b` are blue.
    pub q: u32,
    /// The parts that are red.
    pub r: u32,
    /// The parts that are blue.
    pub b: u32,
    /// 0 is full, and 1 is limited.
    pub range: u32,
}

/// A conversion. Its numbers may be any.
#[repr(C)]
#[derive(Clone, Copy, Debug, PartialEq, Eq)]
pub struct Conversion {
    /// The source.
    pub from: ConversionSide,
    /// The target.
    pub to: ConversionSide,
    /// 0 to 4: an ordered dither over squares of 2^dither pixels.
    pub dither: u32,
}

fn has_parts(matrix: &Matrix, q: u32, r: u32, b: u32) -> bool
    ensures { result ≡ has_parts matrix.now (record { q = q; r = r; b = b }) }
{
    matrix.q == q && (matrix.r == r && matrix.b == b)
}

fn matrix_of(side: &ConversionSide) -> Matrix
    ensures { result ≡ matrix_of side.now }
{
    Matrix {
        q: side.q,
        r: side.r,
        b: side.b,
    }
}

// Whether a side's matrix is one of the five that have names.
fn is_named(side: &ConversionSide) -> bool
    ensures { result ≡ is_named (matrix_of side.now) }
{
    let matrix = matrix_of(side);
    has_parts(&matrix, 1000, 299, 114)
        || (has_parts(&matrix, 10000, 2126, 722)
            || (has_parts(&matrix, 10000, 2627, 593)
                || (has_parts(&matrix, 1000, 212, 87) || has_parts(&matrix, 100, 30, 11))))
}

fn has_formats(conversion: &Conversion) -> bool
    ensures { result ≡ has_formats conversion.now }
{
    (conversion.from.format as usize) < count() && (conversion.to.format as usize) < count()
}

fn has_matrices(conversion: &Conversion) -> bool
    ensures { result ≡ has_matrices conversion.now }
{
    is_named(&conversion.from) && is_named(&conversion.to)
}

fn has_ranges(conversion: &Conversion) -> bool
    ensures { result ≡ has_ranges conversion.now }
{
    conversion.from.range < 2 && conversion.to.range < 2
}

fn range_of(number: u32) -> Range
    ensures { result ≡ range_of number }
{
    if number == 0 {
        Range::Full
    } else {
        Range::Limited
    }
}

// The descriptor of a row of the table.
fn desc_at(format: u32) -> Desc
    requires { format < format_count }
    ensures { result ≡ desc_of format }
{
    match at(format as usize) {
        Some(id) => desc(id),
        None => unreachable!(),
    }
}

fn side_of(side: &ConversionSide) -> Side
    requires { side.now.format < format_count }
    ensures { result ≡ side_of side.now }
{
    Side {
        desc: desc_at(side.format),
        matrix: matrix_of(side),
        range: range_of(side.range),
    }
}

/// The pair that a conversion asks for, or the first fault of its numbers. A pair that is answered
/// has a plan.
#[tactic(auto, unfolding(crate::specs::Conversion::pair_asked))]
pub fn pair_of(conversion: &Conversion) -> Result<Pair, Refusal>
    ensures answer { result ≡ pair_asked conversion.now }
    ensures value { IfOk result (λ pair. pair ≡ pair_of conversion.now) }
    ensures plannable { IfOk result IsPlannable }
    ensures plain { IfOk result (λ pair. pair.to.desc.palette ≡ false) }
{
    if !has_formats(conversion) {
        return Err(Refusal::Format);
    }
    let to = side_of(&conversion.to);
    if to.desc.palette {
        return Err(Refusal::PaletteTarget);
    }
    if !has_matrices(conversion) {
        return Err(Refusal::Matrix);
    }
    if !has_ranges(conversion) {
        return Err(Refusal::Range);
    }
    if conversion.dither > 4 {
        return Err(Refusal::Dither);
    }
    Ok(Pair {
        from: side_of(&conversion.from),
        to,
        dither: conversion.dither as u8,
    })
}
