// The two sides of a conversion.
ghost use Rattle.std.specs.Prelude.{◌≡◌};
ghost use Rattle.sws_run.specs.Sides.{side_with, source_side, target_side, pair_of};

use crate::request::Conversion;
use colour_matrix::{Matrix, Range};
use desc_table::{FormatId, desc};
use pix_meaning::{Pair, Side};
use y4m_io::{Header, default_range};

/// A side of a format: its range is the one that is given, or else its format's.
pub fn side_with(format: FormatId, matrix: Matrix, range: Option<Range>) -> Side
    ensures { result ≡ side_with format matrix range }
{
    let range = match range {
        Some(range) => range,
        None => default_range(format),
    };
    Side {
        desc: desc(format),
        matrix,
        range,
    }
}

// The source: its range is that of the words, or else the header's, or else its format's.
fn source_side(conversion: &Conversion, header: &Header) -> Side
    ensures { result ≡ source_side conversion.now header.now }
{
    let range = conversion.source_range.or(header.range);
    side_with(header.format, conversion.source_matrix, range)
}

// The target: its range is that of the words, or else its format's.
fn target_side(conversion: &Conversion) -> Side
    ensures { result ≡ target_side conversion.now }
{
    side_with(
        conversion.target,
        conversion.target_matrix,
        conversion.target_range,
    )
}

/// The pair of a conversion, once the header of its input is known.
#[tactic(auto, unfolding(crate::specs::Sides::pair_of))]
pub fn pair_of(conversion: &Conversion, header: &Header) -> Pair
    ensures { result ≡ pair_of conversion.now header.now }
{
    Pair {
        from: source_side(conversion, header),
        to: target_side(conversion),
        dither: conversion.dither,
    }
}
