// The steps of the three parts of the recipe, of which each is an operation or none.
ghost use Rattle.std.specs.Prelude.{◌≡◌, true, false, if◌then◌else◌, [], ◌∷◌};
ghost use Rattle.pix_desc.specs.Component.{component_of};
ghost use Rattle.pix_desc.specs.Layouts.{IsValid, is_elements};
ghost use Rattle.pix_meaning.specs.Pairs.{IsValidPair};
ghost use Rattle.pix_desc.specs.Shape.{field_widths};
ghost use Rattle.op_build.specs.Recipe.{split, decode, convert, encode};
ghost use Rattle.op_build.specs.Steps.{step_if, operations};

use crate::code_values::{from_codes, to_codes};
use crate::element_kind::{element_type, is_swapped};
use crate::limits::{greatest_codes, least_codes};
use crate::rows::over_three;
use crate::sources::{channel_slots, missing_codes};
use crate::split::{left_shift, right_shift};
use crate::target_slots::{slot_channels, spare_zeros};
use colour_matrix::{from_rgb, to_rgb};
use op_list::{Op, PixType};
use pix_desc::{Desc, component_of, element_counts, field_widths, is_elements};
use pix_meaning::{Pair, is_rgb};

// An operation, where there is need of it.
fn step_if(needed: bool, op: Op) -> Option<Op>
    ensures { result ≡ step_if needed op }
{
    if needed { Some(op) } else { None }
}

fn shifts(desc: &Desc) -> (Option<Op>, Option<Op>)
    requires valid { IsValid desc.now }
    requires elements { is_elements desc.now ≡ true }
    ensures { operations (result.0 ∷ result.1 ∷ []) ≡ split desc.now }
{
    (
        Some(Op::LeftShift {
            n: left_shift(desc),
        }),
        Some(Op::RightShift {
            n: right_shift(desc),
        }),
    )
}

fn fields(desc: &Desc) -> (Option<Op>, Option<Op>)
    requires valid { IsValid desc.now }
    requires word { is_elements desc.now ≡ false }
    ensures { operations (result.0 ∷ result.1 ∷ []) ≡ split desc.now }
{
    (
        Some(Op::Unpack {
            widths: field_widths(desc),
        }),
        None,
    )
}

fn split(desc: &Desc) -> (Option<Op>, Option<Op>)
    requires { IsValid desc.now }
    ensures { operations (result.0 ∷ result.1 ∷ []) ≡ split desc.now }
{
    if is_elements(desc) {
        shifts(desc)
    } else {
        fields(desc)
    }
}

fn decode_plain(desc: &Desc) -> [Option<Op>; 6]
    requires valid { IsValid desc.now }
    requires plain { desc.now.palette ≡ false }
    ensures { operations result ≡ decode desc.now }
{
    let (first, second) = split(desc);
    [
        Some(Op::Read {
            elem: element_type(desc),
            planes: element_counts(desc),
            palette: false,
        }),
        step_if(is_swapped(desc), Op::SwapBytes),
        first,
        second,
        Some(Op::Swizzle {
            from: channel_slots(desc),
        }),
        Some(Op::Clear {
            values: missing_codes(desc),
        }),
    ]
}

fn decode_palette(desc: &Desc) -> [Option<Op>; 6]
    requires valid { IsValid desc.now }
    requires palette { desc.now.palette ≡ true }
    ensures { operations result ≡ decode desc.now }
{
    [
        Some(Op::Read {
            elem: PixType::U8,
            planes: [1, 0, 0, 0],
            palette: true,
        }),
        Some(Op::Clear {
            values: missing_codes(desc),
        }),
        None,
        None,
        None,
        None,
    ]
}

/// From the elements of a source pixel to the codes of its channels.
pub fn decode(desc: &Desc) -> [Option<Op>; 6]
    requires { IsValid desc.now }
    ensures { operations result ≡ decode desc.now }
{
    if desc.palette {
        decode_palette(desc)
    } else {
        decode_plain(desc)
    }
}

/// From the codes of a source pixel to those of a target pixel.
pub fn convert(pair: &Pair) -> [Option<Op>; 8]
    requires { IsValidPair pair.now }
    ensures { operations result ≡ convert pair.now }
{
    let from = &pair.from;
    let to = &pair.to;
    [
        Some(Op::Convert {
            to: PixType::Rat,
            expand: false,
        }),
        Some(from_codes(from)),
        step_if(
            !is_rgb(&from.desc),
            Op::Linear {
                rows: over_three(&to_rgb(&from.matrix)),
            },
        ),
        step_if(
            !is_rgb(&to.desc),
            Op::Linear {
                rows: over_three(&from_rgb(&to.matrix)),
            },
        ),
        Some(to_codes(to)),
        Some(Op::Dither { k: pair.dither }),
        Some(Op::Max {
            limits: least_codes(&to.desc),
        }),
        Some(Op::Min {
            limits: greatest_codes(&to.desc),
        }),
    ]
}

// Puts an element or a word together.
fn join(desc: &Desc) -> Op
    requires { IsValid desc.now }
    ensures { result ≡ (if is_elements desc.now then Op.LeftShift
        (component_of desc.now 0).shift else Op.Pack (field_widths desc.now)) }
{
    if is_elements(desc) {
        Op::LeftShift {
            n: component_of(desc, 0).shift,
        }
    } else {
        Op::Pack {
            widths: field_widths(desc),
        }
    }
}

/// From the codes of a target pixel to its elements.
pub fn encode(desc: &Desc) -> [Option<Op>; 6]
    requires { IsValid desc.now }
    ensures { operations result ≡ encode desc.now }
{
    [
        Some(Op::Convert {
            to: element_type(desc),
            expand: false,
        }),
        Some(Op::Swizzle {
            from: slot_channels(desc),
        }),
        Some(Op::Clear {
            values: spare_zeros(desc),
        }),
        Some(join(desc)),
        step_if(is_swapped(desc), Op::SwapBytes),
        Some(Op::Write {
            elem: element_type(desc),
            planes: element_counts(desc),
        }),
    ]
}
