ghost use Rattle.std.specs.Prelude.{◌≡◌, ◌≤◌, nat_eq};
ghost use Rattle.std.specs.List.{list_all};
ghost use Rattle.op_list.specs.Typing.{may_follow, is_write, stage_after, are_good, are_in_front};
ghost use Rattle.op_list.specs.Typing.{are_counts, fits_bits, all_fit};

use crate::numbers::total;
use crate::op::Op;
use crate::types::{PixType, Stage};
use frac_math::Frac;

impl Op {
    /// Whether an operation of this kind may follow.
    #[tactic(auto, unfolding(crate::specs::Typing::may_follow))]
    pub fn may_follow(&self, stage: Stage) -> bool
        ensures { result ≡ may_follow stage self.now }
    {
        match self {
            Op::Read { .. } => stage.is_start(),
            Op::Write { elem, .. } => stage.has_type(*elem),
            Op::SwapBytes => stage.is_wide(),
            Op::Unpack { .. } | Op::Pack { .. } | Op::LeftShift { .. } | Op::RightShift { .. } =>
                stage.is_whole(),
            Op::Clear { .. } | Op::Swizzle { .. } | Op::Convert { .. } => stage.is_typed(),
            Op::Dither { .. }
            | Op::Linear { .. }
            | Op::Scale { .. }
            | Op::Min { .. }
            | Op::Max { .. } => stage.is_rational(),
        }
    }

    /// Whether it is a Write.
    pub fn is_write(&self) -> bool
        ensures { result ≡ is_write self.now }
    {
        match self {
            Op::Write { .. } => true,
            _ => false,
        }
    }

    /// What the operation leaves.
    #[tactic(auto, unfolding(crate::specs::Typing::stage_after))]
    pub fn stage_after(&self, stage: Stage) -> Stage
        ensures { result ≡ stage_after stage self.now }
    {
        match self {
            Op::Read { elem, .. } => Stage::Typed(*elem),
            Op::Write { .. } => Stage::Ended,
            Op::Convert { to, .. } => Stage::Typed(*to),
            Op::SwapBytes
            | Op::Unpack { .. }
            | Op::Pack { .. }
            | Op::Clear { .. }
            | Op::LeftShift { .. }
            | Op::RightShift { .. }
            | Op::Swizzle { .. }
            | Op::Dither { .. }
            | Op::Linear { .. }
            | Op::Scale { .. }
            | Op::Min { .. }
            | Op::Max { .. } => stage,
        }
    }

    /// Whether the arguments are good, at the type that the values have before.
    #[tactic(auto, unfolding(crate::specs::Typing::are_good))]
    pub fn has_good_arguments(&self, stage: Stage) -> bool
        ensures { result ≡ are_good stage self.now }
    {
        match self {
            Op::Read {
                elem,
                planes,
                palette,
            } => is_good_read(*elem, planes, *palette),
            Op::Write { elem, planes } => elem.is_whole() && are_counts(planes, 4),
            Op::Unpack { widths } | Op::Pack { widths } => are_counts(widths, stage.bits()),
            Op::Clear { values } => stage.is_rational() || all_fit(values, stage.bits()),
            Op::LeftShift { n } | Op::RightShift { n } => u32::from(*n) < stage.bits(),
            Op::Swizzle { from } => from.iter().all(|i| *i < 4),
            Op::Convert { to, expand } => !*expand
                || (stage.has_type(PixType::U8) && *to == PixType::U16),
            Op::Dither { k } => *k <= 4,
            Op::SwapBytes
            | Op::Linear { .. }
            | Op::Scale { .. }
            | Op::Min { .. }
            | Op::Max { .. } => true,
        }
    }
}

#[tactic(auto, unfolding(crate::specs::Typing::are_good))]
fn is_good_read(elem: PixType, planes: &[u8; 4], palette: bool) -> bool
    ensures { result ≡ are_good Stage.Start (Op.Read elem planes.now palette) }
{
    elem.is_whole()
        && are_counts(planes, 4)
        && (!palette || (elem == PixType::U8 && *planes == [1, 0, 0, 0]))
}

// From 1 to `most` in all, and those above 0 come first.
fn are_counts(counts: &[u8; 4], most: u32) -> bool
    ensures { result ≡ are_counts most counts.now }
{
    let sum = total(counts);
    are_in_front(counts) && 1 <= sum && sum <= most
}

// No 0 stands before a number above 0.
fn are_in_front(counts: &[u8]) -> bool
    ensures { result ≡ are_in_front counts.now }
{
    match counts {
        [] => true,
        [0, rest @ ..] => are_zero(rest),
        [_, rest @ ..] => are_in_front(rest),
    }
}

fn are_zero(counts: &[u8]) -> bool
    ensures { result ≡ list_all (λ n. nat_eq n 0) counts.now }
{
    counts.iter().all(|n| *n == 0)
}

fn all_fit(values: &[Option<Frac>], bits: u32) -> bool
    requires { bits ≤ 32 }
    ensures { result ≡ all_fit bits values.now }
{
    match values {
        [] => true,
        [None, rest @ ..] => all_fit(rest, bits),
        [Some(value), rest @ ..] => fits_bits(value, bits) && all_fit(rest, bits),
    }
}

// A whole number from 0 to 2^bits - 1.
fn fits_bits(value: &Frac, bits: u32) -> bool
    requires { bits ≤ 32 }
    ensures { result ≡ fits_bits bits value.now }
{
    value.den() == 1 && 0 <= value.num() && value.num() < 1i128 << bits
}
