// The elements of frames as rules: little-endian numbers of 8, 16 and 32 bits.
ghost use Rattle.std.specs.Prelude.{◌^◌, ◌<◌, ◌≤◌};
ghost use Rattle.std.proofs.Common.{rules};
ghost use Rattle.op_list.specs.Pixel.{element};
ghost use Rattle.op_list.specs.declared.types.PixType.TheVariants.{U8, U16, U32};

use crate::element::{byte_at, double_word_at, set_byte, set_double_word, set_word, word_at};
use crate::whole_number::WholeNumber;
use kernel_lane::Element;

// Elements of 8 bits.
#[derive(Clone, Copy)]
pub struct Bytes;

impl<W: WholeNumber> Element<W> for Bytes {
    ghost size = { 1 };

    ghost element = { element U8 };

    ghost number = { W.number };

    ghost holds = { 2 ^ 8 ≤ 2 ^ W.bits };

    ghost fits = { λ x. W.number x < 2 ^ 8 };

    fn taken(self, from: &[u8], k: usize) -> W {
        W::narrow(byte_at(from, k))
    }

    fn put(self, to: &mut [u8], k: usize, x: W) {
        set_byte(to, k, x.wide());
    }

    ghost some = { Prim.search rules };
}

// Elements of 16 bits.
#[derive(Clone, Copy)]
pub struct Words;

impl<W: WholeNumber> Element<W> for Words {
    ghost size = { 2 };

    ghost element = { element U16 };

    ghost number = { W.number };

    ghost holds = { 2 ^ 16 ≤ 2 ^ W.bits };

    ghost fits = { λ x. W.number x < 2 ^ 16 };

    fn taken(self, from: &[u8], k: usize) -> W {
        W::narrow(word_at(from, k))
    }

    fn put(self, to: &mut [u8], k: usize, x: W) {
        set_word(to, k, x.wide());
    }

    ghost some = { Prim.search rules };
}

// Elements of 32 bits.
#[derive(Clone, Copy)]
pub struct DoubleWords;

impl<W: WholeNumber> Element<W> for DoubleWords {
    ghost size = { 4 };

    ghost element = { element U32 };

    ghost number = { W.number };

    ghost holds = { 2 ^ 32 ≤ 2 ^ W.bits };

    ghost fits = { λ x. W.number x < 2 ^ 32 };

    fn taken(self, from: &[u8], k: usize) -> W {
        W::narrow(double_word_at(from, k))
    }

    fn put(self, to: &mut [u8], k: usize, x: W) {
        set_double_word(to, k, x.wide());
    }

    ghost some = { Prim.search rules };
}
