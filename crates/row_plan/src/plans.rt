// What is made once for a pair.
ghost use Rattle.std.specs.Prelude.{◌≡◌, false, string_bytes};
ghost use Rattle.std.specs.Coded.{Coded-set};
ghost use Rattle.std.proofs.Props.{props};
ghost use Rattle.pix_meaning.specs.Pairs.{IsValidPair};
ghost use Rattle.op_build.specs.Recipe.{recipe};
ghost use Rattle.op_opt.specs.Normal.{normal};
ghost use Rattle.op_text.specs.Line.{text_of};

use kernel_int::RowKernel;
use pix_meaning::Pair;

/// What is made once for a pair of formats and converts rows of any size. Its target has no
/// palette.
#[derive(Drop)]
pub struct Plan {
    pub(crate) pair: Pair,
    pub(crate) stamp: u64,
    pub(crate) kernel: RowKernel,
    pub(crate) text: String,
    pub ghost valid: { IsValidPair pair } by { Prim.hlevel props },
    pub ghost plain: { pair.to.desc.palette ≡ false },
    pub ghost runs: { kernel ≡ normal (recipe pair) } by { Coded-set kernel-code kernel (normal (recipe pair)) },
    pub ghost shown: { string_bytes text ≡ text_of (normal (recipe pair)) } by { Prim.hlevel props },
}

impl Plan {
    /// The pair that it is for, whose target has no palette.
    pub fn pair(&self) -> &Pair
        ensures pair { result.now ≡ self.now.pair }
        ensures plain { result.now.to.desc.palette ≡ false }
    {
        &self.pair
    }

    /// The number that it was made with, which tells it from other plans of its pair.
    pub fn stamp(&self) -> u64
        ensures { result ≡ self.now.stamp }
    {
        self.stamp
    }

    /// The text of the normal list of the pair's recipe, an operation a line.
    pub fn text(&self) -> &str
        ensures { result.now ≡ text_of (normal (recipe self.now.pair)) }
    {
        self.text.as_str()
    }
}
