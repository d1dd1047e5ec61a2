ghost use Rattle.std.specs.Prelude.{◌≡◌, ◌≤◌, IfSome};
ghost use Rattle.kernel_step.specs.Forms.{AreKept, bits_of};

/// The numerators that a value may have, over a denominator.
#[derive(Clone, Copy, Debug)]
pub struct Extent {
    pub denominator: i128,
    pub least: i128,
    pub greatest: i128,
}

/// A factor over `2^shift` that gives the quotients by `d` for numbers up to `bound`, all of 32
/// bits.
#[derive(Clone, Copy, Debug)]
pub struct Reciprocal {
    pub d: u32,
    pub bound: u32,
    pub factor: u32,
    pub shift: u32,
}

/// The same of 64 bits.
#[derive(Clone, Copy, Debug)]
pub struct LongReciprocal {
    pub d: u64,
    pub bound: u64,
    pub factor: u64,
    pub shift: u32,
}

/// How the numbers of a value are divided by their denominator.
#[derive(Clone, Copy, Debug)]
pub enum Divisor {
    /// By a multiplication of 32 bits by 32, once the numbers have lost their lowest bits: so many as
    /// are 0 in the denominator.
    Short { zeros: u32, by: Reciprocal },
    /// By a multiplication of 64 bits by 64.
    Long(LongReciprocal),
    /// By a division, for any numbers.
    Plain,
}

/// What a block holds after an operation: so many values of each pixel, and for fractions the
/// extent of each.
#[derive(Clone, Copy, Debug)]
pub struct Form {
    pub count: usize,
    pub extents: [Extent; 4],
    /// The row of factors and the constant of each value, where the operation before it is a linear
    /// map.
    pub factors: [[i128; 5]; 4],
    /// The divisor of each value, where the operation before it takes whole numbers from fractions.
    pub divisors: [Divisor; 4],
}

/// How many bits a block has for each whole number: those of the widest type of a list.
#[derive(Clone, Copy, Debug)]
pub enum Storage {
    Bytes,
    Words,
    DoubleWords,
}

/// How many bits a block has for each numerator: 32, 64 or 128.
#[derive(Clone, Copy, Debug)]
pub enum NumberWidth {
    Bits32,
    Bits64,
    Bits128,
}

/// Where nothing is divided.
pub const NO_DIVISOR: Divisor = Divisor::Plain;

impl Storage {
    /// The bits of a whole number.
    pub fn bits(self) -> u32
        ensures { result ≡ bits_of self }
    {
        match self {
            Storage::Bytes => 8,
            Storage::Words => 16,
            Storage::DoubleWords => 32,
        }
    }
}

/// The form of the first values alone, each as it was.
pub fn kept_form(before: &Form, count: usize) -> Option<Form>
    ensures few { IfSome result (λ form. form.count ≤ 4) }
    ensures there { IfSome result (λ form. form.count ≤ before.now.count) }
    ensures kept { IfSome result (λ form. AreKept before.now form) }
{
    if count > 4 {
        return None;
    }
    if before.count < count {
        return None;
    }
    Some(Form {
        count,
        extents: before.extents,
        factors: [[0; 5]; 4],
        divisors: [NO_DIVISOR; 4],
    })
}

/// The form of so many whole numbers.
pub fn whole_form(count: usize) -> Form
    ensures { result.count ≡ count }
{
    let extent = Extent {
        denominator: 1,
        least: 0,
        greatest: 0,
    };
    Form {
        count,
        extents: [extent; 4],
        factors: [[0; 5]; 4],
        divisors: [NO_DIVISOR; 4],
    }
}
