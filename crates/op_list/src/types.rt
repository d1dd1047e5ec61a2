ghost use Rattle.std.specs.Prelude.{◌≡◌};
ghost use Rattle.op_list.specs.Types.{bits, bytes, bits_at, is_whole_type, is_same, is_start};
ghost use Rattle.op_list.specs.Types.{is_typed, has_type, is_whole, is_wide, is_rational};

/// The type of the four values of a pixel.
#[derive(Clone, Copy, Debug, PartialEq, Eq)]
pub enum PixType {
    /// Whole numbers of 8 bits.
    U8,
    /// Whole numbers of 16 bits.
    U16,
    /// Whole numbers of 32 bits.
    U32,
    /// Exact fractions.
    Rat,
}

impl PixType {
    /// The bits of a whole type, and 0 for fractions.
    pub fn bits(self) -> u32
        ensures { result ≡ bits self }
    {
        match self {
            PixType::U8 => 8,
            PixType::U16 => 16,
            PixType::U32 => 32,
            PixType::Rat => 0,
        }
    }

    /// Whether the values are whole numbers.
    pub fn is_whole(self) -> bool
        ensures { result ≡ is_whole_type self }
    {
        match self {
            PixType::U8 | PixType::U16 | PixType::U32 => true,
            PixType::Rat => false,
        }
    }
}

/// Where a list stands: what its last operation leaves.
#[derive(Clone, Copy, Debug, PartialEq, Eq)]
pub enum Stage {
    /// The list is empty, so that a Read comes first.
    Start,
    /// The values have this type.
    Typed(PixType),
    /// The elements are written, so that nothing follows.
    Ended,
}

impl Stage {
    /// Whether the list is empty.
    pub fn is_start(self) -> bool
        ensures { result ≡ is_start self }
    {
        match self {
            Stage::Start => true,
            _ => false,
        }
    }

    /// Whether the values have a type.
    pub fn is_typed(self) -> bool
        ensures { result ≡ is_typed self }
    {
        match self {
            Stage::Typed(_) => true,
            _ => false,
        }
    }

    /// Whether the values have this type.
    pub fn has_type(self, elem: PixType) -> bool
        ensures { result ≡ has_type elem self }
    {
        match self {
            Stage::Typed(other) => elem == other,
            _ => false,
        }
    }

    /// Whether the values are whole numbers.
    pub fn is_whole(self) -> bool
        ensures { result ≡ is_whole self }
    {
        match self {
            Stage::Typed(elem) => elem.is_whole(),
            _ => false,
        }
    }

    /// Whether the values are whole numbers of several bytes.
    pub fn is_wide(self) -> bool
        ensures { result ≡ is_wide self }
    {
        match self {
            Stage::Typed(PixType::U16) | Stage::Typed(PixType::U32) => true,
            _ => false,
        }
    }

    /// Whether the values are fractions.
    pub fn is_rational(self) -> bool
        ensures { result ≡ is_rational self }
    {
        match self {
            Stage::Typed(PixType::Rat) => true,
            _ => false,
        }
    }

    /// The bits of the values' type, and 0 where it has none.
    pub fn bits(self) -> u32
        ensures { result ≡ bits_at self }
    {
        match self {
            Stage::Typed(elem) => elem.bits(),
            _ => 0,
        }
    }
}
