//! Laws of descriptors and of raw frames: each is the contract of a function without a body.
ghost use Rattle.std.specs.Prelude.{◌≡◌, ◌≢◌, ◌⊎◌, ℕ, ◌+◌, ◌*◌, ◌<◌, false, List, All};
ghost use Rattle.std.specs.Int.{bit_at};
ghost use Rattle.pix_desc.specs.declared.desc.Desc.{Desc};
ghost use Rattle.pix_desc.specs.Component.{component_of, component, count_of, bit_position, bit_of};
ghost use Rattle.pix_desc.specs.Component.{KeepsOtherBits};
ghost use Rattle.pix_desc.specs.Layouts.{IsValid, IsLaidOut};
ghost use Rattle.pix_desc.specs.Frame.{frame_of, IsFrameOf, HasOneFrame, AgreeWithin};

/// A descriptor that passes the check has one to four components of 1 to 16 bits, each inside its
/// pixel and in one of four planes, and no bit of a pixel belongs to two of them.
pub fn passes_laid_out()
    ensures { (desc : Desc) → IsValid desc → IsLaidOut desc }
{}

/// Bit `i` of a component's value is the bit of its row at its position in the pixel.
pub fn component_has_its_bits()
    ensures { (desc : Desc) (j x i : ℕ) (row : List ℕ) → IsValid desc → j < desc.count
        → All (λ byte. byte < 256) row → i < (component_of desc j).depth
        → bit_at (component desc j row x) i
        ≡ bit_of row (8 * (x * (component_of desc j).step) + count_of
        (bit_position desc (component_of desc j) i)) }
{}

/// A row that keeps the bits that one component does not read keeps the other components of its
/// plane, and the components of other pixels.
pub fn other_components_stay()
    ensures { (desc : Desc) (i j x y : ℕ) (old new : List ℕ) → IsValid desc → i < desc.count
        → j < desc.count
        → (component_of desc i).plane ≡ (component_of desc j).plane → (i ≢ j) ⊎ (x ≢ y)
        → All (λ byte. byte < 256) old → All (λ byte. byte < 256) new
        → KeepsOtherBits desc i x old new → component desc j new y ≡ component desc j old y }
{}

/// Values have exactly one raw frame in a format that passes the check and has no palette.
pub fn has_one_frame()
    ensures { (desc : Desc) (width height : ℕ) (value : ℕ → ℕ → ℕ → ℕ) → IsValid desc
        → desc.palette ≡ false → HasOneFrame desc width height value }
{}

/// Two raw frames that say the same values are the same bytes.
pub fn same_values_frame()
    ensures { (desc : Desc) (width height : ℕ) (value : ℕ → ℕ → ℕ → ℕ) (a b : List ℕ) → IsValid desc
        → desc.palette ≡ false
        → IsFrameOf desc width height value a → IsFrameOf desc width height value b → a ≡ b }
{}

/// Values that agree within the frame make the same bytes, whatever they are outside it.
pub fn agreeing_values_frame()
    ensures { (desc : Desc) (width height : ℕ) (value other : ℕ → ℕ → ℕ → ℕ)
        → AgreeWithin desc width height value other
        → frame_of desc width height value ≡ frame_of desc width height other }
{}
