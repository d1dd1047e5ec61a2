// Whether two descriptors are one.
ghost use Rattle.std.specs.Prelude.{◌≡◌, ◌↔◌, IsTrue};

use crate::desc::Desc;

/// Whether two descriptors are equal in all that they say, the ignored components included.
pub fn same_desc(a: &Desc, b: &Desc) -> bool
    ensures { IsTrue result ↔ (a.now ≡ b.now) }
{
    a == b
}
