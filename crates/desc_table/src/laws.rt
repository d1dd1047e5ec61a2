//! Laws of the whole table: each is the contract of a function without a body.
ghost use Rattle.std.specs.Prelude.{◌≡◌, ℕ, ◌<◌, All, Ok, Err, codes, nat_eq};
ghost use Rattle.std.specs.List.{ends_with};
ghost use Rattle.pix_desc.specs.Component.{components};
ghost use Rattle.pix_desc.specs.Layouts.{checked};
ghost use Rattle.desc_table.specs.Format.{format_count, four_entries, desc_of, name_of};
ghost use Rattle.desc_table.specs.Layout.{layout_of};
ghost use Rattle.desc_table.specs.Refused.{refused, lookup};

/// Every format passes the check, and has the layout that is said of its name.
pub fn layouts()
    ensures { (row : ℕ) → row < format_count
        → checked (desc_of row) ≡ Ok (layout_of (name_of row)) }
{}

/// No two formats have one name, and no refused name is that of a format.
pub fn names_differ()
    ensures rows { (row : ℕ) → row < format_count → lookup (name_of row) ≡ Ok row }
    ensures refusals { All (λ refusal. lookup refusal.name ≡ Err refusal.fault) refused }
    ensures different { (i j : ℕ) → i < format_count → j < format_count → name_of i ≡ name_of j
        → i ≡ j }
{}

/// The big-endian formats are those whose name ends in `be`.
pub fn byte_orders()
    ensures { (row : ℕ) → row < format_count
        → (desc_of row).be ≡ ends_with nat_eq (name_of row) (codes "be") }
{}

/// The entries of every descriptor are its components, and zeros behind them.
pub fn spare_entries()
    ensures { (row : ℕ) → row < format_count
        → (desc_of row).comps ≡ four_entries (components (desc_of row)) }
{}
