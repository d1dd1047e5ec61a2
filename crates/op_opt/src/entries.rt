ghost use Rattle.std.specs.Prelude.{◌≡◌, ◌<◌, IfSome, slice_index_or, false, nat_eq, if◌then◌else◌};
ghost use Rattle.std.specs.Prelude.{None, not};
ghost use Rattle.op_list.specs.Values.{four, entry};
ghost use Rattle.op_range.specs.Used.{is_missing};
ghost use Rattle.op_opt.specs.Entries.{without, is_given};
ghost use Rattle.op_opt.specs.OfFour.{lowest};

use frac_math::Frac;

// The lowest of four values that passes.
pub fn lowest(passes: &[bool; 4]) -> Option<usize>
    ensures value { result ≡ lowest (λ i. slice_index_or passes.now i false) }
    ensures below { IfSome result (λ i. i < 4) }
{
    if passes[0] {
        Some(0)
    } else if passes[1] {
        Some(1)
    } else if passes[2] {
        Some(2)
    } else if passes[3] {
        Some(3)
    } else {
        None
    }
}

// The entries without that of value i.
pub fn without(entries: &[Option<Frac>; 4], i: usize) -> [Option<Frac>; 4]
    ensures { result ≡ without entries.now i }
{
    [
        entry_unless(i == 0, &entries[0]),
        entry_unless(i == 1, &entries[1]),
        entry_unless(i == 2, &entries[2]),
        entry_unless(i == 3, &entries[3]),
    ]
}

fn entry_unless(dropped: bool, entry: &Option<Frac>) -> Option<Frac>
    ensures { result ≡ (if dropped then None else entry.now) }
{
    if dropped { None } else { *entry }
}

// Whether an entry is given.
pub fn is_given(entry: &Option<Frac>) -> bool
    ensures { result ≡ is_given entry.now }
{
    match entry {
        Some(_) => true,
        None => false,
    }
}
