// What a look answers, one after another and at once.
ghost use Rattle.std.specs.Prelude.{◌≡◌, ◌<◌, ◌≤◌, length, IfSome};
ghost use Rattle.row_plan.specs.Evaluated.{IsPlannable, IsTableSide};
ghost use Rattle.list_cache.specs.Cells.{KnowsPair, KnowsPlan, cell_numbers, cell_of, known};
ghost use Rattle.list_cache.specs.Cells.{IsNoteOf};

use crate::{CellNote, ListCache, Seen};
use colour_matrix::{Range, named};
use desc_table::{desc, find};
use op_build::BuildFault;
use pix_meaning::{Pair, Side};
use row_plan::Plan;
use std::alloc::Global;
use std::test::Fail;
use std::thread;
use std::thread::Threads;

// What a look told, without its plan.
#[derive(Clone, Copy, Debug, PartialEq, Eq)]
enum Told {
    Shared { stamp: u64 },
    Own { stamp: u64, other: Pair },
    Fault(BuildFault),
}

fn side_of(name: &str, matrix: &str) -> Option<Side>
    ensures { IfSome result IsTableSide }
{
    let Ok(id) = find(name) else {
        return None;
    };
    let matrix = named(matrix)?;
    Some(Side {
        desc: desc(id),
        matrix,
        range: Range::Full,
    })
}

fn paired(from: Side, to: Side, dither: u8) -> Pair
    requires from { IsTableSide from }
    requires to { IsTableSide to }
    requires dither { dither ≤ 4 }
    ensures { IsPlannable result }
{
    Pair { from, to, dither }
}

fn plannable(from: &str, to: &str, dither: u8) -> Option<Pair>
    ensures { IfSome result IsPlannable }
{
    let from = side_of(from, "bt601")?;
    let to = side_of(to, "bt601")?;
    if dither > 4 {
        return None;
    }
    Some(paired(from, to, dither))
}

fn told_of(seen: Result<Seen<'_>, BuildFault>) -> Told {
    match seen {
        Ok(Seen::Shared(plan)) => Told::Shared {
            stamp: plan.stamp(),
        },
        Ok(Seen::Own { plan, other }) => Told::Own {
            stamp: plan.stamp(),
            other,
        },
        Err(fault) => Told::Fault(fault),
    }
}

fn looked(
    cache: &ListCache,
    alloc: Global,
    note: &mut CellNote,
    k: usize,
    pair: &Pair,
    stamp: u64,
) -> Told
    requires note { IsNoteOf cache.now k note.old }
    requires plannable { IsPlannable pair.now }
    ensures { IsNoteOf cache.now k note.new }
{
    told_of(cache.look(alloc, note, k, pair, stamp))
}

#[test]
fn cell_keeps_its_first_plan(rt: HostRuntime) -> Result<(), Fail> {
    let alloc = rt.alloc();
    let p = plannable("rgb24", "gray", 0).ok_or("a pair")?;
    let q = plannable("rgb24", "gray", 1).ok_or("a pair")?;
    let cache = ListCache::new(alloc, 1).ok().ok_or("memory")?;
    let mut note = cache.note(0);
    assert_eq!(rt;
        looked(&cache, alloc, &mut note, 0, &p, 7),
        Told::Shared { stamp: 7 }
    );
    assert_eq!(rt;
        looked(&cache, alloc, &mut note, 0, &p, 9),
        Told::Shared { stamp: 7 }
    );
    let own = Told::Own {
        stamp: 11,
        other: p,
    };
    assert_eq!(rt; looked(&cache, alloc, &mut note, 0, &q, 11), own);
    Ok(())
}

#[test]
fn cells_are_apart(rt: HostRuntime) -> Result<(), Fail> {
    let alloc = rt.alloc();
    let p = plannable("yuv444p", "rgb24", 0).ok_or("a pair")?;
    let q = plannable("rgb24", "yuv444p", 0).ok_or("a pair")?;
    let cache = ListCache::new(alloc, 3).ok().ok_or("memory")?;
    let mut first = cache.note(0);
    let mut last = cache.note(2);
    assert_eq!(rt;
        looked(&cache, alloc, &mut last, 2, &q, 1),
        Told::Shared { stamp: 1 }
    );
    assert_eq!(rt;
        looked(&cache, alloc, &mut first, 0, &p, 2),
        Told::Shared { stamp: 2 }
    );
    let own = Told::Own { stamp: 3, other: q };
    assert_eq!(rt; looked(&cache, alloc, &mut last, 2, &p, 3), own);
    Ok(())
}

#[test]
fn palette_target_is_refused(rt: HostRuntime) -> Result<(), Fail> {
    let alloc = rt.alloc();
    let p = plannable("rgb24", "gray", 0).ok_or("a pair")?;
    let indexed = plannable("rgb24", "pal8", 0).ok_or("a pair")?;
    let cache = ListCache::new(alloc, 1).ok().ok_or("memory")?;
    let mut note = cache.note(0);
    let refused = Told::Fault(BuildFault::PaletteTarget);
    assert_eq!(rt; looked(&cache, alloc, &mut note, 0, &indexed, 1), refused);
    assert_eq!(rt;
        looked(&cache, alloc, &mut note, 0, &p, 2),
        Told::Shared { stamp: 2 }
    );
    assert_eq!(rt; looked(&cache, alloc, &mut note, 0, &indexed, 3), refused);
    Ok(())
}

// Also where an allocation is refused: then the next look is as the first one would have been.
#[test]
fn looks_again_after_a_fault(rt: HostRuntime) -> Result<(), Fail> {
    let alloc = rt.alloc();
    let p = plannable("rgb24", "gray", 0).ok_or("a pair")?;
    let Ok(cache) = ListCache::new(alloc, 1) else {
        return Ok(());
    };
    let mut note = cache.note(0);
    let first = looked(&cache, alloc, &mut note, 0, &p, 1);
    let second = looked(&cache, alloc, &mut note, 0, &p, 2);
    let wanted = match first {
        Told::Fault(BuildFault::OutOfMemory) => Told::Shared { stamp: 2 },
        _ => Told::Shared { stamp: 1 },
    };
    assert_eq!(rt; second, wanted);
    Ok(())
}

// The stamp of the plan that a look shares, and what the caller has learned.
fn shared_stamp(
    cache: &ListCache,
    alloc: Global,
    mut note: CellNote,
    k: usize,
    pair: &Pair,
    stamp: u64,
) -> Option<(u64, CellNote)>
    requires note { IsNoteOf cache.now k note }
    requires plannable { IsPlannable pair.now }
    ensures cell { IfSome result (λ told. cell_of told.1 ≡ cell_of note) }
    ensures plan { IfSome result (λ told. KnowsPlan (known told.1) pair.now told.0) }
{
    match cache.look(alloc, &mut note, k, pair, stamp) {
        Ok(Seen::Shared(plan)) => Some((plan.stamp(), note)),
        Ok(Seen::Own { plan: _, other: _ }) => None,
        Err(_) => None,
    }
}

// Two callers look for a pair in one cell at once, each with a stamp of its own. Where both share a
// plan, it has one stamp.
fn race<R: Threads + Sync>(
    rt: &R,
    cache: &ListCache,
    alloc: Global,
    k: usize,
    pair: &Pair,
) -> Option<(u64, u64)>
    requires cell { k < length (cell_numbers cache.now) }
    requires plannable { IsPlannable pair.now }
    ensures { IfSome result (λ stamps. stamps.0 ≡ stamps.1) }
{
    let one = cache.note(k);
    let two = cache.note(k);
    let (first, second) = thread::join(
        rt,
        move || -> Option<(u64, CellNote)>
            requires note { IsNoteOf cache.now k one }
            requires plannable { IsPlannable pair.now }
            ensures cell { IfSome result (λ told. cell_of told.1 ≡ cell_of one) }
            ensures plan { IfSome result (λ told. KnowsPlan (known told.1) pair.entry.now told.0) }
        { shared_stamp(cache, alloc, one, k, pair, 1) },
        move || -> Option<(u64, CellNote)>
            requires note { IsNoteOf cache.now k two }
            requires plannable { IsPlannable pair.now }
            ensures cell { IfSome result (λ told. cell_of told.1 ≡ cell_of two) }
            ensures plan { IfSome result (λ told. KnowsPlan (known told.1) pair.entry.now told.0) }
        { shared_stamp(cache, alloc, two, k, pair, 2) },
    );
    let (Some((a, mut one)), Some((b, mut two))) = (first, second) else {
        return None;
    };
    cache.compare(&mut one, &mut two);
    Some((a, b))
}

// The pair of the plan that the cell keeps, as a look tells it, and what the caller has learned.
fn kept_pair(
    cache: &ListCache,
    alloc: Global,
    mut note: CellNote,
    k: usize,
    pair: &Pair,
    stamp: u64,
) -> Option<(Pair, CellNote)>
    requires note { IsNoteOf cache.now k note }
    requires plannable { IsPlannable pair.now }
    ensures cell { IfSome result (λ told. cell_of told.1 ≡ cell_of note) }
    ensures pair { IfSome result (λ told. KnowsPair (known told.1) told.0) }
{
    match cache.look(alloc, &mut note, k, pair, stamp) {
        Ok(Seen::Shared(plan)) => Some((*plan.pair(), note)),
        Ok(Seen::Own { plan: _, other }) => Some((other, note)),
        Err(_) => None,
    }
}

// Two callers look for two pairs in one cell at once. Both are told of the same pair.
fn race_of_two_pairs<R: Threads + Sync>(
    rt: &R,
    cache: &ListCache,
    alloc: Global,
    k: usize,
    p: &Pair,
    q: &Pair,
) -> Option<(Pair, Pair)>
    requires cell { k < length (cell_numbers cache.now) }
    requires first { IsPlannable p.now }
    requires second { IsPlannable q.now }
    ensures { IfSome result (λ pairs. pairs.0 ≡ pairs.1) }
{
    let one = cache.note(k);
    let two = cache.note(k);
    let (first, second) = thread::join(
        rt,
        move || -> Option<(Pair, CellNote)>
            requires note { IsNoteOf cache.now k one }
            requires plannable { IsPlannable p.now }
            ensures cell { IfSome result (λ told. cell_of told.1 ≡ cell_of one) }
            ensures pair { IfSome result (λ told. KnowsPair (known told.1) told.0) }
        { kept_pair(cache, alloc, one, k, p, 1) },
        move || -> Option<(Pair, CellNote)>
            requires note { IsNoteOf cache.now k two }
            requires plannable { IsPlannable q.now }
            ensures cell { IfSome result (λ told. cell_of told.1 ≡ cell_of two) }
            ensures pair { IfSome result (λ told. KnowsPair (known told.1) told.0) }
        { kept_pair(cache, alloc, two, k, q, 2) },
    );
    let (Some((a, mut one)), Some((b, mut two))) = (first, second) else {
        return None;
    };
    cache.compare(&mut one, &mut two);
    Some((a, b))
}

// Two workers read one plan at once.
fn read_by_two<R: Threads + Sync>(rt: &R, plan: &Plan) -> (u64, u64)
    ensures { (result.0 ≡ plan.now.stamp) × (result.1 ≡ plan.now.stamp) }
{
    thread::join(rt, || plan.stamp(), || plan.stamp())
}

#[test]
fn callers_at_once_share_one_plan(rt: HostRuntime) -> Result<(), Fail> {
    let alloc = rt.alloc();
    let p = plannable("rgb24", "gray", 0).ok_or("a pair")?;
    for _ in 0..20 {
        let cache = ListCache::new(alloc, 1).ok().ok_or("memory")?;
        let (a, b) = race(&rt, &cache, alloc, 0, &p).ok_or("not shared")?;
        assert!(rt; a == b && (a == 1 || a == 2));
    }
    Ok(())
}

#[test]
fn callers_of_two_pairs_are_told_of_one(rt: HostRuntime) -> Result<(), Fail> {
    let alloc = rt.alloc();
    let p = plannable("rgb24", "gray", 0).ok_or("a pair")?;
    let q = plannable("gray", "rgb24", 0).ok_or("a pair")?;
    for _ in 0..20 {
        let cache = ListCache::new(alloc, 1).ok().ok_or("memory")?;
        let (a, b) = race_of_two_pairs(&rt, &cache, alloc, 0, &p, &q).ok_or("memory")?;
        assert!(rt; a == b && (a == p || a == q));
    }
    Ok(())
}

#[test]
fn workers_borrow_the_plan_that_was_seen(rt: HostRuntime) -> Result<(), Fail> {
    let alloc = rt.alloc();
    let p = plannable("rgb24", "gray", 0).ok_or("a pair")?;
    let cache = ListCache::new(alloc, 1).ok().ok_or("memory")?;
    let mut note = cache.note(0);
    let seen = cache.look(alloc, &mut note, 0, &p, 5).ok().ok_or("memory")?;
    assert_eq!(rt; read_by_two(&rt, seen.plan()), (5, 5));
    Ok(())
}
