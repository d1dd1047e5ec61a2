// Which operations are worked out in one loop.
ghost use Rattle.std.specs.Prelude.{◌≡◌, ℕ, ◌+◌, ◌-◌, ◌^◌, ◌<◌, ◌≤◌, true, pos, length, IfSome};
ghost use Rattle.op_list.specs.Types.{is_whole};
ghost use Rattle.kernel_step.specs.Forms.{AreFew, factor, factors_at, form_at, makes_fractions, op_at};
ghost use Rattle.kernel_affine.specs.Chain.{AreProducts, IsAt, IsChain, IsPlaced, IsUnscaled, behind};
ghost use Rattle.kernel_affine.specs.Chain.{is_half};
ghost use Rattle.kernel_affine.specs.Chain.{is_map, is_max, is_min, map_row, single_row};

use crate::products::{Products, products_of};
use kernel_step::Form;
use op_list::{Op, PixType, Stage};

/// A Convert of whole numbers to fractions, a linear map behind it, and where a Dither by halves,
/// a Max and a Min stand behind that.
#[derive(Clone, Copy, Debug)]
pub struct Chain {
    /// The operation that is the map.
    pub map: usize,
    /// Which products the row of each value has.
    pub products: [Products; 4],
    pub half: Option<usize>,
    pub max: Option<usize>,
    pub min: Option<usize>,
    /// The operation behind all of them.
    pub next: usize,
}

/// A chain, and the operation that it begins with.
#[derive(Clone, Copy, Debug)]
pub struct Placed {
    pub at: usize,
    pub chain: Chain,
}

// Whether whole numbers become fractions.
fn widens(op: &Op) -> bool
    ensures { result ≡ true → makes_fractions op.now ≡ true }
{
    match op {
        Op::Convert { to, .. } => !to.is_whole(),
        _ => false,
    }
}

// Whether an operation is a linear map.
fn is_map(op: &Op) -> bool
    ensures { result ≡ true → is_map op.now ≡ true }
{
    match op {
        Op::Linear { .. } => true,
        Op::Scale { .. } => true,
        _ => false,
    }
}

// Whether a half is added to every value.
fn is_half(op: &Op) -> bool
    ensures { result ≡ true → is_half op.now ≡ true }
{
    match op {
        Op::Dither { k } => *k == 0,
        _ => false,
    }
}

fn is_max(op: &Op) -> bool
    ensures { result ≡ true → is_max op.now ≡ true }
{
    match op {
        Op::Max { .. } => true,
        _ => false,
    }
}

fn is_min(op: &Op) -> bool
    ensures { result ≡ true → is_min op.now ≡ true }
{
    match op {
        Op::Min { .. } => true,
        _ => false,
    }
}

// Whether no value gets another denominator.
fn is_unscaled(form: &Form) -> bool
    requires { form.now.count ≤ 4 }
    ensures { result ≡ true → IsUnscaled form.now }
{
    for v in 0..form.count {
        if form.factors[v][0] != 1 {
            return false;
        }
    }
    true
}

// A place, where an operation of a kind stands there that gives no value another denominator, and
// is not the last.
fn found(is_kind: bool, forms: &[Form], at: usize) -> Option<usize>
    requires inside { at < length forms.now }
    requires few { AreFew forms.now }
    ensures kind { IfSome result (λ m. is_kind ≡ true) }
    ensures place { IfSome result (λ m. m ≡ at) }
    ensures unscaled { IfSome result (λ m. IsUnscaled (form_at forms.now m)) }
    ensures inside { IfSome result (λ m. m + 1 < length forms.now) }
{
    if !is_kind {
        return None;
    }
    if forms.len() - 1 <= at {
        return None;
    }
    if !is_unscaled(&forms[at]) {
        return None;
    }
    Some(at)
}

// The place behind it.
fn behind(found: Option<usize>, at: usize) -> usize
    requires place { IfSome found (λ m. m ≡ at) }
    requires room { at < 2 ^ 63 }
    ensures { result ≡ behind found at }
{
    match found {
        Some(_) => at + 1,
        None => at,
    }
}

fn half_at(ops: &[Op], forms: &[Form], at: usize) -> Option<usize>
    requires sizes { length forms.now ≡ length ops.now }
    requires inside { at < length ops.now }
    requires few { AreFew forms.now }
    ensures there { IsAt ops.now forms.now is_half at result }
    ensures inside { (at ≤ behind result at) × (behind result at < length ops.now) }
{
    found(is_half(&ops[at]), forms, at)
}

fn max_at(ops: &[Op], forms: &[Form], at: usize) -> Option<usize>
    requires sizes { length forms.now ≡ length ops.now }
    requires inside { at < length ops.now }
    requires few { AreFew forms.now }
    ensures there { IsAt ops.now forms.now is_max at result }
    ensures inside { (at ≤ behind result at) × (behind result at < length ops.now) }
{
    found(is_max(&ops[at]), forms, at)
}

fn min_at(ops: &[Op], forms: &[Form], at: usize) -> Option<usize>
    requires sizes { length forms.now ≡ length ops.now }
    requires inside { at < length ops.now }
    requires few { AreFew forms.now }
    ensures there { IsAt ops.now forms.now is_min at result }
    ensures inside { (at ≤ behind result at) × (behind result at < length ops.now) }
{
    found(is_min(&ops[at]), forms, at)
}

// A row whose one factor stands at place v.
fn single_row(k: i128, v: usize) -> [i128; 5]
    requires { v < 4 }
    ensures { result ≡ single_row k v }
{
    match v {
        0 => [k, 0, 0, 0, 0],
        1 => [0, k, 0, 0, 0],
        2 => [0, 0, k, 0, 0],
        _ => [0, 0, 0, k, 0],
    }
}

// The row of a linear map for value v.
fn row_of_map(op: &Op, form: &Form, v: usize) -> [i128; 5]
    requires map { is_map op.now ≡ true }
    requires few { v < 4 }
    ensures { result ≡ map_row op.now form.now v }
{
    match op {
        Op::Linear { .. } => form.factors[v],
        Op::Scale { .. } => single_row(form.factors[v][0], v),
        _ => unreachable!(),
    }
}

/// The row of an operation that is a linear map, for value v.
pub fn row_at(ops: &[Op], forms: &[Form], map: usize, v: usize) -> [i128; 5]
    requires sizes { length forms.now ≡ length ops.now }
    requires inside { map < length ops.now }
    requires map { is_map (op_at ops.now map) ≡ true }
    requires few { v < 4 }
    ensures { result ≡ map_row (op_at ops.now map) (form_at forms.now map) v }
{
    row_of_map(&ops[map], &forms[map], v)
}

// The products of the rows of a linear map, where they are such ones.
fn products_of_map(op: &Op, before: &Form, after: &Form) -> Option<[Products; 4]>
    requires map { is_map op.now ≡ true }
    requires few { after.now.count ≤ 4 }
    ensures { IfSome result (λ products. AreProducts op.now before.now after.now products) }
{
    let mut products = [Products::Three; 4];
    for v in 0..after.count {
        products[v] = products_of(&row_of_map(op, after, v), before.count)?;
    }
    Some(products)
}

// A map, and what stands behind it.
fn chain_of(ops: &[Op], forms: &[Form], map: usize, products: &[Products; 4]) -> Chain
    requires sizes { length forms.now ≡ length ops.now }
    requires inside { map + 1 < length ops.now }
    requires few { AreFew forms.now }
    ensures map { result.map ≡ map }
    ensures products { result.products ≡ products.now }
    ensures half { IsAt ops.now forms.now is_half (map + 1) result.half }
    ensures max { IsAt ops.now forms.now is_max (behind result.half (map + 1)) result.max }
    ensures min { IsAt ops.now forms.now is_min
        (behind result.max (behind result.half (map + 1))) result.min }
    ensures next { result.next ≡ behind result.min (behind result.max
        (behind result.half (map + 1))) }
    ensures end { (map < result.next) × (result.next < length ops.now) }
{
    let first = map + 1;
    let half = half_at(ops, forms, first);
    let second = behind(half, first);
    let max = max_at(ops, forms, second);
    let third = behind(max, second);
    let min = min_at(ops, forms, third);
    Chain {
        map,
        products: *products,
        half,
        max,
        min,
        next: behind(min, third),
    }
}

// Whether an operation changes the denominators alone: step by step it then costs nothing.
fn is_unit_scale(op: &Op, form: &Form) -> bool
    requires { form.now.count ≤ 4 }
{
    match op {
        Op::Scale { .. } => is_unscaled(form),
        _ => false,
    }
}

// The chain at operation k, where one stands there.
pub fn chain_at(ops: &[Op], forms: &[Form], k: usize, stage: Stage) -> Option<Chain>
    requires sizes { length forms.now ≡ length ops.now }
    requires few { AreFew forms.now }
    requires inside { k < length ops.now - 1 }
    ensures whole { IfSome result (λ chain. is_whole stage ≡ true) }
    ensures there { IfSome result (λ chain. IsChain ops.now forms.now k chain) }
    ensures next { IfSome result (λ chain. (k < chain.next) × (chain.next < length ops.now)) }
{
    if !stage.is_whole() {
        return None;
    }
    if !widens(&ops[k]) {
        return None;
    }
    let map = k + 1;
    if ops.len() - 1 <= map {
        return None;
    }
    if !is_map(&ops[map]) {
        return None;
    }
    if is_unit_scale(&ops[map], &forms[map]) {
        return None;
    }
    let products = products_of_map(&ops[map], &forms[k], &forms[map])?;
    Some(chain_of(ops, forms, map, &products))
}

/// The first chain of a list behind its Read, if it has one.
pub fn find_chain(ops: &[Op], forms: &[Form]) -> Option<Placed>
    requires sizes { length forms.now ≡ length ops.now }
    requires few { AreFew forms.now }
    requires some { 2 ≤ length ops.now }
    ensures { IfSome result (λ placed. IsPlaced ops.now forms.now placed) }
{
    let mut stage = ops[0].stage_after(Stage::Start);
    for at in 1..ops.len() - 1 {
        if let Some(chain) = chain_at(ops, forms, at, stage) {
            return Some(Placed { at, chain });
        }
        stage = ops[at].stage_after(stage);
    }
    None
}
