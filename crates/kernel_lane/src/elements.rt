// Loops between a row of numbers and the bytes of elements that stand at a fixed distance.
ghost use Rattle.std.specs.Prelude.{◌≡◌, ◌≢◌, ℕ, ◌+◌, ◌*◌, ◌<◌, ◌≤◌, ◌⊎◌, List, length, slice_index_or};

/// A rule that takes a number out of the bytes of an element, and puts one there.
pub trait Element<T>: Copy {
    /// How many bytes an element has.
    ghost size: { ℕ };

    /// What element k of some bytes is.
    ghost element: { List ℕ → ℕ → ℕ };

    /// What a number stands for.
    ghost number: { T → ℕ };

    /// That there is a number for each element.
    ghost holds: { Type 0 };

    /// Which numbers an element can be.
    ghost fits: { T → Type 0 };

    /// The number of element k.
    fn taken(self, from: &[u8], k: usize) -> T
        requires holds { holds }
        requires room { (k + 1) * size ≤ length from.now }
        ensures { number result ≡ element from.now k };

    /// Element k becomes a number.
    fn put(self, to: &mut [u8], k: usize, x: T)
        requires fits { fits x }
        requires room { (k + 1) * size ≤ length to.old }
        ensures set { element to.new k ≡ number x }
        ensures kept { (j : ℕ) → j ≢ k → element to.new j ≡ element to.old j };

    /// An element has bytes.
    ghost some: { 0 < size };
}

/// The n numbers from `at` on become every C-th element, beginning at `start`.
#[inline(never)]
pub fn take_elements<T: Copy, R: Element<T>, const C: usize>(
    rule: R,
    from: &[u8],
    start: usize,
    n: usize,
    to: &mut [T],
    at: usize,
)
    requires holds { R.holds }
    requires elements { (i : ℕ) → i < n → (start + i * C + 1) * R.size ≤ length from.now }
    requires room { at + n ≤ length to.old }
    ensures set { (i : ℕ) (d : T) → i < n
        → R.number (slice_index_or to.new (at + i) d) ≡ R.element from.now (start + i * C) }
    ensures kept { (j : ℕ) (d : T) → (j < at) ⊎ (at + n ≤ j)
        → slice_index_or to.new j d ≡ slice_index_or to.old j d }
{
    for i in 0..n {
        to[at + i] = rule.taken(from, start + i * C);
    }
}

/// Every C-th element, beginning at `start`, becomes one of the n numbers from `at` on.
#[inline(never)]
pub fn put_elements<T: Copy, R: Element<T>, const C: usize>(
    rule: R,
    values: &[T],
    at: usize,
    n: usize,
    to: &mut [u8],
    start: usize,
)
    requires step { 0 < C }
    requires fits { (i : ℕ) (d : T) → i < n → R.fits (slice_index_or values.now (at + i) d) }
    requires elements { (i : ℕ) → i < n → (start + i * C + 1) * R.size ≤ length to.old }
    requires room { at + n ≤ length values.now }
    ensures set { (i : ℕ) (d : T) → i < n
        → R.element to.new (start + i * C) ≡ R.number (slice_index_or values.now (at + i) d) }
    ensures kept { (k : ℕ) → ((i : ℕ) → i < n → k ≢ start + i * C)
        → R.element to.new k ≡ R.element to.old k }
{
    for i in 0..n {
        rule.put(to, start + i * C, values[at + i]);
    }
}

/// Every D-th element of `to`, beginning at `at`, becomes one of the n elements of `from` that stand
/// C apart, beginning at `start`.
#[inline(never)]
pub fn move_elements<T: Copy, R: Element<T>, const C: usize, const D: usize>(
    rule: R,
    from: &[u8],
    start: usize,
    n: usize,
    to: &mut [u8],
    at: usize,
)
    requires step { 0 < D }
    requires holds { R.holds }
    requires fits { (k : ℕ) (x : T) → R.number x ≡ R.element from.now k → R.fits x }
    requires elements { (i : ℕ) → i < n → (start + i * C + 1) * R.size ≤ length from.now }
    requires room { (i : ℕ) → i < n → (at + i * D + 1) * R.size ≤ length to.old }
    ensures set { (i : ℕ) → i < n
        → R.element to.new (at + i * D) ≡ R.element from.now (start + i * C) }
    ensures kept { (k : ℕ) → ((i : ℕ) → i < n → k ≢ at + i * D)
        → R.element to.new k ≡ R.element to.old k }
{
    for i in 0..n {
        rule.put(to, at + i * D, rule.taken(from, start + i * C));
    }
}
