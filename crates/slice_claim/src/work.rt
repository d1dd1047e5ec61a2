// What a board asks of its jobs.
ghost use Rattle.std.specs.Prelude.{◌≡◌, ℕ, List};

/// A job that a board hands out.
pub trait Work: Send + Drop {
    /// Its number: its place among the jobs of its board, from 0.
    ghost number_of: { Self → ℕ };

    /// All that a worker must leave as it was given.
    ghost origin: { Self → List ℕ };

    /// It is done.
    ghost is_done: { Self → Type 0 };

    /// Its number: its place among the jobs of its board, from 0.
    fn number(&self) -> u32
        ensures { result ≡ number_of self.now };
}
