// A claimed job.
ghost use Rattle.std.specs.Prelude.{◌≡◌};
ghost use Rattle.std.specs.Borrow.{sem};
ghost use Rattle.slice_claim.specs.Lending.{LendsJob};

/// A claimed job, with its number. It comes from `Board::claim` alone, and goes back by
/// `Board::finish`.
#[derive(Drop)]
pub struct Held<J> {
    pub(crate) number: u32,
    pub(crate) job: J,
}

impl<J> Held<J> {
    /// The number that the claim drew, below the number of jobs.
    pub fn number(&self) -> u32
        ensures { result ≡ self.now.number }
    {
        self.number
    }

    /// The job, to be worked on in place.
    pub fn job(&mut self) -> &mut J
        ensures* lends { sem 𝓛 (LendsJob J.row self.entry result) }
        ensures value { result.now ≡ self.old.job }
    {
        &mut self.job
    }
}
