//! How the stages of a run end: with an array, of whose trees the collector holds so many bytes, or by a failure.
ghost use Rattle.std.specs.Prelude.{◌≡◌};
ghost use Rattle.stretches.specs.Failure.{refusal_of};

use spec_run::answer::Refusal;

/// Why no array came of the stages.
#[derive(Clone, Copy, Debug, PartialEq, Eq)]
pub enum Failure {
    /// A tree was too large.
    Large,
    /// An array that enters a group was too long.
    Long,
    /// A total of one of its classes does not fit.
    Overflow,
    /// The last array is longer than an array may be.
    Full,
}

impl From<Failure> for Refusal {
    ghost from_gives = { λ failure refusal. refusal ≡ refusal_of failure };

    fn from(failure: Failure) -> Refusal {
        match failure {
            Failure::Large => Refusal::TreeLarge,
            Failure::Long => Refusal::GroupLong,
            Failure::Overflow => Refusal::TotalLarge,
            Failure::Full => Refusal::ResultLong,
        }
    }
}
