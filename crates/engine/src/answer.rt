//! The documents' numbers of answers, each said once: that of a refusal.
ghost use Rattle.std.specs.Prelude.{◌≡◌};
ghost use Rattle.spec_run.specs.Refusal.{number_of};
ghost use Rattle.spec_run.specs.Answer.{numbered, lengthened};
ghost use Rattle.checks.specs.Check.{checked_as};

use format::check::Fault;
use spec_run::answer::{Answer, Refusal};

/// The documents' number of a refusal.
pub fn refusal_number(refusal: Refusal) -> u64
    ensures { result ≡ number_of refusal }
{
    match refusal {
        Refusal::WorkShort => 1,
        Refusal::PositionsShort => 11,
        Refusal::MessageMalformed => 13,
        Refusal::QueryLong => 2,
        Refusal::QueryMalformed => 3,
        Refusal::InputLong => 4,
        Refusal::InputMalformed => 5,
        Refusal::JoinedLong => 6,
        Refusal::JoinedMalformed => 7,
        Refusal::TotalLarge => 12,
        Refusal::TreeLarge => 8,
        Refusal::GroupLong => 9,
        Refusal::ResultLong => 10,
    }
}

/// The documents' number of an answer: 0 if it is accepted.
pub fn number(answer: Answer) -> u64
    ensures { result ≡ numbered answer }
{
    match answer {
        Ok(_) => 0,
        Err(r) => refusal_number(r),
    }
}

/// How many bytes the result has: none if it is refused.
pub fn length(answer: Answer) -> usize
    ensures { result ≡ lengthened answer }
{
    answer.unwrap_or(0)
}

/// The documents' number of a check: 0 if it accepts, else that of the refusal that it stands for.
pub fn check_number(check: Result<(), Fault>, long: Refusal, malformed: Refusal) -> u64
    ensures { result ≡ checked_as check long malformed }
{
    match check {
        Ok(()) => 0,
        Err(fault) => match fault {
            Fault::Overlong => refusal_number(long),
            Fault::Malformed => refusal_number(malformed),
        },
    }
}
