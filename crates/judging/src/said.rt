// The answer to the questions about a table, with the "no" as numbers.
ghost use Rattle.std.specs.Prelude.{◌≡◌};
ghost use Rattle.answers.specs.Answers.{no_refusal, fault_refusal};
ghost use Rattle.semigroups.specs.Results.{refusal_in};
ghost use Rattle.plain.specs.InnerSaid.{refusal_said, said_of};

use plain::Said;
use tables::{Fault, No};

// Returns a "no" as numbers.
#[tactic(auto, unfolding(semigroups::specs::Lists::at))]
pub fn said_of_no(no: No) -> Said
    ensures answer { result ≡ refusal_said (no_refusal no) }
{
    let refusal = no.refusal();
    Said {
        number: refusal.number,
        first: refusal.first,
        second: refusal.second,
        third: refusal.third,
    }
}

// Returns a verdict, with the "no" as numbers.
pub fn said_of(verdict: Result<(), Fault>) -> Result<(), Said>
    ensures answer { result ≡ said_of (refusal_in fault_refusal verdict) }
{
    match verdict {
        Ok(()) => Ok(()),
        Err(fault) => Err(said_of_no(No::from(fault))),
    }
}
