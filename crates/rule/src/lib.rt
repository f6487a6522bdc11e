// The verdict of a rule, and the answer of a call.
#![tactic(auto)]

pub mod refusals;

ghost use Rattle.std.specs.Prelude.{◌≡◌};
ghost use Rattle.rule.specs.Verdict.{sooner as sooner_of};

// A rule holds, or it is broken at a place.
pub type Verdict = Result<(), usize>;

// Why a call refuses: the number that the rules give it, by which they are ordered, and its place.
#[derive(Clone, Copy, Debug, PartialEq, Eq)]
pub struct Refusal {
    pub number: usize,
    pub place: usize,
}

// What a call answers: a number, or why it refuses.
pub type Answer = Result<usize, Refusal>;

// Of two verdicts the one with the lower place.
pub fn sooner(u: Verdict, v: Verdict) -> Verdict
    ensures { result ≡ sooner_of u v }
{
    match u {
        Ok(()) => v,
        Err(p) => match v {
            Ok(()) => u,
            Err(q) => Err(p.min(q)),
        },
    }
}
