// Answers, as the functions of the commands look at them.
#![tactic(auto)]

ghost use Rattle.std.specs.Prelude.{◌≡◌};
ghost use Rattle.outcome.specs.Outcome.{is_refused};

// Whether an answer is a refusal.
pub fn is_refused(a: machine::Answer) -> bool
    ensures { result ≡ is_refused a }
{
    matches!(a, machine::Answer::Refused(_))
}
