// VALIDATE, DONE and UNDO: how a session is sealed and ends, on a state on which nothing lapses.
#![tactic(auto)]

ghost use Rattle.std.specs.Prelude.{[], ◌<◌};
ghost use Rattle.machine.specs.declared.Command.TheVariants.{Validate, Done, Undo};
ghost use Rattle.outcome.specs.Outcome.{tried, Does};

use layout::Buffer;
use machine::{Answer, Refusal, Validation};

pub fn validate(s: &mut Buffer, session: u64, n: u64) -> Answer
    ensures { Does s.old (λ σ. tried σ 0 (Validate session n) []) result s.new }
{
    if machine::STEP_MAX < n {
        return Answer::Refused(Refusal::Arg);
    }
    let Some(i) = sessions::find(s, session) else {
        return Answer::Refused(Refusal::NoSession);
    };
    let x = sessions::load(s, i);
    match x.validate(n) {
        Validation::Seals(y) => {
            sessions::store(s, i, y);
            Answer::Validated
        }
        Validation::Loses => {
            endings::leave(s, x.number, i);
            Answer::Lost
        }
        Validation::Clashes => Answer::Refused(Refusal::Sealed),
    }
}

pub fn done(s: &mut Buffer, session: u64) -> Answer
    ensures { Does s.old (λ σ. tried σ 0 (Done session) []) result s.new }
{
    let Some(i) = sessions::find(s, session) else {
        return Answer::Refused(Refusal::NoSession);
    };
    let x = sessions::load(s, i);
    if !x.is_sealed() {
        return Answer::Refused(Refusal::NotSealed);
    }
    endings::finish(s, x.number, i);
    Answer::Done
}

pub fn undo(s: &mut Buffer, session: u64) -> Answer
    ensures { Does s.old (λ σ. tried σ 0 (Undo session) []) result s.new }
{
    let Some(i) = sessions::find(s, session) else {
        return Answer::Refused(Refusal::NoSession);
    };
    let n = sessions::number(s, i);
    endings::leave(s, n, i);
    Answer::Undone
}
