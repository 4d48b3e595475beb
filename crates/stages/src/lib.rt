// STAGE, and what it has in common with DELTA: the session, its row on the key, and the step.
#![tactic(auto)]

ghost use Rattle.std.specs.Prelude.{◌≡◌, ◌<◌};
ghost use Rattle.machine.specs.Sizes.{session_count, step_max};
ghost use Rattle.machine.specs.State.{State};
ghost use Rattle.machine.specs.declared.Command.TheVariants.{Stage};
ghost use Rattle.layout.specs.Holds.{Holds};
ghost use Rattle.askers.specs.Asker.{asker_of};
ghost use Rattle.outcome.specs.Outcome.{tried, Does};
ghost use Rattle.stages.specs.Staging.{staging_of, Placed};

use askers::Asker;
use layout::Buffer;
use machine::{Answer, Refusal, Session, Step};

// A step that was taken before, or where the session and its row stand and the session's next record.
#[derive(Clone, Copy)]
pub enum Staging {
    Repeated,
    At {
        place: usize,
        row: usize,
        next: Session,
    },
}

// An open session, which stands at this place, stages in its row of this kind on key k.
fn steps(s: &Buffer, asker: Asker, step: u64, k: usize, kind: u8) -> Result<Staging, Refusal>
    requires { (asker.place < session_count) × (step < step_max) }
    ensures { ((σ : State) → Holds s.now σ → asker_of σ asker.session.number ≡ Ok asker → result ≡ staging_of σ asker.session.number step k kind) × Placed result }
{
    let Some(row) = lookups::find(s, u64::from(asker.session.number), k) else {
        return Err(Refusal::NoLease);
    };
    if rows::kind(s, row) != kind {
        return Err(Refusal::Kind);
    }
    match asker.session.step(step) {
        Step::Repeats => Ok(Staging::Repeated),
        Step::Ahead => Err(Refusal::Ahead),
        Step::Acts(next) => Ok(Staging::At {
            place: asker.place,
            row,
            next,
        }),
    }
}

// What the session of this number finds that stages in its row of this kind on key k: the refusals 5, 6, 8, 9 and 10 in this order, or
// REPEATED.
pub fn find(s: &Buffer, session: u64, step: u64, k: usize, kind: u8) -> Result<Staging, Refusal>
    requires { step < step_max }
    ensures { ((σ : State) → Holds s.now σ → result ≡ staging_of σ session step k kind) × Placed result }
{
    let asker = askers::find(s, session)?;
    steps(s, asker, step, k, kind)
}

// STAGE: the value replaces what is staged.
pub fn stage(s: &mut Buffer, session: u64, step: u64, key: u64, value: &[u8]) -> Answer
    ensures { Does s.old (λ σ. tried σ 0 (Stage session step key) value.now) result s.new }
{
    if layout::KEY_COUNT as u64 <= key {
        return Answer::Refused(Refusal::Arg);
    }
    if machine::STEP_MAX <= step {
        return Answer::Refused(Refusal::Arg);
    }
    if layout::VALUE_MAX < value.len() {
        return Answer::Refused(Refusal::Long);
    }
    match find(s, session, step, key as usize, machine::REFRESH) {
        Err(refusal) => Answer::Refused(refusal),
        Ok(Staging::Repeated) => Answer::Repeated,
        Ok(Staging::At { place, row, next }) => {
            sessions::store(s, place, next);
            stagings::stage(s, row, value);
            Answer::Staged
        }
    }
}
