// The session that asks for a quarantine or stages in one: QUAR, STAGE and DELTA are refused with 5 where it is not live and with 6 where it
// is sealed.
#![tactic(auto)]

ghost use Rattle.std.specs.Prelude.{◌≡◌};
ghost use Rattle.machine.specs.State.{State};
ghost use Rattle.layout.specs.Holds.{Holds};
ghost use Rattle.askers.specs.Asker.{asker_of, Placed};

use layout::Buffer;
use machine::{Refusal, Session};

// An open session: its place and its record.
#[derive(Clone, Copy)]
pub struct Asker {
    pub place: usize,
    pub session: Session,
}

// The session of number n, if it is open; else the refusal.
pub fn find(s: &Buffer, n: u64) -> Result<Asker, Refusal>
    ensures { ((σ : State) → Holds s.now σ → result ≡ asker_of σ n) × Placed result }
{
    let Some(place) = sessions::find(s, n) else {
        return Err(Refusal::NoSession);
    };
    let session = sessions::load(s, place);
    if session.is_sealed() {
        return Err(Refusal::Sealed);
    }
    Ok(Asker { place, session })
}
