// QUAR: a session asks for a quarantine of a key, and the decision table answers.
#![tactic(auto)]

ghost use Rattle.std.specs.Prelude.{◌≡◌, true, [], ◌≤◌, ◌<◌, eqb};
ghost use Rattle.machine.specs.Sizes.{session_count};
ghost use Rattle.machine.specs.Words.{INVALIDATE};
ghost use Rattle.machine.specs.Decision.{asked_count};
ghost use Rattle.machine.specs.State.{State, kind_of, row_of, numbered, session_at};
ghost use Rattle.machine.specs.Refusals.{would_grant};
ghost use Rattle.machine.specs.Sound.{sound};
ghost use Rattle.machine.specs.declared.Command.TheVariants.{Quar};
ghost use Rattle.layout.specs.Holds.{Holds};
ghost use Rattle.outcome.specs.Outcome.{tried, Gives, Does};
ghost use Rattle.quars.specs.Asking.{grant, abort, ask, hold};

use layout::Buffer;
use machine::{Answer, Refusal};

// Whether session n has a row of this kind on key k.
fn holds(s: &Buffer, n: u32, k: u8, kind: u8) -> bool
    requires { 1 ≤ kind }
    ensures { (σ : State) → Holds s.now σ → result ≡ eqb (kind_of (row_of σ n k)) kind }
{
    let Some(i) = lookups::find(s, u64::from(n), usize::from(k)) else {
        return false;
    };
    rows::kind(s, i) == kind
}

// Whether a QUAR by session n would be answered GRANTED, if there is room.
pub fn would_grant(s: &Buffer, n: u32, k: u8, kind: u8) -> bool
    requires { (INVALIDATE ≤ kind) × (kind < asked_count) }
    ensures { (σ : State) → Holds s.now σ → sound σ ≡ true → result ≡ would_grant σ n k kind }
{
    if holds(s, n, k, kind) {
        return false;
    }
    holdings::grants(s, usize::from(k), usize::from(kind))
}

// The lowest free row is taken and the I lease voided; where there is none, the refusal is ROOM.
fn grant(s: &mut Buffer, n: u32, k: u8, kind: u8) -> Answer
    ensures { (σ : State) → Holds s.old σ → 1 ≤ n → Gives (grant σ n k kind) result s.new }
{
    let Some(i) = lookups::free_place(s) else {
        return Answer::Refused(Refusal::Room);
    };
    stagings::put(s, i, n, k, kind);
    drops::drop_lease(s, usize::from(k));
    Answer::Granted
}

fn abort(s: &mut Buffer, n: u32, place: usize) -> Answer
    requires { place < session_count }
    ensures { (σ : State) → Holds s.old σ → sound σ ≡ true → numbered n (session_at σ place) ≡ true → Gives (abort σ n) result s.new }
{
    endings::leave(s, n, place);
    Answer::Aborted
}

// The decision table answers session n, which stands at this place.
fn ask(s: &mut Buffer, n: u32, place: usize, k: u8, kind: u8) -> Answer
    requires { (place < session_count) × (kind < asked_count) }
    ensures { (σ : State) → Holds s.old σ → sound σ ≡ true → numbered n (session_at σ place) ≡ true → Gives (ask σ n k kind) result s.new }
{
    if holdings::grants(s, usize::from(k), usize::from(kind)) {
        return grant(s, n, k, kind);
    }
    abort(s, n, place)
}

// HELD if session n has such a row already.
fn hold(s: &mut Buffer, n: u32, place: usize, k: u8, kind: u8) -> Answer
    requires { (place < session_count) × ((INVALIDATE ≤ kind) × (kind < asked_count)) }
    ensures { (σ : State) → Holds s.old σ → sound σ ≡ true → numbered n (session_at σ place) ≡ true → Gives (hold σ n k kind) result s.new }
{
    if holds(s, n, k, kind) {
        return Answer::Held;
    }
    ask(s, n, place, k, kind)
}

pub fn quar(s: &mut Buffer, session: u64, key: u64, kind: u64) -> Answer
    ensures { Does s.old (λ σ. tried σ 0 (Quar session key kind) []) result s.new }
{
    if layout::KEY_COUNT as u64 <= key {
        return Answer::Refused(Refusal::Arg);
    }
    if !decisions::is_kind(kind) {
        return Answer::Refused(Refusal::Arg);
    }
    match askers::find(s, session) {
        Err(refusal) => Answer::Refused(refusal),
        Ok(asker) => hold(s, asker.session.number, asker.place, key as u8, kind as u8),
    }
}
