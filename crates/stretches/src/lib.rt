// SHOW on the lent state: its answer, and the stretch that holds the value. Each contract speaks of the state that the bytes hold.
#![tactic(auto)]

ghost use Rattle.std.specs.Prelude.{◌≡◌, ◌≤◌, ◌<◌, ◌+◌, length};
ghost use Rattle.machine.specs.Sizes.{state_size, key_count};
ghost use Rattle.machine.specs.State.{State};
ghost use Rattle.machine.specs.Refusals.{sight};
ghost use Rattle.machine.specs.Step.{show as show_of};
ghost use Rattle.layout.specs.Holds.{Holds};
ghost use Rattle.sights.specs.Sights.{placed, Inside};
ghost use Rattle.stretches.specs.Stretch.{span_of, Stretch};

use layout::Buffer;
use machine::{Answer, Refusal};
use sights::Span;

// What the session, or no session if it is 0, sees on key k.
fn look(s: &Buffer, session: u64, k: usize) -> Option<Span>
    requires { k < key_count }
    ensures { ((σ : State) → Holds s.now σ → result ≡ placed (sight σ session k)) × Inside result }
{
    let row = lookups::find(s, session, k);
    match row {
        Some(i) => sights::row_sight(s, i, k),
        None => sights::cached_sight(s, k),
    }
}

// The answer of SHOW: VALUE with the length, NONE, or the refusal.
pub fn show(s: &Buffer, session: u64, key: u64) -> Answer
    ensures { (σ : State) → Holds s.now σ → result ≡ (show_of σ session key).answer }
{
    if layout::KEY_COUNT as u64 <= key {
        return Answer::Refused(Refusal::Arg);
    }
    if sights::is_unknown(s, session) {
        return Answer::Refused(Refusal::NoSession);
    }
    let sight = look(s, session, key as usize);
    match sight {
        Some(span) => Answer::Value(span.length),
        None => Answer::None,
    }
}

// Where the stretch of SHOW stands, and its length; for NONE and on a refusal that of the empty one at the first byte.
pub fn part(s: &Buffer, session: u64, key: u64) -> Span
    ensures { ((σ : State) → Holds s.now σ → result ≡ span_of (show_of σ session key)) × (result.at + result.length ≤ state_size) }
{
    if layout::KEY_COUNT as u64 <= key {
        return Span { at: 0, length: 0 };
    }
    if sights::is_unknown(s, session) {
        return Span { at: 0, length: 0 };
    }
    let sight = look(s, session, key as usize);
    match sight {
        Some(span) => span,
        None => Span { at: 0, length: 0 },
    }
}

// The stretch of SHOW, in the lent state itself.
// Kept: a slice, since of the array that std makes of one nothing says that it stands at the same place.
pub fn stretch(s: &[u8], session: u64, key: u64) -> &[u8]
    requires { length s.now ≡ state_size }
    ensures { (σ : State) → Holds s.now σ → Stretch s.entry result (show_of σ session key) }
{
    let span = part(s.as_array().unwrap(), session, key);
    let end = span.at + span.length;
    &s[span.at..end]
}
