// Whether a session or an I lease of the lent state expires: its deadline is at or before the time.
#![tactic(auto)]

ghost use Rattle.std.specs.Prelude.{◌≡◌, ◌<◌};
ghost use Rattle.machine.specs.Sizes.{key_count, session_count};
ghost use Rattle.machine.specs.State.{State, key_of, session_at};
ghost use Rattle.layout.specs.Holds.{Holds};
ghost use Rattle.deadlines.specs.Deadlines.{lapsed_on, due_slot};

use layout::Buffer;

// Whether the session at place i is open, with its deadline at or before time.
pub fn session_due(s: &Buffer, i: usize, time: u64) -> bool
    requires { i < session_count }
    ensures { (σ : State) → Holds s.now σ → result ≡ due_slot time (session_at σ i) }
{
    let x = sessions::load(s, i);
    if x.number == 0 {
        return false;
    }
    x.due(time)
}

// Whether key k has an I lease with its deadline at or before time.
pub fn lease_lapsed(s: &Buffer, k: usize, time: u64) -> bool
    requires { k < key_count }
    ensures { (σ : State) → Holds s.now σ → result ≡ lapsed_on time (key_of σ k) }
{
    if keys::lease_token(s, k) == 0 {
        return false;
    }
    keys::lease_until(s, k) <= time
}
