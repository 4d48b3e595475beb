// Expiry on the lent state. Whoever calls has checked the state: it is sound, and of 65,536 bytes.
#![tactic(auto)]

ghost use Rattle.std.specs.Prelude.{◌≡◌, true, ◌++◌, map, ◌+◌, ◌≤◌, ◌<◌, length, take};
ghost use Rattle.machine.specs.Sizes.{key_count, session_count};
ghost use Rattle.machine.specs.Tables.{any};
ghost use Rattle.machine.specs.Session.{is_due};
ghost use Rattle.machine.specs.State.{State, session_at};
ghost use Rattle.machine.specs.Expiry.{with_keys, with_sessions, lapsed_lease, those, expire};
ghost use Rattle.machine.specs.Sound.{sound};
ghost use Rattle.layout.specs.Holds.{Holds};
ghost use Rattle.deadlines.specs.Deadlines.{lapsed_on, due_slot};
ghost use Rattle.sweep.specs.Lapsing.{lapsing, lapse_key, free_due, noted, end_due};

use endings::Ending;
use layout::Buffer;

// Whether some I lease has lapsed.
fn leases_lapse(s: &Buffer, time: u64) -> bool
    ensures { (σ : State) → Holds s.now σ → result ≡ any (lapsed_on time) σ.keys }
{
    (0..layout::KEY_COUNT).any(|k| deadlines::lease_lapsed(s, k, time))
}

// Whether some session is due.
pub fn sessions_lapse(s: &Buffer, time: u64) -> bool
    ensures { (σ : State) → Holds s.now σ → result ≡ any (due_slot time) σ.sessions }
{
    (0..layout::SESSION_COUNT).any(|place| deadlines::session_due(s, place, time))
}

// Whether expiry would change anything.
pub fn lapses(s: &Buffer, time: u64) -> bool
    ensures { (σ : State) → Holds s.now σ → result ≡ lapsing time σ }
{
    if leases_lapse(s, time) {
        return true;
    }
    sessions_lapse(s, time)
}

fn lapse_key(s: &mut Buffer, k: usize, time: u64)
    requires { k < key_count }
    ensures { (σ : State) → Holds s.old σ → Holds s.new (lapse_key time k σ) }
{
    if deadlines::lease_lapsed(s, k, time) {
        drops::drop_lease(s, k);
    }
}

// Every I lease with its deadline at or before time is removed.
fn lapse_leases(s: &mut Buffer, time: u64)
    ensures { (σ : State) → Holds s.old σ → Holds s.new (with_keys σ (map (lapsed_lease time) σ.keys)) }
{
    for k in 0..layout::KEY_COUNT {
        lapse_key(s, k, time);
    }
}

// The session at place i ends if it is due, and its number is noted behind the `count` that are.
fn end_due(s: &mut Buffer, i: usize, time: u64, ns: &mut [u32], count: usize) -> usize
    requires { (length ns.old ≡ session_count) × ((i < session_count) × (count ≤ i)) }
    ensures { (result ≤ i + 1) × ((σ : State) → Holds s.old σ → Holds s.new (end_due time i σ) × (take result ns.new ≡ take count ns.old ++ noted time (session_at σ i))) }
{
    if !deadlines::session_due(s, i, time) {
        return count;
    }
    ns[count] = sessions::number(s, i);
    sessions::free(s, i);
    count + 1
}

// Every open session with its deadline at or before time ends, all but its rows. Returns how many; their numbers are noted.
fn end_sessions(s: &mut Buffer, time: u64, ns: &mut [u32]) -> usize
    requires { length ns.old ≡ session_count }
    ensures { (result ≤ session_count) × ((σ : State) → Holds s.old σ → Holds s.new (with_sessions σ (map (free_due time) σ.sessions)) × (take result ns.new ≡ those (is_due time) σ.sessions)) }
{
    let mut count = 0;
    for i in 0..layout::SESSION_COUNT {
        count = end_due(s, i, time, ns, count);
    }
    count
}

// Expiry, one pass over each table: the leases, the sessions, and then the rows of the sessions that ended.
pub fn sweep(s: &mut Buffer, time: u64)
    ensures { (σ : State) → Holds s.old σ → sound σ ≡ true → Holds s.new (expire time σ) }
{
    lapse_leases(s, time);
    let mut ns: [u32; layout::SESSION_COUNT] = [0; layout::SESSION_COUNT];
    let count = end_sessions(s, time, &mut ns);
    if count == 0 {
        return;
    }
    endings::end_rows(s, &ns[..count], Ending::Lapses);
}
