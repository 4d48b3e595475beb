// What a state will be after expiry, read from the state as it is: nothing is written.
ghost use Rattle.std.specs.Prelude.{◌≡◌, true, ℕ, ◌<◌};
ghost use Rattle.machine.specs.Sizes.{key_count, row_count};
ghost use Rattle.machine.specs.Tables.{any, is_none};
ghost use Rattle.machine.specs.State.{State, lease_on, session_of, row_at};
ghost use Rattle.machine.specs.Expiry.{unlapsed, expire};
ghost use Rattle.machine.specs.Sound.{sound};
ghost use Rattle.machine.specs.Refusals.{sessions_full, rows_full, would_lease};
ghost use Rattle.layout.specs.Holds.{Holds};
ghost use Rattle.refusals.specs.Left.{left_of, goes, stays_on};

use layout::Buffer;
use machine::Session;

// The session of number n after expiry.
pub fn session(s: &Buffer, n: u64, time: u64) -> Option<Session>
    ensures { (σ : State) → Holds s.now σ → sound σ ≡ true → result ≡ left_of (session_of (expire time σ) n) }
{
    let Some(i) = sessions::find(s, n) else {
        return None;
    };
    let x = sessions::load(s, i);
    if x.due(time) {
        return None;
    }
    Some(x)
}

// Whether every place of a session is taken after expiry.
pub fn sessions_full(s: &Buffer, time: u64) -> bool
    ensures { (σ : State) → Holds s.now σ → sound σ ≡ true → result ≡ sessions_full (expire time σ) }
{
    if sessions::free_place(s).is_some() {
        return false;
    }
    !sweep::sessions_lapse(s, time)
}

// Whether row i goes with its session. A free row has the session 0, which is nobody's.
fn row_goes(s: &Buffer, i: usize, time: u64) -> bool
    requires { i < row_count }
    ensures { (σ : State) → Holds s.now σ → result ≡ goes time σ (row_at σ i) }
{
    let n = rows::session(s, i);
    let Some(j) = sessions::find(s, u64::from(n)) else {
        return false;
    };
    deadlines::session_due(s, j, time)
}

fn some_row_goes(s: &Buffer, time: u64) -> bool
    ensures { (σ : State) → Holds s.now σ → result ≡ any (goes time σ) σ.rows }
{
    (0..layout::ROW_COUNT).any(|i| row_goes(s, i, time))
}

// Whether every row is taken after expiry.
pub fn rows_full(s: &Buffer, time: u64) -> bool
    ensures { (σ : State) → Holds s.now σ → sound σ ≡ true → result ≡ rows_full (expire time σ) }
{
    if lookups::free_place(s).is_some() {
        return false;
    }
    !some_row_goes(s, time)
}

// Whether row i is on key k and stays.
fn row_stays(s: &Buffer, i: usize, k: usize, time: u64) -> bool
    requires { i < row_count }
    ensures { (σ : State) → Holds s.now σ → result ≡ stays_on time σ k (row_at σ i) }
{
    if rows::session(s, i) == 0 {
        return false;
    }
    if rows::key(s, i) != k {
        return false;
    }
    !row_goes(s, i, time)
}

fn some_row_stays(s: &Buffer, k: usize, time: u64) -> bool
    ensures { (σ : State) → Holds s.now σ → result ≡ any (stays_on time σ k) σ.rows }
{
    (0..layout::ROW_COUNT).any(|i| row_stays(s, i, k, time))
}

// Whether key k has no I lease after expiry.
fn is_leaseless(s: &Buffer, k: usize, time: u64) -> bool
    requires { k < key_count }
    ensures { (σ : State) → Holds s.now σ → result ≡ is_none (unlapsed time (lease_on σ k)) }
{
    if keys::lease_token(s, k) == 0 {
        return true;
    }
    deadlines::lease_lapsed(s, k, time)
}

// Whether GET of key k would be answered LEASE after expiry, whoever asks: no row and no I lease stay on it, and it has no value, or has a
// row, which then goes and drops the value.
pub fn would_lease(s: &Buffer, k: usize, time: u64) -> bool
    requires { k < key_count }
    ensures { (σ : State) → Holds s.now σ → sound σ ≡ true → (n : ℕ) → result ≡ would_lease (expire time σ) n k }
{
    if some_row_stays(s, k, time) {
        return false;
    }
    if !is_leaseless(s, k, time) {
        return false;
    }
    if lookups::first_on(s, k).is_some() {
        return true;
    }
    !keys::has_value(s, k)
}
