// The wait that a BACKOFF says.
#![tactic(auto)]

ghost use Rattle.std.specs.Prelude.{◌≡◌, ◌-◌, ◌<◌};
ghost use Rattle.machine.specs.Sizes.{key_count, row_count};
ghost use Rattle.machine.specs.State.{State, row_at};
ghost use Rattle.machine.specs.Effects.{life_end, later as later_end, latest as latest_end, wait as wait_on};
ghost use Rattle.layout.specs.Holds.{Holds};
ghost use Rattle.waits.specs.Waits.{row_end};

use layout::Buffer;
use machine::Life;

// Sealed if one of two lives is; else open until the later deadline.
fn later(a: Life, b: Life) -> Life
    ensures { life_end result ≡ later_end (life_end a) (life_end b) }
{
    let Life::Open(x) = a else {
        return Life::Sealed;
    };
    let Life::Open(y) = b else {
        return Life::Sealed;
    };
    if x < y {
        return Life::Open(y);
    }
    Life::Open(x)
}

// What row i adds to the wait on key k: the life of its session, found by its number; a deadline long past if it is not on the key.
fn row_life(s: &Buffer, i: usize, k: usize) -> Life
    requires { i < row_count }
    ensures { (σ : State) → Holds s.now σ → life_end result ≡ row_end σ k (row_at σ i) }
{
    let n = rows::session(s, i);
    if n == 0 {
        return Life::Open(0);
    }
    if rows::key(s, i) != k {
        return Life::Open(0);
    }
    let place = sessions::find(s, u64::from(n));
    let Some(j) = place else {
        return Life::Sealed;
    };
    let x = sessions::load(s, j);
    x.life
}

// The sessions with a row on key k as one life, from the last row to the first.
fn latest(s: &Buffer, k: usize) -> Life
    ensures { (σ : State) → Holds s.now σ → life_end result ≡ latest_end σ k σ.rows }
{
    let mut life = Life::Open(0);
    for i in (0..layout::ROW_COUNT).rev() {
        life = later(row_life(s, i, k), life);
    }
    life
}

// 0 where the deadline is past.
fn less_now(until: u64, time: u64) -> u64
    ensures { result ≡ until - time }
{
    until.saturating_sub(time)
}

// 0 if a sealed session blocks, else the latest blocking deadline less now.
// Kept: 0 is the document's word for a wait that no deadline ends.
pub fn wait(s: &Buffer, k: usize, time: u64) -> u64
    requires { k < key_count }
    ensures { (σ : State) → Holds s.now σ → result ≡ wait_on σ k time }
{
    if keys::lease_token(s, k) != 0 {
        return less_now(keys::lease_until(s, k), time);
    }
    let life = latest(s, k);
    let Life::Open(until) = life else {
        return 0;
    };
    less_now(until, time)
}
