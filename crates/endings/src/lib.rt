// How sessions end on the lent state. Whoever calls has checked the state: it is sound, and of 65,536 bytes.
#![tactic(auto)]

ghost use Rattle.std.specs.Prelude.{◌≡◌, true, [], ◌∷◌, ◌<◌, set};
ghost use Rattle.machine.specs.Sizes.{key_count, session_count, row_count};
ghost use Rattle.machine.specs.Tables.{mem};
ghost use Rattle.machine.specs.State.{State, no_session, numbered, staged_in, session_at, row_at};
ghost use Rattle.machine.specs.Expiry.{with_keys, with_sessions, leave, finish};
ghost use Rattle.machine.specs.Effects.{to_cache};
ghost use Rattle.machine.specs.Sound.{sound};
ghost use Rattle.layout.specs.Holds.{Holds};
ghost use Rattle.endings.specs.Ends.{settles, end_row, end_rows};

use layout::Buffer;

// What becomes of the value of a row's key when the row's session ends: it stays, it is dropped, or what is staged is cached.
// Kept: an enum, since the contracts go by its three cases (`settles`); those of a closure would say each again.
#[derive(Clone, Copy)]
pub enum Ending {
    Leaves,
    Lapses,
    Caches,
}

// Whether n is one of the numbers.
fn among(ns: &[u32], n: u32) -> bool
    ensures { result ≡ mem n ns.now }
{
    ns.contains(&n)
}

// The value of key k as row i ends.
fn settle(s: &mut Buffer, k: usize, i: usize, ending: Ending)
    requires { (k < key_count) × (i < row_count) }
    ensures { (σ : State) → Holds s.old σ → Holds s.new (with_keys σ (settles ending k (staged_in (row_at σ i)) σ.keys)) }
{
    match ending {
        Ending::Leaves => {}
        Ending::Lapses => {
            drops::drop_value(s, k);
        }
        Ending::Caches => {
            drops::cache_staged(s, k, i);
        }
    }
}

// Row i ends if it is of one of the sessions ns, each found by its number.
fn end_row(s: &mut Buffer, i: usize, ns: &[u32], ending: Ending)
    requires { i < row_count }
    ensures { (σ : State) → Holds s.old σ → Holds s.new (end_row ending ns.now i σ) }
{
    let n = rows::session(s, i);
    if n == 0 {
        return;
    }
    if !among(ns, n) {
        return;
    }
    let k = rows::key(s, i);
    settle(s, k, i, ending);
    drops::free_row(s, i);
}

// The rows of the sessions ns end.
pub fn end_rows(s: &mut Buffer, ns: &[u32], ending: Ending)
    ensures { (σ : State) → Holds s.old σ → Holds s.new (end_rows ending ns.now σ) }
{
    for i in 0..layout::ROW_COUNT {
        end_row(s, i, ns, ending);
    }
}

// The session of number n, which stands at this place, ends with its rows.
fn end(s: &mut Buffer, n: u32, place: usize, ending: Ending)
    requires { place < session_count }
    ensures { (σ : State) → Holds s.old σ → Holds s.new (with_sessions (end_rows ending (n ∷ []) σ) (set σ.sessions place no_session)) }
{
    let ns = [n; 1];
    end_rows(s, &ns, ending);
    sessions::free(s, place);
}

// It ends and the cached values stay.
pub fn leave(s: &mut Buffer, n: u32, place: usize)
    requires { place < session_count }
    ensures { (σ : State) → Holds s.old σ → sound σ ≡ true → numbered n (session_at σ place) ≡ true → Holds s.new (leave (n ∷ []) σ) }
{
    end(s, n, place, Ending::Leaves);
}

// It ends and what its rows have staged is cached.
pub fn finish(s: &mut Buffer, n: u32, place: usize)
    requires { place < session_count }
    ensures { (σ : State) → Holds s.old σ → sound σ ≡ true → numbered n (session_at σ place) ≡ true → Holds s.new (finish (n ∷ []) to_cache σ) }
{
    end(s, n, place, Ending::Caches);
}
