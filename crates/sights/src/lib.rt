// What one sees on a key of the lent state, and who may look. Each contract speaks of the state that the bytes hold.
#![tactic(auto)]

ghost use Rattle.std.specs.Prelude.{◌≡◌, not, ◌&&◌, ◌<◌, eqb, length};
ghost use Rattle.machine.specs.Sizes.{key_count, row_count};
ghost use Rattle.machine.specs.State.{State, cached, row_at};
ghost use Rattle.machine.specs.Refusals.{cached_sight, row_sight, not_live};
ghost use Rattle.layout.specs.Holds.{Holds};
ghost use Rattle.sights.specs.Sights.{placed, Inside};

use layout::Buffer;

// A stretch of the lent state, by its place and its length.
#[derive(Clone, Copy)]
pub struct Span {
    pub at: usize,
    pub length: usize,
}

// The cached value of key k.
pub fn cached_sight(s: &Buffer, k: usize) -> Option<Span>
    requires { k < key_count }
    ensures { ((σ : State) → Holds s.now σ → result ≡ placed (cached_sight k (cached σ k))) × Inside result }
{
    if !keys::has_value(s, k) {
        return None;
    }
    Some(Span {
        at: layout::KEYS_FROM + k * layout::KEY_WIDTH + layout::KEY_VALUE,
        length: keys::value_length(s, k),
    })
}

// By one's own row i on key k: its staged value; nothing for DROP or kind 1; otherwise the cached value.
pub fn row_sight(s: &Buffer, i: usize, k: usize) -> Option<Span>
    requires { (i < row_count) × (k < key_count) }
    ensures { ((σ : State) → Holds s.now σ → result ≡ placed (row_sight i k (row_at σ i) (cached σ k))) × Inside result }
{
    let mark = rows::mark(s, i);
    if mark == layout::VALUED {
        return Some(Span {
            at: layout::ROWS_FROM + i * layout::ROW_WIDTH + layout::ROW_VALUE,
            length: rows::staged_length(s, i),
        });
    }
    if mark == layout::DROPPED {
        return None;
    }
    if rows::kind(s, i) == machine::INVALIDATE {
        return None;
    }
    cached_sight(s, k)
}

// Refusal 5 of GET and SHOW: a session that is not live, other than 0.
pub fn is_unknown(s: &Buffer, session: u64) -> bool
    ensures { (σ : State) → Holds s.now σ → result ≡ (not (eqb session 0) && not_live σ session) }
{
    if session == 0 {
        return false;
    }
    sessions::find(s, session).is_none()
}
