// The table of sessions in the lent state: a place is read, stored and freed, and a session is found by its number, never by a place that
// its number would give. Each contract speaks of the state that the bytes hold.
#![tactic(auto)]

ghost use Rattle.std.specs.Prelude.{◌≡◌, ◌+◌, ◌≤◌, ◌<◌, ◌^◌, length, set};
ghost use Rattle.lent.specs.Bytes.{win};
ghost use Rattle.machine.specs.Sizes.{session_count, session_width};
ghost use Rattle.machine.specs.Tables.{place};
ghost use Rattle.machine.specs.State.{State, no_session, session, free, session_at, session_place};
ghost use Rattle.machine.specs.Expiry.{with_sessions};
ghost use Rattle.machine.specs.Sound.{number_in};
ghost use Rattle.layout.specs.Layout.{life_mark, life_time, dec_life};
ghost use Rattle.layout.specs.Fields.{session_in};
ghost use Rattle.layout.specs.Holds.{Holds};
ghost use Rattle.layout.specs.Search.{found, Below};

use layout::Buffer;
use machine::{Life, Session};

// Kept: mark and deadline are two fields of a record, so neither is what a life converts to.
fn mark_of(l: Life) -> u8
    ensures { result ≡ life_mark l }
{
    match l {
        Life::Open(_) => layout::OPEN,
        Life::Sealed => layout::SEALED,
    }
}

fn until_of(l: Life) -> u64
    ensures { result ≡ life_time l }
{
    match l {
        Life::Open(until) => until,
        Life::Sealed => 0,
    }
}

fn load_life(s: &[u8], at: usize) -> Life
    requires { at + session_width ≤ length s.now }
    ensures { result ≡ dec_life (win s.now at session_width) }
{
    if s[at + layout::SESSION_LIFE] == layout::SEALED {
        return Life::Sealed;
    }
    Life::Open(lent::load_u64(s, at + layout::SESSION_UNTIL))
}

// The number of the session in place i, 0 if it is free.
// Kept: 0 is what the bytes of a free place hold; `number_in` says so.
pub fn number(s: &Buffer, i: usize) -> u32
    requires { i < session_count }
    ensures { (σ : State) → Holds s.now σ → result ≡ number_in (session_at σ i) }
{
    lent::load_u32(s, layout::SESSIONS_FROM + i * layout::SESSION_WIDTH)
}

// The session in place i, all zero if it is free.
pub fn load(s: &Buffer, i: usize) -> Session
    requires { i < session_count }
    ensures { (σ : State) → Holds s.now σ → result ≡ session_in (session_at σ i) }
{
    let at = layout::SESSIONS_FROM + i * layout::SESSION_WIDTH;
    let number = lent::load_u32(s, at);
    let life = load_life(s, at);
    let count = lent::load_u16(s, at + layout::SESSION_STEPS);
    Session {
        number,
        life,
        count,
    }
}

// A number that is not 0, and a count within two bytes.
pub fn store(s: &mut Buffer, i: usize, x: Session)
    requires { i < session_count }
    ensures { (σ : State) → Holds s.old σ → 0 < x.number → x.count < 2 ^ 16 → Holds s.new (with_sessions σ (set σ.sessions i (session x))) }
{
    let at = layout::SESSIONS_FROM + i * layout::SESSION_WIDTH;
    let life = x.life;
    lent::store_u32(s, at, x.number);
    layout::store_pair(s, at + layout::SESSION_LIFE, mark_of(life), 0);
    lent::store_u16(s, at + layout::SESSION_STEPS, x.count);
    lent::store_u64(s, at + layout::SESSION_UNTIL, until_of(life));
}

pub fn free(s: &mut Buffer, i: usize)
    requires { i < session_count }
    ensures { (σ : State) → Holds s.old σ → Holds s.new (with_sessions σ (set σ.sessions i no_session)) }
{
    blocks::clear(
        s,
        layout::SESSIONS_FROM + i * layout::SESSION_WIDTH,
        layout::SESSION_WIDTH,
    );
}

// The place of the session of number n. A free place has the number 0, which is no session's; a number over 32 bits is in no place.
pub fn find(s: &Buffer, n: u64) -> Option<usize>
    ensures { ((σ : State) → Holds s.now σ → result ≡ found session_count (session_place σ n)) × Below session_count result }
{
    if n == 0 {
        return None;
    }
    layout::find_number(
        s,
        layout::SESSIONS_FROM,
        layout::SESSION_WIDTH,
        layout::SESSION_COUNT,
        n,
    )
}

// The lowest free place; where there is none, the table is full.
pub fn free_place(s: &Buffer) -> Option<usize>
    ensures { ((σ : State) → Holds s.now σ → result ≡ found session_count (place free σ.sessions)) × Below session_count result }
{
    layout::find_number(
        s,
        layout::SESSIONS_FROM,
        layout::SESSION_WIDTH,
        layout::SESSION_COUNT,
        0,
    )
}
