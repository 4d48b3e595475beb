// The fields of a Q row in the lent state. Each contract speaks of the state that the bytes hold.
#![tactic(auto)]

ghost use Rattle.std.specs.Prelude.{◌≡◌, ◌<◌};
ghost use Rattle.machine.specs.Sizes.{key_count, row_count};
ghost use Rattle.machine.specs.State.{State, kind_of, staged_in, row_at};
ghost use Rattle.layout.specs.Fields.{row_session, row_key, staged_mark, staged_length};
ghost use Rattle.layout.specs.Holds.{Holds};

use layout::Buffer;

// The row's session, 0 if it is free.
// Kept: 0 is what the bytes of a free row hold; `row_session` says so.
pub fn session(s: &Buffer, i: usize) -> u32
    requires { i < row_count }
    ensures { (σ : State) → Holds s.now σ → result ≡ row_session (row_at σ i) }
{
    lent::load_u32(s, layout::ROWS_FROM + i * layout::ROW_WIDTH)
}

pub fn key(s: &Buffer, i: usize) -> usize
    requires { i < row_count }
    ensures { ((σ : State) → Holds s.now σ → result ≡ row_key (row_at σ i)) × (result < key_count) }
{
    lent::index(s[layout::ROWS_FROM + i * layout::ROW_WIDTH + layout::ROW_KEY])
}

pub fn kind(s: &Buffer, i: usize) -> u8
    requires { i < row_count }
    ensures { (σ : State) → Holds s.now σ → result ≡ kind_of (row_at σ i) }
{
    s[layout::ROWS_FROM + i * layout::ROW_WIDTH + layout::ROW_KIND]
}

// What is staged: 0 nothing, 1 a value, 2 DROP.
pub fn mark(s: &Buffer, i: usize) -> u8
    requires { i < row_count }
    ensures { (σ : State) → Holds s.now σ → result ≡ staged_mark (staged_in (row_at σ i)) }
{
    s[layout::ROWS_FROM + i * layout::ROW_WIDTH + layout::ROW_STAGED]
}

// The length of a staged value.
pub fn staged_length(s: &Buffer, i: usize) -> usize
    requires { i < row_count }
    ensures { ((σ : State) → Holds s.now σ → result ≡ staged_length (staged_in (row_at σ i))) × (result < 256) }
{
    lent::index(s[layout::ROWS_FROM + i * layout::ROW_WIDTH + layout::ROW_LENGTH])
}
