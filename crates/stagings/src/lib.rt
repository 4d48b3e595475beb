// What is staged in a Q row of the lent state: nothing as it is taken, then a value or DROP. Each contract speaks of the state that the
// bytes hold.
#![tactic(auto)]

ghost use Rattle.std.specs.Prelude.{◌≡◌, false, ◌≤◌, ◌<◌, length, set};
ghost use Rattle.machine.specs.Sizes.{row_count, value_max};
ghost use Rattle.machine.specs.State.{State, row, nothing, staged, DROP, free_row, row_at};
ghost use Rattle.machine.specs.Expiry.{with_rows};
ghost use Rattle.machine.specs.Effects.{restaged};
ghost use Rattle.layout.specs.Holds.{Holds};

use layout::Buffer;

// Row i becomes one of the session on the key, with nothing staged.
pub fn put(s: &mut Buffer, i: usize, session: u32, key: u8, kind: u8)
    requires { i < row_count }
    ensures { (σ : State) → Holds s.old σ → 1 ≤ session → Holds s.new (with_rows σ (set σ.rows i (row session key kind nothing))) }
{
    let at = layout::ROWS_FROM + i * layout::ROW_WIDTH;
    lent::store_u32(s, at, session);
    layout::store_pair(s, at + layout::ROW_KEY, key, kind);
    blocks::clear(
        s,
        at + layout::ROW_STAGED,
        layout::ROW_WIDTH - layout::ROW_STAGED,
    );
}

// The value is staged in row i, which is taken.
pub fn stage(s: &mut Buffer, i: usize, v: &[u8])
    requires { (i < row_count) × (length v.now ≤ value_max) }
    ensures { (σ : State) → Holds s.old σ → free_row (row_at σ i) ≡ false → Holds s.new (with_rows σ (set σ.rows i (restaged (staged v.now) (row_at σ i)))) }
{
    let at = layout::ROWS_FROM + i * layout::ROW_WIDTH;
    let n = v.len() as u8;
    layout::store_pair(s, at + layout::ROW_STAGED, layout::VALUED, n);
    layout::store_value(s, at + layout::ROW_VALUE, v);
}

// DROP is staged in row i, which is taken.
pub fn stage_drop(s: &mut Buffer, i: usize)
    requires { i < row_count }
    ensures { (σ : State) → Holds s.old σ → free_row (row_at σ i) ≡ false → Holds s.new (with_rows σ (set σ.rows i (restaged DROP (row_at σ i)))) }
{
    let at = layout::ROWS_FROM + i * layout::ROW_WIDTH;
    layout::store_pair(s, at + layout::ROW_STAGED, layout::DROPPED, 0);
    blocks::clear(s, at + layout::ROW_VALUE, layout::VALUE_MAX);
}
