// What is dropped of the lent state: a row, an I lease, a cached value; and a staged value that is cached in place of the old one.
#![tactic(auto)]

ghost use Rattle.std.specs.Prelude.{◌<◌, set};
ghost use Rattle.std.proofs.Math.Option.{none};
ghost use Rattle.machine.specs.Sizes.{key_count, row_count};
ghost use Rattle.machine.specs.State.{State, no_row, staged_in, row_at};
ghost use Rattle.machine.specs.Expiry.{with_keys, with_rows, set_value, set_lease};
ghost use Rattle.machine.specs.Effects.{to_cache};
ghost use Rattle.layout.specs.Holds.{Holds};

use layout::Buffer;

pub fn free_row(s: &mut Buffer, i: usize)
    requires { i < row_count }
    ensures { (σ : State) → Holds s.old σ → Holds s.new (with_rows σ (set σ.rows i no_row)) }
{
    blocks::clear(
        s,
        layout::ROWS_FROM + i * layout::ROW_WIDTH,
        layout::ROW_WIDTH,
    );
}

pub fn drop_lease(s: &mut Buffer, k: usize)
    requires { k < key_count }
    ensures { (σ : State) → Holds s.old σ → Holds s.new (with_keys σ (set_lease σ.keys k none)) }
{
    blocks::clear(
        s,
        layout::KEYS_FROM + k * layout::KEY_WIDTH + layout::KEY_TOKEN,
        layout::LEASE_WIDTH,
    );
}

// The mark with the length, and the 64 bytes of the value; the lease lies between them.
pub fn drop_value(s: &mut Buffer, k: usize)
    requires { k < key_count }
    ensures { (σ : State) → Holds s.old σ → Holds s.new (with_keys σ (set_value σ.keys k none)) }
{
    let at = layout::KEYS_FROM + k * layout::KEY_WIDTH;
    blocks::clear(s, at, layout::MARK_WIDTH);
    blocks::clear(s, at + layout::KEY_VALUE, layout::VALUE_MAX);
}

// What row i has staged becomes the value of key k: mark and length stand side by side in both, and the 64 bytes are the same.
pub fn cache_staged(s: &mut Buffer, k: usize, i: usize)
    requires { (k < key_count) × (i < row_count) }
    ensures { (σ : State) → Holds s.old σ → Holds s.new (with_keys σ (set_value σ.keys k (to_cache (staged_in (row_at σ i))))) }
{
    if rows::mark(s, i) != layout::VALUED {
        drop_value(s, k);
        return;
    }
    let from = layout::ROWS_FROM + i * layout::ROW_WIDTH;
    let at = layout::KEYS_FROM + k * layout::KEY_WIDTH;
    blocks::copy_within(s, from + layout::ROW_STAGED, at, layout::MARK_WIDTH);
    blocks::copy_within(
        s,
        from + layout::ROW_VALUE,
        at + layout::KEY_VALUE,
        layout::VALUE_MAX,
    );
}
