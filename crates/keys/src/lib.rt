// The key records of the lent state: what is read of a key, and its value and its I lease written in place.
#![tactic(auto)]

ghost use Rattle.std.specs.Prelude.{◌≡◌, not, ◌≤◌, ◌<◌, length, set};
ghost use Rattle.std.proofs.Math.Option.{none, some};
ghost use Rattle.machine.specs.Sizes.{key_count, value_max};
ghost use Rattle.machine.specs.Tables.{is_none};
ghost use Rattle.machine.specs.State.{State, cached, lease_on};
ghost use Rattle.machine.specs.Expiry.{with_keys, set_value, set_lease};
ghost use Rattle.machine.specs.Sound.{token_in};
ghost use Rattle.layout.specs.Fields.{value_length, lease_until};
ghost use Rattle.layout.specs.Holds.{Holds};

use layout::Buffer;

pub fn has_value(s: &Buffer, k: usize) -> bool
    requires { k < key_count }
    ensures { (σ : State) → Holds s.now σ → result ≡ not (is_none (cached σ k)) }
{
    s[layout::KEYS_FROM + k * layout::KEY_WIDTH] == layout::VALUED
}

// The length of a key's value, 0 where it is absent.
pub fn value_length(s: &Buffer, k: usize) -> usize
    requires { k < key_count }
    ensures { ((σ : State) → Holds s.now σ → result ≡ value_length (cached σ k)) × (result < 256) }
{
    lent::index(s[layout::KEYS_FROM + k * layout::KEY_WIDTH + layout::KEY_LENGTH])
}

// The token of a key's I lease, 0 where there is none, and its deadline.
// Kept: 0 is what the bytes hold where there is no lease; `token_in` says so.
pub fn lease_token(s: &Buffer, k: usize) -> u32
    requires { k < key_count }
    ensures { (σ : State) → Holds s.now σ → result ≡ token_in (lease_on σ k) }
{
    lent::load_u32(
        s,
        layout::KEYS_FROM + k * layout::KEY_WIDTH + layout::KEY_TOKEN,
    )
}

pub fn lease_until(s: &Buffer, k: usize) -> u64
    requires { k < key_count }
    ensures { (σ : State) → Holds s.now σ → result ≡ lease_until (lease_on σ k) }
{
    lent::load_u64(
        s,
        layout::KEYS_FROM + k * layout::KEY_WIDTH + layout::KEY_UNTIL,
    )
}

// A value on a key, in place of one that it may have: mark and length, and the 64 bytes of the value. The lease lies between them.
fn put_value(s: &mut Buffer, k: usize, v: &[u8])
    requires { (k < key_count) × (length v.now ≤ value_max) }
    ensures { (σ : State) → Holds s.old σ → Holds s.new (with_keys σ (set_value σ.keys k (some v.now))) }
{
    let at = layout::KEYS_FROM + k * layout::KEY_WIDTH;
    let n = v.len();
    layout::store_pair(s, at, 1, n as u8);
    layout::store_value(s, at + layout::KEY_VALUE, v);
}

// An I lease on a key, in place of one that it may have. Its token is not 0, which says that there is none.
pub fn put_lease(s: &mut Buffer, k: usize, token: u32, until: u64)
    requires { k < key_count }
    ensures { (σ : State) → Holds s.old σ → 1 ≤ token → Holds s.new (with_keys σ (set_lease σ.keys k (some (record { token = token; until = until })))) }
{
    let at = layout::KEYS_FROM + k * layout::KEY_WIDTH;
    lent::store_u32(s, at + layout::KEY_TOKEN, token);
    lent::store_u64(s, at + layout::KEY_UNTIL, until);
}

// A value on a key, and its I lease removed.
pub fn fill(s: &mut Buffer, k: usize, v: &[u8])
    requires { (k < key_count) × (length v.now ≤ value_max) }
    ensures { (σ : State) → Holds s.old σ → Holds s.new (with_keys σ (set σ.keys k (record { value = some v.now; lease = none }))) }
{
    put_value(s, k, v);
    let at = layout::KEYS_FROM + k * layout::KEY_WIDTH;
    blocks::clear(s, at + layout::KEY_TOKEN, layout::LEASE_WIDTH);
}
