// The header of the lent state: clock, lifetimes, and the next numbers to give. Each contract speaks of the state that the bytes hold.
#![tactic(auto)]

ghost use Rattle.std.specs.Prelude.{◌≡◌, ◌<◌};
ghost use Rattle.machine.specs.State.{State};
ghost use Rattle.machine.specs.Expiry.{with_clock, with_numbers};
ghost use Rattle.layout.specs.Holds.{Holds};

use layout::Buffer;

// Kept: one function for each field, since the contract of each names a field of its own.
pub fn clock(s: &Buffer) -> u64
    ensures { (σ : State) → Holds s.now σ → result ≡ σ.head.clock }
{
    lent::load_u64(s, layout::CLOCK)
}

// A lifetime in ms, as it is added to a time.
pub fn read_life(s: &Buffer) -> u64
    ensures { ((σ : State) → Holds s.now σ → result ≡ σ.head.read_life) × (result < 4294967296) }
{
    lent::load_u32(s, layout::READ_LIFE) as u64
}

pub fn write_life(s: &Buffer) -> u64
    ensures { ((σ : State) → Holds s.now σ → result ≡ σ.head.write_life) × (result < 4294967296) }
{
    lent::load_u32(s, layout::WRITE_LIFE) as u64
}

pub fn next_session(s: &Buffer) -> u32
    ensures { (σ : State) → Holds s.now σ → result ≡ σ.head.next_session }
{
    lent::load_u32(s, layout::NEXT_SESSION)
}

pub fn next_token(s: &Buffer) -> u32
    ensures { (σ : State) → Holds s.now σ → result ≡ σ.head.next_token }
{
    lent::load_u32(s, layout::NEXT_TOKEN)
}

pub fn store_clock(s: &mut Buffer, time: u64)
    ensures { (σ : State) → Holds s.old σ → Holds s.new (with_clock σ time) }
{
    lent::store_u64(s, layout::CLOCK, time);
}

pub fn store_next_session(s: &mut Buffer, n: u32)
    ensures { (σ : State) → Holds s.old σ → Holds s.new (with_numbers σ n σ.head.next_token) }
{
    lent::store_u32(s, layout::NEXT_SESSION, n);
}

pub fn store_next_token(s: &mut Buffer, t: u32)
    ensures { (σ : State) → Holds s.old σ → Holds s.new (with_numbers σ σ.head.next_session t) }
{
    lent::store_u32(s, layout::NEXT_TOKEN, t);
}
