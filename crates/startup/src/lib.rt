// START: the fresh state in a lent buffer, whatever it held.
#![tactic(auto)]

ghost use Rattle.std.specs.Prelude.{◌≡◌};
ghost use Rattle.machine.specs.Sound.{lifetime};
ghost use Rattle.machine.specs.State.{fresh};
ghost use Rattle.layout.specs.Layout.{encode};
ghost use Rattle.startup.specs.Start.{start_of};

use layout::Buffer;
use machine::{Answer, Refusal};

fn is_lifetime(n: u64) -> bool
    ensures { result ≡ lifetime n }
{
    (machine::LIFE_MIN..=machine::LIFE_MAX).contains(&n)
}

// Every byte is written: zero but for the lifetimes and the next numbers, which are 1.
fn write_fresh(s: &mut Buffer, read: u32, write: u32)
    ensures { s.new ≡ encode (fresh read write) }
{
    blocks::clear(s, 0, layout::STATE_SIZE);
    lent::store_u32(s, layout::READ_LIFE, read);
    lent::store_u32(s, layout::WRITE_LIFE, write);
    lent::store_u32(s, layout::NEXT_SESSION, 1);
    lent::store_u32(s, layout::NEXT_TOKEN, 1);
}

pub fn start(s: &mut [u8], read: u64, write: u64) -> Answer
    ensures { (result ≡ (start_of s.old read write).answer) × (s.new ≡ (start_of s.old read write).bytes) }
{
    let Some(buffer) = s.as_mut_array() else {
        return Answer::Refused(Refusal::State);
    };
    if !is_lifetime(read) {
        return Answer::Refused(Refusal::Arg);
    }
    if !is_lifetime(write) {
        return Answer::Refused(Refusal::Arg);
    }
    write_fresh(buffer, read as u32, write as u32);
    Answer::Ready
}
