// FILL and EVICT on the lent state: a key's value cached by the holder of its I lease, and a key's value dropped. Whoever calls has checked
// the state and the clock, and nothing lapses.
#![tactic(auto)]

ghost use Rattle.std.specs.Prelude.{[]};
ghost use Rattle.machine.specs.declared.Command.{Command};
ghost use Rattle.outcome.specs.Outcome.{tried, Does};

use layout::Buffer;
use machine::{Answer, Refusal};

// FILL: the value is cached and the I lease removed if the lease has that token. An absent lease has the token 0, which is no lease's.
pub fn fill(s: &mut Buffer, token: u64, key: u64, value: &[u8]) -> Answer
    ensures { Does s.old (λ σ. tried σ 0 (Command.Fill token key) value.now) result s.new }
{
    if layout::KEY_COUNT as u64 <= key {
        return Answer::Refused(Refusal::Arg);
    }
    if layout::VALUE_MAX < value.len() {
        return Answer::Refused(Refusal::Long);
    }
    let k = key as usize;
    let held = u64::from(keys::lease_token(s, k));
    if held == 0 {
        return Answer::Ignored;
    }
    if held != token {
        return Answer::Ignored;
    }
    keys::fill(s, k, value);
    Answer::Stored
}

// EVICT: the key becomes absent; its rows and its I lease stay.
pub fn evict(s: &mut Buffer, key: u64) -> Answer
    ensures { Does s.old (λ σ. tried σ 0 (Command.Evict key) []) result s.new }
{
    if layout::KEY_COUNT as u64 <= key {
        return Answer::Refused(Refusal::Arg);
    }
    let k = key as usize;
    if !keys::has_value(s, k) {
        return Answer::Empty;
    }
    drops::drop_value(s, k);
    Answer::Evicted
}
