// What is held on a key of the lent state, and what the decision table grants beside it.
#![tactic(auto)]

ghost use Rattle.std.specs.Prelude.{◌≡◌, true, suc, ◌≤◌, ◌<◌};
ghost use Rattle.machine.specs.Sizes.{key_count};
ghost use Rattle.machine.specs.Words.{INVALIDATE, INCREMENTAL};
ghost use Rattle.machine.specs.State.{State};
ghost use Rattle.machine.specs.Sound.{sound};
ghost use Rattle.machine.specs.Decision.{held_count, asked_count, grants};
ghost use Rattle.machine.specs.Refusals.{held_on, decide, blocked};
ghost use Rattle.layout.specs.Holds.{Holds};

use layout::Buffer;
use machine::Verdict;

// The decision table's line for a row of a kind.
fn line_of(kind: u8) -> usize
    ensures { (result < held_count) × (INVALIDATE ≤ kind → kind ≤ INCREMENTAL → result ≡ suc kind) }
{
    match kind {
        1 => 2,
        2 => 3,
        _ => 4,
    }
}

// The decision table's line for what is held on key k.
fn held(s: &Buffer, k: usize) -> usize
    requires { k < key_count }
    ensures { ((σ : State) → Holds s.now σ → sound σ ≡ true → result ≡ held_on σ k) × (result < held_count) }
{
    let row = lookups::first_on(s, k);
    if let Some(i) = row {
        return line_of(rows::kind(s, i));
    }
    if keys::lease_token(s, k) == 0 {
        return 0;
    }
    1
}

// By the table's word.
fn is_grant(v: Verdict) -> bool
    ensures { result ≡ grants v }
{
    matches!(v, Verdict::Grant | Verdict::Void)
}

// Whether the decision table grants what is asked on key k: 0 the I lease, else a quarantine of that kind.
pub fn grants(s: &Buffer, k: usize, asked: usize) -> bool
    requires { (k < key_count) × (asked < asked_count) }
    ensures { (σ : State) → Holds s.now σ → sound σ ≡ true → result ≡ grants (decide σ k asked) }
{
    is_grant(decisions::decide(held(s, k), asked))
}

// Whether no I lease may be granted on key k.
pub fn is_blocked(s: &Buffer, k: usize) -> bool
    requires { k < key_count }
    ensures { (σ : State) → Holds s.now σ → sound σ ≡ true → result ≡ blocked σ k }
{
    !grants(s, k, 0)
}
