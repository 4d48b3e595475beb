// The decision table, and which numbers are kinds and operations.
#![tactic(auto)]

ghost use Rattle.std.specs.Prelude.{◌≡◌, ◌<◌};
ghost use Rattle.machine.specs.Words.{is_kind, is_operation};
ghost use Rattle.machine.specs.Decision.{held_count, asked_count, decision};

use machine::Verdict;
use machine::Verdict::{Abort, BackOff, Grant, Void};

// Held none, I, Q1, Q2, Q3 against asked I, Q1, Q2, Q3.
const DECISIONS: [[Verdict; 4]; 5] = [
    [Grant, Grant, Grant, Grant],
    [BackOff, Void, Void, Void],
    [BackOff, Grant, Abort, Abort],
    [BackOff, Abort, Abort, Abort],
    [BackOff, Abort, Abort, Abort],
];

// Kept: by places, since the document wants a table that is indexed by held and asked.
pub fn decide(held: usize, asked: usize) -> Verdict
    requires { (held < held_count) × (asked < asked_count) }
    ensures { result ≡ decision held asked }
{
    DECISIONS[held][asked]
}

// 1 invalidate, 2 refresh, 3 incremental.
pub fn is_kind(kind: u64) -> bool
    ensures { result ≡ is_kind kind }
{
    matches!(kind, 1..=3)
}

// 1 append, 2 prepend, 3 increment, 4 decrement.
pub fn is_operation(operation: u64) -> bool
    ensures { result ≡ is_operation operation }
{
    matches!(operation, 1..=4)
}
