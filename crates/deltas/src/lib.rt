// DELTA: a value appended to, prepended to, or counted up or down, and staged. Whoever calls has checked the state and the clock, and
// nothing lapses.
#![tactic(auto)]

ghost use Rattle.std.specs.Prelude.{◌≡◌, false, ◌++◌, ◌+◌, ◌≤◌, ◌<◌, eqb, length, if◌then◌else◌};
ghost use Rattle.lent.specs.Bytes.{win};
ghost use Rattle.counts.specs.Count.{read_count, raised, lowered};
ghost use Rattle.machine.specs.Sizes.{key_count, row_count};
ghost use Rattle.machine.specs.State.{State, free_row, row_at};
ghost use Rattle.machine.specs.Effects.{fits, counts, operate, or_drop};
ghost use Rattle.machine.specs.declared.Command.TheVariants.{Delta};
ghost use Rattle.layout.specs.Holds.{Holds};
ghost use Rattle.outcome.specs.Outcome.{tried, Gives, Does};
ghost use Rattle.deltas.specs.Changes.{value_in, Short, Makes, changed_in, changes};

use layout::Buffer;
use machine::{Answer, Refusal};
use stages::Staging;

// The operations; the fourth is decrement.
// Kept: the document's commands carry an operation as a number, and test it by a range.
const APPEND: u64 = 1;

const PREPEND: u64 = 2;

const INCREMENT: u64 = 3;

// A value becomes so many bytes at the front of `out`, or none: DROP.

// a, and b behind it.
fn join(a: &[u8], b: &[u8], out: &mut [u8; layout::VALUE_MAX]) -> Option<usize>
    ensures { Makes (fits (a.now ++ b.now)) result out.new }
{
    let n = a.len();
    let m = b.len();
    if layout::VALUE_MAX < n {
        return None;
    }
    if layout::VALUE_MAX - n < m {
        return None;
    }
    blocks::copy_in(out, 0, a);
    blocks::copy_in(out, n, b);
    Some(n + m)
}

// a raised or lowered by b.
fn calculate(operation: u64, a: u64, b: u64) -> u64
    ensures { result ≡ (if eqb operation 3 then raised a b else lowered a b) }
{
    if operation == INCREMENT {
        return counts::increment(a, b);
    }
    counts::decrement(a, b)
}

// The value is a count and so is the operand.
fn count(
    operation: u64,
    operand: &[u8],
    value: &[u8],
    out: &mut [u8; layout::VALUE_MAX],
) -> Option<usize>
    ensures { Makes (counts operation (read_count value.now) (read_count operand.now)) result out.new }
{
    let a = counts::read(value)?;
    let b = counts::read(operand)?;
    let n = calculate(operation, a, b);
    Some(counts::write(n, out))
}

// The operation on a value.
fn operate(
    operation: u64,
    operand: &[u8],
    value: &[u8],
    out: &mut [u8; layout::VALUE_MAX],
) -> Option<usize>
    ensures { Makes (operate operation operand.now value.now) result out.new }
{
    match operation {
        APPEND => join(value, operand, out),
        PREPEND => join(operand, value, out),
        _ => count(operation, operand, value, out),
    }
}

// On the n bytes of s from a place.
fn operate_at(
    s: &[u8],
    at: usize,
    n: usize,
    operation: u64,
    operand: &[u8],
    out: &mut [u8; layout::VALUE_MAX],
) -> Option<usize>
    requires { at + n ≤ length s.now }
    ensures { Makes (operate operation operand.now (win s.now at n)) result out.new }
{
    operate(operation, operand, &s[at..at + n], out)
}

// What is to be staged in a row on key k: the operation on its staged value, or else on the cached one.
fn work(
    s: &Buffer,
    row: usize,
    k: usize,
    operation: u64,
    operand: &[u8],
    out: &mut [u8; layout::VALUE_MAX],
) -> Option<usize>
    requires { (row < row_count) × (k < key_count) }
    ensures { ((σ : State) → Holds s.now σ → or_drop (value_in result out.new) ≡ changed_in σ row k operation operand.now) × Short result }
{
    let mark = rows::mark(s, row);
    if mark == layout::DROPPED {
        return None;
    }
    if mark == layout::VALUED {
        let n = rows::staged_length(s, row);
        let at = layout::ROWS_FROM + row * layout::ROW_WIDTH + layout::ROW_VALUE;
        return operate_at(s, at, n, operation, operand, out);
    }
    if !keys::has_value(s, k) {
        return None;
    }
    let n = keys::value_length(s, k);
    let at = layout::KEYS_FROM + k * layout::KEY_WIDTH + layout::KEY_VALUE;
    operate_at(s, at, n, operation, operand, out)
}

// It is staged. The value is made in a buffer of its own, since the one that it is made of stands where it goes.
fn change(s: &mut Buffer, row: usize, k: usize, operation: u64, operand: &[u8]) -> Answer
    requires { (row < row_count) × (k < key_count) }
    ensures { (σ : State) → Holds s.old σ → free_row (row_at σ row) ≡ false → Gives (changes σ row k operation operand.now) result s.new }
{
    let mut out = [0u8; layout::VALUE_MAX];
    match work(s, row, k, operation, operand, &mut out) {
        Some(n) => {
            stagings::stage(s, row, &out[..n]);
            Answer::Staged
        }
        None => {
            stagings::stage_drop(s, row);
            Answer::Dropped
        }
    }
}

// DELTA: the operation on the staged value of its row, or else on the cached one; where there is none, DROP.
pub fn delta(
    s: &mut Buffer,
    session: u64,
    step: u64,
    key: u64,
    operation: u64,
    operand: &[u8],
) -> Answer
    ensures { Does s.old (λ σ. tried σ 0 (Delta session step key operation) operand.now) result s.new }
{
    if layout::KEY_COUNT as u64 <= key {
        return Answer::Refused(Refusal::Arg);
    }
    if !decisions::is_operation(operation) {
        return Answer::Refused(Refusal::Arg);
    }
    if machine::STEP_MAX <= step {
        return Answer::Refused(Refusal::Arg);
    }
    if layout::VALUE_MAX < operand.len() {
        return Answer::Refused(Refusal::Long);
    }
    let k = key as usize;
    match stages::find(s, session, step, k, machine::INCREMENTAL) {
        Err(refusal) => Answer::Refused(refusal),
        Ok(Staging::Repeated) => Answer::Repeated,
        Ok(Staging::At { place, row, next }) => {
            sessions::store(s, place, next);
            change(s, row, k, operation, operand)
        }
    }
}
