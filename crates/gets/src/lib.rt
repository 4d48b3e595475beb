// GET on the lent state. Each contract speaks of the state that the bytes hold.
#![tactic(auto)]

ghost use Rattle.std.specs.Prelude.{◌≡◌, [], ◌≤◌, ◌<◌, length};
ghost use Rattle.machine.specs.Sizes.{key_count, time_max, number_max};
ghost use Rattle.machine.specs.State.{State};
ghost use Rattle.machine.specs.Effects.{leased};
ghost use Rattle.machine.specs.declared.Command.TheVariants.{Get};
ghost use Rattle.layout.specs.Holds.{Holds};
ghost use Rattle.outcome.specs.Outcome.{tried, Gives, Does};
ghost use Rattle.gets.specs.Got.{asked as asked_of, absent as absent_of, others as others_of};

use layout::Buffer;
use machine::{Answer, Refusal};
use sights::Span;

// The tokens that are given: the number after the last may stand as the next one, and is not given.
const FIRST_TOKEN: u32 = 1;

const LAST_TOKEN: u32 = machine::NUMBER_MAX - 1;

// The next token is given with an I lease.
fn lease(s: &mut Buffer, time: u64, k: usize, token: u32) -> Answer
    requires { (time ≤ time_max) × ((k < key_count) × ((1 ≤ token) × (token < number_max))) }
    ensures { (σ : State) → Holds s.old σ → token ≡ σ.head.next_token → Gives (leased σ time k) result s.new }
{
    let until = time + header::read_life(s);
    keys::put_lease(s, k, token, until);
    header::store_next_token(s, token + 1);
    Answer::Lease(token)
}

// Absent: blocked, BACKOFF; free, LEASE, if there is a token to give.
fn absent(s: &mut Buffer, time: u64, k: usize) -> Answer
    requires { (time ≤ time_max) × (k < key_count) }
    ensures { Does s.old (λ σ. absent_of σ time k) result s.new }
{
    if holdings::is_blocked(s, k) {
        return Answer::Backoff(waits::wait(s, k, time));
    }
    let token = header::next_token(s);
    match token {
        FIRST_TOKEN..=LAST_TOKEN => lease(s, time, k, token),
        _ => Answer::Refused(Refusal::Numbers),
    }
}

// Anyone without a row on the key: the cached value, quarantined or not.
fn others(s: &mut Buffer, time: u64, k: usize) -> Answer
    requires { (time ≤ time_max) × (k < key_count) }
    ensures { Does s.old (λ σ. others_of σ time k) result s.new }
{
    let sight = sights::cached_sight(s, k);
    match sight {
        Some(Span { at, length }) => Answer::Hit { at, length },
        None => absent(s, time, k),
    }
}

// The holder of a row on the key: what it sees, or go to the register with no lease.
fn asked(sight: Option<Span>) -> Answer
    ensures { result ≡ asked_of sight }
{
    match sight {
        Some(Span { at, length }) => Answer::Hit { at, length },
        None => Answer::Ask,
    }
}

// The caller has tested the state and the clock, so the deadline of a lease fits.
pub fn get(s: &mut Buffer, time: u64, session: u64, key: u64) -> Answer
    requires { time ≤ time_max }
    ensures { Does s.old (λ σ. tried σ time (Get session key) []) result s.new }
{
    if layout::KEY_COUNT as u64 <= key {
        return Answer::Refused(Refusal::Arg);
    }
    if sights::is_unknown(s, session) {
        return Answer::Refused(Refusal::NoSession);
    }
    let k = key as usize;
    let row = lookups::find(s, session, k);
    match row {
        Some(i) => asked(sights::row_sight(s, i, k)),
        None => others(s, time, k),
    }
}
