// The cache: every command on the lent state.
#![tactic(auto)]

ghost use Rattle.std.specs.Prelude.{◌≡◌, ◌≤◌};
ghost use Rattle.machine.specs.Sizes.{time_max};
ghost use Rattle.machine.specs.Step.{step};
ghost use Rattle.outcome.specs.Outcome.{tried, acted, Does};
ghost use Rattle.cache.specs.Run.{ran};

use layout::Buffer;
use machine::{Answer, Command, Refusal};

// A command on a state on which nothing lapses, its clock aside.
fn act(s: &mut Buffer, time: u64, command: Command, value: &[u8]) -> Answer
    requires { time ≤ time_max }
    ensures { Does s.old (λ σ. tried σ time command value.now) result s.new }
{
    match command {
        Command::Begin => openings::begin(s, time),
        Command::Get { session, key } => gets::get(s, time, session, key),
        Command::Fill { token, key } => fills::fill(s, token, key, value),
        Command::Quar { session, key, kind } => quars::quar(s, session, key, kind),
        Command::Stage { session, step, key } => stages::stage(s, session, step, key, value),
        Command::Delta {
            session,
            step,
            key,
            operation,
        } => deltas::delta(s, session, step, key, operation, value),
        Command::Validate { session, count } => turns::validate(s, session, count),
        Command::Done { session } => turns::done(s, session),
        Command::Undo { session } => turns::undo(s, session),
        Command::Evict { key } => fills::evict(s, key),
        Command::Tick => Answer::Ticked,
    }
}

// CLOCK comes first; an accepted command moves the clock.
fn still(s: &mut Buffer, time: u64, command: Command, value: &[u8]) -> Answer
    ensures { Does s.old (λ σ. acted σ time command value.now) result s.new }
{
    if time < header::clock(s) {
        return Answer::Refused(Refusal::Clock);
    }
    if machine::TIME_MAX < time {
        return Answer::Refused(Refusal::Clock);
    }
    let r = act(s, time, command, value);
    if outcome::is_refused(r) {
        return r;
    }
    header::store_clock(s, time);
    r
}

// Something lapses: whether the command is refused after expiry is decided by reading alone, so that a refusal leaves the state as it came.
fn lapsing(s: &mut Buffer, time: u64, command: Command, value: &[u8]) -> Answer
    ensures { Does s.old (λ σ. step σ time command value.now) result s.new }
{
    match refusals::find(s, time, command, value) {
        Err(refusal) => Answer::Refused(refusal),
        Ok(()) => {
            sweep::sweep(s, time);
            still(s, time, command, value)
        }
    }
}

fn settle(s: &mut Buffer, time: u64, command: Command, value: &[u8]) -> Answer
    ensures { Does s.old (λ σ. step σ time command value.now) result s.new }
{
    if sweep::lapses(s, time) {
        return lapsing(s, time, command, value);
    }
    still(s, time, command, value)
}

// One command at its time, with its value beside it.
pub fn run(state: &mut [u8], time: u64, command: Command, value: &[u8]) -> Answer
    ensures { (result ≡ (ran state.old time command value.now).answer) × (state.new ≡ (ran state.old time command value.now).bytes) }
{
    let Some(buffer) = state.as_mut_array() else {
        return Answer::Refused(Refusal::State);
    };
    if !state::well_formed(buffer) {
        return Answer::Refused(Refusal::State);
    }
    settle(buffer, time, command, value)
}
