// Commands by number, for callers that have no enum.
#![tactic(auto)]

ghost use Rattle.std.specs.Prelude.{◌≡◌};
ghost use Rattle.numbered.specs.Commands.{command_of, unknown, ran_by};

use machine::{Answer, Command, Refusal};

// The command of a number, its place in the document's list, with its own numbers in their order.
pub fn command_of(number: u64, a: u64, b: u64, c: u64, d: u64) -> Option<Command>
    ensures { result ≡ command_of number a b c d }
{
    match number {
        1 => Some(Command::Begin),
        2 => Some(Command::Get { session: a, key: b }),
        3 => Some(Command::Fill { token: a, key: b }),
        4 => Some(Command::Quar {
            session: a,
            key: b,
            kind: c,
        }),
        5 => Some(Command::Stage {
            session: a,
            step: b,
            key: c,
        }),
        6 => Some(Command::Delta {
            session: a,
            step: b,
            key: c,
            operation: d,
        }),
        7 => Some(Command::Validate {
            session: a,
            count: b,
        }),
        8 => Some(Command::Done { session: a }),
        9 => Some(Command::Undo { session: a }),
        10 => Some(Command::Evict { key: a }),
        11 => Some(Command::Tick),
        _ => None,
    }
}

// A number outside the list is refused after STATE and CLOCK.
fn refuse_unknown(state: &[u8], time: u64) -> Answer
    ensures { result ≡ unknown state.now time }
{
    let Some(buffer) = state::opened(state) else {
        return Answer::Refused(Refusal::State);
    };
    if time < header::clock(buffer) {
        return Answer::Refused(Refusal::Clock);
    }
    if machine::TIME_MAX < time {
        return Answer::Refused(Refusal::Clock);
    }
    Answer::Refused(Refusal::Arg)
}

// One command by its number and four numbers of its own.
pub fn run_numbered(
    state: &mut [u8],
    time: u64,
    number: u64,
    a: u64,
    b: u64,
    c: u64,
    d: u64,
    value: &[u8],
) -> Answer
    ensures { (result ≡ (ran_by state.old time value.now (command_of number a b c d)).answer) × (state.new ≡ (ran_by state.old time value.now (command_of number a b c d)).bytes) }
{
    match command_of(number, a, b, c, d) {
        Some(command) => cache::run(state, time, command, value),
        None => refuse_unknown(state, time),
    }
}
