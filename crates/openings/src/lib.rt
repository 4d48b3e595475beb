// BEGIN: how a session opens, on a state on which nothing lapses.
#![tactic(auto)]

ghost use Rattle.std.specs.Prelude.{◌≡◌, true, [], ◌≤◌, ◌<◌};
ghost use Rattle.machine.specs.Sizes.{session_count, time_max};
ghost use Rattle.machine.specs.Tables.{place};
ghost use Rattle.machine.specs.State.{State, free};
ghost use Rattle.machine.specs.Sound.{sound};
ghost use Rattle.machine.specs.declared.Command.TheVariants.{Begin};
ghost use Rattle.layout.specs.Holds.{Holds};
ghost use Rattle.outcome.specs.Outcome.{tried, Gives, Does};

use layout::Buffer;
use machine::{Answer, Refusal, Session};

// A session opens in the lowest free place.
fn open(s: &mut Buffer, time: u64, i: usize) -> Answer
    requires { (i < session_count) × (time ≤ time_max) }
    ensures { (σ : State) → Holds s.old σ → sound σ ≡ true → place free σ.sessions ≡ i → Gives (tried σ time Begin []) result s.new }
{
    let n = header::next_session(s);
    if machine::NUMBER_MAX <= n {
        return Answer::Refused(Refusal::Numbers);
    }
    let until = time + header::write_life(s);
    sessions::store(s, i, Session::open(n, until));
    header::store_next_session(s, n + 1);
    Answer::Session(n)
}

pub fn begin(s: &mut Buffer, time: u64) -> Answer
    requires { time ≤ time_max }
    ensures { Does s.old (λ σ. tried σ time Begin []) result s.new }
{
    let f = sessions::free_place(s);
    match f {
        Some(i) => open(s, time, i),
        None => Answer::Refused(Refusal::Full),
    }
}
