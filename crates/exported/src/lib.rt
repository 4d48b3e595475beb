// The proved functions under plain names, with numbers for answers. `exported_c` hands them on to C; the header is include/basalekko.h.
#![tactic(auto)]

ghost use Rattle.std.specs.Prelude.{◌≡◌};
ghost use Rattle.layout.specs.WellFormed.{well_formed};
ghost use Rattle.numbered.specs.Commands.{command_of, ran_by};
ghost use Rattle.show.specs.Show.{show_of};
ghost use Rattle.startup.specs.Start.{start_of};
ghost use Rattle.exported.specs.Told.{version, Said, Replied, stretch_told};

use machine::Answer;
use words::Numbers;

const VERSION: u64 = 1;

// An answer as numbers: its word is returned, what goes with it and a HIT's place are told.
fn tell(a: Answer, told: &mut [u64; 2]) -> u64
    ensures { Said a result told.new }
{
    let n = Numbers::from(a);
    *told = [n.detail, n.place];
    n.word
}

// Raised with each change of a name, a number or a parameter.
pub fn basalekko_version() -> u64
    ensures { result ≡ version }
{
    VERSION
}

// Whether the buffer holds a well-formed state.
pub fn basalekko_well_formed(state: &[u8]) -> bool
    ensures { result ≡ well_formed state.now }
{
    state::well_formed(state)
}

// START.
pub fn basalekko_start(state: &mut [u8], read: u64, write: u64, told: &mut [u64; 2]) -> u64
    ensures { Replied (start_of state.old read write) result state.new told.new }
{
    let answer = startup::start(state, read, write);
    tell(answer, told)
}

// One command by its number.
pub fn basalekko_run(
    state: &mut [u8],
    time: u64,
    number: u64,
    a: u64,
    b: u64,
    c: u64,
    d: u64,
    value: &[u8],
    told: &mut [u64; 2],
) -> u64
    ensures { Replied (ran_by state.old time value.now (command_of number a b c d)) result state.new told.new }
{
    let answer = numbered::run_numbered(state, time, number, a, b, c, d, value);
    tell(answer, told)
}

// SHOW's first call: VALUE with the length, NONE, or the refusal.
pub fn basalekko_show(state: &[u8], session: u64, key: u64, told: &mut [u64; 2]) -> u64
    ensures { Said (show_of state.now session key).answer result told.new }
{
    let answer = show::show(state, session, key);
    tell(answer, told)
}

// SHOW's second call: length and place of the stretch.
pub fn basalekko_stretch(state: &[u8], session: u64, key: u64, told: &mut [u64; 2])
    ensures { told.new ≡ stretch_told (show_of state.now session key) }
{
    let part = show::part(state, session, key);
    *told = [part.length as u64, part.at as u64];
}
