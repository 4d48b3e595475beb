// The library that firmware links: the functions of `exported`, each with its contract, handed on to C under the same names. Its header is include/basalekko.h.
// Kept: the functions of `exported` once more, for the C interface.
#![tactic(auto)]

ghost use Rattle.std.specs.Prelude.{◌≡◌};
ghost use Rattle.layout.specs.WellFormed.{well_formed};
ghost use Rattle.numbered.specs.Commands.{command_of, ran_by};
ghost use Rattle.show.specs.Show.{show_of};
ghost use Rattle.startup.specs.Start.{start_of};
ghost use Rattle.exported.specs.Told.{version, Said, Replied, stretch_told};

// Raised with each change of a name, a number or a parameter.
#[unsafe(no_mangle)]
pub extern "C" fn basalekko_version() -> u64
    ensures { result ≡ version }
{
    exported::basalekko_version()
}

// Whether the buffer holds a well-formed state.
#[unsafe(no_mangle)]
pub extern "C" fn basalekko_well_formed(state: &[u8]) -> bool
    ensures { result ≡ well_formed state.now }
{
    exported::basalekko_well_formed(state)
}

// START.
#[unsafe(no_mangle)]
pub extern "C" fn basalekko_start(
    state: &mut [u8],
    read: u64,
    write: u64,
    told: &mut [u64; 2],
) -> u64
    ensures { Replied (start_of state.old read write) result state.new told.new }
{
    exported::basalekko_start(state, read, write, told)
}

// One command by its number.
#[unsafe(no_mangle)]
pub extern "C" fn basalekko_run(
    state: &mut [u8],
    time: u64,
    number: u64,
    a: u64,
    b: u64,
    c: u64,
    d: u64,
    value: &[u8],
    told: &mut [u64; 2],
) -> u64
    ensures { Replied (ran_by state.old time value.now (command_of number a b c d)) result state.new told.new }
{
    exported::basalekko_run(state, time, number, a, b, c, d, value, told)
}

// SHOW's first call: VALUE with the length, NONE, or the refusal.
#[unsafe(no_mangle)]
pub extern "C" fn basalekko_show(state: &[u8], session: u64, key: u64, told: &mut [u64; 2]) -> u64
    ensures { Said (show_of state.now session key).answer result told.new }
{
    exported::basalekko_show(state, session, key, told)
}

// SHOW's second call: length and place of the stretch.
#[unsafe(no_mangle)]
pub extern "C" fn basalekko_stretch(state: &[u8], session: u64, key: u64, told: &mut [u64; 2])
    ensures { told.new ≡ stretch_told (show_of state.now session key) }
{
    exported::basalekko_stretch(state, session, key, told)
}
