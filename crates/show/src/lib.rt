// SHOW, in two calls on the same state: one answers, the other gives the stretch alone.
#![tactic(auto)]

ghost use Rattle.std.specs.Prelude.{◌≡◌};
ghost use Rattle.stretches.specs.Stretch.{span_of, Stretch};
ghost use Rattle.show.specs.Show.{show_of};

use machine::{Answer, Refusal};
use sights::Span;

// VALUE with the length, NONE, or the refusal.
pub fn show(s: &[u8], session: u64, key: u64) -> Answer
    ensures { result ≡ (show_of s.now session key).answer }
{
    let Some(buffer) = state::opened(s) else {
        return Answer::Refused(Refusal::State);
    };
    stretches::show(buffer, session, key)
}

// The part of the lent state that holds the value; for NONE and on a refusal the empty one at its first byte.
pub fn stretch(s: &[u8], session: u64, key: u64) -> &[u8]
    ensures { Stretch s.entry result (show_of s.now session key) }
{
    if !state::well_formed(s) {
        return &s[..0];
    }
    stretches::stretch(s, session, key)
}

// That part by its place and its length.
pub fn part(s: &[u8], session: u64, key: u64) -> Span
    ensures { result ≡ span_of (show_of s.now session key) }
{
    let Some(buffer) = state::opened(s) else {
        return Span { at: 0, length: 0 };
    };
    stretches::part(buffer, session, key)
}
