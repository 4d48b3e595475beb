// An answer as numbers: its word, what goes with it, and where a HIT's value stands.
#![tactic(auto)]

ghost use Rattle.std.specs.Prelude.{◌≡◌};
ghost use Rattle.words.specs.Numbers.{numbers_of};

use machine::Answer;

// The words by number: that of a refusal, READY, those of the commands in their order, and SHOW's.
// Kept: the C interface tells a word as a number.
pub const REFUSED: u64 = 0;

pub const READY: u64 = 1;

pub const SESSION: u64 = 2;

pub const HIT: u64 = 3;

pub const ASK: u64 = 4;

pub const BACKOFF: u64 = 5;

pub const LEASE: u64 = 6;

pub const STORED: u64 = 7;

pub const IGNORED: u64 = 8;

pub const HELD: u64 = 9;

pub const GRANTED: u64 = 10;

pub const ABORTED: u64 = 11;

pub const STAGED: u64 = 12;

pub const REPEATED: u64 = 13;

pub const DROPPED: u64 = 14;

pub const VALIDATED: u64 = 15;

pub const LOST: u64 = 16;

pub const DONE: u64 = 17;

pub const UNDONE: u64 = 18;

pub const EVICTED: u64 = 19;

pub const EMPTY: u64 = 20;

pub const TICKED: u64 = 21;

pub const VALUE: u64 = 22;

pub const NONE: u64 = 23;

// An answer's word, the session, token, wait, length or refusal number that goes with it or 0, and the place of a HIT's value or 0.
// Kept: the C interface tells numbers alone, and 0 where nothing goes with the word.
#[derive(Clone, Copy)]
pub struct Numbers {
    pub word: u64,
    pub detail: u64,
    pub place: u64,
}

// The numbers of an answer that has no place.
fn placeless(word: u64, detail: u64) -> Numbers
    ensures { result ≡ record { word = word; detail = detail; place = 0 } }
{
    Numbers {
        word,
        detail,
        place: 0,
    }
}

impl Numbers {
    // A refusal by its number, whatever number that is.
    pub fn refused(number: u8) -> Numbers
        ensures { result ≡ record { word = 0; detail = number; place = 0 } }
    {
        placeless(REFUSED, u64::from(number))
    }
}

impl From<Answer> for Numbers {
    ghost from_gives = { λ a n. n ≡ numbers_of a };

    fn from(a: Answer) -> Numbers {
        match a {
            Answer::Ready => placeless(READY, 0),
            Answer::Session(n) => placeless(SESSION, u64::from(n)),
            Answer::Hit { at, length } => Numbers {
                word: HIT,
                detail: length as u64,
                place: at as u64,
            },
            Answer::Ask => placeless(ASK, 0),
            Answer::Backoff(wait) => placeless(BACKOFF, wait),
            Answer::Lease(n) => placeless(LEASE, u64::from(n)),
            Answer::Stored => placeless(STORED, 0),
            Answer::Ignored => placeless(IGNORED, 0),
            Answer::Held => placeless(HELD, 0),
            Answer::Granted => placeless(GRANTED, 0),
            Answer::Aborted => placeless(ABORTED, 0),
            Answer::Staged => placeless(STAGED, 0),
            Answer::Repeated => placeless(REPEATED, 0),
            Answer::Dropped => placeless(DROPPED, 0),
            Answer::Validated => placeless(VALIDATED, 0),
            Answer::Lost => placeless(LOST, 0),
            Answer::Done => placeless(DONE, 0),
            Answer::Undone => placeless(UNDONE, 0),
            Answer::Evicted => placeless(EVICTED, 0),
            Answer::Empty => placeless(EMPTY, 0),
            Answer::Ticked => placeless(TICKED, 0),
            Answer::Value(n) => placeless(VALUE, n as u64),
            Answer::None => placeless(NONE, 0),
            Answer::Refused(e) => placeless(REFUSED, u64::from(e.number())),
        }
    }
}
