// The words of the machine: commands, answers, the session record with its methods, and the decision table.
#![tactic(auto)]

ghost use Rattle.std.specs.Prelude.{◌≡◌, ◌<◌};
ghost use Rattle.machine.specs.Session.{opened, step_of, sealed, is_sealed, is_due, validation_of};
ghost use Rattle.machine.specs.Sizes.{step_max};
ghost use Rattle.machine.specs.Words.{refusal_number};

// 01, "Refusal numbers", in their order.
#[derive(Clone, Copy, PartialEq, Eq, Debug)]
pub enum Refusal {
    State,
    Clock,
    Arg,
    Long,
    NoSession,
    Sealed,
    NotSealed,
    NoLease,
    Kind,
    Ahead,
    Full,
    Room,
    Numbers,
}

impl Refusal {
    pub fn number(self) -> u8
        ensures { result ≡ refusal_number self }
    {
        match self {
            Refusal::State => 1,
            Refusal::Clock => 2,
            Refusal::Arg => 3,
            Refusal::Long => 4,
            Refusal::NoSession => 5,
            Refusal::Sealed => 6,
            Refusal::NotSealed => 7,
            Refusal::NoLease => 8,
            Refusal::Kind => 9,
            Refusal::Ahead => 10,
            Refusal::Full => 11,
            Refusal::Room => 12,
            Refusal::Numbers => 13,
        }
    }
}

// 01, "The state and its numbers": the most staging steps, a lifetime's ends in ms, the last time, the largest next number.
pub const STEP_MAX: u64 = 1000;

pub const LIFE_MIN: u64 = 1;

pub const LIFE_MAX: u64 = 600000;

pub const TIME_MAX: u64 = 281474976710655;

pub const NUMBER_MAX: u32 = 4294967295;

// Kinds of quarantine.
// Kept: the document's rows and commands carry a kind as a number, and test it by a range.
pub const INVALIDATE: u8 = 1;

pub const REFRESH: u8 = 2;

pub const INCREMENTAL: u8 = 3;

// A command with its numbers, each of 64 bits; the value of FILL, STAGE and DELTA stands beside it.
#[derive(Clone, Copy)]
pub enum Command {
    Begin,
    Get {
        session: u64,
        key: u64,
    },
    Fill {
        token: u64,
        key: u64,
    },
    Quar {
        session: u64,
        key: u64,
        kind: u64,
    },
    Stage {
        session: u64,
        step: u64,
        key: u64,
    },
    Delta {
        session: u64,
        step: u64,
        key: u64,
        operation: u64,
    },
    Validate {
        session: u64,
        count: u64,
    },
    Done {
        session: u64,
    },
    Undo {
        session: u64,
    },
    Evict {
        key: u64,
    },
    Tick,
}

// An answer with its numbers. HIT says where the value stands in the lent state and its length; VALUE and NONE are SHOW's.
#[derive(Clone, Copy)]
pub enum Answer {
    Ready,
    Session(u32),
    Hit { at: usize, length: usize },
    Ask,
    Backoff(u64),
    Lease(u32),
    Stored,
    Ignored,
    Held,
    Granted,
    Aborted,
    Staged,
    Repeated,
    Dropped,
    Validated,
    Lost,
    Done,
    Undone,
    Evicted,
    Empty,
    Ticked,
    Value(usize),
    None,
    Refused(Refusal),
}

// Open until a deadline, or sealed with none.
// Kept: no `Option`, since the document asks for an enum of a session's life, with methods by value.
#[derive(Clone, Copy)]
pub enum Life {
    Open(u64),
    Sealed,
}

#[derive(Clone, Copy)]
pub struct Session {
    pub number: u32,
    pub life: Life,
    pub count: u32,
}

// What a step number asks of a session.
#[derive(Clone, Copy)]
pub enum Step {
    Repeats,
    Acts(Session),
    Ahead,
}

// What VALIDATE finds: the sealed record, a count that differs, or a sealed session with another count.
#[derive(Clone, Copy)]
pub enum Validation {
    Seals(Session),
    Loses,
    Clashes,
}

impl Session {
    pub fn open(number: u32, until: u64) -> Session
        ensures { result ≡ opened number until }
    {
        Session {
            number,
            life: Life::Open(until),
            count: 0,
        }
    }

    // A step below the count is a repeat, one above it is ahead, and an equal one adds one to the count.
    pub fn step(self, step: u64) -> Step
        requires { step < step_max }
        ensures { result ≡ step_of self step }
    {
        let count = u64::from(self.count);
        if step < count {
            return Step::Repeats;
        }
        if count < step {
            return Step::Ahead;
        }
        Step::Acts(Session {
            count: self.count + 1,
            ..self
        })
    }

    fn seal(self) -> Session
        ensures { result ≡ sealed self }
    {
        Session {
            life: Life::Sealed,
            ..self
        }
    }

    pub fn is_sealed(self) -> bool
        ensures { result ≡ is_sealed self }
    {
        matches!(self.life, Life::Sealed)
    }

    // Open with its deadline at or before now.
    pub fn due(self, now: u64) -> bool
        ensures { result ≡ is_due now self }
    {
        match self.life {
            Life::Open(until) => until <= now,
            Life::Sealed => false,
        }
    }

    pub fn validate(self, n: u64) -> Validation
        ensures { result ≡ validation_of self n }
    {
        let count = u64::from(self.count);
        if n == count {
            return Validation::Seals(self.seal());
        }
        if self.is_sealed() {
            return Validation::Clashes;
        }
        Validation::Loses
    }
}

// What the decision table says.
#[derive(Clone, Copy)]
pub enum Verdict {
    Grant,
    Void,
    BackOff,
    Abort,
}
