// What is said of a line: START, and an answer with the rule that it breaks.
#![tactic(auto)]

ghost use Rattle.std.specs.Prelude.{◌≡◌, eqb, if◌then◌else◌};
ghost use Rattle.machine.specs.Words.{word_of};
ghost use Rattle.startup.specs.Start.{start_of};
ghost use Rattle.words.specs.Numbers.{place_of};
ghost use Rattle.rules.specs.Rules.{begins, noted};
ghost use Rattle.rules.specs.Says.{told, told_of, Says};
ghost use Rattle.rules.specs.Tests.{watched, asks_for};

use book::Book;
use machine::{Answer, Command};
use words::Numbers;

// A number that is no key, and a word that the cache does not have.
// Kept: `asks_for` and `watched` give a number for each command, and theorems cite them.
const NO_KEY: u64 = layout::KEY_COUNT as u64;

const NO_WORD: u64 = replies::UNREADABLE;

// What is said of a line: its word, what goes with it, where a HIT's value stands in the cache, and the rule broken or 0.
#[derive(Clone, Copy)]
pub struct Said {
    pub word: u64,
    pub detail: u64,
    pub at: usize,
    pub rule: u64,
}

fn tell(n: Numbers, rule: u64) -> Said
    ensures { result ≡ told n rule }
{
    Said {
        word: n.word,
        detail: n.detail,
        at: n.place as usize,
        rule,
    }
}

// A: START.
pub fn begin(cache: &mut [u8], book: &mut Book, read: u64, write: u64) -> Said
    ensures { Says (begins cache.old book.old read write) (place_of (start_of cache.old read write).answer) result cache.new book.new }
{
    let answer = startup::start(cache, read, write);
    let n = Numbers::from(answer);
    if n.word != words::READY {
        return tell(n, book::KEPT);
    }
    book::set_started(book);
    tell(n, book::KEPT)
}

// The word at which a command's rule counts.
fn watched(command: Command) -> u64
    ensures { result ≡ watched command }
{
    match command {
        Command::Begin => NO_WORD,
        Command::Get { .. } => NO_WORD,
        Command::Fill { .. } => words::STORED,
        Command::Quar { .. } => NO_WORD,
        Command::Stage { .. } => NO_WORD,
        Command::Delta { .. } => NO_WORD,
        Command::Validate { .. } => NO_WORD,
        Command::Done { .. } => words::DONE,
        Command::Undo { .. } => words::UNDONE,
        Command::Evict { .. } => NO_WORD,
        Command::Tick => NO_WORD,
    }
}

// The key on which a command can be granted an I lease.
fn asks_for(command: Command) -> u64
    ensures { result ≡ asks_for command }
{
    match command {
        Command::Begin => NO_KEY,
        Command::Get { key, .. } => key,
        Command::Fill { .. } => NO_KEY,
        Command::Quar { .. } => NO_KEY,
        Command::Stage { .. } => NO_KEY,
        Command::Delta { .. } => NO_KEY,
        Command::Validate { .. } => NO_KEY,
        Command::Done { .. } => NO_KEY,
        Command::Undo { .. } => NO_KEY,
        Command::Evict { .. } => NO_KEY,
        Command::Tick => NO_KEY,
    }
}

// A grant is noted with what the register then holds.
fn note_grant(book: &mut Book, command: Command, word: u64)
    ensures { book.new ≡ noted book.old command word }
{
    if word != words::LEASE {
        return;
    }
    notes::grant(book, asks_for(command));
}

fn rule_of(command: Command, word: u64, risk: u64) -> u64
    ensures { result ≡ (if eqb word (watched command) then risk else 0) }
{
    if word == watched(command) {
        return risk;
    }
    book::KEPT
}

// Any other letter, once its command has been answered: the answer is told with the rule that counts at its word, and a grant noted.
pub fn conclude(book: &mut Book, command: Command, answer: Answer, risk: u64) -> Said
    ensures { (result ≡ told_of answer (if eqb (word_of answer) (watched command) then risk else 0)) × (book.new ≡ noted book.old command (word_of answer)) }
{
    let n = Numbers::from(answer);
    note_grant(book, command, n.word);
    tell(n, rule_of(command, n.word, risk))
}
