// Rules 1, 3 and 4, tested on a command before it runs: the rule that it would break if it were answered with its word.
#![tactic(auto)]

ghost use Rattle.std.specs.Prelude.{◌≡◌, true, ◌<◌, if◌then◌else◌};
ghost use Rattle.machine.specs.Sizes.{row_count};
ghost use Rattle.machine.specs.State.{State, row_at};
ghost use Rattle.machine.specs.Test.{differs};
ghost use Rattle.layout.specs.Holds.{Holds};
ghost use Rattle.layout.specs.WellFormed.{well_formed};
ghost use Rattle.book.specs.Book.{registered, mark};
ghost use Rattle.risks.specs.Risks.{wrote_in, stale_in};
ghost use Rattle.risks.specs.Tests.{fill_risk, risk_of};

use book::Book;
use layout::Buffer;
use machine::Command;

// The rules by number.
// Kept: numbers, as in the crate `book`.
const FILL_RULE: u64 = 1;

const UNDO_RULE: u64 = 3;

const DONE_RULE: u64 = 4;

// Rule 1: the value is neither what the register holds nor what it held at the grant.
fn fill_risk(book: &Book, key: u64, value: &[u8]) -> u64
    ensures { result ≡ fill_risk book.now key value.now }
{
    if notes::is_registered(book, key, value) {
        return book::KEPT;
    }
    if notes::is_granted(book, key, value) {
        return book::KEPT;
    }
    FILL_RULE
}

// Rule 3: the register has written for the session.
fn wrote_for(cache: &Buffer, book: &Book, session: u64) -> bool
    ensures { (σ : State) → Holds cache.now σ → result ≡ wrote_in σ book.now session }
{
    let Some(i) = sessions::find(cache, session) else {
        return false;
    };
    u64::from(book::mark(book, i)) == session
}

// Rule 4, of row i: a value is staged in it for the session that is not the one that the register holds.
fn is_stale(cache: &Buffer, book: &Book, session: u64, i: usize) -> bool
    requires { i < row_count }
    ensures { (σ : State) → Holds cache.now σ → result ≡ differs (registered book.now) session (row_at σ i) }
{
    if u64::from(rows::session(cache, i)) != session {
        return false;
    }
    if rows::mark(cache, i) != layout::VALUED {
        return false;
    }
    let key = rows::key(cache, i) as u64;
    let at = layout::ROWS_FROM + i * layout::ROW_WIDTH + layout::ROW_VALUE;
    let end = at + rows::staged_length(cache, i);
    !notes::is_registered(book, key, &cache[at..end])
}

fn stale_for(cache: &Buffer, book: &Book, session: u64) -> bool
    ensures { (σ : State) → Holds cache.now σ → result ≡ stale_in σ book.now session }
{
    (0..layout::ROW_COUNT).any(|i| is_stale(cache, book, session, i))
}

fn done_risk(cache: &Buffer, book: &Book, session: u64) -> u64
    ensures { (σ : State) → Holds cache.now σ → result ≡ (if stale_in σ book.now session then 4 else 0) }
{
    if stale_for(cache, book, session) {
        return DONE_RULE;
    }
    book::KEPT
}

fn undo_risk(cache: &Buffer, book: &Book, session: u64) -> u64
    ensures { (σ : State) → Holds cache.now σ → result ≡ (if wrote_in σ book.now session then 3 else 0) }
{
    if wrote_for(cache, book, session) {
        return UNDO_RULE;
    }
    book::KEPT
}

// The rule that the command would break if it were answered with its word. A buffer that is not well formed is answered with a refusal.
pub fn risk(cache: &[u8], book: &Book, command: Command, value: &[u8]) -> u64
    ensures { well_formed cache.now ≡ true → result ≡ risk_of cache.now book.now command value.now }
{
    let Some(cache) = cache.as_array() else {
        return book::KEPT;
    };
    match command {
        Command::Begin => book::KEPT,
        Command::Get { .. } => book::KEPT,
        Command::Fill { key, .. } => fill_risk(book, key, value),
        Command::Quar { .. } => book::KEPT,
        Command::Stage { .. } => book::KEPT,
        Command::Delta { .. } => book::KEPT,
        Command::Validate { .. } => book::KEPT,
        Command::Done { session } => done_risk(cache, book, session),
        Command::Undo { session } => undo_risk(cache, book, session),
        Command::Evict { .. } => book::KEPT,
        Command::Tick => book::KEPT,
    }
}
