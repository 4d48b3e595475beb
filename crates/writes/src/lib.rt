// A C line: the register's write, tested by rule 2 and marked for rule 3.
#![tactic(auto)]

ghost use Rattle.std.specs.Prelude.{◌≡◌, true, ℕ, ◌≤◌, ◌<◌, length, if◌then◌else◌};
ghost use Rattle.machine.specs.Sizes.{session_count, value_max};
ghost use Rattle.machine.specs.State.{State, session_place};
ghost use Rattle.machine.specs.Sound.{sound};
ghost use Rattle.layout.specs.Holds.{Holds};
ghost use Rattle.rules.specs.Says.{Says};
ghost use Rattle.writes.specs.Writes.{may_write, marked, writes, Writes};

use book::Book;
use layout::Buffer;
use rules::Said;

// Rule 2 by its number.
// Kept: a number, as in the crate `book`.
const WRITE_RULE: u64 = 2;

// Rule 2, of a write for the session at place i, which is marked whether it keeps the rule or not.
fn mark_write(cache: &Buffer, book: &mut Book, i: usize, key: u64) -> u64
    requires { i < session_count }
    ensures { (σ : State) → Holds cache.now σ → sound σ ≡ true → (n : ℕ) → session_place σ n ≡ i → Writes σ book.old n key i result book.new }
{
    let session = sessions::load(cache, i);
    let number = session.number;
    book::set_mark(book, i, number);
    if !session.is_sealed() {
        return WRITE_RULE;
    }
    let row = lookups::find(cache, u64::from(number), key as usize);
    match row {
        Some(_) => book::KEPT,
        None => WRITE_RULE,
    }
}

// On bytes that are not well formed no session is live.
fn note_write(cache: &[u8], book: &mut Book, session: u64, key: u64) -> u64
    ensures { (result ≡ (if may_write cache.now session key then 0 else 2)) × (book.new ≡ marked cache.now book.old session) }
{
    let Some(cache) = state::opened(cache) else {
        return WRITE_RULE;
    };
    let place = sessions::find(cache, session);
    match place {
        Some(i) => mark_write(cache, book, i, key),
        None => WRITE_RULE,
    }
}

// C: the register writes, whether it keeps rule 2 or not. The cache is read only.
pub fn write(cache: &[u8], book: &mut Book, session: u64, key: u64, value: &[u8]) -> Said
    requires { length value.now ≤ value_max }
    ensures { Says (writes cache.now book.old session key value.now) 0 result cache.now book.new }
{
    let rule = note_write(cache, book, session, key);
    notes::write(book, key, value);
    Said {
        word: replies::WRITTEN,
        detail: 0,
        at: 0,
        rule,
    }
}
