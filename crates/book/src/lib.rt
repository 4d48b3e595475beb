// The book: what the rehearsal remembers beside the cache. Its values, the notes, are read and written by the crate `notes`.
#![tactic(auto)]

ghost use Rattle.std.specs.Prelude.{◌≡◌, ◌<◌};
ghost use Rattle.machine.specs.Sizes.{session_count};
ghost use Rattle.book.specs.Book.{started, with_started, lines_in, broken_in, mark, with_mark, counted};

pub const BOOK_SIZE: usize = 33824;

// The book's bytes. The length is the type's, so that no function asks for it.
pub type Book = [u8; BOOK_SIZE];

// The rule that a line breaks where it breaks none.
// Kept: a rule is told by its number, as its column prints it and the definitions say it (`risk_of`, `rule_of`).
pub const KEPT: u64 = 0;

const STARTED_AT: usize = 0;

const LINES_AT: usize = 8;

const BROKEN_AT: usize = 16;

const MARKS_FROM: usize = 33312;

const MARK_WIDTH: usize = 4;

// START has answered READY.
pub fn started(b: &Book) -> bool
    ensures { result ≡ started b.now }
{
    b[STARTED_AT] != 0
}

pub fn set_started(b: &mut Book)
    ensures { b.new ≡ with_started b.old }
{
    lent::store_u8(b, STARTED_AT, 1);
}

// The lines read, and those with a rule broken.
pub fn lines(b: &Book) -> u64
    ensures { result ≡ lines_in b.now }
{
    lent::load_u64(b, LINES_AT)
}

pub fn broken(b: &Book) -> u64
    ensures { result ≡ broken_in b.now }
{
    lent::load_u64(b, BROKEN_AT)
}

// One line more is read, which breaks the rule of that number.
pub fn count(b: &mut Book, rule: u64)
    ensures { b.new ≡ counted b.old rule }
{
    let n = std::num::wrapping_add_u64(lines(b), 1);
    lent::store_u64(b, LINES_AT, n);
    if rule == KEPT {
        return;
    }
    let m = std::num::wrapping_add_u64(broken(b), 1);
    lent::store_u64(b, BROKEN_AT, m);
}

// The last session at place i for which the register has written.
pub fn mark(b: &Book, i: usize) -> u32
    requires { i < session_count }
    ensures { result ≡ mark b.now i }
{
    lent::load_u32(b, MARKS_FROM + i * MARK_WIDTH)
}

pub fn set_mark(b: &mut Book, i: usize, n: u32)
    requires { i < session_count }
    ensures { b.new ≡ with_mark b.old i n }
{
    lent::store_u32(b, MARKS_FROM + i * MARK_WIDTH, n);
}
