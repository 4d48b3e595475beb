// The rehearsal: one line of input on the cache's bytes and the book, and the line that is printed of it.
#![tactic(auto)]

ghost use Rattle.std.specs.Prelude.{◌≡◌, [], ℕ, ◌≤◌, leb, length};
ghost use Rattle.machine.specs.Sizes.{value_max};
ghost use Rattle.words.specs.Numbers.{place_of};
ghost use Rattle.cache.specs.Run.{ran};
ghost use Rattle.rules.specs.Rules.{commands};
ghost use Rattle.rules.specs.Says.{Says};
ghost use Rattle.lines.specs.Fields.{line_max};
ghost use Rattle.lines.specs.declared.Line.{Line};
ghost use Rattle.replies.specs.Replies.{line_room};
ghost use Rattle.rehearsal.specs.Rehearsal.{commanded, acted, said_of, line_of, end_of, Leaves};
ghost use Rattle.rehearsal.specs.Saying.{not_read, Within, Prints};

use book::Book;
use lines::Line;
use machine::Command;
use rules::Said;

// Room for the value of any line.
const VALUE_ROOM: usize = 200;

// "Any other line is UNREADABLE and changes nothing".
fn unreadable() -> Said
    ensures { result ≡ not_read }
{
    Said {
        word: replies::UNREADABLE,
        detail: 0,
        at: 0,
        rule: book::KEPT,
    }
}

// An A line, which comes first and once.
fn start(cache: &mut [u8], book: &mut Book, read: u64, write: u64) -> Said
    ensures { Says (acted cache.old book.old (Line.Start read write) []) result.at result cache.new book.new }
{
    if book::started(book) {
        return unreadable();
    }
    rules::begin(cache, book, read, write)
}

// A C line.
fn write(cache: &mut [u8], book: &mut Book, session: u64, key: u64, value: &[u8]) -> Said
    requires { length value.now ≤ value_max }
    ensures { (l : ℕ) → Says (acted cache.old book.old (Line.Write session key l) value.now) result.at result cache.new book.new }
{
    if !book::started(book) {
        return unreadable();
    }
    writes::write(cache, book, session, key, value)
}

// A command at its time, with its value. What rules 3 and 4 look at is read before the command changes it.
fn run(cache: &mut [u8], book: &mut Book, time: u64, command: Command, value: &[u8]) -> Said
    ensures { Says (commands cache.old book.old time command value.now) (place_of (ran cache.old time command value.now).answer) result cache.new book.new }
{
    let risk = risks::risk(cache, book, command, value);
    let answer = cache::run(cache, time, command, value);
    rules::conclude(book, command, answer, risk)
}

// A command's line.
fn command(
    cache: &mut [u8],
    book: &mut Book,
    time: u64,
    command: Option<Command>,
    value: &[u8],
) -> Said
    ensures { Says (commanded cache.old book.old time command value.now) result.at result cache.new book.new }
{
    if !book::started(book) {
        return unreadable();
    }
    match command {
        Some(command) => run(cache, book, time, command, value),
        None => unreadable(),
    }
}

// What the line does, and what is said of it.
fn act(cache: &mut [u8], book: &mut Book, line: &[u8], value: &mut [u8]) -> Said
    requires { length value.old ≡ line_max }
    ensures { Says (said_of cache.old book.old line.now) result.at result cache.new book.new }
{
    let read = lines::read(line, value);
    match read {
        Line::Unreadable => unreadable(),
        Line::Start { read, write } => start(cache, book, read, write),
        Line::Write {
            session,
            key,
            length,
        } => write(cache, book, session, key, &value[..length]),
        Line::Command {
            number,
            time,
            a,
            b,
            c,
            d,
            length,
        } => command(
            cache,
            book,
            time,
            numbered::command_of(number, a, b, c, d),
            &value[..length],
        ),
    }
}

// The line is counted, and what is said of it printed.
fn say(cache: &[u8], book: &mut Book, said: Said, out: &mut [u8]) -> usize
    requires { (line_room ≤ length out.old) × Within said cache.now }
    ensures { Prints said cache.now book.old out.old result book.new out.new }
{
    book::count(book, said.rule);
    let n = book::lines(book);
    let word = said.word;
    if word != words::HIT {
        return replies::reply(out, n, word, said.detail, &cache[..0], said.rule);
    }
    let at = said.at;
    let end = at + said.detail as usize;
    replies::reply(out, n, word, said.detail, &cache[at..end], said.rule)
}

// Room for an output line.
fn has_room(out: &[u8]) -> bool
    ensures { result ≡ leb line_room (length out.now) }
{
    replies::LINE_ROOM <= out.len()
}

// One line of input: the output line at the front of `out`, with its newline, and its length. A book of zeros is a new one. Where the book has not its size, or
// `out` no room for a line, nothing is done and the length is 0.
pub fn line(cache: &mut [u8], book: &mut [u8], line: &[u8], out: &mut [u8]) -> usize
    ensures { Leaves (line_of cache.old book.old line.now out.old) result cache.new book.new out.new }
{
    let Some(book) = book.as_mut_array() else {
        return 0;
    };
    if !has_room(out) {
        return 0;
    }
    let mut value: [u8; VALUE_ROOM] = [0; VALUE_ROOM];
    let said = act(cache, book, line, &mut value);
    say(cache, book, said, out)
}

// The end line: lines read, and lines with a rule broken.
pub fn end(book: &[u8], out: &mut [u8]) -> usize
    ensures { (result ≡ (end_of book.now out.old).length) × (out.new ≡ (end_of book.now out.old).out) }
{
    let Some(book) = book.as_array() else {
        return 0;
    };
    if !has_room(out) {
        return 0;
    }
    let lines = book::lines(book);
    let broken = book::broken(book);
    replies::end(out, lines, broken)
}
