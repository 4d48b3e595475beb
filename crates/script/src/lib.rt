// The input of a rehearsal as it comes: its bytes are answered into an output buffer.
#![tactic(auto)]

ghost use Rattle.std.specs.Prelude.{◌≡◌, ◌+◌, ◌-◌, ◌≤◌, length, take};
ghost use Rattle.lent.specs.Bytes.{win};
ghost use Rattle.feed.specs.Held.{buffer, pushed, pushed_all};
ghost use Rattle.feed.specs.Answers.{byte};
ghost use Rattle.book.specs.Memory.{memory_of};
ghost use Rattle.replies.specs.Replies.{line_room};
ghost use Rattle.script.specs.Input.{answer_line, end_line, finished};
ghost use Rattle.script.specs.Buffers.{opened, HeldFits, Printed, Delivered, Stretched};

use feed::Taken;

// How many bytes of a line are held, and how many of the output are put.
#[derive(Clone, Copy)]
struct Place {
    held: usize,
    put: usize,
}

// The same, with the place of the chunk's next byte.
#[derive(Clone, Copy)]
pub struct Reached {
    pub from: usize,
    pub held: usize,
    pub put: usize,
}

// Answers a line into `out` at `put`; the place behind the answer.
fn answer(cache: &mut [u8], book: &mut [u8], line: &[u8], out: &mut [u8], put: usize) -> usize
    requires { put + line_room ≤ length out.old }
    ensures delivered { Delivered (answer_line (memory_of cache.old book.old) line.now) (memory_of cache.new book.new) out.old put out.new result }
    ensures upper_bound { result ≤ put + line_room }
{
    let until = put + replies::LINE_ROOM;
    let n = rehearsal::line(cache, book, line, &mut out[put..until]);
    put + n
}

// The end line into `out` at `put`; the place behind it.
fn end(book: &[u8], out: &mut [u8], put: usize) -> usize
    requires { put + line_room ≤ length out.old }
    ensures { Printed (end_line book.now) out.old put out.new result }
{
    let until = put + replies::LINE_ROOM;
    let n = rehearsal::end(book, &mut out[put..until]);
    put + n
}

// Takes a byte; where it ends a line, answers that line.
fn step(
    cache: &mut [u8],
    book: &mut [u8],
    line: &mut [u8],
    b: u8,
    out: &mut [u8],
    at: Place,
) -> Place
    requires { (at.put + line_room ≤ length out.old) × HeldFits line.old at.held }
    ensures delivered { Delivered (byte answer_line (opened cache.old book.old line.old at.held) b) (opened cache.new book.new line.new result.held) out.old at.put out.new result.put }
    ensures held_fits { HeldFits line.new result.held }
    ensures held_after { buffer line.new result.held ≡ pushed (buffer line.old at.held) b }
{
    let put = at.put;
    let taken = feed::push(line, at.held, b);
    match taken {
        Taken::Held(n) => Place { held: n, put },
        Taken::Line(n) => {
            let next = answer(cache, book, &line[..n], out, put);
            Place { held: 0, put: next }
        }
    }
}

// Takes bytes of the chunk from `from` on, while there is room for an answer.
pub fn stretch(
    cache: &mut [u8],
    book: &mut [u8],
    line: &mut [u8],
    held: usize,
    chunk: &[u8],
    from: usize,
    out: &mut [u8],
) -> Reached
    requires { (from ≤ length chunk.now) × HeldFits line.old held }
    ensures stretched { Stretched (opened cache.old book.old line.old held) chunk.now from result.from (opened cache.new book.new line.new result.held) out.old out.new result.put }
    ensures held_fits { HeldFits line.new result.held }
    ensures held_after { buffer line.new result.held ≡ pushed_all (buffer line.old held) (win chunk.now from (result.from - from)) }
{
    let mut at = Place { held, put: 0 };
    for i in from..chunk.len() {
        if out.len() - at.put < replies::LINE_ROOM {
            return Reached {
                from: i,
                held: at.held,
                put: at.put,
            };
        }
        at = step(cache, book, line, chunk[i], out, at);
    }
    Reached {
        from: chunk.len(),
        held: at.held,
        put: at.put,
    }
}

// The end of the input: an unended last line is answered, and the end line follows.
pub fn finish(cache: &mut [u8], book: &mut [u8], line: &[u8], held: usize, out: &mut [u8]) -> usize
    requires { (line_room + line_room ≤ length out.old) × HeldFits line.now held }
    ensures { Delivered (finished (memory_of cache.old book.old) (take held line.now)) (memory_of cache.new book.new) out.old 0 out.new result }
{
    if held == 0 {
        return end(book, out, 0);
    }
    let put = answer(cache, book, &line[..held], out, 0);
    end(book, out, put)
}
