// The rehearsal: lines from standard input, an output line for each to standard output, and the end line.
//
// No contract can say which bytes a read or a write moves, so what is proved speaks of the buffers. Whatever the reads put into the chunk: the cache,
// the book and the held bytes after a turn are those of all these bytes in a row; what a write is handed is the text of the bytes that it answers
// (`script::stretch`); and where the input ends, all the texts in a row are the text of the rehearsal of all that was read (`Rehearsed`). Not proved:
// that what is read is the input, and that what a write is handed is written once and in order, which is what the reader and the writer are for.
//
// Each answer is written and flushed before more is read. A read or a write that fails ends the program with what was written so far, and with no end
// line; standard error says so.
#![tactic(auto)]

ghost use Rattle.std.specs.Prelude.{◌≡◌, ◌+◌, ◌≤◌, OnOk, length};
ghost use Rattle.std.specs.Io.KnownBytes.{Appends};
ghost use Rattle.feed.specs.Lines.{held_max};
ghost use Rattle.book.specs.Memory.{memory_of};
ghost use Rattle.replies.specs.Replies.{line_room};
ghost use Rattle.script.specs.Buffers.{opened, HeldFits};
ghost use Rattle.rehearse.specs.Turns.{Poured, Turned, Rehearsed};

use std::io;
use std::io::{Read, Write};

const CHUNK: usize = 32768;

const OUT: usize = 32768;

// Writes a text, and sends on what the writer holds back.
fn write_out<W: Write>(writer: &mut W, text: &[u8]) -> io::Result<()>
    ensures { OnOk result (Appends (W.contents writer.old) (W.contents writer.new) text.now) }
{
    writer.write_all(text)?;
    writer.flush()
}

// Answers a chunk: so many bytes of a line are held then. Each answer is written before more is read.
fn pour<W: Write>(
    writer: &mut W,
    cache: &mut [u8],
    book: &mut [u8],
    line: &mut [u8],
    held: usize,
    chunk: &[u8],
    out: &mut [u8],
) -> io::Result<usize>
    requires { (line_room ≤ length out.old) × HeldFits line.old held }
    ensures { Poured (opened cache.old book.old line.old held) chunk.now (opened cache.new book.new line.new) result }
{
    let mut held = held;
    let mut from = 0;
    // Kept: a round takes as much of the chunk as there is room for.
    while from < chunk.len() {
        let at = script::stretch(cache, book, line, held, chunk, from, out);
        write_out(writer, &out[..at.put])?;
        held = at.held;
        from = at.from;
    }
    Ok(held)
}

// Reads once and answers what came: so many bytes of a line are held then, or the input has ended.
fn turn<R: Read, W: Write>(
    reader: &mut R,
    writer: &mut W,
    cache: &mut [u8],
    book: &mut [u8],
    line: &mut [u8],
    held: usize,
    chunk: &mut [u8],
    out: &mut [u8],
) -> io::Result<Option<usize>>
    requires { (line_room ≤ length out.old) × HeldFits line.old held }
    ensures { Turned (opened cache.old book.old line.old held) held chunk.new (opened cache.new book.new line.new) result }
{
    let n = reader.read(chunk)?;
    if n == 0 {
        return Ok(None);
    }
    let held = pour(writer, cache, book, line, held, &chunk[..n], out)?;
    Ok(Some(held))
}

// Reads to the end of the input, and writes the end line. False where a read or a write has failed.
// Kept: a bool, since after as many turns as a u64 counts there is no error to hand on.
fn rehearse<R: Read, W: Write>(
    reader: &mut R,
    writer: &mut W,
    cache: &mut [u8],
    book: &mut [u8],
    line: &mut [u8],
    chunk: &mut [u8],
    out: &mut [u8],
) -> bool
    requires { (line_room + line_room ≤ length out.old) × (length line.old ≡ held_max) }
    ensures { Rehearsed (memory_of cache.old book.old) (memory_of cache.new book.new) out.new result }
{
    let mut held = 0;
    for _ in 0..u64::MAX {
        match turn(reader, writer, cache, book, line, held, chunk, out) {
            Ok(Some(next)) => {
                held = next;
            }
            Ok(None) => {
                let put = script::finish(cache, book, line, held, out);
                return write_out(writer, &out[..put]).is_ok();
            }
            Err(_) => {
                return false;
            }
        }
    }
    false
}

fn main(rt: HostRuntime) {
    let mut cache = [0u8; layout::STATE_SIZE];
    let mut book = [0u8; book::BOOK_SIZE];
    let mut line = [0u8; feed::HELD_MAX];
    let mut chunk = [0u8; CHUNK];
    let mut out = [0u8; OUT];
    let mut reader = rt.stdin();
    let mut writer = rt.stdout();
    if !rehearse(
        &mut reader,
        &mut writer,
        &mut cache,
        &mut book,
        &mut line,
        &mut chunk,
        &mut out,
    ) {
        let _ = rt.eprintln("rehearse: a read or a write failed");
    }
}
