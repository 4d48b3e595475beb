// Lines of the rehearsal: what an input line says.
#![tactic(auto)]

ghost use Rattle.std.specs.Prelude.{◌≡◌, ◌≤◌, length, Some};
ghost use Rattle.lent.specs.Bytes.{splice};
ghost use Rattle.hex_text.specs.Hex.{length_read, value_read};
ghost use Rattle.lines.specs.Fields.{line_max, value_room, fields, fields_at, Ends, read_number, number, number_at, numbers, numbers_at, letter, letter_at, last_value, ending};
ghost use Rattle.lines.specs.Lines.{unvalued_any, shape_of, command_line, start_line, write_line, timed_line, line_by, read_line, Gives, GivesAny};

// What a line says. The number of a command is its place in the document's list and a to d are its own numbers, 0 where it has fewer;
// length is that of the value that stands at the front of the caller's buffer.
// Kept: `Unreadable` is one of them, since it is answered as they are; `acted` of the crate `rehearsal` and `line_told` of `rehearsed` cite it.
#[derive(Clone, Copy)]
pub enum Line {
    Unreadable,
    Start {
        read: u64,
        write: u64,
    },
    Write {
        session: u64,
        key: u64,
        length: usize,
    },
    Command {
        number: u64,
        time: u64,
        a: u64,
        b: u64,
        c: u64,
        d: u64,
        length: usize,
    },
}

// A command's place in the document's list, how many numbers follow its letter, and whether a value does.
#[derive(Clone, Copy)]
struct Shape {
    number: u64,
    numbers: u64,
    valued: bool,
}

// The most bytes of a line, and room for the value of any line.
const LINE_MAX: usize = 200;

const VALUE_ROOM: usize = 100;

const SPACE: u8 = b' ';

const ZERO: u8 = b'0';

// The letters that are no commands: a start and a register write.
const START: u8 = b'A';

const WRITE: u8 = b'C';

// The largest key.
const KEY_MAX: u64 = layout::KEY_COUNT as u64 - 1;

// Where the field that starts at a place ends: at the next space, or with the line.
fn field_end(line: &[u8], at: usize) -> usize
    requires { at ≤ length line.now }
    ensures { Ends line.now at result }
{
    let rest = &line[at..];
    match rest.iter().position(|&b| b == SPACE) {
        Some(n) => at + n,
        None => line.len(),
    }
}

// A number without a leading zero.
#[tactic(auto, using(std::proofs::lemmas::Bool::Decides::nat_tests), unfolding(crate::specs::Fields::read_number))]
fn count(text: &[u8]) -> Option<u64>
    ensures { result ≡ read_number text.now }
{
    if matches!(text, [ZERO, _, ..]) {
        return None;
    }
    counts::read(text)
}

// The field at a place as a number, where one is wanted, and the place of the next field.
#[tactic(auto, using(crate::proofs::Cutting::fields_past))]
fn number_at(line: &[u8], at: usize, wanted: bool) -> Option<(u64, usize)>
    requires { length line.now ≤ line_max }
    ensures { number wanted (fields_at line.now at) ≡ number_at line.now result }
{
    if !wanted {
        return Some((0, at));
    }
    if line.len() < at {
        return None;
    }
    let e = field_end(line, at);
    let n = count(&line[at..e])?;
    Some((n, e + 1))
}

// The k fields from a place on as numbers, at most four, and the place of the next field.
#[tactic(auto, unfolding(crate::specs::Fields::numbers))]
fn numbers(line: &[u8], at: usize, k: u64) -> Option<([u64; 4], usize)>
    requires { length line.now ≤ line_max }
    ensures { numbers k (fields_at line.now at) ≡ numbers_at line.now result }
{
    let (a, second) = number_at(line, at, 0 < k)?;
    let (b, third) = number_at(line, second, 1 < k)?;
    let (c, fourth) = number_at(line, third, 2 < k)?;
    let (d, next) = number_at(line, fourth, 3 < k)?;
    Some(([a, b, c, d], next))
}

// The field at a place as a letter, and the place of the next field.
fn letter_at(line: &[u8], at: usize) -> Option<(u8, usize)>
    requires { length line.now ≤ line_max }
    ensures { letter (fields_at line.now at) ≡ letter_at line.now result }
{
    if line.len() < at {
        return None;
    }
    let e = field_end(line, at);
    if e - at != 1 {
        return None;
    }
    Some((line[at], e + 1))
}

// The last field, at a place, as a value of at most `most` bytes.
fn last_value(line: &[u8], at: usize, most: usize, value: &mut [u8]) -> Option<usize>
    requires { (length line.now ≤ line_max) × (value_room ≤ length value.old) }
    ensures { (result ≡ length_read (last_value most (fields_at line.now at))) × (value.new ≡ splice value.old 0 (value_read (last_value most (fields_at line.now at)))) }
{
    if line.len() < at {
        return None;
    }
    let e = field_end(line, at);
    if e < line.len() {
        return None;
    }
    let n = hex_text::length(&line[at..e])?;
    if most < n {
        return None;
    }
    hex_text::read(&line[at..e], value)
}

// What follows a command's numbers, at a place: a value where one is wanted, and else nothing, which has no bytes.
fn ending(line: &[u8], at: usize, valued: bool, value: &mut [u8]) -> Option<usize>
    requires { (length line.now ≤ line_max) × (value_room ≤ length value.old) }
    ensures { (result ≡ length_read (ending valued (fields_at line.now at))) × (value.new ≡ splice value.old 0 (value_read (ending valued (fields_at line.now at)))) }
{
    if valued {
        return last_value(line, at, VALUE_ROOM, value);
    }
    if at <= line.len() {
        return None;
    }
    Some(0)
}

fn shaped(number: u64, numbers: u64, valued: bool) -> Option<Shape>
    ensures { result ≡ Some (record { number = number; numbers = numbers; valued = valued }) }
{
    Some(Shape {
        number,
        numbers,
        valued,
    })
}

#[tactic(auto, using(std::proofs::lemmas::Bool::Decides::nat_tests), unfolding(crate::specs::Lines::shape_of))]
fn shape_of(letter: u8) -> Option<Shape>
    ensures { result ≡ shape_of letter }
{
    match letter {
        b'B' => shaped(1, 0, false),
        b'G' => shaped(2, 2, false),
        b'F' => shaped(3, 2, true),
        b'Q' => shaped(4, 3, false),
        b'S' => shaped(5, 3, true),
        b'D' => shaped(6, 4, true),
        b'V' => shaped(7, 2, false),
        b'X' => shaped(8, 1, false),
        b'U' => shaped(9, 1, false),
        b'E' => shaped(10, 1, false),
        b'T' => shaped(11, 0, false),
        _ => None,
    }
}

// A command: what follows its letter from a place on.
fn command(line: &[u8], at: usize, time: u64, letter: u8, value: &mut [u8]) -> Option<Line>
    requires { (length line.now ≤ line_max) × (value_room ≤ length value.old) }
    ensures { GivesAny (command_line time (shape_of letter) (fields_at line.now at)) result value.old value.new }
{
    let shape = shape_of(letter)?;
    let ([a, b, c, d], next) = numbers(line, at, shape.numbers)?;
    let length = ending(line, next, shape.valued, value)?;
    Some(Line::Command {
        number: shape.number,
        time,
        a,
        b,
        c,
        d,
        length,
    })
}

// A start: what follows its letter from a place on.
#[tactic(auto, using(crate::proofs::Saying::at_end_in, crate::proofs::Saying::at_end_past), unfolding(crate::specs::Lines::start_line))]
fn start(line: &[u8], at: usize) -> Option<Line>
    requires { length line.now ≤ line_max }
    ensures { start_line (fields_at line.now at) ≡ unvalued_any result }
{
    let ([read, write, ..], next) = numbers(line, at, 2)?;
    if next <= line.len() {
        return None;
    }
    Some(Line::Start { read, write })
}

// A register write: what follows its letter from a place on.
fn register_write(line: &[u8], at: usize, value: &mut [u8]) -> Option<Line>
    requires { (length line.now ≤ line_max) × (value_room ≤ length value.old) }
    ensures { GivesAny (write_line (fields_at line.now at)) result value.old value.new }
{
    let ([session, key, ..], next) = numbers(line, at, 2)?;
    if KEY_MAX < key {
        return None;
    }
    let length = last_value(line, next, layout::VALUE_MAX, value)?;
    Some(Line::Write {
        session,
        key,
        length,
    })
}

// A line that begins with the time.
fn timed(line: &[u8], value: &mut [u8]) -> Option<Line>
    requires { (length line.now ≤ line_max) × (value_room ≤ length value.old) }
    ensures { GivesAny (timed_line (fields_at line.now 0)) result value.old value.new }
{
    let (time, second) = number_at(line, 0, true)?;
    let (letter, third) = letter_at(line, second)?;
    if letter == WRITE {
        return register_write(line, third, value);
    }
    command(line, third, time, letter, value)
}

// What a line says that is not too long.
fn said(line: &[u8], value: &mut [u8]) -> Option<Line>
    requires { (length line.now ≤ line_max) × (value_room ≤ length value.old) }
    ensures { GivesAny (line_by (letter (fields line.now)) (fields line.now)) result value.old value.new }
{
    let Some((first, second)) = letter_at(line, 0) else {
        return timed(line, value);
    };
    if first == START {
        return start(line, second);
    }
    timed(line, value)
}

// What a line says; the bytes of its value stand at the front of the buffer, and the rest of it stays. Where the line can't be read or
// carries no value, all of the buffer stays.
pub fn read(line: &[u8], value: &mut [u8]) -> Line
    requires { value_room ≤ length value.old }
    ensures { Gives (read_line line.now) result value.old value.new }
{
    if LINE_MAX < line.len() {
        return Line::Unreadable;
    }
    said(line, value).unwrap_or(Line::Unreadable)
}
