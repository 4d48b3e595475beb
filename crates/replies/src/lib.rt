// The rehearsal's output lines.
#![tactic(auto)]

ghost use Rattle.std.specs.Prelude.{◌≡◌, [], ◌∷◌, ◌+◌, ◌≤◌, length};
ghost use Rattle.lent.specs.Bytes.{splice};
ghost use Rattle.lent.specs.Text.{space};
ghost use Rattle.counts.specs.Count.{digits_max};
ghost use Rattle.hex_text.specs.Hex.{hex_of};
ghost use Rattle.machine.specs.Sizes.{value_max};
ghost use Rattle.replies.specs.Replies.{line_room, word_max, detail_max, name_of, printed, numbered, detailed, field, replied, ended};
ghost use Rattle.replies.specs.Puts.{Room, Put};

const SPACE: u8 = b' ';

const NEWLINE: u8 = b'\n';

const DASH: u8 = b'-';

// The rehearsal's own words, behind the cache's: a register write, and a line that can't be read.
// Kept: numbers, as the cache's words are.
pub const WRITTEN: u64 = 24;

pub const UNREADABLE: u64 = 25;

// The room that an output line is given; none takes more.
pub const LINE_ROOM: usize = 256;

// A word by its number; a number that has none is as the last.
#[tactic(auto, using(crate::proofs::Names::name_rest), unfolding(crate::specs::Replies::name_of, crate::specs::Replies::words))]
fn text_of(word: u64) -> &'static [u8]
    ensures { result.now ≡ name_of word }
{
    match word {
        words::REFUSED => b"REFUSED",
        words::READY => b"READY",
        words::SESSION => b"SESSION",
        words::HIT => b"HIT",
        words::ASK => b"ASK",
        words::BACKOFF => b"BACKOFF",
        words::LEASE => b"LEASE",
        words::STORED => b"STORED",
        words::IGNORED => b"IGNORED",
        words::HELD => b"HELD",
        words::GRANTED => b"GRANTED",
        words::ABORTED => b"ABORTED",
        words::STAGED => b"STAGED",
        words::REPEATED => b"REPEATED",
        words::DROPPED => b"DROPPED",
        words::VALIDATED => b"VALIDATED",
        words::LOST => b"LOST",
        words::DONE => b"DONE",
        words::UNDONE => b"UNDONE",
        words::EVICTED => b"EVICTED",
        words::EMPTY => b"EMPTY",
        words::TICKED => b"TICKED",
        words::VALUE => b"VALUE",
        words::NONE => b"NONE",
        WRITTEN => b"WRITTEN",
        _ => b"UNREADABLE",
    }
}

// Whether a number goes with a word.
fn numbered(word: u64) -> bool
    ensures { result ≡ numbered word }
{
    matches!(
        word,
        words::REFUSED | words::SESSION | words::BACKOFF | words::LEASE
    )
}

// Where the next byte of a line goes.
#[derive(Drop)]
struct Cursor<'a> {
    out: &'a mut [u8],
    at: usize,
}

impl<'a> Cursor<'a> {
    // One byte.
    fn byte(&mut self, b: u8)
        requires { Room self.old 1 }
        ensures { Put self.old (b ∷ []) self.new }
    {
        self.out[self.at] = b;
        self.at += 1;
    }

    // v and a byte behind it.
    fn text(&mut self, v: &[u8], after: u8)
        requires { Room self.old (length v.now + 1) }
        ensures { Put self.old (field v.now after) self.new }
    {
        blocks::copy_in(self.out, self.at, v);
        self.at += v.len();
        self.byte(after);
    }

    // A number.
    fn decimal(&mut self, n: u64)
        requires { Room self.old digits_max }
        ensures { Put self.old (printed n) self.new }
    {
        self.at += counts::write(n, &mut self.out[self.at..]);
    }

    // A number and a byte behind it.
    fn number(&mut self, n: u64, after: u8)
        requires { Room self.old (digits_max + 1) }
        ensures { Put self.old (field (printed n) after) self.new }
    {
        self.decimal(n);
        self.byte(after);
    }

    // A word and a space.
    fn name(&mut self, word: u64)
        requires { Room self.old (word_max + 1) }
        ensures { Put self.old (field (name_of word) space) self.new }
    {
        self.text(text_of(word), SPACE);
    }

    // A value in hex.
    fn hexed(&mut self, value: &[u8])
        requires { Room self.old (length (hex_of value.now)) }
        ensures { Put self.old (hex_of value.now) self.new }
    {
        self.at += hex_text::write(value, &mut self.out[self.at..]);
    }

    // What goes with a word.
    fn details(&mut self, word: u64, detail: u64, value: &[u8])
        requires { Room self.old detail_max × (length value.now ≤ value_max) }
        ensures { Put self.old (detailed word detail value.now) self.new }
    {
        if numbered(word) {
            self.decimal(detail);
        } else if word == words::HIT {
            self.hexed(value);
        } else {
            self.byte(DASH);
        }
    }

    // What goes with a word, and a space.
    fn detail_field(&mut self, word: u64, detail: u64, value: &[u8])
        requires { Room self.old (detail_max + 1) × (length value.now ≤ value_max) }
        ensures { Put self.old (field (detailed word detail value.now) space) self.new }
    {
        self.details(word, detail, value);
        self.byte(SPACE);
    }
}

// An output line at the front of out; its length.
pub fn reply(out: &mut [u8], line: u64, word: u64, detail: u64, value: &[u8], rule: u64) -> usize
    requires { (line_room ≤ length out.old) × (length value.now ≤ value_max) }
    ensures { (result ≡ length (replied line word detail value.now rule)) × (out.new ≡ splice out.old 0 (replied line word detail value.now rule)) }
{
    let mut cursor = Cursor { out, at: 0 };
    cursor.number(line, SPACE);
    cursor.name(word);
    cursor.detail_field(word, detail, value);
    cursor.number(rule, NEWLINE);
    cursor.at
}

// The end line at the front of out; its length.
pub fn end(out: &mut [u8], lines: u64, broken: u64) -> usize
    requires { line_room ≤ length out.old }
    ensures { (result ≡ length (ended lines broken)) × (out.new ≡ splice out.old 0 (ended lines broken)) }
{
    let mut cursor = Cursor { out, at: 0 };
    cursor.text(b"end", SPACE);
    cursor.number(lines, SPACE);
    cursor.number(broken, NEWLINE);
    cursor.at
}
