// The layout of the lent state's 65,536 bytes (docs/LAYOUT.md): where each table stands and how wide its records are; the search of a table
// by the number that its records start with, and the writing of a value.
#![tactic(auto)]

ghost use Rattle.std.specs.Prelude.{◌≡◌, [], ◌∷◌, ◌+◌, ◌*◌, ◌≤◌, length, Some, None};
ghost use Rattle.lent.specs.Bytes.{splice};
ghost use Rattle.lent.specs.Tables.{first};
ghost use Rattle.machine.specs.Sizes.{value_max};
ghost use Rattle.layout.specs.Layout.{padded};
ghost use Rattle.layout.specs.Search.{Below, starts_with};

pub const STATE_SIZE: usize = 65536;

// The lent state's bytes. The length is the type's, so that no function asks for it.
pub type Buffer = [u8; STATE_SIZE];

// The header: clock, read lifetime, write lifetime, next session, next token.
pub const CLOCK: usize = 0;

pub const READ_LIFE: usize = 8;

pub const WRITE_LIFE: usize = 12;

pub const NEXT_SESSION: usize = 16;

pub const NEXT_TOKEN: usize = 20;

// A key: 1 if a value is there, its length, token and deadline of its I lease, the value.
pub const KEYS_FROM: usize = 64;

pub const KEY_WIDTH: usize = 80;

pub const KEY_COUNT: usize = 256;

pub const KEY_LENGTH: usize = 1;

pub const KEY_TOKEN: usize = 4;

pub const KEY_UNTIL: usize = 8;

pub const KEY_VALUE: usize = 16;

// Mark and length of a value, in a key and in a row; token and deadline of an I lease.
pub const MARK_WIDTH: usize = 2;

pub const LEASE_WIDTH: usize = 12;

// A Q row: session, key, kind, what is staged, its length, the value.
pub const ROWS_FROM: usize = 20544;

pub const ROW_WIDTH: usize = 72;

pub const ROW_COUNT: usize = 384;

pub const ROW_KEY: usize = 4;

pub const ROW_KIND: usize = 5;

pub const ROW_STAGED: usize = 6;

pub const ROW_LENGTH: usize = 7;

pub const ROW_VALUE: usize = 8;

// The marks of a value that is there, cached or staged, and of DROP.
// Kept: marks are bytes of a fixed layout.
pub const VALUED: u8 = 1;

pub const DROPPED: u8 = 2;

// A session: number, 1 open or 2 sealed, count, deadline.
pub const SESSIONS_FROM: usize = 48192;

pub const SESSION_WIDTH: usize = 16;

pub const SESSION_COUNT: usize = 128;

pub const SESSION_LIFE: usize = 4;

// The marks of a session's life.
// Kept: they are bytes of a fixed layout.
pub const OPEN: u8 = 1;

pub const SEALED: u8 = 2;

// The byte behind the mark of a session's life, which is 0.
pub const SESSION_UNUSED: usize = 5;

pub const SESSION_STEPS: usize = 6;

pub const SESSION_UNTIL: usize = 8;

// A value takes at most this many bytes.
pub const VALUE_MAX: usize = 64;

// The place of the first of the `count` records of `width` bytes at `from` that starts with the number n.
pub fn find_number(s: &[u8], from: usize, width: usize, count: usize, n: u64) -> Option<usize>
    requires { (from + count * width ≤ length s.now) × (4 ≤ width) }
    ensures { (result ≡ first (starts_with s.now from width n) Some None 0 count) × Below count result }
{
    (0..count).find(|&i| lent::load_u32(s, from + i * width) as u64 == n)
}

// Two bytes.
pub fn store_pair(s: &mut [u8], at: usize, a: u8, b: u8)
    requires { at + 2 ≤ length s.old }
    ensures { s.new ≡ splice s.old at (a ∷ b ∷ []) }
{
    s[at] = a;
    s[at + 1] = b;
}

// A value in its 64 bytes, zero behind it.
pub fn store_value(s: &mut [u8], at: usize, v: &[u8])
    requires { (length v.now ≤ value_max) × (at + value_max ≤ length s.old) }
    ensures { s.new ≡ splice s.old at (padded v.now) }
{
    blocks::copy_in(s, at, v);
    let n = v.len();
    blocks::clear(s, at + n, VALUE_MAX - n);
}
