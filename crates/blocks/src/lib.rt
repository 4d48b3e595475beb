// Blocks of bytes of a lent buffer, cleared, copied and compared.
#![tactic(auto)]

ghost use Rattle.std.specs.Prelude.{◌≡◌, ◌+◌, ◌≤◌, length};
ghost use Rattle.lent.specs.Bytes.{splice, win, zeros};
ghost use Rattle.lent.specs.Tables.{all_zero, same};

// n bytes become 0.
pub fn clear(s: &mut [u8], at: usize, n: usize)
    requires { at + n ≤ length s.old }
    ensures { s.new ≡ splice s.old at (zeros n) }
{
    s[at..at + n].fill_with(|| 0);
}

// All of v at a place.
pub fn copy_in(s: &mut [u8], at: usize, v: &[u8])
    requires { at + length v.now ≤ length s.old }
    ensures { s.new ≡ splice s.old at v.now }
{
    // Kept: by places, since `copy_from_slice` calls memmove, and the library calls nothing of the host's.
    for (i, &byte) in v.iter().enumerate() {
        s[at + i] = byte;
    }
}

// The n bytes at `from` also at `to`; the two stretches may overlap. A copy that goes down starts with its first byte and one that goes up
// with its last, so that no byte is overwritten before it is read.
// Kept: loops, since an edit of std's `copy_within` was refused for its form: a right copy in two calls was too.
pub fn copy_within(s: &mut [u8], from: usize, to: usize, n: usize)
    requires { (from + n ≤ length s.old) × (to + n ≤ length s.old) }
    ensures { s.new ≡ splice s.old to (win s.old from n) }
{
    if to <= from {
        copy_down(s, from, to, n);
    } else {
        copy_up(s, from, to, n);
    }
}

fn copy_down(s: &mut [u8], from: usize, to: usize, n: usize)
    requires { (to ≤ from) × (from + n ≤ length s.old) }
    ensures { s.new ≡ splice s.old to (win s.old from n) }
{
    for i in 0..n {
        s[to + i] = s[from + i];
    }
}

fn copy_up(s: &mut [u8], from: usize, to: usize, n: usize)
    requires { (from ≤ to) × (to + n ≤ length s.old) }
    ensures { s.new ≡ splice s.old to (win s.old from n) }
{
    let mut i = n;
    while 0 < i {
        i -= 1;
        s[to + i] = s[from + i];
    }
}

// Whether two slices have the same bytes.
// Kept: a loop, since an edit of `==` was refused for its form: a right test of each pair by `zip` and `all` was too.
pub fn same(a: &[u8], b: &[u8]) -> bool
    ensures { result ≡ same a.now b.now }
{
    let n = a.len();
    if n != b.len() {
        return false;
    }
    let mut seen: u8 = 0;
    for i in 0..n {
        seen = seen | (a[i] ^ b[i]);
    }
    seen == 0
}

// Whether the n bytes at `from` are all 0. One byte of state and no branch, so that the loop runs on whole registers.
pub fn is_zero(s: &[u8], from: usize, n: usize) -> bool
    requires { from + n ≤ length s.now }
    ensures { result ≡ all_zero (win s.now from n) }
{
    s[from..from + n].iter().fold(0, |seen, &b| seen | b) == 0
}
