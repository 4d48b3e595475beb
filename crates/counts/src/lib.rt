// Counts in decimal bytes: read, written, raised and lowered.
#![tactic(auto)]

ghost use Rattle.std.specs.Prelude.{◌≡◌, ◌≤◌, length};
ghost use Rattle.counts.specs.Count.{read_count, extended, decimal_length, written, raised, lowered};

// The most digits a count has.
const DIGITS_MAX: usize = 20;

// The count a with the digit b behind it: None where b is no digit, or where it would pass the largest.
fn extend(a: u64, b: u8) -> Option<u64>
    ensures { result ≡ extended a b }
{
    if !b.is_ascii_digit() {
        return None;
    }
    a.checked_mul(10)?.checked_add(u64::from(b - b'0'))
}

// The count that v says: 1 to 20 digits and nothing else, at most 2^64 - 1.
pub fn read(v: &[u8]) -> Option<u64>
    ensures { result ≡ read_count v.now }
{
    if !(1..=DIGITS_MAX).contains(&v.len()) {
        return None;
    }
    let mut a = 0;
    for &b in v {
        a = extend(a, b)?;
    }
    Some(a)
}

// How many digits n has.
fn digits_of(n: u64) -> usize
    ensures { result ≡ decimal_length n }
{
    n.checked_ilog10().map_or(1, |power| power as usize + 1)
}

// Writes the w digits of n at the front of out, from the last to the first.
fn put(n: u64, w: usize, out: &mut [u8])
    requires { (w ≡ decimal_length n) × (w ≤ length out.old) }
    ensures { out.new ≡ (written n out.old).bytes }
{
    let mut left = n;
    // Kept: nothing is known of the bytes of `out` after `out[..w].iter_mut().rev()`.
    for i in (0..w).rev() {
        out[i] = b'0' + (left % 10) as u8;
        left /= 10;
    }
}

// The digits of n at the front of out, and their number; where they do not fit, out stays and the answer is 0.
pub fn write(n: u64, out: &mut [u8]) -> usize
    ensures { (result ≡ (written n out.old).number) × (out.new ≡ (written n out.old).bytes) }
{
    let w = digits_of(n);
    // Kept: the answer counts the bytes written, which are none where the digits do not fit; `written` has that number.
    if out.len() < w {
        return 0;
    }
    put(n, w, out);
    w
}

// The sum modulo 2^64.
pub fn increment(a: u64, b: u64) -> u64
    ensures { result ≡ raised a b }
{
    a.wrapping_add(b)
}

// The difference, or 0 where it would be below.
pub fn decrement(a: u64, b: u64) -> u64
    ensures { result ≡ lowered a b }
{
    a.saturating_sub(b)
}
