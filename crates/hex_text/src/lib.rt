// Values in lower-case hex, two digits a byte, with `-` for the empty value.
#![tactic(auto)]

ghost use Rattle.std.specs.Prelude.{◌≡◌, true, ◌*◌, ◌/◌, ◌≤◌, ◌<◌, length, SomeIff};
ghost use Rattle.lent.specs.Bytes.{splice};
ghost use Rattle.hex_text.specs.Hex.{digit_of, digits_of, hex_of, digit_value, all_digits, is_dash, is_hex, bytes_of, read_hex, length_read, value_read};

// The empty value.
const DASH: u8 = b'-';

// The number that a digit says.
#[tactic(auto, using(std::proofs::lemmas::Bool::Decides::nat_tests), unfolding(crate::specs::Hex::digit_value))]
fn digit(b: u8) -> Option<u8>
    ensures { SomeIff result (digit_value b < 16) (digit_value b) }
{
    match b {
        b'0'..=b'9' => Some(b - b'0'),
        b'a'..=b'f' => Some(10 + (b - b'a')),
        _ => None,
    }
}

fn is_dash(text: &[u8]) -> bool
    ensures { result ≡ is_dash text.now }
{
    matches!(text, [DASH])
}

fn all_digits(text: &[u8]) -> bool
    ensures { result ≡ all_digits text.now }
{
    text.iter().fold(true, |all, &b| all & digit(b).is_some())
}

fn is_hex(text: &[u8]) -> bool
    ensures { result ≡ is_hex text.now }
{
    !text.is_empty() && text.len() % 2 == 0 && all_digits(text)
}

// The bytes that the pairs of digits say, at the front of out.
fn fill(text: &[u8], out: &mut [u8])
    requires { (is_hex text.now ≡ true) × (length text.now / 2 ≤ length out.old) }
    ensures { out.new ≡ splice out.old 0 (bytes_of text.now) }
{
    let (pairs, _) = text.as_chunks::<2>();
    // Kept: by places, since nothing is known of the bytes of `out` after `pairs.iter().zip(out.iter_mut())`.
    for (i, &[high, low]) in pairs.iter().enumerate() {
        out[i] = digit(high).unwrap_or(0) * 16 + digit(low).unwrap_or(0);
    }
}

// How many bytes a text says.
pub fn length(text: &[u8]) -> Option<usize>
    ensures { result ≡ length_read (read_hex text.now) }
{
    if is_dash(text) {
        return Some(0);
    }
    if is_hex(text) {
        return Some(text.len() / 2);
    }
    None
}

// The bytes that a text says, at the front of out; where it says none, out stays.
pub fn read(text: &[u8], out: &mut [u8]) -> Option<usize>
    requires { length text.now / 2 ≤ length out.old }
    ensures { (result ≡ length_read (read_hex text.now)) × (out.new ≡ splice out.old 0 (value_read (read_hex text.now))) }
{
    if is_dash(text) {
        return Some(0);
    }
    if !is_hex(text) {
        return None;
    }
    fill(text, out);
    Some(text.len() / 2)
}

// The digit that says n.
fn digit_of(n: u8) -> u8
    requires { n < 16 }
    ensures { result ≡ digit_of n }
{
    if n < 10 {
        return b'0' + n;
    }
    b'a' + (n - 10)
}

// Two digits for each byte of v, at the front of out.
fn print(v: &[u8], out: &mut [u8])
    requires { 2 * length v.now ≤ length out.old }
    ensures { out.new ≡ splice out.old 0 (digits_of v.now) }
{
    // Kept: by places, since nothing is known of the bytes of `out` after `out.chunks_exact_mut(2)`.
    for (i, &b) in v.iter().enumerate() {
        out[2 * i] = digit_of(b / 16);
        out[2 * i + 1] = digit_of(b % 16);
    }
}

// What is printed of v, at the front of out, and its length.
pub fn write(v: &[u8], out: &mut [u8]) -> usize
    requires { length (hex_of v.now) ≤ length out.old }
    ensures { (result ≡ length (hex_of v.now)) × (out.new ≡ splice out.old 0 (hex_of v.now)) }
{
    if v.is_empty() {
        out[0] = DASH;
        return 1;
    }
    print(v, out);
    2 * v.len()
}
