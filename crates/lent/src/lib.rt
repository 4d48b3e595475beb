// Bytes of a lent buffer: numbers at a place. Stretches are cleared, copied and compared by the crate `blocks`.
#![tactic(auto)]

ghost use Rattle.std.specs.Prelude.{◌≡◌, [], ◌∷◌, ◌+◌, ◌≤◌, ◌<◌, length};
ghost use Rattle.lent.specs.Bytes.{le16, bytes16, le32, bytes32, le64, bytes64, splice, win};

// A byte as a number to calculate with, and as an index.
// Kept: beside `from` the bound is said, which callers ask for, and the prover refuses their wrong programs by name.
pub fn wide(b: u8) -> u32
    ensures { (result ≡ b) × (result < 256) }
{
    u32::from(b)
}

pub fn index(b: u8) -> usize
    ensures { (result ≡ b) × (result < 256) }
{
    usize::from(b)
}

// The N bytes at a place.
#[tactic(auto, using(crate::proofs::Splice::part_win))]
fn bytes_at<const N: usize>(s: &[u8], at: usize) -> [u8; N]
    requires { at + N ≤ length s.now }
    ensures { result ≡ win s.now at N }
{
    let mut bytes = [0; N];
    bytes.copy_from_slice(&s[at..at + N]);
    bytes
}

// Numbers, least byte first.
#[tactic(auto, using(crate::proofs::Numbers::le16_read))]
pub fn load_u16(s: &[u8], at: usize) -> u32
    requires { at + 2 ≤ length s.now }
    ensures { (result ≡ le16 s.now at) × (result < 65536) }
{
    let [low, high]: [u8; 2] = bytes_at(s, at);
    wide(low) + wide(high) * 256
}

#[tactic(auto, using(crate::proofs::Numbers::le32_read))]
pub fn load_u32(s: &[u8], at: usize) -> u32
    requires { at + 4 ≤ length s.now }
    ensures { result ≡ le32 s.now at }
{
    u32::from_le_bytes(bytes_at(s, at))
}

#[tactic(auto, using(crate::proofs::Numbers::le64_read))]
pub fn load_u64(s: &[u8], at: usize) -> u64
    requires { at + 8 ≤ length s.now }
    ensures { result ≡ le64 s.now at }
{
    u64::from_le_bytes(bytes_at(s, at))
}

pub fn store_u8(s: &mut [u8], at: usize, v: u8)
    requires { at < length s.old }
    ensures { s.new ≡ splice s.old at (v ∷ []) }
{
    s[at] = v;
}

// The two low bytes of v.
#[tactic(auto, using(crate::proofs::Splice::part_splice))]
pub fn store_u16(s: &mut [u8], at: usize, v: u32)
    requires { at + 2 ≤ length s.old }
    ensures { s.new ≡ splice s.old at (bytes16 v) }
{
    s[at..at + 2].copy_from_slice(&v.to_le_bytes()[..2]);
}

#[tactic(auto, using(crate::proofs::Splice::part_splice))]
pub fn store_u32(s: &mut [u8], at: usize, v: u32)
    requires { at + 4 ≤ length s.old }
    ensures { s.new ≡ splice s.old at (bytes32 v) }
{
    s[at..at + 4].copy_from_slice(&v.to_le_bytes());
}

pub fn store_u64(s: &mut [u8], at: usize, v: u64)
    requires { at + 8 ≤ length s.old }
    ensures { s.new ≡ splice s.old at (bytes64 v) }
{
    s[at..at + 8].copy_from_slice(&v.to_le_bytes());
}
