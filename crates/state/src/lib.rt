// Whether a lent buffer holds a well-formed state: the header, each record by itself, then what joins records.
#![tactic(auto)]

ghost use Rattle.std.specs.Prelude.{◌≡◌, true, false, ◌+◌, ◌-◌, ◌≤◌, ◌++◌, length, replicate, eqb, MatchOption, if◌then◌else◌};
ghost use Rattle.lent.specs.Bytes.{le64, le32, win};
ghost use Rattle.lent.specs.Tables.{all_zero};
ghost use Rattle.machine.specs.Sizes.{state_size, value_max, time_max};
ghost use Rattle.machine.specs.Words.{INCREMENTAL, is_kind};
ghost use Rattle.machine.specs.Sound.{lifetime};
ghost use Rattle.layout.specs.WellFormed.{well_formed};
ghost use Rattle.order.specs.Order.{side};
ghost use Rattle.joins.specs.Joins.{seat_count, Sessions};
ghost use Rattle.state.specs.Forms.{head_formed, fitted, value_formed, lease_formed, key_formed, staged_formed, row_formed, life_formed, session_formed, keys_fit, sessions_fit, rows_fit, tables_fit, state_formed};

use joins::Seating;
use layout::Buffer;

// The header's bytes that are used, and those behind them.
const HEAD_USED: usize = 24;

const HEAD_UNUSED: usize = layout::KEYS_FROM - HEAD_USED;

// Behind the tables, to the end of the buffer.
const REST_FROM: usize = layout::SESSIONS_FROM + layout::SESSION_COUNT * layout::SESSION_WIDTH;

const REST_SIZE: usize = layout::STATE_SIZE - REST_FROM;

// Twice the length of a value.
const MASKS: usize = layout::VALUE_MAX + layout::VALUE_MAX;

const LIFE_MAX: u32 = machine::LIFE_MAX as u32;

const STEP_MAX: u32 = machine::STEP_MAX as u32;

fn lifetime_at(s: &[u8], at: usize) -> bool
    requires { at + 4 ≤ length s.now }
    ensures { result ≡ lifetime (le32 s.now at) }
{
    (1..=LIFE_MAX).contains(&lent::load_u32(s, at))
}

fn head_formed(s: &Buffer) -> bool
    ensures { result ≡ head_formed s.now }
{
    if machine::TIME_MAX < lent::load_u64(s, layout::CLOCK) {
        return false;
    }
    if !lifetime_at(s, layout::READ_LIFE) {
        return false;
    }
    if !lifetime_at(s, layout::WRITE_LIFE) {
        return false;
    }
    if lent::load_u32(s, layout::NEXT_SESSION) < 1 {
        return false;
    }
    if lent::load_u32(s, layout::NEXT_TOKEN) < 1 {
        return false;
    }
    blocks::is_zero(s, HEAD_USED, HEAD_UNUSED)
}

// 64 bytes 0 before 64 of ones: those from 64 - n on keep, of the 64 at a value of n bytes, what stands behind it.
#[derive(Drop)]
struct Masks {
    bytes: [u8; MASKS],
    ghost filled: { bytes ≡ replicate value_max 0 ++ replicate value_max 255 },
}

impl Masks {
    fn new() -> Masks {
        let mut bytes: [u8; MASKS] = [0; MASKS];
        bytes[layout::VALUE_MAX..].fill(255);
        Masks { bytes }
    }
}

// Whether, of the 64 bytes at `at`, those from n on are all 0. All 64 are read whatever n is, so that nothing branches on it.
fn is_bare(r: &[u8], at: usize, n: usize, masks: &Masks) -> bool
    requires { (at + value_max ≤ length r.now) × (n ≤ value_max) }
    ensures { result ≡ all_zero (win r.now (at + n) (value_max - n)) }
{
    let from = layout::VALUE_MAX - n;
    let mut seen: u8 = 0;
    // Kept: one index at two offsets is plainer than a zip of two parts.
    for i in 0..layout::VALUE_MAX {
        seen |= r[at + i] & masks.bytes[from + i];
    }
    seen == 0
}

// A value of n bytes in the 64 at `at`, zero behind it.
fn is_fitted(r: &[u8], at: usize, n: usize, masks: &Masks) -> bool
    requires { at + value_max ≤ length r.now }
    ensures { result ≡ fitted r.now at n }
{
    if layout::VALUE_MAX < n {
        return false;
    }
    is_bare(r, at, n, masks)
}

// The mark and the length are one word. Without a value both are 0, so that all 64 bytes are behind it.
fn value_formed(r: &[u8; layout::KEY_WIDTH], masks: &Masks) -> bool
    ensures { result ≡ value_formed r.now }
{
    let word = lent::load_u32(r, 0);
    let mark = word % 256;
    if 1 < mark {
        return false;
    }
    let n = (word / 256) as usize;
    if mark as usize * layout::VALUE_MAX < n {
        return false;
    }
    is_bare(r, layout::KEY_VALUE, n, masks)
}

fn lease_formed(r: &[u8; layout::KEY_WIDTH], limit: u64, next: u32) -> bool
    ensures { result ≡ lease_formed limit next r.now }
{
    let token = lent::load_u32(r, layout::KEY_TOKEN);
    let until = lent::load_u64(r, layout::KEY_UNTIL);
    if token == 0 {
        return until == 0;
    }
    // Two tests: as one condition they take 10.9 of 100 more instructions of a light state's check.
    if next <= token {
        return false;
    }
    until <= limit
}

fn key_formed(r: &[u8; layout::KEY_WIDTH], limit: u64, next: u32, masks: &Masks) -> bool
    ensures { result ≡ key_formed limit next r.now }
{
    value_formed(r, masks) && lease_formed(r, limit, next)
}

// No value in a row: length and bytes are 0.
fn is_plain(r: &[u8; layout::ROW_WIDTH]) -> bool
    ensures { result ≡ all_zero (win r.now 7 (1 + value_max)) }
{
    r[layout::ROW_LENGTH] == 0 && blocks::is_zero(r, layout::ROW_VALUE, layout::VALUE_MAX)
}

// Whether a row of this kind may have the mark of a row without a value: nothing, or DROP.
fn is_marked(mark: u8, kind: u8) -> bool
    ensures { result ≡ (if eqb mark 2 then eqb kind INCREMENTAL else eqb mark 0) }
{
    match mark {
        layout::DROPPED => kind == machine::INCREMENTAL,
        _ => mark == 0,
    }
}

fn staged_formed(r: &[u8; layout::ROW_WIDTH], kind: u8, masks: &Masks) -> bool
    ensures { result ≡ staged_formed kind r.now }
{
    let mark = r[layout::ROW_STAGED];
    if mark == layout::VALUED {
        if kind < machine::REFRESH {
            return false;
        }
        return is_fitted(
            r,
            layout::ROW_VALUE,
            lent::index(r[layout::ROW_LENGTH]),
            masks,
        );
    }
    is_marked(mark, kind) && is_plain(r)
}

// A row's kind: those of the machine, from the first to the last.
fn is_kind(kind: u8) -> bool
    ensures { result ≡ is_kind kind }
{
    (machine::INVALIDATE..=machine::INCREMENTAL).contains(&kind)
}

fn row_formed(r: &[u8; layout::ROW_WIDTH], masks: &Masks) -> bool
    ensures { result ≡ row_formed r.now }
{
    if lent::load_u32(r, 0) == 0 {
        return blocks::is_zero(r, 0, layout::ROW_WIDTH);
    }
    let kind = r[layout::ROW_KIND];
    is_kind(kind) && staged_formed(r, kind, masks)
}

fn life_formed(r: &[u8; layout::SESSION_WIDTH], limit: u64) -> bool
    ensures { result ≡ life_formed limit r.now }
{
    let until = lent::load_u64(r, layout::SESSION_UNTIL);
    if r[layout::SESSION_LIFE] == layout::SEALED {
        return until == 0;
    }
    if r[layout::SESSION_LIFE] != layout::OPEN {
        return false;
    }
    until <= limit
}

fn session_formed(r: &[u8; layout::SESSION_WIDTH], limit: u64, next: u32) -> bool
    ensures { result ≡ session_formed limit next r.now }
{
    let number = lent::load_u32(r, 0);
    if number == 0 {
        return lent::load_u64(r, 0) == 0 && lent::load_u64(r, layout::SESSION_UNTIL) == 0;
    }
    // The pairs are those of the definition.
    number < next
        && (r[layout::SESSION_UNUSED] == 0
            && (lent::load_u16(r, layout::SESSION_STEPS) <= STEP_MAX && life_formed(r, limit)))
}

// The clock plus the lifetime at `life`, which no deadline may pass.
// Kept: that the clock is in range is one clause over the buffer; a type round the buffer that carries it would stand in the same contracts.
fn limit(s: &Buffer, life: usize) -> u64
    requires { (life + 4 ≤ state_size) × (le64 s.now 0 ≤ time_max) }
    ensures { result ≡ le64 s.now 0 + le32 s.now life }
{
    lent::load_u64(s, layout::CLOCK) + u64::from(lent::load_u32(s, life))
}

// Each key by itself, and tokens distinct: none met the mark of another, or they are put in order.
fn keys_fit(s: &Buffer, masks: &Masks) -> bool
    requires { le64 s.now 0 ≤ time_max }
    ensures { result ≡ keys_fit s.now }
{
    let until = limit(s, layout::READ_LIFE);
    let next = lent::load_u32(s, layout::NEXT_TOKEN);
    let mut marks: [u64; joins::MARK_WORDS] = [0; joins::MARK_WORDS];
    let mut met = false;
    for k in 0..layout::KEY_COUNT {
        let at = layout::KEYS_FROM + k * layout::KEY_WIDTH;
        let key = s[at..at + layout::KEY_WIDTH].as_array().unwrap();
        if !key_formed(key, until, next, masks) {
            return false;
        }
        met |= joins::token_meets(s, k, &mut marks);
    }
    if !met {
        return true;
    }
    joins::tokens_differ(s)
}

// Each session by itself, and numbers distinct: no two of one number meet at a seat, and those that found their seats taken are put in order.
fn sessions_fit(s: &Buffer, seating: &mut Seating) -> bool
    requires { (le64 s.now 0 ≤ time_max) × ((seating.old.numbers ≡ replicate side 0) × (seating.old.seats ≡ replicate seat_count 0)) }
    ensures { (result ≡ sessions_fit s.now) × (result ≡ true → Sessions s.now seating.new.numbers) }
{
    let until = limit(s, layout::WRITE_LIFE);
    let next = lent::load_u32(s, layout::NEXT_SESSION);
    let mut loose: [u32; order::SIDE] = [0; order::SIDE];
    let mut crowd: u32 = 0;
    for j in 0..layout::SESSION_COUNT {
        let at = layout::SESSIONS_FROM + j * layout::SESSION_WIDTH;
        let session = s[at..at + layout::SESSION_WIDTH].as_array().unwrap();
        if !session_formed(session, until, next) {
            return false;
        }
        if !seating.session_sits(s, j, &mut loose) {
            return false;
        }
        crowd |= loose[j];
    }
    if crowd == 0 {
        return true;
    }
    order::differ(&loose, layout::SESSION_COUNT, true, &mut seating.order)
}

// Each row by itself, and beside the sessions, its key and the rows before it.
fn rows_fit(s: &Buffer, masks: &Masks, seating: &Seating) -> bool
    requires { Sessions s.now seating.now.numbers }
    ensures { result ≡ rows_fit s.now }
{
    let mut words: [u64; joins::HOLDER_WORDS] = [0; joins::HOLDER_WORDS];
    for i in 0..layout::ROW_COUNT {
        let at = layout::ROWS_FROM + i * layout::ROW_WIDTH;
        let row = s[at..at + layout::ROW_WIDTH].as_array().unwrap();
        if !row_formed(row, masks) {
            return false;
        }
        if !seating.join(s, i, &mut words) {
            return false;
        }
    }
    true
}

// One table after the other, each read once: what joins its records is tested while they are at hand.
fn tables_fit(s: &Buffer) -> bool
    requires { le64 s.now 0 ≤ time_max }
    ensures { result ≡ tables_fit s.now }
{
    let mut seating = Seating::new();
    let masks = Masks::new();
    // The pairs are those of the definition.
    blocks::is_zero(s, REST_FROM, REST_SIZE)
        && (sessions_fit(s, &mut seating) && (keys_fit(s, &masks) && rows_fit(s, &masks, &seating)))
}

// Not inlined, so that a buffer of another length is refused before room is made on the stack for the check.
#[inline(never)]
fn state_formed(s: &Buffer) -> bool
    ensures { result ≡ state_formed s.now }
{
    head_formed(s) && tables_fit(s)
}

// The buffer, where it holds a well-formed state.
pub fn opened(s: &[u8]) -> Option<&Buffer>
    ensures { MatchOption result (well_formed s.now ≡ false) (λ b. (well_formed s.now ≡ true) × (b.now ≡ s.now)) }
{
    let buffer = s.as_array()?;
    if !state_formed(buffer) {
        return None;
    }
    Some(buffer)
}

pub fn well_formed(s: &[u8]) -> bool
    ensures { result ≡ well_formed s.now }
{
    opened(s).is_some()
}
