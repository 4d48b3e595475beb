// The notes of the book: what the register holds for each key, and what it held at the key's last grant.
#![tactic(auto)]

ghost use Rattle.std.specs.Prelude.{◌≡◌, ◌+◌, ◌≤◌, ◌<◌, min, length, get_or};
ghost use Rattle.lent.specs.Tables.{same};
ghost use Rattle.machine.specs.Sizes.{key_count, value_max};
ghost use Rattle.book.specs.Book.{note_at, note, with_note, registered, granted, with_registered, with_granted};

use book::Book;

const NOTES_FROM: usize = 32;

const NOTE_WIDTH: usize = 65;

const KEYS_END: u64 = layout::KEY_COUNT as u64;

// The length of the value in note i.
fn note_length(b: &Book, i: usize) -> usize
    requires { i < key_count + key_count }
    ensures { (result ≡ min (get_or b.now (note_at i) 0) value_max) × (result ≤ value_max) }
{
    let n = usize::from(b[NOTES_FROM + i * NOTE_WIDTH]);
    if n <= layout::VALUE_MAX {
        return n;
    }
    layout::VALUE_MAX
}

// Whether note i is the value.
fn note_is(b: &Book, i: usize, v: &[u8]) -> bool
    requires { i < key_count + key_count }
    ensures { result ≡ same v.now (note b.now i) }
{
    let n = note_length(b, i);
    let at = NOTES_FROM + i * NOTE_WIDTH + 1;
    let end = at + n;
    blocks::same(v, &b[at..end])
}

fn put_note(b: &mut Book, i: usize, v: &[u8])
    requires { (i < key_count + key_count) × (length v.now ≤ value_max) }
    ensures { b.new ≡ with_note b.old i v.now }
{
    let at = NOTES_FROM + i * NOTE_WIDTH;
    let n = v.len();
    lent::store_u8(b, at, n as u8);
    blocks::copy_in(b, at + 1, v);
}

// Note i also as note j, behind it.
fn copy_note(b: &mut Book, i: usize, j: usize)
    requires { (i < j) × (j < key_count + key_count) }
    ensures { b.new ≡ with_note b.old j (note b.old i) }
{
    let n = note_length(b, i);
    let from = NOTES_FROM + i * NOTE_WIDTH + 1;
    let to = NOTES_FROM + j * NOTE_WIDTH;
    lent::store_u8(b, to, n as u8);
    blocks::copy_within(b, from, to + 1, n);
}

// Whether the value is the one that the register holds for the key; what is no key has none, which is empty.
pub fn is_registered(b: &Book, key: u64, v: &[u8]) -> bool
    ensures { result ≡ same v.now (registered b.now key) }
{
    if KEYS_END <= key {
        return v.len() == 0;
    }
    note_is(b, key as usize, v)
}

// Whether it is the one that the register held at the key's last grant.
pub fn is_granted(b: &Book, key: u64, v: &[u8]) -> bool
    ensures { result ≡ same v.now (granted b.now key) }
{
    if KEYS_END <= key {
        return v.len() == 0;
    }
    note_is(b, layout::KEY_COUNT + key as usize, v)
}

// The register writes the value to the key.
pub fn write(b: &mut Book, key: u64, v: &[u8])
    requires { length v.now ≤ value_max }
    ensures { b.new ≡ with_registered b.old key v.now }
{
    if KEYS_END <= key {
        return;
    }
    put_note(b, key as usize, v);
}

// A grant on the key is noted with what the register holds.
pub fn grant(b: &mut Book, key: u64)
    ensures { b.new ≡ with_granted b.old key (registered b.old key) }
{
    if KEYS_END <= key {
        return;
    }
    let k = key as usize;
    copy_note(b, k, layout::KEY_COUNT + k);
}
