// Bytes into lines: what came since the last newline is held in a buffer, at most one byte more than a line may have.
#![tactic(auto)]

ghost use Rattle.std.specs.Prelude.{◌≡◌};
ghost use Rattle.feed.specs.Held.{taken, line_after};

// The byte that ends a line.
const NEWLINE: u8 = b'\n';

// The most bytes that are held: one more than a line may have, so that a longer one stays too long.
pub const HELD_MAX: usize = 201;

// What a byte came to: so many bytes are held, or a line is whole, whose bytes are the ones held.
// Kept: an enum of its own, since both cases carry a count.
#[derive(Clone, Copy)]
pub enum Taken {
    Held(usize),
    Line(usize),
}

// Takes the next byte of the input, where `held` bytes are held at the front of `line`. Bytes for which there is no place are let go.
#[tactic(auto, using(std::proofs::lemmas::Bool::Decides::nat_tests), unfolding(crate::specs::Held::taken, crate::specs::Held::line_after))]
pub fn push(line: &mut [u8], held: usize, b: u8) -> Taken
    ensures { (result ≡ taken line.old held b) × (line.new ≡ line_after line.old held b) }
{
    if b == NEWLINE {
        return Taken::Line(held);
    }
    if HELD_MAX <= held || line.len() <= held {
        return Taken::Held(held);
    }
    line[held] = b;
    Taken::Held(held + 1)
}
