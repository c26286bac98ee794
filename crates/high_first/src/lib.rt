// Numbers in bytes, high byte first, and in two's complement: the one place where bytes become a number and a number becomes bytes.
//
// New here: upstream has no bytes. Document 01, "Log records" and "What must change shape": most significant first. A caller can rely on these:
// `put` writes every byte of the number or changes no byte of the room, and says which.

#![tactic(auto)]

ghost use Rattle.std.specs.Prelude.{◌≡◌, [], ◌∷◌, length};
ghost use Rattle.words.specs.HighFirst.{high_first, from_high_first};
ghost use Rattle.words.specs.Signed.{to_signed};
ghost use Rattle.high_first.specs.Place.{has_room, placed, word_at};

// Four bytes as a number, high byte first.
pub fn join(a: u8, b: u8, c: u8, d: u8) -> u32
    ensures { result ≡ from_high_first (a ∷ b ∷ c ∷ d ∷ []) }
{
    u32::from_be_bytes([a, b, c, d])
}

// The number that 32 bits stand for.
#[tactic(auto, unfolding(words::specs::Signed::to_signed))]
pub fn signed(bits: u32) -> i32
    ensures { result ≡ to_signed 31 bits }
{
    bits.cast_signed()
}

// The number in the four bytes from a place on; none where there are not four.
pub fn word_at(bytes: &[u8], at: usize) -> Option<u32>
    ensures { result ≡ word_at bytes.now «at» }
{
    let four = bytes.get(at..)?.first_chunk()?;
    Some(u32::from_be_bytes(*four))
}

// The low bytes of a number, as many as asked for, from a place of the room on. Says whether there was room; else no byte changes.
pub fn put(out: &mut [u8], at: usize, count: usize, number: u64) -> bool
    ensures fits { result ≡ has_room «at» «count» (length out.old) }
    ensures room { out.new ≡ placed «at» (high_first «count» «number») out.old }
{
    if out.len() < at || out.len() - at < count {
        return false;
    }
    let mut rest = number;
    for i in (0..count).rev() {
        out[at + i] = (rest % 256) as u8;
        rest /= 256;
    }
    true
}
