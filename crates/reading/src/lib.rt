// What the programs do with bytes from outside: they read into a fixed room, and look at parts that may not be there.
//
// New here: upstream has no programs. No memory is asked for. A caller can rely on these: a part that is not there is empty, and a byte that is
// not there is 0.

#![tactic(auto)]

ghost use Rattle.std.specs.Prelude.{◌≡◌, ◌+◌, ◌≤◌, ◌<◌, [], ◌∷◌, length, take, drop, get_or, MatchResult, IfOk};
ghost use Rattle.std.specs.Io.KnownBytes.{Consumes, IsAtEnd};
ghost use Rattle.words.specs.HighFirst.{from_high_first};

use std::io;
use std::io::Read;

// A read that failed, and how many bytes stood over the front of the room before it.
#[derive(Clone, Copy, Debug)]
pub struct Failed {
    pub size: usize,
    pub error: io::Error,
}

// Reads until the room is full or the input ends, and says how many bytes stand over the front of the room. Where it is known what the input has
// left, these are the bytes that were read, also where a read failed, and after a room that is not full nothing is left.
pub fn fill<R: Read>(input: &mut R, room: &mut [u8]) -> Result<usize, Failed>
    ensures within { MatchResult result (λ size. size ≤ length room.new) (λ failed. failed.size ≤ length room.new) }
    ensures room { length room.new ≡ length room.old }
    ensures bytes { MatchResult result (λ size. Consumes (R.remaining input.old) (R.remaining input.new) (take size room.new))
        (λ failed. Consumes (R.remaining input.old) (R.remaining input.new) (take failed.size room.new)) }
    ensures end { IfOk result (λ size. size < length room.new → IsAtEnd (R.remaining input.new)) }
{
    let mut size = 0;
    while size < room.len() {
        match input.read(&mut room[size..]) {
            Ok(0) => break,
            Ok(more) => size += more,
            Err(error) => return Err(Failed { size, error }),
        }
    }
    Ok(size)
}

// The bytes up to a place, or all.
pub fn front_of(bytes: &[u8], end: usize) -> &[u8]
    ensures { result.now ≡ take «end» bytes.now }
{
    bytes.get(..end).unwrap_or(bytes)
}

// The bytes from a place on, or none.
pub fn rest_of(bytes: &[u8], at: usize) -> &[u8]
    ensures { result.now ≡ drop «at» bytes.now }
{
    bytes.get(at..).unwrap_or(&[])
}

// The byte at a place, or 0.
pub fn byte_at(bytes: &[u8], at: usize) -> u8
    ensures { result ≡ get_or bytes.now «at» 0 }
{
    bytes.get(at).copied().unwrap_or(0)
}

// Four bytes from a place on as a number, high byte first. Those that are not there are 0.
pub fn word_at(bytes: &[u8], at: usize) -> u32
    ensures { result
        ≡ from_high_first (get_or bytes.now «at» 0 ∷ get_or bytes.now («at» + 1) 0 ∷ get_or bytes.now («at» + 2) 0 ∷ get_or bytes.now («at» + 3) 0 ∷ []) }
{
    let word = rest_of(bytes, at);
    high_first::join(
        byte_at(word, 0),
        byte_at(word, 1),
        byte_at(word, 2),
        byte_at(word, 3),
    )
}
