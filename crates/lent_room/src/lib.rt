// Answers in lent room: the code goes back to the caller, and on OK the value stands over the front of the room, high byte first.
//
// New here. Document 01, "What must change shape": word 8 bytes, mask 4, yes or no 1, a decoding thread 8 then CPU 1. A caller can rely on
// these: ENOMEM is tested last, a refusal changes no byte, and bytes past the value stay.

#![tactic(auto)]

ghost use Rattle.std.specs.Prelude.{◌≡◌, ℕ, List, length};
ghost use Rattle.error.specs.Answer.{says};
ghost use Rattle.high_first.specs.Place.{has_room, placed};
ghost use Rattle.lent_room.specs.Room.{
  word_bytes,
  mask_bytes,
  yes_no_bytes,
  held_bytes,
  as_bytes,
  call_code,
  call_room,
};

use error::Refusal;
use spinlock_validate::Held;

// A kind of value that stands in lent room.
pub trait Lent: Copy {
    // The value in bytes.
    ghost bytes: { Self → List ℕ };

    // Its bytes over the front of the room. Says whether there was room; else no byte changes.
    fn put_over(self, out: &mut [u8]) -> bool
        ensures fits { result ≡ has_room 0 (length (bytes self)) (length out.old) }
        ensures room { out.new ≡ placed 0 (bytes self) out.old };
}

// An owner word.
impl Lent for u64 {
    ghost bytes = { word_bytes };

    fn put_over(self, out: &mut [u8]) -> bool {
        high_first::put(out, 0, 8, self)
    }
}

// A mask.
impl Lent for u32 {
    ghost bytes = { mask_bytes };

    fn put_over(self, out: &mut [u8]) -> bool {
        high_first::put(out, 0, 4, self as u64)
    }
}

// A yes or no.
impl Lent for bool {
    ghost bytes = { yes_no_bytes };

    fn put_over(self, out: &mut [u8]) -> bool {
        high_first::put(out, 0, 1, self as u64)
    }
}

// A thread and its CPU, both 0 for a free lock. The CPU stands last and is written first: where it finds room, so does the thread.
impl Lent for Option<Held> {
    ghost bytes = { held_bytes };

    fn put_over(self, out: &mut [u8]) -> bool {
        let held = self.unwrap_or(Held { thread: 0, cpu: 0 });
        high_first::put(out, 8, 1, held.cpu as u64) && high_first::put(out, 0, 8, held.thread)
    }
}

// The code of an answer, and on OK its value over the front of the room. Whatever value a refusing call is said to have, none is written.
pub fn put<V: Lent>(out: &mut [u8], answer: Result<V, Refusal>) -> i32
    ensures code { (refused : V) → result ≡ call_code (as_bytes V.bytes (says refused answer)) (length out.old) }
    ensures room { (refused : V) → out.new ≡ call_room (as_bytes V.bytes (says refused answer)) out.old }
{
    let value = match answer {
        Ok(value) => value,
        Err(why) => return i32::from(why),
    };
    if !value.put_over(out) {
        return error::ENOMEM;
    }
    error::OK
}
