// The two calls that change a lock record, in place: the caller lends its record, and gets the code.
//
// Upstream: src/spinlock.rs, `acquire`, `acquire_nested` and `release` of `SpinlockState`, which take `&mut self`; acquire_nested is acquire
// with its flag set. Each call is the method of the same name of the crate spinlock, which takes the record by value, and the record stored
// back. A caller can rely on what the method says: code and record are those of the same definition, so after a refusal the record is what it
// was (proofs/Laws.antt).

#![tactic(auto)]

ghost use Rattle.std.specs.Prelude.{◌≡◌};
ghost use Rattle.error.specs.Codes.{number_of};
ghost use Rattle.error.specs.Answer.{answer};
ghost use Rattle.spinlock.specs.Lock.{acquire, release};

use error::Refusal;
use spinlock::SpinlockState;

// Takes a free lock. A held one is busy, for its owner too, unless the acquire is nested: then its owner goes one level deeper, up to the
// greatest depth.
pub fn acquire(lock: &mut SpinlockState, tid: u32, nested: bool) -> Result<(), Refusal>
    ensures { answer (number_of result) lock.new ≡ acquire lock.old tid nested }
{
    *lock = lock.acquire(tid, nested)?;
    Ok(())
}

// Gives back one level, for the owner alone.
pub fn release(lock: &mut SpinlockState, tid: u32) -> Result<(), Refusal>
    ensures { answer (number_of result) lock.new ≡ release lock.old tid }
{
    *lock = lock.release(tid)?;
    Ok(())
}
