// The calls that read a lock record: they say what it holds and change nothing.
//
// Upstream: src/spinlock.rs, methods of `SpinlockState`: acquire_check, is_held, is_free, nest_depth, owner_get and is_owner keep their names
//   release_check is named upstream and stands in no file: here it says whether the given thread owns the record
// They are functions of the record by value. What upstream requires, a valid record, is tested here: an invalid one is EINVAL with 0, none
// or no. Their definitions stand with those of the calls that change a record, in the crate spinlock.

#![tactic(auto)]

ghost use Rattle.std.specs.Prelude.{◌≡◌, false, None};
ghost use Rattle.error.specs.Answer.{says};
ghost use Rattle.spinlock.specs.Lock.{
  read,
  acquire_check,
  release_check,
  is_held,
  is_free,
  nest_depth,
  owner_get,
  is_owner,
};

use error::Refusal;
use spinlock::SpinlockState;

// What is found in a valid record; an invalid one is refused.
fn read<T: Copy>(state: SpinlockState, found: T) -> Result<T, Refusal>
    ensures { (refused : T) → says refused result ≡ read state found refused }
{
    if !state.valid() {
        return Err(Refusal::Einval);
    }
    Ok(found)
}

// Whether a plain acquire would be taken: only a free lock's.
pub fn acquire_check(state: SpinlockState, tid: u32) -> Result<bool, Refusal>
    ensures { says false result ≡ acquire_check state tid }
{
    is_free(state)
}

// Whether the thread may release.
pub fn release_check(state: SpinlockState, tid: u32) -> Result<bool, Refusal>
    ensures { says false result ≡ release_check state tid }
{
    is_owner(state, tid)
}

// Whether somebody holds the lock.
pub fn is_held(state: SpinlockState) -> Result<bool, Refusal>
    ensures { says false result ≡ is_held state }
{
    read(state, state.owner.is_some())
}

// Whether nobody does.
pub fn is_free(state: SpinlockState) -> Result<bool, Refusal>
    ensures { says false result ≡ is_free state }
{
    read(state, state.owner.is_none())
}

// Whether the thread holds it.
pub fn is_owner(state: SpinlockState, tid: u32) -> Result<bool, Refusal>
    ensures { says false result ≡ is_owner state tid }
{
    read(state, state.owner == Some(tid))
}

// How deep it is held.
pub fn nest_depth(state: SpinlockState) -> Result<u32, Refusal>
    ensures { says 0 result ≡ nest_depth state }
{
    read(state, state.nest_count)
}

// Who holds it.
pub fn owner_get(state: SpinlockState) -> Result<Option<u32>, Refusal>
    ensures { says None result ≡ owner_get state }
{
    read(state, state.owner)
}
