// The twelve operations of a log as definitions, each a function from the values of the cells that it names to their new values and an answer,
// and the answer that their code gives. A rule never sees the machine, so it reads and writes nothing else.
//
// New here; the lock's rule goes by the crate spinlock, the owner word by spinlock_validate, masks by cpu_mask, interrupts by ipi. The code is in
// crates by what it changes: cpu_rules, lock_rules, thread_rules and unwind_rules; whether a plain acquire is one again, and how a hold moves, stands
// here. A refusal leaves every cell as it was.

#![tactic(auto)]

ghost use Rattle.std.specs.Prelude.{◌≡◌};
ghost use Rattle.error.specs.Answer.{says};
ghost use Rattle.rules.specs.Rules.{answered_says, again, moved as Rules·moved};

use error::Refusal;
use machine::{CpuId, Setup};
use spinlock::Operation;

// The code and the value of a record. A refused one has a value too, the depth or the mask as it is, so it stands beside the code: in a Result the
// value would be in either half, and a log of masks would miss its bar of speed (1.38 times the baseline, for 1.3).
#[derive(Clone, Copy, Debug, PartialEq, Eq)]
pub struct Answered {
    pub code: Result<(), Refusal>,
    pub value: u32,
}

// An answer that has value 0 where it is refused.
impl From<Result<u32, Refusal>> for Answered {
    ghost from_gives = { λ answer answered. answered_says answered ≡ says 0 answer };

    fn from(answer: Result<u32, Refusal>) -> Answered {
        match answer {
            Ok(value) => Answered {
                code: Ok(()),
                value,
            },
            Err(why) => Answered {
                code: Err(why),
                value: 0,
            },
        }
    }
}

// Whether an operation on the lock that has this word is a plain acquire again: the word names the CPU, which may not go for the lock then.
pub fn is_again(setup: Setup, operation: Operation, c: CpuId, word: u64) -> bool
    ensures { result ≡ again setup operation c.0 word }
{
    match operation {
        Operation::Acquire { nested } => {
            let may_go = spinlock_validate::spin_lock_valid(word, c.0, setup.width());
            !nested && !may_go.unwrap_or(false)
        }
        Operation::Release => false,
    }
}

// A hold after an accepted operation on a lock.
pub fn moved(operation: Operation, hold: u32) -> u32
    ensures { result ≡ Rules·moved operation hold }
{
    match operation {
        Operation::Acquire { nested: _ } => hold.saturating_add(1),
        Operation::Release => hold.saturating_sub(1),
    }
}
