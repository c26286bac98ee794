// The operations of a log on a lock: acquire, release, and a look at its owner word. Each is a small function from the values of the cells that
// it names to their new values and an answer. A rule never sees the machine, so it reads and writes nothing else.
//
// New here; the definitions are in the crate rules, the lock's rule goes by the crate spinlock, the owner word by the definitions of
// spinlock_validate. A refusal leaves every cell as it was. Document 02, request 6: a plain acquire of a lock that the asking CPU itself holds
// is EDEADLK (rules::is_again).

#![tactic(auto)]

ghost use Rattle.std.specs.Prelude.{◌≡◌, true};
ghost use Rattle.words.specs.Tag.{word_of};
ghost use Rattle.error.specs.Codes.{OK};
ghost use Rattle.error.specs.Answer.{answer, says};
ghost use Rattle.machine.specs.State.{has_cpu, thread_word};
ghost use Rattle.rules.specs.Rules.{
  answered_says,
  ranged,
  elsewhere as Rules·elsewhere,
  ruled as Rules·ruled,
  word_after as Rules·wordAfter,
  on_lock,
  owner as Rules·owner,
};

use error::Refusal;
use machine::{Cpu, CpuId, Lock, Setup, ThreadId};
use rules::Answered;
use spinlock::{Operation, SpinlockState};

// A thread that asks for a lock, on a CPU that the machine has.
#[derive(Clone, Copy)]
struct Asker {
    setup: Setup,
    cpu: CpuId,
    thread: ThreadId,
    ghost on_a_cpu: { has_cpu setup cpu.0 ≡ true },
}

impl Asker {
    // Its owner word. Such a pair makes a word at every width, so none of the owner word's tests is made again.
    fn word(self) -> u64
        ensures { result ≡ word_of self.cpu.0 (thread_word self.setup self.thread.0) }
    {
        self.setup.thread_word(self.thread) + u64::from(self.cpu.0)
    }

    // Whether the lock's word is another than its own, so that it is not the owner here.
    fn elsewhere(self, lock: Lock) -> bool
        ensures { result ≡ Rules·elsewhere self.setup self.cpu.0 self.thread.0 lock }
    {
        lock.word != self.word()
    }

    // The lock's rule for it.
    fn ruled(self, operation: Operation, lock: Lock) -> Result<SpinlockState, Refusal>
        ensures { says lock.state result ≡ Rules·ruled self.setup operation self.cpu.0 self.thread.0 lock }
    {
        if rules::is_again(self.setup, operation, self.cpu, lock.word) {
            return lock.state.acquire_again(self.thread.0);
        }
        lock.state
            .operate(operation, self.thread.0, self.elsewhere(lock))
    }

    // The word of a lock after an accepted operation that left this record.
    fn word_after(self, lock: Lock, next: SpinlockState) -> u64
        ensures { result ≡ Rules·wordAfter self.setup self.cpu.0 self.thread.0 lock next }
    {
        if next.owner.is_none() {
            return 0;
        }
        if lock.state.owner.is_some() {
            return lock.word;
        }
        self.word()
    }
}

// 4 and 6, on a machine of this setup: what becomes of the CPU and the lock by its current thread's acquire, plain or nested, or release. The value is
// the lock's depth.
#[tactic(auto, unfolding(rules::specs::Rules::on_lock, rules::specs::Rules::lock_op))]
pub fn on_lock(
    setup: Setup,
    operation: Operation,
    c: CpuId,
    cpu: &mut Cpu,
    lock: &mut Lock,
) -> Answered
    ensures { (answered_says result, (cpu.new, lock.new))
        ≡ ranged (has_cpu setup c.0) (cpu.old, lock.old) (on_lock setup operation c.0 cpu.old lock.old) }
{
    if !setup.has_cpu(c) {
        return Answered::from(Err(Refusal::Einval));
    }
    let value = lock.state.nest_count;
    let thread = match cpu.run.current {
        Some(t) if t.exists() => t,
        _ => {
            let code = Err(Refusal::Einval);
            return Answered { code, value };
        }
    };
    let asker = Asker {
        setup,
        cpu: c,
        thread,
    };
    match asker.ruled(operation, *lock) {
        Err(why) => {
            let code = Err(why);
            Answered { code, value }
        }
        Ok(next) => {
            *lock = Lock {
                state: next,
                word: asker.word_after(*lock, next),
            };
            cpu.hold = rules::moved(operation, cpu.hold);
            Answered {
                code: Ok(()),
                value: next.nest_count,
            }
        }
    }
}

// 11: the owner word of a lock.
#[tactic(auto, unfolding(rules::specs::Rules::owner))]
pub fn owner(lock: Lock) -> u32
    ensures { answer OK result ≡ Rules·owner lock }
{
    (lock.word % 0x1_0000_0000) as u32
}
