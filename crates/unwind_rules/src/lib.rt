// The operation of a log that stops a job: unwind. The CPU gives back every lock that its word names, at whatever depth, and holds nothing.
//
// New here; document 02, request 1. The definitions are in the crate rules. The answer and the CPU after it come from the CPU's own cells; only if
// it is accepted is each lock asked whether its word names the CPU. A caller can rely on this: a refusal, of numbers that no record may carry
// too, leaves the CPU as it was.

#![tactic(auto)]

ghost use Rattle.std.specs.Prelude.{◌≡◌, ◌&&◌};
ghost use Rattle.error.specs.Answer.{says};
ghost use Rattle.machine.specs.State.{has_cpu, is_thread, names as State·names};
ghost use Rattle.rules.specs.Rules.{ranged, unwound};

use error::Refusal;
use machine::{Cpu, CpuId, Setup, ThreadId};

// 12, on a machine of this setup: the CPU holds nothing, and the answer is what it held.
#[tactic(auto, unfolding(rules::specs::Rules::unwound))]
pub fn unwind(setup: Setup, c: CpuId, t: ThreadId, cpu: &mut Cpu) -> Result<u32, Refusal>
    ensures { (says 0 result, cpu.new) ≡ ranged (has_cpu setup c.0 && is_thread t.0) cpu.old (unwound t.0 cpu.old) }
{
    if !(setup.has_cpu(c) && t.exists()) {
        return Err(Refusal::Einval);
    }
    if cpu.run.current != Some(t) {
        return Err(Refusal::Eperm);
    }
    let held = cpu.hold;
    cpu.hold = 0;
    Ok(held)
}

// Whether a lock with this word is given back: the word names the CPU. Word 0 names nobody.
pub fn names(setup: Setup, word: u64, c: CpuId) -> bool
    ensures { result ≡ State·names setup word c.0 }
{
    word != 0 && setup.cpu_of(word) == c
}
