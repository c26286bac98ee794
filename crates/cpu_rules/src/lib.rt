// The operations of a log that change a CPU: it comes up, it goes down, a thread comes onto it, the thread leaves it. Each is a small function
// from the values of the cells that it names to their new values and an answer. A rule never sees the machine, so it reads and writes nothing
// else.
//
// New here; the definitions are in the crate rules, masks go by the crate cpu_mask. A caller can rely on this: a refusal, of numbers that no
// record may carry too, leaves every cell as it was.

#![tactic(auto)]

ghost use Rattle.std.specs.Prelude.{◌≡◌, ◌&&◌};
ghost use Rattle.error.specs.Codes.{number_of};
ghost use Rattle.error.specs.Answer.{answer};
ghost use Rattle.order.specs.Outcome.{applied_to};
ghost use Rattle.machine.specs.State.{has_cpu, is_thread, idle_run};
ghost use Rattle.rules.specs.Rules.{
  cells_say,
  ranged,
  on_cpu,
  up as Rules·up,
  down as Rules·down,
  put as Rules·put,
  take as Rules·take,
};

use error::Refusal;
use machine::{Cpu, CpuId, Run, Setup, Thread, ThreadId};
use record::CpuOperation;

fn idle_run(active: bool) -> Run
    ensures { result ≡ idle_run active }
{
    Run {
        active,
        current: None,
        priority: machine::IDLE_PRIORITY,
    }
}

// 0: the CPU comes up.
#[tactic(auto, unfolding(rules::specs::Rules::up))]
fn up(run: Run) -> Result<Run, Refusal>
    ensures { cells_say run result ≡ applied_to run (Rules·up run) }
{
    if run.active {
        return Err(Refusal::Ealready);
    }
    Ok(idle_run(true))
}

// 1: the CPU goes down.
#[tactic(auto, unfolding(rules::specs::Rules::down))]
fn down(run: Run) -> Result<Run, Refusal>
    ensures { cells_say run result ≡ applied_to run (Rules·down run) }
{
    if !run.active {
        return Err(Refusal::Ealready);
    }
    if run.current.is_some() {
        return Err(Refusal::Ebusy);
    }
    Ok(idle_run(false))
}

// 2: a thread comes onto the CPU.
#[tactic(auto, unfolding(rules::specs::Rules::put))]
fn put(c: CpuId, t: ThreadId, run: Run, thread: Thread) -> Result<(Run, Thread), Refusal>
    ensures { cells_say (run, thread) result ≡ applied_to (run, thread) (Rules·put c.0 t.0 run thread) }
{
    if !run.active {
        return Err(Refusal::Einval);
    }
    if run.current.is_some() || thread.place.is_some() {
        return Err(Refusal::Ebusy);
    }
    if !cpu_mask::allows(thread.mask, c.0) {
        return Err(Refusal::Einval);
    }
    let seated = Run {
        current: Some(t),
        priority: thread.priority,
        ..run
    };
    let placed = Thread {
        place: Some(c),
        ..thread
    };
    Ok((seated, placed))
}

// 3: the thread leaves the CPU.
#[tactic(auto, unfolding(rules::specs::Rules::take))]
fn take(t: ThreadId, hold: u32, run: Run, thread: Thread) -> Result<(Run, Thread), Refusal>
    ensures { cells_say (run, thread) result ≡ applied_to (run, thread) (Rules·take t.0 hold run thread) }
{
    if run.current != Some(t) {
        return Err(Refusal::Eperm);
    }
    if hold != 0 {
        return Err(Refusal::Ebusy);
    }
    let unplaced = Thread {
        place: None,
        ..thread
    };
    Ok((idle_run(true), unplaced))
}

// 0 to 3, on a machine of this setup: what becomes of the CPU and the thread.
#[tactic(auto, unfolding(rules::specs::Rules::on_cpu))]
pub fn on_cpu(
    setup: Setup,
    operation: CpuOperation,
    c: CpuId,
    t: ThreadId,
    cpu: &mut Cpu,
    thread: &mut Thread,
) -> Result<(), Refusal>
    ensures { (answer (number_of result) 0, (cpu.new, thread.new))
        ≡ ranged (has_cpu setup c.0 && is_thread t.0) (cpu.old, thread.old) (on_cpu operation c.0 t.0 cpu.old thread.old) }
{
    if !(setup.has_cpu(c) && t.exists()) {
        return Err(Refusal::Einval);
    }
    match operation {
        CpuOperation::Up => cpu.run = up(cpu.run)?,
        CpuOperation::Down => cpu.run = down(cpu.run)?,
        CpuOperation::Put => (cpu.run, *thread) = put(c, t, cpu.run, *thread)?,
        CpuOperation::Take => (cpu.run, *thread) = take(t, cpu.hold, cpu.run, *thread)?,
    }
    Ok(())
}
