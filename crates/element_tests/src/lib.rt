// The tests of single elements: what well-formedness asks of one CPU, one lock or one thread.
//
// New here: upstream has the single rules and no machine. 01, "The machine", "Well-formed": one function for each clause. It is handed the
// elements that the clause looks at, never the machine, which is 4 KB. A caller can rely on an answer for every argument: a CPU past the end
// of its array has no current thread, and a thread past the end of its array fits no CPU.

#![tactic(auto)]

ghost use Rattle.std.specs.Prelude.{◌≡◌, Some};
ghost use Rattle.machine.specs.State.{is_priority};
ghost use Rattle.element_tests.specs.Elements.{
  runs as Elements·runs,
  slot_by,
  owner_ok,
  lock_by,
  depth_for,
  current_by,
  place_by,
  idle_by,
  mask_by,
  pin_by,
};

use machine::{CPU_SLOTS, Cpu, CpuId, IDLE_PRIORITY, Lock, Run, Setup, THREADS, Thread, ThreadId};

// Whether the thread is current on the CPU. One past the end of the array has no thread.
fn runs(cpus: [Cpu; CPU_SLOTS], c: CpuId, t: ThreadId) -> bool
    ensures { result ≡ Elements·runs cpus c.0 t.0 }
{
    c.0 < CPU_SLOTS as u32 && cpus[c.0 as usize].run.current == Some(t)
}

// An unused CPU slot is down with hold 0.
pub fn slot_ok(setup: Setup, c: CpuId, cpu: Cpu) -> bool
    ensures { result ≡ slot_by setup.n c.0 cpu }
{
    c.0 < setup.n || (!cpu.run.active && cpu.hold == 0)
}

// A held lock has its flag set, and its word is made from its owner's thread word and a CPU below n on which that owner is current.
fn held_ok(setup: Setup, cpus: [Cpu; CPU_SLOTS], k: Lock, t: ThreadId) -> bool
    ensures { result ≡ owner_ok setup cpus k (Some t.0) }
{
    let named = setup.cpu_of(k.word);
    k.state.irq_saved
        && k.word == setup.thread_word(t) + u64::from(named.0)
        && named.0 < setup.n
        && runs(cpus, named, t)
}

// A lock is a valid record, and free with word 0 or held as above.
pub fn lock_ok(setup: Setup, cpus: [Cpu; CPU_SLOTS], k: Lock) -> bool
    ensures { result ≡ lock_by setup cpus k }
{
    if !k.state.valid() {
        return false;
    }
    match k.state.owner {
        None => k.word == 0,
        Some(t) => held_ok(setup, cpus, k, ThreadId(t)),
    }
}

// The depth of a lock whose word names the CPU, and 0 of another. Word 0 names nobody.
pub fn depth_for(setup: Setup, k: Lock, c: CpuId) -> u32
    ensures { result ≡ depth_for setup k c.0 }
{
    if k.word != 0 && setup.cpu_of(k.word) == c {
        k.state.nest_count
    } else {
        0
    }
}

// A current thread is below 32 and its CPU is active, carries its priority, is its place, and is allowed by its mask.
fn thread_fits(threads: [Thread; THREADS], c: CpuId, run: Run, t: ThreadId) -> bool
    ensures { result ≡ current_by threads c.0 run (Some t) }
{
    if !t.exists() {
        return false;
    }
    let thread = threads[t.0 as usize];
    run.active
        && run.priority == thread.priority
        && thread.place == Some(c)
        && cpu_mask::allows(thread.mask, c.0)
}

// The current thread of a CPU, if it has one, fits it as above.
pub fn current_ok(threads: [Thread; THREADS], c: CpuId, cpu: Cpu) -> bool
    ensures { result ≡ current_by threads c.0 cpu.run cpu.run.current }
{
    match cpu.run.current {
        None => true,
        Some(t) => thread_fits(threads, c, cpu.run, t),
    }
}

// A placed thread is the current thread of the CPU below n that is its place.
pub fn place_ok(setup: Setup, cpus: [Cpu; CPU_SLOTS], t: ThreadId, thread: Thread) -> bool
    ensures { result ≡ place_by setup.n cpus t.0 thread.place }
{
    match thread.place {
        None => true,
        Some(c) => c.0 < setup.n && runs(cpus, c, t),
    }
}

// No current thread means priority 128.
pub fn idle_ok(cpu: Cpu) -> bool
    ensures { result ≡ idle_by cpu.run.priority cpu.run.current }
{
    match cpu.run.current {
        None => cpu.run.priority == IDLE_PRIORITY,
        Some(_) => true,
    }
}

// Thread priorities lie in -128..127.
pub fn priority_ok(thread: Thread) -> bool
    ensures { result ≡ is_priority thread.priority }
{
    machine::is_priority(thread.priority)
}

// Under pin-only each mask has one bit.
pub fn mask_ok(setup: Setup, thread: Thread) -> bool
    ensures { result ≡ mask_by setup.pin_only thread }
{
    !setup.pin_only || cpu_mask::validate_pin_mask(thread.mask)
}

// Under pin-only the bit of each mask is below n.
pub fn pin_ok(setup: Setup, thread: Thread) -> bool
    ensures { result ≡ pin_by setup thread }
{
    !setup.pin_only || cpu_mask::bits_below(thread.mask, setup.n)
}
