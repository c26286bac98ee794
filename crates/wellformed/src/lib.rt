// Well-formedness: the test that step and runner put to a machine before they work on it.
//
// New here: upstream has the single rules and no machine. 01, "The machine", "Well-formed": nine clauses; 02, request 5: a tenth. What a clause
// asks of one CPU, lock or thread is a function of the crate element_tests; here are the loops. They are fewer than the clauses: one for what
// is asked of each CPU, one for what is asked of each thread, and one for the locks, which adds up the depths on its way. Each is
// lent the machine, which is 4 KB. proofs/Facts.antt says the clauses as facts, and that the test is true exactly where they hold.

#![tactic(auto)]

ghost use Rattle.std.specs.Prelude.{◌≡◌, ◌&&◌, eqb, get_or};
ghost use Rattle.machine.specs.State.{cpu_slots, thread_count, lock_count, no_cpu};
ghost use Rattle.words.specs.Below.{all_below};
ghost use Rattle.wellformed.specs.WellFormed.{lock_ok, hold_ok, cpu_ok, thread_ok, well_formed};

use element_tests::{
    current_ok, depth_for, idle_ok, lock_ok, mask_ok, pin_ok, place_ok, priority_ok, slot_ok,
};
use machine::{CPU_SLOTS, Cpu, CpuId, Machine, ThreadId};

// The hold of every CPU is its sum.
fn holds_are(cpus: [Cpu; CPU_SLOTS], sums: [u64; CPU_SLOTS]) -> bool
    ensures { result ≡ all_below (λ c. eqb (get_or cpus c no_cpu).hold (get_or sums c 0)) cpu_slots }
{
    cpus.iter()
        .zip(&sums)
        .all(|(cpu, sum)| u64::from(cpu.hold) == *sum)
}

// What is asked of every lock, and the hold of every CPU: each lock adds its depth to the sum of the CPU that its word names.
fn locks_ok(m: &Machine) -> bool
    ensures { result ≡ (all_below (lock_ok m.now) lock_count && all_below (hold_ok m.now) cpu_slots) }
{
    let mut sums = [0u64; CPU_SLOTS];
    for k in &m.locks {
        if !lock_ok(m.setup, m.cpus, *k) {
            return false;
        }
        if k.word != 0 {
            let c = m.setup.cpu_of(k.word);
            sums[c.0 as usize] += u64::from(depth_for(m.setup, *k, c));
        }
    }
    holds_are(m.cpus, sums)
}

// Slot, current thread and idle priority of every CPU.
fn cpus_ok(m: &Machine) -> bool
    ensures { result ≡ all_below (cpu_ok m.now.setup m.now.cpus m.now.threads) cpu_slots }
{
    m.cpus.iter().enumerate().all(|(c, cpu)| {
        let id = CpuId(c as u32);
        slot_ok(m.setup, id, *cpu) && current_ok(m.threads, id, *cpu) && idle_ok(*cpu)
    })
}

// Place, priority, mask and pin of every thread.
fn threads_ok(m: &Machine) -> bool
    ensures { result ≡ all_below (thread_ok m.now.setup m.now.cpus m.now.threads) thread_count }
{
    m.threads.iter().enumerate().all(|(t, thread)| {
        place_ok(m.setup, m.cpus, ThreadId(t as u32), *thread)
            && priority_ok(*thread)
            && mask_ok(m.setup, *thread)
            && pin_ok(m.setup, *thread)
    })
}

// Whether a machine is well-formed.
#[tactic(auto, using(crate::proofs::Loops::loops_say))]
pub fn well_formed(m: &Machine) -> bool
    ensures { result ≡ well_formed m.now }
{
    m.setup.is_ok() && cpus_ok(m) && locks_ok(m) && threads_ok(m)
}
