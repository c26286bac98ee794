// The operations of a log on a thread: its mask, its pin, its priority, and the CPUs to interrupt for it. Each is a small function from the
// values of the cells that it names to their new values and an answer. A rule never sees the machine, so it reads and writes nothing else.
//
// New here; the definitions are in the crate rules, masks go by the crate cpu_mask, interrupts by ipi. A caller can rely on this: a refusal, of
// numbers that no record may carry too, leaves the thread's cell as it was.

#![tactic(auto)]

ghost use Rattle.std.specs.Prelude.{◌≡◌, ◌&&◌, cond, ◌+◌, ◌≤◌};
ghost use Rattle.error.specs.Codes.{EINVAL};
ghost use Rattle.error.specs.Answer.{answer, says};
ghost use Rattle.ipi.specs.Ipi.{max_ipi_cpus, compute_ipi_mask};
ghost use Rattle.words.specs.Bit.{bit_not};
ghost use Rattle.cpu_mask.specs.Mask.{mask_bits};
ghost use Rattle.machine.specs.State.{has_cpu};
ghost use Rattle.order.specs.Outcome.{applied_to};
ghost use Rattle.rules.specs.Rules.{
  answered_says,
  cpu_bit,
  cpu_record,
  within_cpus,
  masked as Rules·masked,
  remasked as Rules·remasked,
  priority as Rules·priority,
  ranged,
  carriable as Rules·carriable,
  on_thread,
  ipi_of,
};
ghost use Rattle.thread_rules.specs.Records.{HasRecords};

use error::Refusal;
use ipi::CpuRecord;
use machine::{CPU_SLOTS, Cpu, CpuId, Setup, Thread};
use record::ThreadOperation;
use rules::Answered;

// The thread has the mask that the mask rule gave, or the one that it had.
fn remask(thread: &mut Thread, mask: Result<u32, Refusal>) -> Answered
    ensures { (answered_says result, thread.new)
        ≡ applied_to thread.old (Rules·remasked thread.old (says thread.old.mask mask)) }
{
    match mask {
        Ok(mask) => {
            thread.mask = mask;
            Answered {
                code: Ok(()),
                value: mask,
            }
        }
        Err(why) => Answered {
            code: Err(why),
            value: thread.mask,
        },
    }
}

// Under pin-only a mask that the rule gives has its bit below n, or the current one stays.
fn within_cpus(setup: Setup, current: u32, mask: Result<u32, Refusal>) -> Result<u32, Refusal>
    ensures { says current result ≡ within_cpus setup current (says current mask) }
{
    if setup.pin_only && !cpu_mask::bits_below(mask.unwrap_or(current), setup.n) {
        return Err(Refusal::Einval);
    }
    mask
}

// 7: bits of a thread's mask are enabled and disabled. Pin-only is asked here and not in the rule alone: it is the same for a whole log, and without
// it the rule need not look at the new mask (docs/PERFORMANCE.md).
fn masked(setup: Setup, enable: u32, disable: u32, thread: Thread) -> Result<u32, Refusal>
    ensures { says thread.mask result ≡ within_cpus setup thread.mask (Rules·masked setup enable disable thread) }
{
    let running = thread.place.is_some();
    if setup.pin_only {
        let ruled = cpu_mask::cpu_mask_mod(thread.mask, enable, disable, running, true);
        return within_cpus(setup, thread.mask, ruled);
    }
    cpu_mask::cpu_mask_mod(thread.mask, enable, disable, running, false)
}

fn cpu_bit(c: CpuId) -> u32
    ensures { result ≡ cpu_bit c.0 }
{
    cpu_mask::cpu_pin_compute(c.0, cpu_mask::MASK_BITS).unwrap_or(0)
}

// 8: one bit of a thread's mask is left. It is a CPU's of the machine, so it is not asked whether it is below n.
fn pinned(setup: Setup, c: CpuId, thread: Thread) -> Result<u32, Refusal>
    ensures { says thread.mask result ≡ Rules·masked setup (cpu_bit c.0) (bit_not mask_bits (cpu_bit c.0)) thread }
{
    let bit = cpu_bit(c);
    let placed = thread.place.is_some();
    cpu_mask::cpu_mask_mod(thread.mask, bit, !bit, placed, setup.pin_only)
}

// 9: a thread's priority is set.
#[tactic(auto, unfolding(rules::specs::Rules::priority))]
fn set_priority(thread: &mut Thread, a: i32) -> Answered
    ensures { (answered_says result, thread.new) ≡ applied_to thread.old (Rules·priority a thread.old) }
{
    if thread.place.is_some() {
        return Answered::from(Err(Refusal::Ebusy));
    }
    thread.priority = a;
    Answered::from(Ok(0))
}

// Whether a priority is one that a record may carry.
fn carriable(operation: ThreadOperation) -> bool
    ensures { result ≡ Rules·carriable operation }
{
    match operation {
        ThreadOperation::Priority(a) => machine::is_priority(a),
        _ => true,
    }
}

// 7, 8 and 9, on a machine of this setup: what becomes of the thread. The value of a mask and a pin is the thread's mask.
#[tactic(auto, unfolding(rules::specs::Rules::on_thread, rules::specs::Rules::mask, rules::specs::Rules::pin))]
pub fn on_thread(
    setup: Setup,
    operation: ThreadOperation,
    c: CpuId,
    thread: &mut Thread,
) -> Answered
    ensures { (answered_says result, thread.new)
        ≡ ranged (has_cpu setup c.0 && Rules·carriable operation) thread.old (on_thread setup operation c.0 thread.old) }
{
    if !(setup.has_cpu(c) && carriable(operation)) {
        return Answered::from(Err(Refusal::Einval));
    }
    match operation {
        ThreadOperation::Mask { enable, disable } => {
            let mask = masked(setup, enable, disable, *thread);
            remask(thread, mask)
        }
        ThreadOperation::Pin => {
            let mask = pinned(setup, c, *thread);
            remask(thread, mask)
        }
        ThreadOperation::Priority(a) => set_priority(thread, a),
    }
}

fn cpu_record(cpu: Cpu) -> CpuRecord
    ensures { result ≡ cpu_record cpu.run }
{
    CpuRecord {
        active: cpu.run.active,
        priority: cpu.run.priority,
    }
}

// The records of four CPUs more, from a place on.
fn four_more(at: usize, cpus: [Cpu; CPU_SLOTS], records: [CpuRecord; 16]) -> [CpuRecord; 16]
    requires { at + 4 ≤ 16 }
    ensures { HasRecords at cpus records → HasRecords (at + 4) cpus result }
{
    let mut more = records;
    more[at] = cpu_record(cpus[at]);
    more[at + 1] = cpu_record(cpus[at + 1]);
    more[at + 2] = cpu_record(cpus[at + 2]);
    more[at + 3] = cpu_record(cpus[at + 3]);
    more
}

// The records of all CPUs, when there are those of the first four.
fn twelve_more(cpus: [Cpu; CPU_SLOTS], four: [CpuRecord; 16]) -> [CpuRecord; 16]
    ensures { HasRecords 4 cpus four → HasRecords 16 cpus result }
{
    let eight = four_more(4, cpus, four);
    let twelve = four_more(8, cpus, eight);
    four_more(12, cpus, twelve)
}

// The interrupt rule on these records.
fn ipi_by(setup: Setup, c: CpuId, records: [CpuRecord; 16], thread: Thread) -> Result<u32, Refusal>
    ensures { says 0 result ≡ compute_ipi_mask c.0 thread.priority thread.mask records setup.n max_ipi_cpus }
{
    ipi::compute_ipi_mask(
        c.0,
        thread.priority,
        thread.mask,
        records,
        setup.n,
        ipi::MAX_IPI_CPUS,
    )
}

// 10: the CPUs to interrupt for a thread, on a machine of this setup with these CPUs. The rule looks at no record from n on: of at most four CPUs
// the other slots are not read. The rule is called in either case by itself, since records that come from two places are held in registers until
// they are stored, and the other operations' registers go with them (docs/PERFORMANCE.md).
pub fn ipi(setup: Setup, c: CpuId, cpus: [Cpu; CPU_SLOTS], thread: Thread) -> Result<u32, Refusal>
    ensures { says 0 result ≡ cond (has_cpu setup c.0) (ipi_of setup c.0 cpus thread) (answer EINVAL 0) }
{
    if !setup.has_cpu(c) {
        return Err(Refusal::Einval);
    }
    let nobody = CpuRecord {
        active: false,
        priority: 0,
    };
    let four = four_more(0, cpus, [nobody; 16]);
    if setup.n <= 4 {
        return ipi_by(setup, c, four, thread);
    }
    ipi_by(setup, c, twelve_more(cpus, four), thread)
}
