// Which CPUs get an interrupt when a thread becomes ready: those that run something less important and that the thread may run on.
//
// Upstream: src/ipi.rs; compute_ipi_mask and validate_ipi_mask keep their names.
// The two slices of upstream are one array of sixteen CPU records by value; records from num_cpus on are not looked at. Upstream promises
// nothing of the mask; here its value is exact, and proofs/Laws.antt says of every bit when it is set. A lower number is more important.

#![tactic(auto)]

ghost use Rattle.std.specs.Prelude.{◌≡◌, ◌&&◌, false};
ghost use Rattle.std.specs.Int.Signed.{lt_z};
ghost use Rattle.error.specs.Answer.{says};
ghost use Rattle.ipi.specs.Ipi.{counts_fit, compute_ipi_mask, validate_ipi_mask};

use error::Refusal;

// Upstream's MAX_CPUS of this file: how many CPUs an interrupt mask covers.
pub const MAX_IPI_CPUS: u32 = 16;

// One CPU: whether it is up, and the priority of what it runs.
#[derive(Clone, Copy, Debug, PartialEq, Eq)]
pub struct CpuRecord {
    pub active: bool,
    pub priority: i32,
}

// Whether a CPU is up and runs something less important than the target. By `&`, and shifted to its bit below: a branch on what a record says is
// guessed wrong, and a full mask then takes more than twice as long.
fn runs_less(target_prio: i32, cpu: CpuRecord) -> bool
    ensures { result ≡ cpu.active && lt_z target_prio cpu.priority }
{
    cpu.active & (target_prio < cpu.priority)
}

// Whether there are at most so many CPUs as are allowed, and the current one is among them.
fn counts_fit(current_cpu: u32, num_cpus: u32, max_cpus: u32) -> bool
    ensures { result ≡ counts_fit current_cpu num_cpus max_cpus }
{
    max_cpus <= MAX_IPI_CPUS && num_cpus <= max_cpus && current_cpu < num_cpus
}

// The mask of the CPUs to interrupt for a thread of this priority and affinity. Those of the affinity mask below num_cpus can match, but for the
// current one. The walk goes from one of them to the next by trailing zeros (document 02, §3) and looks at no other record, so it counts no index.
// The walk stands here and not in a function of its own, to which the array would be copied.
pub fn compute_ipi_mask(
    current_cpu: u32,
    target_prio: i32,
    target_cpu_mask: u32,
    cpus: [CpuRecord; 16],
    num_cpus: u32,
    max_cpus: u32,
) -> Result<u32, Refusal>
    ensures { says 0 result ≡ compute_ipi_mask current_cpu target_prio target_cpu_mask cpus num_cpus max_cpus }
{
    if !counts_fit(current_cpu, num_cpus, max_cpus) {
        return Err(Refusal::Einval);
    }
    let below = (1u32 << num_cpus) - 1;
    let others = !(1u32 << current_cpu);
    let mut ahead = target_cpu_mask & (below & others);
    let mut mask = 0;
    while ahead != 0 {
        let idx = ahead.trailing_zeros();
        let less = runs_less(target_prio, cpus[idx as usize]) as u32;
        mask |= less << idx;
        ahead &= ahead - 1;
    }
    Ok(mask)
}

// Whether a mask can be one that was computed for this CPU: it spares the CPU itself and names none from max_cpus on.
#[tactic(auto, unfolding(crate::specs::Ipi::validate_ipi_mask))]
pub fn validate_ipi_mask(mask: u32, current_cpu: u32, max_cpus: u32) -> Result<bool, Refusal>
    ensures { says false result ≡ validate_ipi_mask mask current_cpu max_cpus }
{
    if max_cpus > MAX_IPI_CPUS || current_cpu >= max_cpus {
        return Err(Refusal::Einval);
    }
    let names_current = mask & (1 << current_cpu) != 0;
    Ok(!names_current && mask >> max_cpus == 0)
}
