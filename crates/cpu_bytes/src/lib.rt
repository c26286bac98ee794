// The interrupt rule on CPUs as bytes: five bytes a CPU, active 0 or 1, then the priority, most significant byte first.
//
// New here. Document 01, "What must change shape": upstream's two slices cross to C as bytes. A caller can rely on these: bytes of any other
// form are refused with EINVAL, and all others are answered as ipi::compute_ipi_mask answers their CPUs.

#![tactic(auto)]

ghost use Rattle.std.specs.Prelude.{◌≡◌, ◌/◌, ◌≤◌, true, false, leb, length, MatchOption};
ghost use Rattle.error.specs.Answer.{says};
ghost use Rattle.cpu_bytes.specs.Cpus.{byte_at, cpu_of_bytes, cpus_of_bytes, active_bytes, ipi_mask_of_bytes};

use error::Refusal;
use ipi::CpuRecord;

// How many bytes a CPU has.
pub const CPU_BYTES: usize = 5;

// What stands behind the CPUs in the array: no rule looks at it.
const NO_CPU: CpuRecord = CpuRecord {
    active: false,
    priority: 0,
};

// The CPU that five bytes say. None where the active byte is neither 0 nor 1.
fn cpu_of(bytes: [u8; CPU_BYTES]) -> Option<CpuRecord>
    ensures { MatchOption result (leb (byte_at bytes 0) 1 ≡ false) (λ cpu. (leb (byte_at bytes 0) 1 ≡ true) × (cpu ≡ cpu_of_bytes bytes 0)) }
{
    let [active, a, b, c, d] = bytes;
    if active > 1 {
        return None;
    }
    Some(CpuRecord {
        active: active == 1,
        priority: high_first::signed(high_first::join(a, b, c, d)),
    })
}

// The CPUs that bytes say, each in its place. None where one of them says none.
fn decode(cpus: &[u8]) -> Option<[CpuRecord; 16]>
    requires { length cpus.now ≤ 80 }
    ensures { let num = length cpus.now / 5 in
        MatchOption result (active_bytes cpus.now num ≡ false) (λ records. (active_bytes cpus.now num ≡ true) × (records ≡ cpus_of_bytes cpus.now num)) }
{
    let (chunks, _) = cpus.as_chunks::<CPU_BYTES>();
    let mut records = [NO_CPU; 16];
    for (idx, bytes) in chunks.iter().enumerate() {
        records[idx] = cpu_of(*bytes)?;
    }
    Some(records)
}

// The mask of the CPUs to interrupt, from bytes. The number of CPUs and the length are tested first, so that there is a place for each.
#[tactic(auto, using(crate::proofs::Cases::wrong_form))]
pub fn ipi_mask_of_bytes(
    current_cpu: u32,
    target_prio: i32,
    target_cpu_mask: u32,
    cpus: &[u8],
    num_cpus: u32,
    max_cpus: u32,
) -> Result<u32, Refusal>
    ensures { says 0 result ≡ ipi_mask_of_bytes current_cpu target_prio target_cpu_mask cpus.now num_cpus max_cpus }
{
    if num_cpus > ipi::MAX_IPI_CPUS || cpus.len() != CPU_BYTES * (num_cpus as usize) {
        return Err(Refusal::Einval);
    }
    let records = decode(cpus).ok_or(Refusal::Einval)?;
    ipi::compute_ipi_mask(
        current_cpu,
        target_prio,
        target_cpu_mask,
        records,
        num_cpus,
        max_cpus,
    )
}
