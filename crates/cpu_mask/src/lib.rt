// CPU affinity masks: bit i says that a thread may run on CPU i.
//
// Upstream: src/cpu_mask.rs; cpu_mask_mod, validate_pin_mask and cpu_pin_compute keep their names, and what CpuMaskResult says is a Result. `allows`
// and `bits_below` are new here. A mask of zero is a mask (upstream withdrew CM4): such a thread waits until bits are enabled again. A caller can
// rely on every bit of the new mask (proofs/Laws.antt) and on the cases in which the call succeeds, not only on what success means.

#![tactic(auto)]

ghost use Rattle.std.specs.Prelude.{◌≡◌};
ghost use Rattle.error.specs.Answer.{says};
ghost use Rattle.words.specs.Bit.{bit};
ghost use Rattle.cpu_mask.specs.Mask.{new_mask, validate_pin_mask, bits_below, cpu_mask_mod, cpu_pin_compute};

use error::Refusal;

// How many bits a mask has: no CPU above them can be pinned.
pub const MASK_BITS: u32 = 32;

// Upstream's MAX_CPUS of this file, which nothing there or here uses: how many CPUs Zephyr allows.
pub const MAX_MASK_CPUS: u32 = 16;

// Whether a mask allows a CPU: its bit is set. None allows a CPU past its bits.
#[tactic(auto, using(crate::proofs::Tests::allowed, crate::proofs::Tests::past_is_barred))]
pub fn allows(mask: u32, cpu: u32) -> bool
    ensures { result ≡ bit cpu mask }
{
    cpu < MASK_BITS && mask & (1 << cpu) != 0
}

// Whether every bit of a mask is below n: it allows no CPU from n on.
#[tactic(auto, using(crate::proofs::Tests::past_is_below))]
pub fn bits_below(mask: u32, n: u32) -> bool
    ensures { result ≡ bits_below mask n }
{
    n >= MASK_BITS || mask < 1 << n
}

fn new_mask(current_mask: u32, enable: u32, disable: u32) -> u32
    ensures { result ≡ new_mask current_mask enable disable }
{
    (current_mask | enable) & !disable
}

// Whether a mask names exactly one CPU.
pub fn validate_pin_mask(mask: u32) -> bool
    ensures { result ≡ validate_pin_mask mask }
{
    mask.count_ones() == 1
}

// The mask with bits enabled and then disabled, for a thread that does not run. With `pin_only` it must come to one bit. A refusal leaves the mask
// that was.
#[tactic(auto, unfolding(crate::specs::Mask::cpu_mask_mod))]
pub fn cpu_mask_mod(
    current_mask: u32,
    enable: u32,
    disable: u32,
    is_running: bool,
    pin_only: bool,
) -> Result<u32, Refusal>
    ensures { says current_mask result ≡ cpu_mask_mod current_mask enable disable is_running pin_only }
{
    if is_running {
        return Err(Refusal::Einval);
    }
    let mask = new_mask(current_mask, enable, disable);
    if pin_only && !validate_pin_mask(mask) {
        return Err(Refusal::Einval);
    }
    Ok(mask)
}

// The mask that pins a thread to one CPU.
#[tactic(auto, using(words::proofs::BitTests::shl_one), unfolding(crate::specs::Mask::cpu_pin_compute))]
pub fn cpu_pin_compute(cpu_id: u32, max_cpus: u32) -> Result<u32, Refusal>
    ensures { says 0 result ≡ cpu_pin_compute cpu_id max_cpus }
{
    if max_cpus > MASK_BITS || cpu_id >= max_cpus {
        return Err(Refusal::Einval);
    }
    Ok(1 << cpu_id)
}
