// The calls of the C kernel: numbers and lent bytes in, a code out. The crate kernel_c exports them, and include/hubcrackle.h declares them.
//
// New here. Document 01, "What must change shape": the owner-word, mask, pin and interrupt rules and the runner, as functions for C. Each
// returns its code, and on OK its value stands over the front of `out`, high byte first. A caller can rely on these: ENOMEM is tested last, a
// refusal changes no lent byte, and bytes past the value stay. Document 02, request 4: `wide` is 0 for a tag of two bits and 1 for one of four.

#![tactic(auto)]

ghost use Rattle.std.specs.Prelude.{◌≡◌, length};
ghost use Rattle.lent_room.specs.Room.{call_code, call_room};
ghost use Rattle.kernel.specs.Calls.{
  compute_owner,
  decode_owner,
  lock_valid,
  unlock_valid,
  mask_mod,
  pin_test,
  pin,
  ipi_mask,
  ipi_mask_test,
};

mod run;

pub use run::hubcrackle_run;

// The owner word of a thread on a CPU: 8 bytes.
pub fn hubcrackle_spin_lock_compute_owner(
    current_cpu_id: u32,
    current_thread: u64,
    wide: u32,
    out: &mut [u8],
) -> i32
    ensures code { result ≡ call_code (compute_owner current_cpu_id current_thread wide) (length out.old) }
    ensures room { out.new ≡ call_room (compute_owner current_cpu_id current_thread wide) out.old }
{
    let owner = owner_flags::compute_owner(current_cpu_id, current_thread, wide);
    lent_room::put(out, owner)
}

// The thread and the CPU in an owner word: 8 bytes and 1, all zero for a free lock.
pub fn hubcrackle_spin_lock_decode_owner(thread_cpu: u64, wide: u32, out: &mut [u8]) -> i32
    ensures code { result ≡ call_code (decode_owner thread_cpu wide) (length out.old) }
    ensures room { out.new ≡ call_room (decode_owner thread_cpu wide) out.old }
{
    lent_room::put(out, owner_flags::decode_owner(thread_cpu, wide))
}

// Whether a CPU may go for the lock that has this word: 1 byte.
pub fn hubcrackle_spin_lock_valid(
    thread_cpu: u64,
    current_cpu_id: u32,
    wide: u32,
    out: &mut [u8],
) -> i32
    ensures code { result ≡ call_code (lock_valid thread_cpu current_cpu_id wide) (length out.old) }
    ensures room { out.new ≡ call_room (lock_valid thread_cpu current_cpu_id wide) out.old }
{
    let lock = owner_flags::lock_valid(thread_cpu, current_cpu_id, wide);
    lent_room::put(out, lock)
}

// Whether this thread on this CPU may unlock the lock that has this word: 1 byte.
pub fn hubcrackle_spin_unlock_valid(
    thread_cpu: u64,
    current_cpu_id: u32,
    current_thread: u64,
    wide: u32,
    out: &mut [u8],
) -> i32
    ensures code { result ≡ call_code (unlock_valid thread_cpu current_cpu_id current_thread wide) (length out.old) }
    ensures room { out.new ≡ call_room (unlock_valid thread_cpu current_cpu_id current_thread wide) out.old }
{
    let unlock = owner_flags::unlock_valid(thread_cpu, current_cpu_id, current_thread, wide);
    lent_room::put(out, unlock)
}

// The mask with bits enabled and then disabled: 4 bytes. A refusal does not write the current mask.
pub fn hubcrackle_cpu_mask_mod(
    current_mask: u32,
    enable: u32,
    disable: u32,
    is_running: u32,
    pin_only: u32,
    out: &mut [u8],
) -> i32
    ensures code { result ≡ call_code (mask_mod current_mask enable disable is_running pin_only) (length out.old) }
    ensures room { out.new ≡ call_room (mask_mod current_mask enable disable is_running pin_only) out.old }
{
    let changed = mask_flags::mask_of_flags(current_mask, enable, disable, is_running, pin_only);
    lent_room::put(out, changed)
}

// Whether a mask names exactly one CPU: 1 byte.
pub fn hubcrackle_validate_pin_mask(mask: u32, out: &mut [u8]) -> i32
    ensures code { result ≡ call_code (pin_test mask) (length out.old) }
    ensures room { out.new ≡ call_room (pin_test mask) out.old }
{
    lent_room::put(out, Ok(cpu_mask::validate_pin_mask(mask)))
}

// The mask of one CPU: 4 bytes.
pub fn hubcrackle_cpu_pin_compute(cpu_id: u32, max_cpus: u32, out: &mut [u8]) -> i32
    ensures code { result ≡ call_code (pin cpu_id max_cpus) (length out.old) }
    ensures room { out.new ≡ call_room (pin cpu_id max_cpus) out.old }
{
    lent_room::put(out, cpu_mask::cpu_pin_compute(cpu_id, max_cpus))
}

// The mask of the CPUs to interrupt, from five bytes a CPU: 4 bytes.
pub fn hubcrackle_compute_ipi_mask(
    current_cpu: u32,
    target_prio: i32,
    target_cpu_mask: u32,
    cpus: &[u8],
    num_cpus: u32,
    max_cpus: u32,
    out: &mut [u8],
) -> i32
    ensures code { result ≡ call_code (ipi_mask current_cpu target_prio target_cpu_mask cpus.now num_cpus max_cpus) (length out.old) }
    ensures room { out.new ≡ call_room (ipi_mask current_cpu target_prio target_cpu_mask cpus.now num_cpus max_cpus) out.old }
{
    let ipi = cpu_bytes::ipi_mask_of_bytes(
        current_cpu,
        target_prio,
        target_cpu_mask,
        cpus,
        num_cpus,
        max_cpus,
    );
    lent_room::put(out, ipi)
}

// Whether a mask can be one that was computed for this CPU: 1 byte.
pub fn hubcrackle_validate_ipi_mask(
    mask: u32,
    current_cpu: u32,
    max_cpus: u32,
    out: &mut [u8],
) -> i32
    ensures code { result ≡ call_code (ipi_mask_test mask current_cpu max_cpus) (length out.old) }
    ensures room { out.new ≡ call_room (ipi_mask_test mask current_cpu max_cpus) out.old }
{
    lent_room::put(out, ipi::validate_ipi_mask(mask, current_cpu, max_cpus))
}
