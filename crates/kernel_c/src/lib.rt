// The archive for a C kernel: an export for each call of the crate kernel, with its clauses. include/hubcrackle.h declares them.

#![tactic(auto)]

ghost use Rattle.std.specs.Prelude.{◌≡◌, length};
ghost use Rattle.lent_room.specs.Room.{call_code, call_room};
ghost use Rattle.setup_run.specs.Run.{code_from_setup, room_from_setup};
ghost use Rattle.kernel.specs.Calls.{
  compute_owner,
  decode_owner,
  lock_valid,
  unlock_valid,
  mask_mod,
  pin_test,
  pin,
  ipi_mask,
  ipi_mask_test,
};

// The owner word of a thread on a CPU: 8 bytes.
#[unsafe(no_mangle)]
pub extern "C" fn hubcrackle_spin_lock_compute_owner(
    current_cpu_id: u32,
    current_thread: u64,
    wide: u32,
    out: &mut [u8],
) -> i32
    ensures code { result ≡ call_code (compute_owner current_cpu_id current_thread wide) (length out.old) }
    ensures room { out.new ≡ call_room (compute_owner current_cpu_id current_thread wide) out.old }
{
    kernel::hubcrackle_spin_lock_compute_owner(current_cpu_id, current_thread, wide, out)
}

// The thread and the CPU in an owner word: 8 bytes and 1, all zero for a free lock.
#[unsafe(no_mangle)]
pub extern "C" fn hubcrackle_spin_lock_decode_owner(
    thread_cpu: u64,
    wide: u32,
    out: &mut [u8],
) -> i32
    ensures code { result ≡ call_code (decode_owner thread_cpu wide) (length out.old) }
    ensures room { out.new ≡ call_room (decode_owner thread_cpu wide) out.old }
{
    kernel::hubcrackle_spin_lock_decode_owner(thread_cpu, wide, out)
}

// Whether a CPU may go for the lock that has this word: 1 byte.
#[unsafe(no_mangle)]
pub extern "C" fn hubcrackle_spin_lock_valid(
    thread_cpu: u64,
    current_cpu_id: u32,
    wide: u32,
    out: &mut [u8],
) -> i32
    ensures code { result ≡ call_code (lock_valid thread_cpu current_cpu_id wide) (length out.old) }
    ensures room { out.new ≡ call_room (lock_valid thread_cpu current_cpu_id wide) out.old }
{
    kernel::hubcrackle_spin_lock_valid(thread_cpu, current_cpu_id, wide, out)
}

// Whether this thread on this CPU may unlock the lock that has this word: 1 byte.
#[unsafe(no_mangle)]
pub extern "C" fn hubcrackle_spin_unlock_valid(
    thread_cpu: u64,
    current_cpu_id: u32,
    current_thread: u64,
    wide: u32,
    out: &mut [u8],
) -> i32
    ensures code { result ≡ call_code (unlock_valid thread_cpu current_cpu_id current_thread wide) (length out.old) }
    ensures room { out.new ≡ call_room (unlock_valid thread_cpu current_cpu_id current_thread wide) out.old }
{
    kernel::hubcrackle_spin_unlock_valid(thread_cpu, current_cpu_id, current_thread, wide, out)
}

// The mask with bits enabled and then disabled: 4 bytes. A refusal does not write the current mask.
#[unsafe(no_mangle)]
pub extern "C" fn hubcrackle_cpu_mask_mod(
    current_mask: u32,
    enable: u32,
    disable: u32,
    is_running: u32,
    pin_only: u32,
    out: &mut [u8],
) -> i32
    ensures code { result ≡ call_code (mask_mod current_mask enable disable is_running pin_only) (length out.old) }
    ensures room { out.new ≡ call_room (mask_mod current_mask enable disable is_running pin_only) out.old }
{
    kernel::hubcrackle_cpu_mask_mod(current_mask, enable, disable, is_running, pin_only, out)
}

// Whether a mask names exactly one CPU: 1 byte.
#[unsafe(no_mangle)]
pub extern "C" fn hubcrackle_validate_pin_mask(mask: u32, out: &mut [u8]) -> i32
    ensures code { result ≡ call_code (pin_test mask) (length out.old) }
    ensures room { out.new ≡ call_room (pin_test mask) out.old }
{
    kernel::hubcrackle_validate_pin_mask(mask, out)
}

// The mask of one CPU: 4 bytes.
#[unsafe(no_mangle)]
pub extern "C" fn hubcrackle_cpu_pin_compute(cpu_id: u32, max_cpus: u32, out: &mut [u8]) -> i32
    ensures code { result ≡ call_code (pin cpu_id max_cpus) (length out.old) }
    ensures room { out.new ≡ call_room (pin cpu_id max_cpus) out.old }
{
    kernel::hubcrackle_cpu_pin_compute(cpu_id, max_cpus, out)
}

// The mask of the CPUs to interrupt, from five bytes a CPU: 4 bytes.
#[unsafe(no_mangle)]
pub extern "C" fn hubcrackle_compute_ipi_mask(
    current_cpu: u32,
    target_prio: i32,
    target_cpu_mask: u32,
    cpus: &[u8],
    num_cpus: u32,
    max_cpus: u32,
    out: &mut [u8],
) -> i32
    ensures code { result ≡ call_code (ipi_mask current_cpu target_prio target_cpu_mask cpus.now num_cpus max_cpus) (length out.old) }
    ensures room { out.new ≡ call_room (ipi_mask current_cpu target_prio target_cpu_mask cpus.now num_cpus max_cpus) out.old }
{
    kernel::hubcrackle_compute_ipi_mask(
        current_cpu,
        target_prio,
        target_cpu_mask,
        cpus,
        num_cpus,
        max_cpus,
        out,
    )
}

// Whether a mask can be one that was computed for this CPU: 1 byte.
#[unsafe(no_mangle)]
pub extern "C" fn hubcrackle_validate_ipi_mask(
    mask: u32,
    current_cpu: u32,
    max_cpus: u32,
    out: &mut [u8],
) -> i32
    ensures code { result ≡ call_code (ipi_mask_test mask current_cpu max_cpus) (length out.old) }
    ensures room { out.new ≡ call_room (ipi_mask_test mask current_cpu max_cpus) out.old }
{
    kernel::hubcrackle_validate_ipi_mask(mask, current_cpu, max_cpus, out)
}

// The answers of a log, from the machine that a setup byte asks for: 8 bytes a record.
#[unsafe(no_mangle)]
pub extern "C" fn hubcrackle_run(setup: u8, log: &[u8], out: &mut [u8]) -> i32
    ensures code { result ≡ code_from_setup setup log.now (length out.old) }
    ensures room { out.new ≡ room_from_setup setup log.now out.old }
{
    kernel::hubcrackle_run(setup, log, out)
}
