// The calls on owner words with their width as a number, as a C kernel hands it over.
//
// New here, over the crate spinlock_validate; document 02, request 4: the flag is 0 for a tag of two bits and 1 for one of four, and any other
// number is refused with EINVAL. C has numbers for its flags, so they are numbers here too. Where a word comes back each width has an arm of its own,
// so that a compiler works the rule out for each; where the answer is yes or no it has not, since the compiler would make a branch of the answer
// (docs/PERFORMANCE.md).

#![tactic(auto)]

ghost use Rattle.std.specs.Prelude.{◌≡◌, leb, eqb, true, false, MatchResult};
ghost use Rattle.error.specs.Codes.{EINVAL, refusal_number};
ghost use Rattle.error.specs.Answer.{says};
ghost use Rattle.spinlock_validate.specs.Owner.{width_by, decoded_says};
ghost use Rattle.owner_flags.specs.Flags.{compute_owner, decode_owner, lock_valid, unlock_valid};

use error::Refusal;
use spinlock_validate::{Held, Width};

// The width that a flag asks for. Only the calls of a C kernel have it as a number. By a test and a choice: of a `match` on the number the compiler
// makes a branch for each width, in the calls that answer yes or no too.
fn width(wide: u32) -> Result<Width, Refusal>
    ensures { MatchResult result
        (λ width. (leb wide 1 ≡ true) × (width ≡ width_by (eqb wide 1)))
        (λ why. (leb wide 1 ≡ false) × (refusal_number why ≡ EINVAL)) }
{
    if wide > 1 {
        return Err(Refusal::Einval);
    }
    Ok(Width::from(wide == 1))
}

// The word of a thread on a CPU.
#[tactic(auto, unfolding(crate::specs::Flags::by_flag))]
pub fn compute_owner(current_cpu_id: u32, current_thread: u64, wide: u32) -> Result<u64, Refusal>
    ensures { says 0 result ≡ compute_owner current_cpu_id current_thread wide }
{
    let width = width(wide)?;
    let cpu = current_cpu_id;
    let thread = current_thread;
    match width {
        Width::Narrow => spinlock_validate::spin_lock_compute_owner(cpu, thread, Width::Narrow),
        Width::Wide => spinlock_validate::spin_lock_compute_owner(cpu, thread, Width::Wide),
    }
}

// Who holds the lock that has this word.
#[tactic(auto, unfolding(crate::specs::Flags::by_flag))]
pub fn decode_owner(thread_cpu: u64, wide: u32) -> Result<Option<Held>, Refusal>
    ensures { decoded_says result ≡ decode_owner thread_cpu wide }
{
    match width(wide)? {
        Width::Narrow => spinlock_validate::spin_lock_decode_owner(thread_cpu, Width::Narrow),
        Width::Wide => spinlock_validate::spin_lock_decode_owner(thread_cpu, Width::Wide),
    }
}

// Whether a CPU may go for the lock that has this word.
#[tactic(auto, unfolding(crate::specs::Flags::by_flag))]
pub fn lock_valid(thread_cpu: u64, current_cpu_id: u32, wide: u32) -> Result<bool, Refusal>
    ensures { says false result ≡ lock_valid thread_cpu current_cpu_id wide }
{
    let width = width(wide)?;
    spinlock_validate::spin_lock_valid(thread_cpu, current_cpu_id, width)
}

// Whether the lock that has this word is held by this thread on this CPU.
#[tactic(auto, unfolding(crate::specs::Flags::by_flag))]
pub fn unlock_valid(
    thread_cpu: u64,
    current_cpu_id: u32,
    current_thread: u64,
    wide: u32,
) -> Result<bool, Refusal>
    ensures { says false result ≡ unlock_valid thread_cpu current_cpu_id current_thread wide }
{
    let width = width(wide)?;
    spinlock_validate::spin_unlock_valid(thread_cpu, current_cpu_id, current_thread, width)
}
