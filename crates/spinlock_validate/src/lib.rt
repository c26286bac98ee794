// The owner word of a spinlock: the word of the thread that holds it, with the number of its CPU in the low bits. 0 is a free lock.
//
// Upstream: src/spinlock_validate.rs.
//   spin_lock_valid          -> spin_lock_valid
//   spin_unlock_valid        -> spin_unlock_valid
//   spin_lock_compute_owner  -> spin_lock_compute_owner, which also stands for the `set_owner` that spinlock.rs names
//   decode_*_spec            -> spin_lock_decode_owner, which is code here
// Document 02, request 4: each takes the width of the tag, upstream's two bits or four, and goes by the one rule over the width.
// What upstream requires of a caller is refused here with EINVAL. A caller can rely on these: a word that was made decodes to the one
// CPU and the one thread that made it (proofs/Laws.antt), and nobody else may unlock it.

#![tactic(auto)]

ghost use Rattle.std.specs.Prelude.{◌≡◌, ◌^◌, false};
ghost use Rattle.error.specs.Answer.{says};
ghost use Rattle.words.specs.Tag.{taggable as Tag·taggable, cpu_of};
ghost use Rattle.spinlock_validate.specs.Owner.{
  width_bits,
  width_by,
  decoded_says,
  spin_lock_compute_owner,
  spin_lock_decode_owner,
  spin_lock_valid,
  spin_unlock_valid,
};

use error::Refusal;

// How many CPUs a tag tells apart, and what thread words are multiples of: of two bits (upstream's MAX_CPUS of this file, and THREAD_ALIGN), and
// of four.
pub const TAG_CPUS: u64 = 4;

pub const WIDE_TAG_CPUS: u64 = 16;

// How wide the tag is: two bits or four.
#[derive(Clone, Copy, Debug, PartialEq, Eq)]
pub enum Width {
    Narrow,
    Wide,
}

impl Width {
    // How many CPUs the tag tells apart.
    pub fn tags(self) -> u64
        ensures { result ≡ 2 ^ width_bits self }
    {
        match self {
            Width::Narrow => TAG_CPUS,
            Width::Wide => WIDE_TAG_CPUS,
        }
    }

    // The CPU in a word.
    pub fn cpu_of(self, word: u64) -> u32
        ensures { result ≡ cpu_of (width_bits self) word }
    {
        (word & (self.tags() - 1)) as u32
    }
}

// The width that a flag asks for.
impl From<bool> for Width {
    ghost from_gives = { λ wide width. width ≡ width_by wide };

    fn from(wide: bool) -> Width {
        if wide { Width::Wide } else { Width::Narrow }
    }
}

// Who holds a lock, as its owner word says it.
#[derive(Clone, Copy, Debug, PartialEq, Eq)]
pub struct Held {
    pub thread: u64,
    pub cpu: u32,
}

// Whether the CPU fits a tag, and the thread word leaves room for it. That the thread word's own low bits are clear is asked of their sum with the
// CPU: a compiler that knew it would take the owner word apart and write it byte by byte (docs/PERFORMANCE.md).
fn taggable(cpu: u32, thread: u64, width: Width) -> bool
    ensures { result ≡ Tag·taggable (width_bits width) cpu thread }
{
    if cpu as u64 >= width.tags() {
        return false;
    }
    if thread == 0 {
        return false;
    }
    let low = width.cpu_of(thread);
    width.cpu_of(low as u64 + cpu as u64) == cpu
}

// The word of a thread on a CPU.
pub fn spin_lock_compute_owner(
    current_cpu_id: u32,
    current_thread: u64,
    width: Width,
) -> Result<u64, Refusal>
    ensures { says 0 result ≡ spin_lock_compute_owner (width_bits width) current_cpu_id current_thread }
{
    if !taggable(current_cpu_id, current_thread, width) {
        return Err(Refusal::Einval);
    }
    Ok(current_thread + (current_cpu_id as u64))
}

// Who holds the lock that has this word, if anybody does.
pub fn spin_lock_decode_owner(thread_cpu: u64, width: Width) -> Result<Option<Held>, Refusal>
    ensures { decoded_says result ≡ spin_lock_decode_owner (width_bits width) thread_cpu }
{
    if thread_cpu == 0 {
        return Ok(None);
    }
    if thread_cpu < width.tags() {
        return Err(Refusal::Einval);
    }
    let cpu = width.cpu_of(thread_cpu);
    Ok(Some(Held {
        thread: thread_cpu - (cpu as u64),
        cpu,
    }))
}

// Whether a CPU may go for the lock that has this word: not if it is itself the one that holds it.
pub fn spin_lock_valid(thread_cpu: u64, current_cpu_id: u32, width: Width) -> Result<bool, Refusal>
    ensures { says false result ≡ spin_lock_valid (width_bits width) thread_cpu current_cpu_id }
{
    if current_cpu_id as u64 >= width.tags() {
        return Err(Refusal::Einval);
    }
    if thread_cpu == 0 {
        return Ok(true);
    }
    Ok(width.cpu_of(thread_cpu) != current_cpu_id)
}

// Whether the lock that has this word is held by this thread on this CPU: the whole word is compared.
pub fn spin_unlock_valid(
    thread_cpu: u64,
    current_cpu_id: u32,
    current_thread: u64,
    width: Width,
) -> Result<bool, Refusal>
    ensures { says false result ≡ spin_unlock_valid (width_bits width) thread_cpu current_cpu_id current_thread }
{
    if !taggable(current_cpu_id, current_thread, width) {
        return Err(Refusal::Einval);
    }
    Ok(thread_cpu == current_thread + (current_cpu_id as u64))
}
