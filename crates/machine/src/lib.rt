// The machine: n CPUs, 32 threads and 128 locks in one record, by value, with the cells that the operations of a log read and write.
//
// New here: upstream has the single rules and no machine. CPU, thread and lock numbers are kinds of their own, so that a lock's number
// cannot index a CPU or a thread. What is fixed at start is one value, the setup; the width of an owner word's tag is a function of it, and n is
// at most what a tag of that width tells apart.

#![tactic(auto)]

ghost use Rattle.std.specs.Prelude.{◌≡◌};
ghost use Rattle.error.specs.Answer.{says};
ghost use Rattle.words.specs.Tag.{cpu_of};
ghost use Rattle.machine.specs.State.{
  setup_ok,
  has_cpu,
  is_thread,
  is_priority,
  width_of,
  tag_bits,
  thread_word,
  cpu_field as State·cpuField,
  thread_mask,
  fresh_machine,
  fresh_threads,
  least_setup,
  least_machine,
  fresh as State·fresh,
  setup_by_byte,
  setup as State·setup,
};

use error::Refusal;
use spinlock::SpinlockState;
use spinlock_validate::Width;

// How many CPU slots, threads and locks a machine has.
pub const CPU_SLOTS: usize = 16;

pub const THREADS: usize = 32;

pub const LOCKS: usize = 128;

// The priority of a CPU with no thread, and the least and the greatest of a thread.
pub const IDLE_PRIORITY: i32 = 128;

const LEAST_PRIORITY: i32 = -128;

const GREATEST_PRIORITY: i32 = 127;

#[derive(Clone, Copy, Debug, PartialEq, Eq)]
pub struct CpuId(pub u32);

#[derive(Clone, Copy, Debug, PartialEq, Eq)]
pub struct ThreadId(pub u32);

#[derive(Clone, Copy, Debug, PartialEq, Eq)]
pub struct LockId(pub u32);

impl ThreadId {
    // Whether there is such a thread.
    pub fn exists(self) -> bool
        ensures { result ≡ is_thread self.0 }
    {
        self.0 < THREADS as u32
    }
}

// Whether a thread can have this priority: it lies in -128..127.
#[tactic(auto, unfolding(crate::specs::State::is_priority))]
pub fn is_priority(priority: i32) -> bool
    ensures { result ≡ is_priority priority }
{
    LEAST_PRIORITY <= priority && priority <= GREATEST_PRIORITY
}

// What is fixed at start: how many CPUs there are, whether a mask has one bit only, and whether owner words have wide tags.
#[derive(Clone, Copy, Debug, PartialEq, Eq)]
pub struct Setup {
    pub n: u32,
    pub pin_only: bool,
    pub wide: bool,
}

impl Setup {
    // The width of the tags of owner words.
    pub fn width(self) -> Width
        ensures { result ≡ width_of self }
    {
        Width::from(self.wide)
    }

    // Whether a machine can have this setup: n is 1 to 4, and to 16 if it is wide.
    pub fn is_ok(self) -> bool
        ensures { result ≡ setup_ok self }
    {
        1 <= self.n && self.n as u64 <= self.width().tags()
    }

    // Whether a machine of this setup has the CPU.
    pub fn has_cpu(self, c: CpuId) -> bool
        ensures { result ≡ has_cpu self c.0 }
    {
        self.is_ok() && c.0 < self.n
    }

    // The thread word of a thread: the address that stands for it in owner words.
    pub fn thread_word(self, t: ThreadId) -> u64
        ensures { result ≡ thread_word self t.0 }
    {
        self.width().tags() * (t.0 as u64 + 1)
    }

    // The CPU in an owner word.
    pub fn cpu_of(self, word: u64) -> CpuId
        ensures { result.0 ≡ cpu_of (tag_bits self) word }
    {
        CpuId(self.width().cpu_of(word))
    }
}

// A CPU's run cell. Its current thread is the one that it runs, if it runs one.
#[derive(Clone, Copy, Debug, PartialEq, Eq)]
pub struct Run {
    pub active: bool,
    pub current: Option<ThreadId>,
    pub priority: i32,
}

// A CPU: its run cell, and its hold cell, how many lock levels it holds.
#[derive(Clone, Copy, Debug, PartialEq, Eq)]
pub struct Cpu {
    pub run: Run,
    pub hold: u32,
}

// A thread's cell. Its place is the CPU on which it runs, if it runs.
#[derive(Clone, Copy, Debug, PartialEq, Eq)]
pub struct Thread {
    pub mask: u32,
    pub priority: i32,
    pub place: Option<CpuId>,
}

// A lock's cell: the lock record and the owner word.
#[derive(Clone, Copy, Debug, PartialEq, Eq)]
pub struct Lock {
    pub state: SpinlockState,
    pub word: u64,
}

// A free lock, whose word names nobody.
pub const FREE_LOCK: Lock = Lock {
    state: SpinlockState {
        owner: None,
        nest_count: 0,
        irq_saved: false,
    },
    word: 0,
};

#[derive(Clone, Copy, Debug, PartialEq, Eq)]
pub struct Machine {
    pub setup: Setup,
    pub cpus: [Cpu; CPU_SLOTS],
    pub threads: [Thread; THREADS],
    pub locks: [Lock; LOCKS],
}

// The mask of a fresh thread.
fn fresh_mask(pin_only: bool) -> u32
    ensures { result ≡ thread_mask pin_only }
{
    if pin_only { 1 } else { 0xffff_ffff }
}

// All CPUs down, no thread placed, every lock free.
fn fresh_machine(setup: Setup) -> Machine
    ensures { result ≡ fresh_machine setup (fresh_threads setup) }
{
    let run = Run {
        active: false,
        current: None,
        priority: IDLE_PRIORITY,
    };
    let cpu = Cpu { run, hold: 0 };
    let cpus = [cpu; CPU_SLOTS];
    let mask = fresh_mask(setup.pin_only);
    let thread = Thread {
        mask,
        priority: 0,
        place: None,
    };
    let threads = [thread; THREADS];
    let locks = [FREE_LOCK; LOCKS];
    Machine {
        setup,
        cpus,
        threads,
        locks,
    }
}

// The fresh machine of a setup. One that no machine can have is refused.
#[tactic(auto, unfolding(crate::specs::State::fresh, crate::specs::State::not_made))]
pub fn fresh(setup: Setup) -> Result<Machine, Refusal>
    ensures { says least_machine result ≡ State·fresh setup }
{
    if setup.is_ok() {
        Ok(fresh_machine(setup))
    } else {
        Err(Refusal::Einval)
    }
}

// The number of CPUs that the CPU field of a setup byte stands for. Of a wide machine 0 stands for as many as there are slots.
fn cpu_field(wide: bool, field: u32) -> u32
    ensures { result ≡ State·cpuField wide field }
{
    if wide && field == 0 {
        return CPU_SLOTS as u32;
    }
    field
}

// The setup that a byte stands for: n in the upper four bits, then pin-only, then wide, then two zero bits.
impl TryFrom<u8> for Setup {
    type Error = Refusal;

    ghost try_from_gives = { λ byte setup. says least_setup setup ≡ setup_by_byte byte };

    #[tactic(auto, unfolding(crate::specs::State::setup_by_byte))]
    fn try_from(byte: u8) -> Result<Setup, Refusal> {
        if byte % 4 != 0 {
            return Err(Refusal::Einval);
        }
        let wide = byte / 4 % 2 == 1;
        let setup = Setup {
            n: cpu_field(wide, u32::from(byte / 16)),
            pin_only: byte / 8 % 2 == 1,
            wide,
        };
        if !setup.is_ok() {
            return Err(Refusal::Einval);
        }
        Ok(setup)
    }
}

// The fresh machine that a setup byte asks for.
#[tactic(auto, unfolding(crate::specs::State::setup_by_byte, crate::specs::State::setup, crate::specs::State::fresh, crate::specs::State::not_made))]
pub fn from_setup_byte(byte: u8) -> Result<Machine, Refusal>
    ensures { says least_machine result ≡ State·setup byte }
{
    fresh(Setup::try_from(byte)?)
}
