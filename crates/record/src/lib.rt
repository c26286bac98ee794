// The records of a log: twelve bytes become a request.
//
// New here: upstream has no log. Document 01, "Log records": the form test and the fields that each operation uses; of document 02 are unwind, 12,
// and that an acquire is plain or nested by A, where 5 was the nested one. A caller can rely on these: every number of a request is in range
// (proofs/Range.antt), and one that is not `Malformed` has one encoding (proofs/Laws.antt).

#![tactic(auto)]

ghost use Rattle.std.specs.Prelude.{◌≡◌, cond, ◌+◌, ◌≤◌, length, take, drop};
ghost use Rattle.words.specs.HighFirst.{from_high_first};
ghost use Rattle.record.specs.Record.{
  fields_of,
  operand_ok,
  row_of,
  fits as Record·fits,
  request,
  carried as Record·carried,
  malformed as Record·malformed,
  InArrays,
  request_of,
};
ghost use Rattle.record.specs.Rows.{operand_of, form_of};

use machine::{CpuId, LOCKS, LockId, Setup, THREADS, ThreadId};

// How many bytes a record has.
pub const RECORD_BYTES: usize = 12;

// What a record asks of a CPU.
#[derive(Clone, Copy, Debug, PartialEq, Eq)]
pub enum CpuOperation {
    Up,
    Down,
    Put,
    Take,
}

// What a record asks of a thread. A pin leaves the bit of the request's CPU.
#[derive(Clone, Copy, Debug, PartialEq, Eq)]
pub enum ThreadOperation {
    Mask { enable: u32, disable: u32 },
    Pin,
    Priority(i32),
}

// What a record asks for: the operations in families, by what they change. What fails the form test is a case here, and no `Option` of a request,
// since the definition `request_of` gives it a request too.
#[derive(Clone, Copy, Debug, PartialEq, Eq)]
pub enum Operation {
    Malformed,
    OnCpu(CpuOperation),
    OnLock(spinlock::Operation),
    OnThread(ThreadOperation),
    Ipi,
    Owner,
    Unwind,
}

// An operation with the numbers that it uses. A number that it does not use is 0.
#[derive(Clone, Copy, Debug, PartialEq, Eq)]
pub struct Request {
    pub operation: Operation,
    pub cpu: CpuId,
    pub thread: ThreadId,
    pub lock: LockId,
}

// What A or B of an operation may be: zero alone, a flag, any mask, or a priority in two's complement.
#[derive(Clone, Copy, Debug, PartialEq, Eq)]
enum Operand {
    Zero,
    Flag,
    Mask,
    Priority,
}

// A row of the table: which numbers an operation uses, and what its A and B may be. Every number that it does not use is zero.
#[derive(Clone, Copy, Debug, PartialEq, Eq)]
struct Row {
    cpu: bool,
    thread: bool,
    lock: bool,
    a: Operand,
    b: Operand,
}

// Nothing.
const NOTHING: Row = Row {
    cpu: false,
    thread: false,
    lock: false,
    a: Operand::Zero,
    b: Operand::Zero,
};

// A CPU.
const CPU: Row = Row {
    cpu: true,
    ..NOTHING
};

// A CPU and a thread.
const SEAT: Row = Row {
    thread: true,
    ..CPU
};

// A CPU and a lock.
const HOLD: Row = Row { lock: true, ..CPU };

// The same with a flag: whether it is nested.
const ACQUIRE: Row = Row {
    a: Operand::Flag,
    ..HOLD
};

// A thread, and the bits to set and to clear.
const MASKS: Row = Row {
    thread: true,
    a: Operand::Mask,
    b: Operand::Mask,
    ..NOTHING
};

// A thread and its priority.
const PRIORITY: Row = Row {
    thread: true,
    a: Operand::Priority,
    ..NOTHING
};

// A lock.
const LOCK: Row = Row {
    lock: true,
    ..NOTHING
};

// The fields of twelve bytes, before any test.
#[derive(Clone, Copy, Debug, PartialEq, Eq)]
struct Fields {
    operation: u32,
    cpu: u32,
    thread: u32,
    lock: u32,
    zero: u32,
    a: u32,
    b: u32,
}

// The fields of a record.
#[tactic(auto, unfolding(crate::specs::Record::fields_of))]
fn fields_of(bytes: &[u8]) -> Fields
    requires { length bytes.now ≡ 12 }
    ensures { result ≡ fields_of bytes.now }
{
    Fields {
        operation: u32::from(bytes[0] / 16),
        cpu: u32::from(bytes[0] % 16),
        thread: u32::from(bytes[1]),
        lock: u32::from(bytes[2]),
        zero: u32::from(bytes[3]),
        a: high_first::word_at(bytes, 4).unwrap_or(0),
        b: high_first::word_at(bytes, 8).unwrap_or(0),
    }
}

// What a field stays below: the given number if the operation uses it, else 1.
fn limit(used: bool, most: u32) -> u32
    ensures { result ≡ cond used most 1 }
{
    if used { most } else { 1 }
}

impl Operand {
    // Whether A or B is what the operation takes.
    fn takes(self, x: u32) -> bool
        ensures { result ≡ operand_ok (operand_of self) x }
    {
        match self {
            Operand::Zero => x == 0,
            Operand::Flag => x < 2,
            Operand::Mask => true,
            Operand::Priority => machine::is_priority(high_first::signed(x)),
        }
    }
}

// Whether the fields that an operation uses are in range, and all else zero. The tests are joined by `&`: by `&&` each is a branch, and a wide log
// of interrupts misses its bar of speed (1.54 times the baseline, for 1.5; by `&` 1.37).
#[tactic(auto, unfolding(crate::specs::Record::fits))]
fn fits(n: u32, row: Row, f: Fields) -> bool
    ensures { result ≡ Record·fits n (form_of row) f }
{
    (f.cpu < limit(row.cpu, n))
        & (f.thread < limit(row.thread, THREADS as u32))
        & (f.lock < limit(row.lock, LOCKS as u32))
        & row.a.takes(f.a)
        & row.b.takes(f.b)
}

// What fails the form test.
fn malformed() -> Request
    ensures { result ≡ Record·malformed }
{
    Request {
        operation: Operation::Malformed,
        cpu: CpuId(0),
        thread: ThreadId(0),
        lock: LockId(0),
    }
}

// The request of an operation with this row, if the fields have its form.
fn formed(n: u32, row: Row, f: Fields, operation: Operation) -> Request
    ensures { result ≡ cond (Record·fits n (form_of row) f) (request operation f.cpu f.thread f.lock) Record·malformed }
{
    if !fits(n, row, f) {
        return malformed();
    }
    Request {
        operation,
        cpu: CpuId(f.cpu),
        thread: ThreadId(f.thread),
        lock: LockId(f.lock),
    }
}

// The request in the fields of a record whose fourth byte is zero: the table, row by row. Each row is a constant, so that a compiler works out
// its form test.
fn carried(n: u32, f: Fields) -> Request
    ensures { result ≡ cond (Record·fits n (row_of f.operation) f) (Record·carried (row_of f.operation) f) Record·malformed }
{
    match f.operation {
        0 => formed(n, CPU, f, Operation::OnCpu(CpuOperation::Up)),
        1 => formed(n, CPU, f, Operation::OnCpu(CpuOperation::Down)),
        2 => formed(n, SEAT, f, Operation::OnCpu(CpuOperation::Put)),
        3 => formed(n, SEAT, f, Operation::OnCpu(CpuOperation::Take)),
        4 => {
            let acquire = spinlock::Operation::Acquire { nested: f.a == 1 };
            formed(n, ACQUIRE, f, Operation::OnLock(acquire))
        }
        5 => formed(n, NOTHING, f, Operation::Malformed),
        6 => formed(n, HOLD, f, Operation::OnLock(spinlock::Operation::Release)),
        7 => {
            let masks = ThreadOperation::Mask {
                enable: f.a,
                disable: f.b,
            };
            formed(n, MASKS, f, Operation::OnThread(masks))
        }
        8 => formed(n, SEAT, f, Operation::OnThread(ThreadOperation::Pin)),
        9 => {
            let priority = ThreadOperation::Priority(high_first::signed(f.a));
            formed(n, PRIORITY, f, Operation::OnThread(priority))
        }
        10 => formed(n, SEAT, f, Operation::Ipi),
        11 => formed(n, LOCK, f, Operation::Owner),
        12 => formed(n, SEAT, f, Operation::Unwind),
        _ => malformed(),
    }
}

// The request in a record, for a machine of this setup.
#[tactic(auto, unfolding(crate::specs::Record::request_of))]
pub fn request_of(setup: Setup, bytes: &[u8]) -> Request
    ensures request { result ≡ request_of setup bytes.now }
    ensures places { InArrays result }
{
    if !setup.is_ok() || bytes.len() != RECORD_BYTES {
        return malformed();
    }
    let f = fields_of(bytes);
    if f.zero != 0 {
        return malformed();
    }
    carried(setup.n, f)
}
