// One lock record: who holds a spinlock, how deep, and whether interrupts were saved when it was taken.
//
// Upstream: src/spinlock.rs, `SpinlockState` with its methods, by value: a call takes the record and gives it back.
//   init -> new; acquire and release keep their names, and acquire_nested is acquire with its flag set; the calls that only read are in
//   spinlock_reads
//   set_owner is named upstream and stands in no file: spinlock_validate::spin_lock_compute_owner stands for it
//   operate is new: acquire and release in one, for a thread that may be on another CPU than it took the lock on
//   acquire_again is new: a plain acquire by the CPU that holds the lock (document 02, request 6); the single call keeps upstream's EBUSY
// What upstream requires, a valid record, is tested here: an invalid one is EINVAL in every call and comes back as given. A caller can
// rely on these (proofs/Laws.antt): no call makes a valid record invalid, a refusal changes nothing, and a release undoes an acquire.

#![tactic(auto)]

ghost use Rattle.std.specs.Prelude.{◌≡◌, Bool, true, false, ◌<◌};
ghost use Rattle.error.specs.Codes.{number_of};
ghost use Rattle.error.specs.Answer.{says};
ghost use Rattle.spinlock.specs.Table.{row_of, column_of, code_of, code_again};
ghost use Rattle.spinlock.specs.Lock.{
  free_record,
  taken_by,
  max_nest_depth,
  deeper as Lock·deeper,
  shallower as Lock·shallower,
  after as Lock·after,
  operate as Lock·operate,
  valid_record,
  situation_at,
  acquire,
  acquire_again,
  release,
};

use error::Refusal;

// How deep one thread may nest.
pub const MAX_NEST_DEPTH: u32 = 255;

// The lock record. Its owner is the thread that holds the lock, if one does.
#[derive(Clone, Copy, Debug, PartialEq, Eq)]
pub struct SpinlockState {
    pub owner: Option<u32>,
    pub nest_count: u32,
    pub irq_saved: bool,
}

// The calls that change a record. An acquire is plain or nested.
#[derive(Clone, Copy, Debug, PartialEq, Eq)]
pub enum Operation {
    Acquire { nested: bool },
    Release,
}

// What a valid record is to a thread that asks: free, its own with room to nest, its own and full, or another's. Its own counts as another's
// where it asks from another CPU than it took the lock on.
#[derive(Clone, Copy, Debug, PartialEq, Eq)]
pub enum Situation {
    Free,
    Own,
    Full,
    Foreign,
}

// The code of each operation in each situation: rows plain acquire, nested acquire, release, and plain acquire again, by the CPU that the lock's
// word names; columns free, own, full, foreign.
const CODES: [[Result<(), Refusal>; 4]; 4] = [
    [DONE, BUSY, BUSY, BUSY],
    [DONE, DONE, BUSY, BUSY],
    [NOT_YOURS, DONE, DONE, NOT_YOURS],
    [DONE, DEADLOCK, DEADLOCK, DEADLOCK],
];

const DONE: Result<(), Refusal> = Ok(());

const BUSY: Result<(), Refusal> = Err(Refusal::Ebusy);

const NOT_YOURS: Result<(), Refusal> = Err(Refusal::Eperm);

const DEADLOCK: Result<(), Refusal> = Err(Refusal::Edeadlk);

// The row of a plain acquire again.
const AGAIN: usize = 3;

fn row(operation: Operation) -> usize
    ensures { (result ≡ row_of operation) × (result < 3) }
{
    match operation {
        Operation::Acquire { nested } => { if nested { 1 } else { 0 } }
        Operation::Release => 2,
    }
}

fn column(situation: Situation) -> usize
    ensures { (result ≡ column_of situation) × (result < 4) }
{
    match situation {
        Situation::Free => 0,
        Situation::Own => 1,
        Situation::Full => 2,
        Situation::Foreign => 3,
    }
}

// The code of an operation in a situation.
fn code_of(operation: Operation, situation: Situation) -> Result<(), Refusal>
    ensures { number_of result ≡ code_of operation situation }
{
    let i = row(operation);
    let j = column(situation);
    CODES[i][j]
}

// The code of a plain acquire again in a situation.
fn code_again(situation: Situation) -> Result<(), Refusal>
    ensures { number_of result ≡ code_again situation }
{
    let j = column(situation);
    CODES[AGAIN][j]
}

// The record that a thread has just taken.
fn taken_by(tid: u32) -> SpinlockState
    ensures { result ≡ taken_by tid }
{
    SpinlockState {
        owner: Some(tid),
        nest_count: 1,
        irq_saved: true,
    }
}

impl SpinlockState {
    // A free record.
    pub fn new() -> SpinlockState
        ensures { result ≡ free_record }
    {
        SpinlockState {
            owner: None,
            nest_count: 0,
            irq_saved: false,
        }
    }

    // Whether the three fields fit together.
    #[tactic(auto, unfolding(crate::specs::Lock::valid_record))]
    pub fn valid(self) -> bool
        ensures { result ≡ valid_record self }
    {
        match self.owner {
            None => self.nest_count == 0 && !self.irq_saved,
            Some(_) => 0 < self.nest_count && self.nest_count <= MAX_NEST_DEPTH,
        }
    }

    // What the record is to a thread.
    #[tactic(auto, unfolding(crate::specs::Lock::situation_at))]
    fn situation(self, tid: u32, elsewhere: bool) -> Situation
        ensures { result ≡ situation_at self tid elsewhere }
    {
        match self.owner {
            None => Situation::Free,
            Some(holder) => {
                if holder != tid || elsewhere {
                    return Situation::Foreign;
                }
                if self.nest_count < MAX_NEST_DEPTH {
                    Situation::Own
                } else {
                    Situation::Full
                }
            }
        }
    }

    // One level more.
    fn deeper(self) -> SpinlockState
        requires { self.nest_count < max_nest_depth }
        ensures { result ≡ Lock·deeper self }
    {
        SpinlockState {
            nest_count: self.nest_count + 1,
            ..self
        }
    }

    // One level less, and free after the last.
    fn shallower(self) -> SpinlockState
        requires { 0 < self.nest_count }
        ensures { result ≡ Lock·shallower self }
    {
        if self.nest_count == 1 {
            return SpinlockState::new();
        }
        SpinlockState {
            nest_count: self.nest_count - 1,
            ..self
        }
    }

    // The record after an operation in a situation. What is refused stays as it was.
    fn after(self, operation: Operation, situation: Situation, tid: u32) -> SpinlockState
        requires valid { valid_record self ≡ true }
        requires situated { (elsewhere : Bool) × (situation ≡ situation_at self tid elsewhere) }
        ensures { result ≡ Lock·after operation situation self tid }
    {
        match operation {
            Operation::Acquire { nested } => match situation {
                Situation::Free => taken_by(tid),
                Situation::Own => { if nested { self.deeper() } else { self } }
                Situation::Full => self,
                Situation::Foreign => self,
            },
            Operation::Release => match situation {
                Situation::Free => self,
                Situation::Own => self.shallower(),
                Situation::Full => self.shallower(),
                Situation::Foreign => self,
            },
        }
    }

    // An operation by a thread, which may be elsewhere: on another CPU than it took the lock on, where it is not the owner. An invalid record
    // is refused first and comes back as given; the code of any other comes from the table.
    pub fn operate(
        self,
        operation: Operation,
        tid: u32,
        elsewhere: bool,
    ) -> Result<SpinlockState, Refusal>
        ensures { says self result ≡ Lock·operate operation self tid elsewhere }
    {
        if !self.valid() {
            return Err(Refusal::Einval);
        }
        let situation = self.situation(tid, elsewhere);
        code_of(operation, situation)?;
        Ok(self.after(operation, situation, tid))
    }

    // Takes a free lock. A held one is busy, for its owner too, unless the acquire is nested: then its owner goes one level deeper, up to the
    // greatest depth.
    pub fn acquire(self, tid: u32, nested: bool) -> Result<SpinlockState, Refusal>
        ensures { says self result ≡ acquire self tid nested }
    {
        self.operate(Operation::Acquire { nested }, tid, false)
    }

    // Takes a free lock, by a plain acquire on the CPU that the lock's word names: as acquire, but a held lock is a deadlock, since that CPU itself
    // holds it. Who asks knows the word; the record does not.
    pub fn acquire_again(self, tid: u32) -> Result<SpinlockState, Refusal>
        ensures { says self result ≡ acquire_again self tid }
    {
        if !self.valid() {
            return Err(Refusal::Einval);
        }
        let situation = self.situation(tid, false);
        code_again(situation)?;
        Ok(self.after(Operation::Acquire { nested: false }, situation, tid))
    }

    // Gives back one level, for the owner alone.
    pub fn release(self, tid: u32) -> Result<SpinlockState, Refusal>
        ensures { says self result ≡ release self tid }
    {
        self.operate(Operation::Release, tid, false)
    }
}
