// The calls on one lock record.
use crate::show;
use error::Refusal;
use spinlock::{Operation, SpinlockState};
use std::{fmt, io};

const DEPTHS: [u32; 10] = [0, 1, 2, 3, 4, 254, 255, 256, 0x8000_0000, 0xffff_ffff];

const THREADS: [u32; 3] = [0, 7, 0xffff_ffff];

// What a call that changes a record gives.
type Changed = Result<SpinlockState, Refusal>;

// An owner as the lines have it.
#[derive(Clone, Copy)]
struct Holder(Option<u32>);

impl fmt::Display for Holder {
    fn fmt<W: fmt::Write>(&self, f: &mut fmt::Formatter<W>) -> fmt::Result {
        match self.0 {
            None => write!(f, "owner none"),
            Some(thread) => write!(f, "owner {thread}"),
        }
    }
}

// And a lock record.
#[derive(Clone, Copy)]
struct Record(SpinlockState);

impl fmt::Display for Record {
    fn fmt<W: fmt::Write>(&self, f: &mut fmt::Formatter<W>) -> fmt::Result {
        let owner = Holder(self.0.owner);
        let depth = self.0.nest_count;
        let irq = show::flag(self.0.irq_saved);
        write!(f, "{owner} depth {depth} irq {irq}")
    }
}

// The call's name, the record and the thread that asks.
fn asked(rt: &impl Print, name: &str, s: SpinlockState, tid: u32) -> io::Result<()> {
    print!(rt; "{name} {} thread {tid}", Record(s))
}

// What a call that changes the record gave. A refusal leaves the record.
fn changed(rt: &impl Print, s: SpinlockState, r: Changed) -> io::Result<()> {
    println!(rt; ": {} {}", show::code(r), Record(r.unwrap_or(s)))
}

fn acquired(
    rt: &impl Print,
    name: &str,
    s: SpinlockState,
    tid: u32,
    nested: bool,
    r: Changed,
) -> io::Result<()> {
    asked(rt, name, s, tid)?;
    print!(rt; " nested {}", show::flag(nested))?;
    changed(rt, s, r)
}

// A release, or a plain acquire again.
fn done(rt: &impl Print, name: &str, s: SpinlockState, tid: u32, r: Changed) -> io::Result<()> {
    asked(rt, name, s, tid)?;
    changed(rt, s, r)
}

fn answered(
    rt: &impl Print,
    name: &str,
    s: SpinlockState,
    tid: u32,
    r: Result<bool, Refusal>,
) -> io::Result<()> {
    asked(rt, name, s, tid)?;
    println!(rt;
        ": {} {}",
        show::code(r),
        show::yes_or_no(r.unwrap_or(false))
    )
}

// Every call by one thread on one record.
fn by_thread(rt: &impl Print, s: SpinlockState, tid: u32) -> io::Result<()> {
    acquired(rt, "acquire", s, tid, false, s.acquire(tid, false))?;
    acquired(rt, "acquire", s, tid, true, s.acquire(tid, true))?;
    done(rt, "acquire_again", s, tid, s.acquire_again(tid))?;
    done(rt, "release", s, tid, s.release(tid))?;
    answered(
        rt,
        "acquire_check",
        s,
        tid,
        spinlock_reads::acquire_check(s, tid),
    )?;
    answered(
        rt,
        "release_check",
        s,
        tid,
        spinlock_reads::release_check(s, tid),
    )?;
    answered(rt, "is_owner", s, tid, spinlock_reads::is_owner(s, tid))?;
    elsewhere(rt, s, tid)
}

// An acquire by a thread on another CPU than it took the lock on, if it did.
fn acquire_elsewhere(rt: &impl Print, s: SpinlockState, tid: u32, nested: bool) -> io::Result<()> {
    acquired(
        rt,
        "acquire_elsewhere",
        s,
        tid,
        nested,
        s.operate(Operation::Acquire { nested }, tid, true),
    )
}

// Both acquires and a release by such a thread.
fn elsewhere(rt: &impl Print, s: SpinlockState, tid: u32) -> io::Result<()> {
    acquire_elsewhere(rt, s, tid, false)?;
    acquire_elsewhere(rt, s, tid, true)?;
    done(
        rt,
        "release_elsewhere",
        s,
        tid,
        s.operate(Operation::Release, tid, true),
    )
}

fn read(rt: &impl Print, name: &str, s: SpinlockState, r: Result<bool, Refusal>) -> io::Result<()> {
    println!(rt;
        "{name} {}: {} {}",
        Record(s),
        show::code(r),
        show::yes_or_no(r.unwrap_or(false))
    )
}

fn depth(rt: &impl Print, s: SpinlockState) -> io::Result<()> {
    let r = spinlock_reads::nest_depth(s);
    println!(rt;
        "nest_depth {}: {} depth {}",
        Record(s),
        show::code(r),
        r.unwrap_or(0)
    )
}

fn owner_of(rt: &impl Print, s: SpinlockState) -> io::Result<()> {
    let r = spinlock_reads::owner_get(s);
    println!(rt;
        "owner_get {}: {} {}",
        Record(s),
        show::code(r),
        Holder(r.unwrap_or(None))
    )
}

fn validity(rt: &impl Print, s: SpinlockState) -> io::Result<()> {
    println!(rt; "valid {}: {}", Record(s), show::yes_or_no(s.valid()))
}

fn on_record(rt: &impl Print, s: SpinlockState) -> io::Result<()> {
    validity(rt, s)?;
    read(rt, "is_held", s, spinlock_reads::is_held(s))?;
    read(rt, "is_free", s, spinlock_reads::is_free(s))?;
    depth(rt, s)?;
    owner_of(rt, s)?;
    for tid in THREADS {
        by_thread(rt, s, tid)?;
    }
    Ok(())
}

fn at_depth(rt: &impl Print, nest_count: u32, irq_saved: bool) -> io::Result<()> {
    for owner in [None, Some(7)] {
        on_record(
            rt,
            SpinlockState {
                owner,
                nest_count,
                irq_saved,
            },
        )?;
    }
    Ok(())
}

fn fresh(rt: &impl Print) -> io::Result<()> {
    println!(rt; "new: {}", Record(SpinlockState::new()))
}

pub(crate) fn all(rt: &impl Print) -> io::Result<()> {
    fresh(rt)?;
    for nest_count in DEPTHS {
        at_depth(rt, nest_count, false)?;
        at_depth(rt, nest_count, true)?;
    }
    Ok(())
}
