// The calls on owner words.
use crate::show;
use spinlock_validate::Width;
use std::io;

const CPUS: [u32; 9] = [0, 1, 3, 4, 15, 16, 255, 256, 0xffff_ffff];

const WORDS: [u64; 22] = [
    0,
    1,
    2,
    3,
    4,
    5,
    8,
    11,
    15,
    16,
    17,
    31,
    254,
    255,
    256,
    0x8000_0000,
    0xffff_ffff,
    0x8000_0000_0000_0000,
    0xffff_ffff_ffff_fff0,
    0xffff_ffff_ffff_fffc,
    0xffff_ffff_ffff_fffe,
    0xffff_ffff_ffff_ffff,
];

fn compute(rt: &impl Print, cpu: u32, thread: u64, wide: bool) -> io::Result<()> {
    let width = Width::from(wide);
    let r = spinlock_validate::spin_lock_compute_owner(cpu, thread, width);
    println!(rt;
        "spin_lock_compute_owner cpu {cpu} thread {thread} wide {}: {} word {}",
        show::flag(wide),
        show::code(r),
        r.unwrap_or(0)
    )
}

fn decode(rt: &impl Print, word: u64, wide: bool) -> io::Result<()> {
    print!(rt;
        "spin_lock_decode_owner word {word} wide {}: ",
        show::flag(wide)
    )?;
    let width = Width::from(wide);
    match spinlock_validate::spin_lock_decode_owner(word, width) {
        Ok(None) => println!(rt; "OK free"),
        Ok(Some(held)) => println!(rt; "OK held thread {} cpu {}", held.thread, held.cpu),
        Err(why) => println!(rt; "{why} none"),
    }
}

fn lock_valid(rt: &impl Print, word: u64, cpu: u32, wide: bool) -> io::Result<()> {
    let width = Width::from(wide);
    let r = spinlock_validate::spin_lock_valid(word, cpu, width);
    println!(rt;
        "spin_lock_valid word {word} cpu {cpu} wide {}: {} {}",
        show::flag(wide),
        show::code(r),
        show::yes_or_no(r.unwrap_or(false))
    )
}

fn unlock_valid(rt: &impl Print, word: u64, cpu: u32, thread: u64, wide: bool) -> io::Result<()> {
    let width = Width::from(wide);
    let r = spinlock_validate::spin_unlock_valid(word, cpu, thread, width);
    println!(rt;
        "spin_unlock_valid word {word} cpu {cpu} thread {thread} wide {}: {} {}",
        show::flag(wide),
        show::code(r),
        show::yes_or_no(r.unwrap_or(false))
    )
}

// Every call on one word, or on one thread word, with one CPU and a tag of two bits.
fn narrow(rt: &impl Print, word: u64, cpu: u32) -> io::Result<()> {
    compute(rt, cpu, word, false)?;
    lock_valid(rt, word, cpu, false)?;
    unlock_valid(rt, 11, cpu, word, false)?;
    unlock_valid(rt, word, cpu, 8, false)?;
    unlock_valid(rt, word, cpu, 0xffff_ffff_ffff_fffc, false)
}

// And with a tag of four.
fn wide(rt: &impl Print, word: u64, cpu: u32) -> io::Result<()> {
    compute(rt, cpu, word, true)?;
    lock_valid(rt, word, cpu, true)?;
    unlock_valid(rt, 31, cpu, word, true)?;
    unlock_valid(rt, word, cpu, 16, true)?;
    unlock_valid(rt, word, cpu, 0xffff_ffff_ffff_fff0, true)
}

fn on_each_cpu(rt: &impl Print, word: u64) -> io::Result<()> {
    for cpu in CPUS {
        narrow(rt, word, cpu)?;
        wide(rt, word, cpu)?;
    }
    Ok(())
}

pub(crate) fn all(rt: &impl Print) -> io::Result<()> {
    for word in WORDS {
        decode(rt, word, false)?;
        decode(rt, word, true)?;
        on_each_cpu(rt, word)?;
    }
    Ok(())
}
