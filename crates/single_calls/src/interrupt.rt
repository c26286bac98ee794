// The calls on interrupts.
use crate::show;
use ipi::CpuRecord;
use std::io;

const TARGETS: [i32; 9] = [-2147483648, -129, -128, -1, 0, 5, 127, 128, 2147483647];

const COUNTS: [u32; 7] = [0, 1, 3, 4, 16, 17, 0xffff_ffff];

const MASKS: [u32; 11] = [0, 1, 2, 4, 15, 254, 255, 256, 0xffff, 0x1_0000, 0xffff_ffff];

// The CPUs that each call sees: whether one is active, and its priority.
const CPUS: [(bool, i32); 16] = [
    (true, 9),
    (true, 9),
    (true, 5),
    (false, 9),
    (true, -2147483648),
    (true, 2147483647),
    (true, -1),
    (true, 0),
    (false, 2147483647),
    (true, 128),
    (true, 127),
    (true, -128),
    (true, -129),
    (true, 1),
    (true, 6),
    (true, 2147483647),
];

fn compute(
    rt: &impl Print,
    current: u32,
    target: i32,
    mask: u32,
    num: u32,
    max: u32,
) -> io::Result<()> {
    let cpus = CPUS.map(|(active, priority)| CpuRecord { active, priority });
    let r = ipi::compute_ipi_mask(current, target, mask, cpus, num, max);
    println!(rt;
        "compute_ipi_mask current {current} target {target} mask {mask} num {num} max {max}: {} mask {}",
        show::code(r),
        r.unwrap_or(0)
    )
}

fn for_target(rt: &impl Print, target: i32) -> io::Result<()> {
    for mask in MASKS {
        compute(rt, 0, target, mask, 4, 4)?;
        compute(rt, 2, target, mask, 16, 16)?;
    }
    Ok(())
}

fn in_range(rt: &impl Print, num: u32, max: u32) -> io::Result<()> {
    compute(rt, 0, 5, 15, num, max)?;
    compute(rt, 3, 5, 0xffff_ffff, num, max)?;
    compute(rt, 0xffff_ffff, 5, 15, num, max)
}

fn of_count(rt: &impl Print, num: u32) -> io::Result<()> {
    for max in COUNTS {
        in_range(rt, num, max)?;
    }
    Ok(())
}

fn validate(rt: &impl Print, mask: u32, current: u32, max: u32) -> io::Result<()> {
    let r = ipi::validate_ipi_mask(mask, current, max);
    println!(rt;
        "validate_ipi_mask mask {mask} current {current} max {max}: {} {}",
        show::code(r),
        show::yes_or_no(r.unwrap_or(false))
    )
}

fn valid_for(rt: &impl Print, max: u32) -> io::Result<()> {
    for mask in MASKS {
        validate(rt, mask, 0, max)?;
        validate(rt, mask, 3, max)?;
        validate(rt, mask, 16, max)?;
    }
    Ok(())
}

fn counts(rt: &impl Print) -> io::Result<()> {
    for count in COUNTS {
        of_count(rt, count)?;
        valid_for(rt, count)?;
    }
    Ok(())
}

pub(crate) fn all(rt: &impl Print) -> io::Result<()> {
    for target in TARGETS {
        for_target(rt, target)?;
    }
    counts(rt)
}
