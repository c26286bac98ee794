// The calls on masks.
use crate::show;
use std::io;

const MASKS: [u32; 13] = [
    0,
    1,
    2,
    3,
    4,
    5,
    254,
    255,
    256,
    0x7fff_ffff,
    0x8000_0000,
    0x8000_0001,
    0xffff_ffff,
];

const CPUS: [u32; 11] = [0, 1, 3, 4, 31, 32, 33, 254, 255, 256, 0xffff_ffff];

fn modify(
    rt: &impl Print,
    current: u32,
    enable: u32,
    disable: u32,
    running: bool,
    pin_only: bool,
) -> io::Result<()> {
    let r = cpu_mask::cpu_mask_mod(current, enable, disable, running, pin_only);
    println!(rt;
        "cpu_mask_mod current {current} enable {enable} disable {disable} running {} pin_only {}: {} mask {}",
        show::flag(running),
        show::flag(pin_only),
        show::code(r),
        r.unwrap_or(current)
    )
}

// A mask as the current one, as what is enabled and as what is disabled, in each mode.
fn in_mode(rt: &impl Print, mask: u32, running: bool, pin_only: bool) -> io::Result<()> {
    modify(rt, mask, 0, 0, running, pin_only)?;
    modify(rt, 5, mask, 1, running, pin_only)?;
    modify(rt, 1, 8, mask, running, pin_only)?;
    modify(rt, mask, 2, 1, running, pin_only)?;
    modify(rt, mask, mask, mask, running, pin_only)?;
    modify(rt, mask, 0, 0xffff_ffff, running, pin_only)?;
    modify(rt, mask, 0xffff_ffff, 0xffff_fffe, running, pin_only)
}

fn on_mask(rt: &impl Print, mask: u32) -> io::Result<()> {
    println!(rt;
        "validate_pin_mask mask {mask}: {}",
        show::yes_or_no(cpu_mask::validate_pin_mask(mask))
    )?;
    in_mode(rt, mask, false, false)?;
    in_mode(rt, mask, false, true)?;
    in_mode(rt, mask, true, false)?;
    in_mode(rt, mask, true, true)
}

fn pin(rt: &impl Print, cpu: u32, max: u32) -> io::Result<()> {
    let r = cpu_mask::cpu_pin_compute(cpu, max);
    println!(rt;
        "cpu_pin_compute cpu {cpu} max {max}: {} mask {}",
        show::code(r),
        r.unwrap_or(0)
    )
}

fn pin_of(rt: &impl Print, cpu: u32) -> io::Result<()> {
    for max in CPUS {
        pin(rt, cpu, max)?;
    }
    Ok(())
}

fn pins(rt: &impl Print) -> io::Result<()> {
    for cpu in CPUS {
        pin_of(rt, cpu)?;
    }
    Ok(())
}

pub(crate) fn all(rt: &impl Print) -> io::Result<()> {
    for mask in MASKS {
        on_mask(rt, mask)?;
    }
    pins(rt)
}
