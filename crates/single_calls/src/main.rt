// Calls every single call of the five ported files on the limits of each range and writes a line for each: the call, its arguments, its
// code and its value. The lines are held to the file `stdout`.

#![tactic(auto)]

use std::io;

mod codes;
mod interrupt;
mod lock;
mod mask;
mod owner;
mod show;

fn main(rt: HostRuntime) -> io::Result<()> {
    codes::all(&rt)?;
    owner::all(&rt)?;
    lock::all(&rt)?;
    mask::all(&rt)?;
    interrupt::all(&rt)
}
