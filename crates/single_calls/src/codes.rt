// Every constant of the crate error, with its number.
use crate::show;
use error::Refusal;
use std::io;

fn constant(rt: &impl Print, name: &str, number: i32) -> io::Result<()> {
    println!(rt; "{name} is {number}")
}

fn first(rt: &impl Print) -> io::Result<()> {
    constant(rt, "OK", error::OK)?;
    constant(rt, "EPERM", error::EPERM)?;
    constant(rt, "ENOENT", error::ENOENT)?;
    constant(rt, "EBADF", error::EBADF)?;
    constant(rt, "EAGAIN", error::EAGAIN)?;
    constant(rt, "ENOMEM", error::ENOMEM)?;
    constant(rt, "EBUSY", error::EBUSY)?;
    constant(rt, "EINVAL", error::EINVAL)
}

fn second(rt: &impl Print) -> io::Result<()> {
    constant(rt, "ENOSPC", error::ENOSPC)?;
    constant(rt, "EPIPE", error::EPIPE)?;
    constant(rt, "ENOMSG", error::ENOMSG)?;
    constant(rt, "EDEADLK", error::EDEADLK)?;
    constant(rt, "EADDRINUSE", error::EADDRINUSE)?;
    constant(rt, "EALREADY", error::EALREADY)?;
    constant(rt, "ETIMEDOUT", error::ETIMEDOUT)?;
    constant(rt, "EOVERFLOW", error::EOVERFLOW)?;
    constant(rt, "ECANCELED", error::ECANCELED)
}

const ANSWERS: [Result<(), Refusal>; 8] = [
    Ok(()),
    Err(Refusal::Eperm),
    Err(Refusal::Enomem),
    Err(Refusal::Ebusy),
    Err(Refusal::Einval),
    Err(Refusal::Edeadlk),
    Err(Refusal::Ealready),
    Err(Refusal::Eoverflow),
];

// What a call that gives no value can answer, by name, with its number.
fn cases(rt: &impl Print) -> io::Result<()> {
    for answer in ANSWERS {
        println!(rt; "number: {} {}", show::code(answer), error::number(answer))?;
    }
    Ok(())
}

pub(crate) fn all(rt: &impl Print) -> io::Result<()> {
    first(rt)?;
    second(rt)?;
    cases(rt)
}
