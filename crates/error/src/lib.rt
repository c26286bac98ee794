// The codes that a call answers with.
//
// Upstream: src/error.rs, every constant with its number. New: `Refusal`, the refusals of document 01's table and the one of document 02's sixth
// request, EDEADLK, as an enum, its number and its name. What a call answers is a `Result` with a refusal as its error, and `number` makes it the
// code that C sees. A caller can rely on the numbers: they are Zephyr's.

#![tactic(auto)]

ghost use Rattle.std.specs.Prelude.{◌≡◌, Some};
ghost use Rattle.error.specs.Codes.{number_of, refusal_number, refusal_name, IsOfNumber};

use std::error::Error;
use std::fmt;

pub const OK: i32 = 0;

pub const EPERM: i32 = -1;

pub const ENOENT: i32 = -2;

pub const EBADF: i32 = -9;

pub const EAGAIN: i32 = -11;

pub const ENOMEM: i32 = -12;

pub const EBUSY: i32 = -16;

pub const EINVAL: i32 = -22;

pub const ENOSPC: i32 = -28;

pub const EPIPE: i32 = -32;

pub const ENOMSG: i32 = -35;

pub const EDEADLK: i32 = -45;

pub const EADDRINUSE: i32 = -112;

pub const EALREADY: i32 = -114;

pub const ETIMEDOUT: i32 = -116;

pub const EOVERFLOW: i32 = -139;

pub const ECANCELED: i32 = -140;

// Why a call refuses: the codes that are given out but OK, and no others.
#[derive(Clone, Copy, Debug, PartialEq, Eq)]
pub enum Refusal {
    Eperm,
    Enomem,
    Ebusy,
    Einval,
    Edeadlk,
    Ealready,
    Eoverflow,
}

impl From<Refusal> for i32 {
    ghost from_gives = { λ why number. number ≡ refusal_number why };

    fn from(why: Refusal) -> i32 {
        match why {
            Refusal::Eperm => EPERM,
            Refusal::Enomem => ENOMEM,
            Refusal::Ebusy => EBUSY,
            Refusal::Einval => EINVAL,
            Refusal::Edeadlk => EDEADLK,
            Refusal::Ealready => EALREADY,
            Refusal::Eoverflow => EOVERFLOW,
        }
    }
}

// The refusal that has a number; a number that none has comes back.
impl TryFrom<i32> for Refusal {
    type Error = i32;

    ghost try_from_gives = { IsOfNumber };

    fn try_from(number: i32) -> Result<Refusal, i32> {
        match number {
            EPERM => Ok(Refusal::Eperm),
            ENOMEM => Ok(Refusal::Enomem),
            EBUSY => Ok(Refusal::Ebusy),
            EINVAL => Ok(Refusal::Einval),
            EDEADLK => Ok(Refusal::Edeadlk),
            EALREADY => Ok(Refusal::Ealready),
            EOVERFLOW => Ok(Refusal::Eoverflow),
            _ => Err(number),
        }
    }
}

impl fmt::Display for Refusal {
    ghost output = { λ why. Some (refusal_name why) };

    fn fmt<W: fmt::Write>(&self, f: &mut fmt::Formatter<W>) -> fmt::Result {
        f.write_str(match self {
            Refusal::Eperm => "EPERM",
            Refusal::Enomem => "ENOMEM",
            Refusal::Ebusy => "EBUSY",
            Refusal::Einval => "EINVAL",
            Refusal::Edeadlk => "EDEADLK",
            Refusal::Ealready => "EALREADY",
            Refusal::Eoverflow => "EOVERFLOW",
        })
    }
}

impl Error for Refusal {}

// The number of what a call answers.
pub fn number(answer: Result<(), Refusal>) -> i32
    ensures { result ≡ number_of answer }
{
    match answer {
        Ok(()) => OK,
        Err(why) => i32::from(why),
    }
}
