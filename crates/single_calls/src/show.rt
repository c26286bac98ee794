// Codes, answers and flags as the lines have them.
use error::Refusal;
use std::fmt;

// A code by its name: OK, or the refusal's.
#[derive(Clone, Copy)]
pub(crate) struct CodeName(Option<Refusal>);

impl fmt::Display for CodeName {
    fn fmt<W: fmt::Write>(&self, f: &mut fmt::Formatter<W>) -> fmt::Result {
        match self.0 {
            None => f.write_str("OK"),
            Some(why) => write!(f, "{why}"),
        }
    }
}

// The code of what a call answers.
pub(crate) fn code<T: Copy>(answer: Result<T, Refusal>) -> CodeName {
    CodeName(answer.err())
}

pub(crate) fn yes_or_no(yes: bool) -> &'static str {
    if yes { "yes" } else { "no" }
}

// A flag that is set is 1.
pub(crate) fn flag(set: bool) -> u8 {
    u8::from(set)
}
