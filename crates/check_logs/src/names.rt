// The names of codes and operations, as the lines have them.
use error::Refusal;
use record::{CpuOperation, Operation, ThreadOperation};
use std::fmt;

// The code in four bytes of an answer: by its name, or its number where no code has it.
#[derive(Clone, Copy)]
pub(crate) struct CodeBits(pub(crate) u32);

impl fmt::Display for CodeBits {
    fn fmt<W: fmt::Write>(&self, f: &mut fmt::Formatter<W>) -> fmt::Result {
        let number = high_first::signed(self.0);
        if number == error::OK {
            return f.write_str("OK");
        }
        match Refusal::try_from(number) {
            Ok(why) => write!(f, "{why}"),
            Err(number) => write!(f, "code {number}"),
        }
    }
}

// What a record asks for.
#[derive(Clone, Copy)]
pub(crate) struct Asked(pub(crate) Operation);

impl fmt::Display for Asked {
    fn fmt<W: fmt::Write>(&self, f: &mut fmt::Formatter<W>) -> fmt::Result {
        f.write_str(match self.0 {
            Operation::Malformed => "malformed",
            Operation::OnCpu(CpuOperation::Up) => "up",
            Operation::OnCpu(CpuOperation::Down) => "down",
            Operation::OnCpu(CpuOperation::Put) => "put",
            Operation::OnCpu(CpuOperation::Take) => "take",
            Operation::OnLock(spinlock::Operation::Acquire { nested: true }) => "nested acquire",
            Operation::OnLock(spinlock::Operation::Acquire { nested: false }) => "acquire",
            Operation::OnLock(spinlock::Operation::Release) => "release",
            Operation::OnThread(ThreadOperation::Mask { .. }) => "mask",
            Operation::OnThread(ThreadOperation::Pin) => "pin",
            Operation::OnThread(ThreadOperation::Priority(_)) => "priority",
            Operation::Ipi => "ipi",
            Operation::Owner => "owner",
            Operation::Unwind => "unwind",
        })
    }
}
