// The archive for a C kernel that checks claimed answers: an export of the call of the crate kernel_check, with its clauses.
// include/hubcrackle.h declares it.

#![tactic(auto)]

ghost use Rattle.std.specs.Prelude.{◌≡◌};
ghost use Rattle.claims.specs.Claims.{judged};
ghost use Rattle.kernel_check.specs.Call.{result_of, record_after};

// A claim to a log on the machine that a setup byte asks for, and the lowest record whose answer differs.
#[unsafe(no_mangle)]
pub extern "C" fn hubcrackle_check(setup: u8, log: &[u8], claim: &[u8], record: &mut u32) -> i32
    ensures result { result ≡ result_of (judged setup log.now claim.now) }
    ensures record { «record».new
        ≡ record_after (judged setup log.now claim.now) «record».old }
{
    kernel_check::hubcrackle_check(setup, log, claim, record)
}
