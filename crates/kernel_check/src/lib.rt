// The call of the C kernel that judges claimed answers to a log. The crate kernel_check_c exports it, and include/hubcrackle.h declares it.
//
// New here. Document 02, request 8. Its archive is one of its own, as the calls on a form are: with a second caller of the loop in their archives the
// other calls on a log would take more time. A caller can rely on these: the result is OK only if every byte of the claim is right, and the number
// changes only where a record is named.

#![tactic(auto)]

ghost use Rattle.std.specs.Prelude.{◌≡◌};
ghost use Rattle.claims.specs.Claims.{judged};
ghost use Rattle.kernel_check.specs.Call.{result_of, record_after};

// What comes back where an answer differs. No code is above 0.
const DIFFERS: i32 = 1;

// A claim to a log on the machine that a setup byte asks for, and the lowest record whose answer differs.
#[tactic(auto, unfolding(crate::specs::Call::result_of, crate::specs::Call::record_after))]
pub fn hubcrackle_check(setup: u8, log: &[u8], claim: &[u8], record: &mut u32) -> i32
    ensures result { result ≡ result_of (judged setup log.now claim.now) }
    ensures record { «record».new
        ≡ record_after (judged setup log.now claim.now) «record».old }
{
    match claims::check(setup, log, claim) {
        Ok(None) => error::OK,
        Ok(Some(k)) => {
            *record = k;
            DIFFERS
        }
        Err(why) => i32::from(why),
    }
}
