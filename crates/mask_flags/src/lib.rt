// The mask rule with its flags as numbers, as a C kernel hands them over.
//
// New here, over the crate cpu_mask: a flag is 0 or 1, and any other number is refused as a bad mask is, with the mask as it was. C has numbers for
// its flags, so they are numbers here too.

#![tactic(auto)]

ghost use Rattle.std.specs.Prelude.{◌≡◌};
ghost use Rattle.error.specs.Answer.{says};
ghost use Rattle.mask_flags.specs.Flags.{mask_of_flags};

use error::Refusal;

// The mask rule with its flags as numbers. A flag other than 0 and 1 is refused. Both are tested at once: read one after the other, by a function
// and `?`, they take a branch more, and the call takes 4 to 7 parts in a hundred longer.
#[tactic(auto, unfolding(crate::specs::Flags::mask_of_flags))]
pub fn mask_of_flags(
    current_mask: u32,
    enable: u32,
    disable: u32,
    is_running: u32,
    pin_only: u32,
) -> Result<u32, Refusal>
    ensures { says current_mask result ≡ mask_of_flags current_mask enable disable is_running pin_only }
{
    if is_running > 1 || pin_only > 1 {
        return Err(Refusal::Einval);
    }
    cpu_mask::cpu_mask_mod(
        current_mask,
        enable,
        disable,
        is_running == 1,
        pin_only == 1,
    )
}
