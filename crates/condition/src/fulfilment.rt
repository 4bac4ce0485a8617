// Whether a fulfilment opens a condition.
ghost use Rattle.std.specs.Prelude.{Decides};
ghost use Rattle.condition.specs.Fulfilment.{Opens};

use crate::interface::ConditionHash;

// The two come as parts of packets, so a length other than 32 is an answer and not a fault: such bytes open nothing, and
// nothing opens them.
pub fn fulfils<D: ConditionHash>(hash: &D, fulfilment: &[u8], condition: &[u8]) -> bool
    ensures { Decides result (Opens D.digest_of fulfilment.now condition.now) }
{
    let Ok(preimage) = <&[u8; 32]>::try_from(fulfilment) else {
        return false;
    };
    let digest = hash.hash(preimage);
    &digest[..] == condition
}
