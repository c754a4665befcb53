//! The remaining length.
ghost use Rattle.std.specs.Prelude.{◌≡◌, ◌<◌, ◌++◌, OnOk};
ghost use Rattle.spk_packets.specs.Spelling.{shortest};

use std::alloc::AllocError;

/// Appends a remaining length (MQTT 3.1.1, section 2.2.3), in as few bytes as it takes.
#[tactic(auto, using(crate::proofs::Lengths::one, crate::proofs::Lengths::two, crate::proofs::Lengths::three, crate::proofs::Lengths::four))]
pub(crate) fn put_length(out: &mut Vec<u8>, n: usize) -> Result<(), AllocError>
    requires { n < 268435456 }
    ensures { OnOk result (out.new.items ≡ out.old.items ++ shortest n) }
{
    let low = (n % 128 + 128) as u8;
    let middle = (n / 128 % 128 + 128) as u8;
    if n < 128 {
        out.extend_from_slice(&[n as u8])?;
    } else if n < 16_384 {
        out.extend_from_slice(&[low, (n / 128) as u8])?;
    } else if n < 2_097_152 {
        out.extend_from_slice(&[low, middle, (n / 16_384) as u8])?;
    } else {
        let high = (n / 16_384 % 128 + 128) as u8;
        out.extend_from_slice(&[low, middle, high, (n / 2_097_152) as u8])?;
    }
    Ok(())
}
