//! Numbers, identifiers, counted bytes and texts at the front of a body (sections 1.5.2, 1.5.3 and 2.3.1).

ghost use Rattle.std.specs.Prelude.{IfErr, IsTrue};
ghost use Rattle.spk_packets.specs.Fault.{Gives, is_of_bytes};
ghost use Rattle.spk_packets.specs.Reading.{number_at, id_at, counted_at, text_at, ended};

use crate::fault::PacketFault;

/// Two bytes, the most significant first, and what follows.
#[tactic(auto, unfolding(crate::specs::Reading::number_at))]
pub(crate) fn number(bytes: &[u8]) -> Result<(u16, &[u8]), PacketFault>
    ensures given { Gives (λ x. (x.0, x.1.now)) result (number_at bytes.now) }
    ensures bytes { IfErr result (λ e. IsTrue (is_of_bytes e)) }
{
    match bytes {
        [high, low, rest @ ..] => Ok((u16::from(*high) * 256 + u16::from(*low), rest)),
        _ => Err(PacketFault::BadBody),
    }
}

/// A packet identifier, which isn't 0.
#[tactic(auto, unfolding(crate::specs::Reading::id_at))]
pub(crate) fn id(bytes: &[u8]) -> Result<(u16, &[u8]), PacketFault>
    ensures given { Gives (λ x. (x.0, x.1.now)) result (id_at bytes.now) }
    ensures bytes { IfErr result (λ e. IsTrue (is_of_bytes e)) }
{
    let (id, rest) = number(bytes)?;
    if id == 0 {
        return Err(PacketFault::BadBody);
    }
    Ok((id, rest))
}

/// As many bytes as the number in front of them says.
#[tactic(auto, unfolding(crate::specs::Reading::counted_at))]
pub(crate) fn counted(bytes: &[u8]) -> Result<(&[u8], &[u8]), PacketFault>
    ensures given { Gives (λ x. (x.0.now, x.1.now)) result (counted_at bytes.now) }
    ensures bytes { IfErr result (λ e. IsTrue (is_of_bytes e)) }
{
    let (len, rest) = number(bytes)?;
    let len = usize::from(len);
    if rest.len() < len {
        return Err(PacketFault::BadBody);
    }
    Ok(rest.split_at(len))
}

/// Counted bytes that are UTF-8 without U+0000.
#[tactic(auto, unfolding(crate::specs::Reading::text_at))]
pub(crate) fn text(bytes: &[u8]) -> Result<(&str, &[u8]), PacketFault>
    ensures given { Gives (λ x. (x.0.now, x.1.now)) result (text_at bytes.now) }
    ensures bytes { IfErr result (λ e. IsTrue (is_of_bytes e)) }
{
    let (text, rest) = counted(bytes)?;
    let Ok(read) = str::from_utf8(text) else {
        return Err(PacketFault::BadText);
    };
    if text.contains(&0) {
        return Err(PacketFault::BadText);
    }
    Ok((read, rest))
}

/// Nothing is left.
#[tactic(auto, unfolding(crate::specs::Reading::ended))]
pub(crate) fn end(rest: &[u8]) -> Result<(), PacketFault>
    ensures given { Gives (λ x. x) result (ended tt rest.now) }
    ensures bytes { IfErr result (λ e. IsTrue (is_of_bytes e)) }
{
    if rest.is_empty() {
        Ok(())
    } else {
        Err(PacketFault::BadBody)
    }
}
