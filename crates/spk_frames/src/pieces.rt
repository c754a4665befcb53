//! Numbers and names at the front of a content.
ghost use Rattle.std.specs.Prelude.{◌≡◌};
ghost use Rattle.spk_frames.specs.Reading.{Gives, eight_at, four_at, name_at, name_of, one_at, two_at};

/// One byte, and what follows.
#[tactic(auto, unfolding(crate::specs::Reading::one_at))]
pub fn one(bytes: &[u8]) -> Option<(u8, &[u8])>
    ensures { Gives (λ x. (x.0, x.1.now)) result (one_at bytes.now) }
{
    match bytes {
        [first, rest @ ..] => Some((*first, rest)),
        [] => None,
    }
}

/// A number in two bytes, the lowest first, and what follows.
#[tactic(auto, unfolding(crate::specs::Reading::two_at))]
pub fn two(bytes: &[u8]) -> Option<(u16, &[u8])>
    ensures { Gives (λ x. (x.0, x.1.now)) result (two_at bytes.now) }
{
    let (front, rest) = bytes.split_first_chunk::<2>()?;
    Some((u16::from_le_bytes(*front), rest))
}

/// A number in four bytes, the lowest first, and what follows.
#[tactic(auto, unfolding(crate::specs::Reading::four_at))]
pub fn four(bytes: &[u8]) -> Option<(u32, &[u8])>
    ensures { Gives (λ x. (x.0, x.1.now)) result (four_at bytes.now) }
{
    let (front, rest) = bytes.split_first_chunk::<4>()?;
    Some((u32::from_le_bytes(*front), rest))
}

/// A number in eight bytes, the lowest first, and what follows.
#[tactic(auto, unfolding(crate::specs::Reading::eight_at))]
pub fn eight(bytes: &[u8]) -> Option<(u64, &[u8])>
    ensures { Gives (λ x. (x.0, x.1.now)) result (eight_at bytes.now) }
{
    let (front, rest) = bytes.split_first_chunk::<8>()?;
    Some((u64::from_le_bytes(*front), rest))
}

/// This many bytes that are UTF-8, and what follows.
#[tactic(auto, unfolding(crate::specs::Reading::name_of))]
fn name_of(len: usize, bytes: &[u8]) -> Option<(&str, &[u8])>
    ensures { Gives (λ x. (x.0.now, x.1.now)) result (name_of len bytes.now) }
{
    if bytes.len() < len {
        return None;
    }
    let (front, rest) = bytes.split_at(len);
    match str::from_utf8(front) {
        Ok(name) => Some((name, rest)),
        Err(_) => None,
    }
}

/// A name behind its length, and what follows.
#[tactic(auto, unfolding(crate::specs::Reading::name_at))]
pub fn name(bytes: &[u8]) -> Option<(&str, &[u8])>
    ensures { Gives (λ x. (x.0.now, x.1.now)) result (name_at bytes.now) }
{
    let (len, rest) = two(bytes)?;
    name_of(usize::from(len), rest)
}
