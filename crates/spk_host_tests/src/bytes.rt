//! Packets and payloads as bytes, by hand from MQTT 3.1.1 (chapter 3) and Sparkplug's schema. Each list of bytes that is asked for is
//! asked for again where memory was refused.
use std::alloc::{AllocError, Global};

/// So many bits from the lowest on, seven in a byte, and bit 7 where more follow.
pub(crate) fn put_number(bytes: &mut Vec<u8>, number: u64) -> Result<(), AllocError> {
    let mut rest = number;
    for _place in 0..10 {
        let low = (rest % 128) as u8;
        rest = rest / 128;
        if rest == 0 {
            bytes.push(low)?;
            return Ok(());
        }
        bytes.push(low | 128)?;
    }
    Ok(())
}

/// A field of a number.
pub(crate) fn put_field(bytes: &mut Vec<u8>, tag: u8, number: u64) -> Result<(), AllocError> {
    bytes.push(tag)?;
    put_number(bytes, number)
}

/// A field of bytes.
pub(crate) fn put_part(bytes: &mut Vec<u8>, tag: u8, part: &[u8]) -> Result<(), AllocError> {
    put_field(bytes, tag, part.len() as u64)?;
    bytes.extend_from_slice(part)?;
    Ok(())
}

/// A text or an identifier of two bytes.
fn put_two(bytes: &mut Vec<u8>, number: usize) -> Result<(), AllocError> {
    bytes.push((number / 256 % 256) as u8)?;
    bytes.push((number % 256) as u8)?;
    Ok(())
}

/// What stands behind the length of a PUBLISH.
fn put_body(
    body: &mut Vec<u8>,
    topic: &str,
    id: Option<u16>,
    payload: &[u8],
) -> Result<(), AllocError> {
    put_two(body, topic.len())?;
    body.extend_from_slice(topic.as_bytes())?;
    if let Some(id) = id {
        put_two(body, usize::from(id))?;
    }
    body.extend_from_slice(payload)?;
    Ok(())
}

/// These bytes as one part.
fn part_of(alloc: Global, tag: u8, part: &[u8]) -> Result<Vec<u8>, AllocError> {
    let mut bytes = Vec::new(alloc);
    put_part(&mut bytes, tag, part)?;
    Ok(bytes)
}

/// A PUBLISH: at QoS 0, or at QoS 1 and retained under an identifier.
pub(crate) fn publish(
    alloc: Global,
    topic: &str,
    id: Option<u16>,
    payload: &[u8],
) -> Result<Vec<u8>, AllocError> {
    let mut body = Vec::new(alloc);
    put_body(&mut body, topic, id, payload)?;
    part_of(
        alloc,
        if id.is_some() { 0x33 } else { 0x30 },
        body.as_slice(),
    )
}
