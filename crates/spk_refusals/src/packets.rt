//! Calls of `spk_packets`.
ghost use Rattle.std.specs.Prelude.{◌≡◌, ℕ, ◌≤◌, length, take, IfOk, IfErr, IsTrue, OnOk, Ok, None, true, false};
ghost use Rattle.spk_packets.specs.Fault.{Gives, IsNamed, first_of, is_of_bytes};
ghost use Rattle.spk_packets.specs.Message.{Message};
ghost use Rattle.spk_packets.specs.Grammar.{Spells, keeps};
ghost use Rattle.spk_packets.specs.Refusals.{refusals};
ghost use Rattle.spk_packets.specs.Spelling.{spelling, unwritable};
ghost use Rattle.spk_packets.specs.View.{view, front_view};
ghost use Rattle.spk_refusals.specs.Wrong.{IsLengthened, is_long, refused_where};

use spk_packets::{Packet, PacketFault};
use std::alloc::Global;

/// `spk_packets::encode`.
pub fn encode(alloc: Global, packet: &Packet) -> Result<Vec<u8>, PacketFault>
    ensures spells { IfOk result (λ v. Spells v.items (view packet.now)) }
    ensures spelled { IfOk result (λ v. v.items ≡ spelling (view packet.now)) }
    ensures refused { IfErr result (λ e. IsNamed e (first_of (unwritable (view packet.now)))) }
    ensures not_refused { OnOk result (first_of (unwritable (view packet.now)) ≡ None) }
{
    spk_packets::encode(alloc, packet)
}

/// `spk_packets::decode`.
pub fn decode(alloc: Global, bytes: &[u8]) -> Result<(Packet, usize), PacketFault>
    ensures found { IfOk result
        (λ x. (x.1 ≤ length bytes.now) × Spells (take x.1 bytes.now) (view x.0)) }
    ensures only { (p : Message) (n : ℕ) → n ≤ length bytes.now → Spells (take n bytes.now) p
        → Gives front_view result (Ok (p, n)) }
    ensures refused { IfErr result (λ e. IsNamed e (first_of (refusals bytes.now))) }
    ensures not_refused { OnOk result (first_of (refusals bytes.now) ≡ None) }
    ensures memory { IfErr result (λ e. is_of_bytes e ≡ false → IsTrue (keeps bytes.now)) }
{
    spk_packets::decode(alloc, bytes)
}

/// A remaining length of one byte is written in two.
fn long_length_written(
    turns: bool,
    answer: Result<Vec<u8>, PacketFault>,
) -> Result<Vec<u8>, PacketFault>
    ensures control { turns ≡ false → result ≡ answer }
    ensures turned { turns ≡ true → IsLengthened answer result }
{
    if turns { lengthened(answer) } else { answer }
}

fn lengthened(answer: Result<Vec<u8>, PacketFault>) -> Result<Vec<u8>, PacketFault>
    ensures { IsLengthened answer result }
{
    let mut bytes = match answer {
        Ok(bytes) => bytes,
        Err(fault) => return Err(fault),
    };
    if bytes.len() >= 2 && bytes[1] < 128 {
        bytes[1] += 128;
        if bytes.insert(2, 0).is_err() {
            return Err(PacketFault::NoMemory);
        }
    }
    Ok(bytes)
}

/// A remaining length of two bytes that would have stood in one is refused.
fn long_length_refused(
    bytes: &[u8],
    answer: Result<(Packet, usize), PacketFault>,
) -> Result<(Packet, usize), PacketFault>
    ensures { result ≡ refused_where (is_long bytes.now) PacketFault.BadLength answer }
{
    match bytes {
        [_, low, high, ..] if *low >= 128 && *high == 0 => Err(PacketFault::BadLength),
        _ => answer,
    }
}
