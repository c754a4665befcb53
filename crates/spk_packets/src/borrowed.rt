//! Writing a PUBLISH (section 3.3) whose topic and payload are borrowed: they are copied into its bytes alone.

ghost use Rattle.std.specs.Prelude.{◌≡◌, ◌⊎◌, ◌∷◌, ◌%◌, ◌^◌, ◌+◌, ◌-◌, ◌++◌, ◌≤◌, ◌<◌, length, min, None, Some, IfOk, IfErr, OnOk};
ghost use Rattle.spk_packets.specs.Fault.{first_of, IsNamed};
ghost use Rattle.spk_packets.specs.Grammar.{first_byte, largest};
ghost use Rattle.spk_packets.specs.Spelling.{body, content_refusals, shortest, spelling, unwritable};
ghost use Rattle.spk_packets.specs.View.{publish_view};

use crate::fault::PacketFault;
use crate::judge::{bad, bad_id};
use crate::size::{counted_size, id_size};
use crate::write::{put_counted, put_id, put_length, whole_of};
use std::alloc::{AllocError, Global};

/// A PUBLISH whose topic and payload are borrowed. QoS is 0 or 1, and there is an identifier exactly at QoS 1.
#[derive(Debug, Clone, Copy)]
pub struct PublishRef<'a> {
    pub dup: bool,
    pub qos: u8,
    pub retain: bool,
    pub topic: &'a str,
    pub id: Option<u16>,
    pub payload: &'a [u8],
}

impl<'a> PublishRef<'a> {
    /// Whether what it holds can be written; how long that would be is judged elsewhere.
    #[tactic(auto, unfolding(crate::specs::Spelling::has_bad_text, crate::specs::Spelling::has_bad_body, crate::specs::Spelling::is_qos_two))]
    fn judge(&self) -> Result<(), PacketFault>
        ensures ok { OnOk result (first_of (content_refusals (publish_view self.now)) ≡ None) }
        ensures err { IfErr result
            (λ e. first_of (content_refusals (publish_view self.now)) ≡ Some e) }
    {
        if bad(self.topic) {
            return Err(PacketFault::BadText);
        }
        if self.qos > 2 || (self.dup && self.qos == 0) || bad_id(self.qos, self.id) {
            return Err(PacketFault::BadBody);
        }
        if self.qos == 2 {
            return Err(PacketFault::QosTwo);
        }
        Ok(())
    }

    /// How many bytes stand behind the header.
    #[tactic(auto, unfolding(crate::specs::Spelling::body))]
    fn body_size(&self) -> usize
        ensures { result ≡ min (length (body (publish_view self.now))) (2 ^ 64 - 1) }
    {
        counted_size(self.topic.as_bytes())
            .saturating_add(id_size(self.id))
            .saturating_add(self.payload.len())
    }

    /// The low eight bits of the first byte.
    fn first(&self) -> u8
        ensures { result ≡ first_byte (publish_view self.now) % 256 }
    {
        let flags = 8 * u16::from(self.dup) + 2 * u16::from(self.qos) + u16::from(self.retain);
        ((0x30 + flags) % 256) as u8
    }

    /// What stands behind the header and before the payload.
    #[tactic(auto, unfolding(crate::specs::Spelling::body))]
    fn put_front(&self, out: &mut Vec<u8>) -> Result<(), AllocError>
        ensures { OnOk result (out.new.items ++ self.now.payload.now
            ≡ out.old.items ++ body (publish_view self.now)) }
    {
        put_counted(out, self.topic.as_bytes())?;
        put_id(out, self.id)
    }

    /// What stands behind the header.
    fn put_body(&self, out: &mut Vec<u8>) -> Result<(), AllocError>
        ensures { OnOk result (out.new.items ≡ out.old.items ++ body (publish_view self.now)) }
    {
        self.put_front(out)?;
        out.extend_from_slice(self.payload)
    }

    /// The header and the body.
    fn join(&self, alloc: Global) -> Result<Vec<u8>, PacketFault>
        ensures ok { IfOk result (λ v. v.items ≡ first_byte (publish_view self.now) % 256
            ∷ (shortest (length (body (publish_view self.now))) ++ body (publish_view self.now))) }
        ensures within { OnOk result
            (1 + length (shortest (length (body (publish_view self.now))))
            + length (body (publish_view self.now)) ≤ largest) }
        ensures over { IfErr result (λ e. (e ≡ PacketFault.NoMemory) ⊎ ((e ≡ PacketFault.TooLarge)
            × (largest < 1 + length (shortest (length (body (publish_view self.now))))
            + length (body (publish_view self.now))))) }
    {
        let len = self.body_size();
        let whole = whole_of(len)?;
        let mut out = Vec::with_capacity(alloc, whole)?;
        out.push(self.first())?;
        put_length(&mut out, len)?;
        self.put_body(&mut out)?;
        Ok(out)
    }

    /// The header and the front of the body, up to the payload.
    fn join_head(&self, alloc: Global) -> Result<Vec<u8>, PacketFault>
        ensures ok { IfOk result (λ v. v.items ++ self.now.payload.now
            ≡ first_byte (publish_view self.now) % 256
            ∷ (shortest (length (body (publish_view self.now))) ++ body (publish_view self.now))) }
        ensures within { OnOk result
            (1 + length (shortest (length (body (publish_view self.now))))
            + length (body (publish_view self.now)) ≤ largest) }
        ensures over { IfErr result (λ e. (e ≡ PacketFault.NoMemory) ⊎ ((e ≡ PacketFault.TooLarge)
            × (largest < 1 + length (shortest (length (body (publish_view self.now))))
            + length (body (publish_view self.now))))) }
    {
        let len = self.body_size();
        let whole = whole_of(len)?;
        let mut out = Vec::with_capacity(alloc, whole.saturating_sub(self.payload.len()))?;
        out.push(self.first())?;
        put_length(&mut out, len)?;
        self.put_front(&mut out)?;
        Ok(out)
    }

    /// Its canonical spelling, as `encode` writes the packet that says the same. Refused as there.
    pub fn encode(&self, alloc: Global) -> Result<Vec<u8>, PacketFault>
        ensures spelled { IfOk result (λ v. v.items ≡ spelling (publish_view self.now)) }
        ensures refused { IfErr result
            (λ e. IsNamed e (first_of (unwritable (publish_view self.now)))) }
        ensures not_refused { OnOk result (first_of (unwritable (publish_view self.now)) ≡ None) }
    {
        self.judge()?;
        self.join(alloc)
    }

    /// Its canonical spelling up to its payload, which stands last in it (section 3.3.3): with the payload behind it, it is what
    /// `encode` writes. Refused as there.
    pub fn encode_head(&self, alloc: Global) -> Result<Vec<u8>, PacketFault>
        ensures spelled { IfOk result
            (λ v. v.items ++ self.now.payload.now ≡ spelling (publish_view self.now)) }
        ensures refused { IfErr result
            (λ e. IsNamed e (first_of (unwritable (publish_view self.now)))) }
        ensures not_refused { OnOk result (first_of (unwritable (publish_view self.now)) ≡ None) }
    {
        self.judge()?;
        self.join_head(alloc)
    }
}
