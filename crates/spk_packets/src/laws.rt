//! What holds of the grammar and the orders of refusals alone, for all bytes and packets.

ghost use Rattle.std.specs.Prelude.{◌≡◌, ◌≢◌, ◌<◌, ◌≤◌, length, Some, None, ℕ, List, [], ◌++◌, All};
ghost use Rattle.spk_packets.specs.Fault.{first_of};
ghost use Rattle.spk_packets.specs.Refusals.{refusals};
ghost use Rattle.spk_packets.specs.Message.{Message};
ghost use Rattle.spk_packets.specs.Grammar.{Spells};
ghost use Rattle.spk_packets.specs.Spelling.{spelling, unwritable, PacketFits};
ghost use Rattle.spk_packets.specs.Stream.{Event, IsRun, HasNoPacket, fed, given};
ghost use Rattle.spk_packets.specs.declared.fault.PacketFault.{PacketFault};

/// No spelling of a packet begins a spelling of a packet, the same or another, and one spelling spells one packet. So
/// what was written is read again, whatever follows it.
pub fn prefix_free()
    ensures { (a b x y : List ℕ) (p q : Message) → Spells a p → Spells b q → a ++ x ≡ b ++ y
        → (a ≡ b) × (p ≡ q) }
{}

/// Bytes that spell a packet spell one that `encode` writes: what it refuses, no bytes spell.
pub fn refused_has_no_spelling()
    ensures { (text : List ℕ) (p : Message) → All (λ b. b < 256) text → Spells text p
        → first_of (unwritable p) ≡ None }
{}

/// What `encode` writes is the shortest of a packet's spellings.
pub fn written_is_shortest()
    ensures { (text : List ℕ) (p : Message) → All (λ b. b < 256) text → Spells text p
        → length (spelling p) ≤ length text }
{}

/// What can be written is spelled by its spelling.
pub fn spelling_spells()
    ensures { (p : Message) → PacketFits p → first_of (unwritable p) ≡ None
        → Spells (spelling p) p }
{}

/// Two feeds that took in the same bytes and hold no whole packet any more have given the same packets, and the same
/// bytes wait: it doesn't matter how the bytes were cut, nor when packets were asked for. A feed that still holds some, or
/// took in fewer bytes, has given the first of them.
pub fn any_pieces()
    ensures same { (events others : List Event) (x y : List ℕ) → IsRun [] events x
        → IsRun [] others y
        → fed events ≡ fed others → HasNoPacket x → HasNoPacket y
        → (given events ≡ given others) × (x ≡ y) }
    ensures first { (events others : List Event) (x y more : List ℕ) → IsRun [] events x
        → IsRun [] others y
        → fed events ++ more ≡ fed others → HasNoPacket y
        → (later : List Message) × (given others ≡ given events ++ later) }
{}

/// A fault other than More stays, whatever follows: bytes that are refused are refused at once, and for good.
pub fn fault_stays()
    ensures { (bytes more : List ℕ) (fault : PacketFault) → first_of (refusals bytes) ≡ Some fault
        → fault ≢ PacketFault.More → first_of (refusals (bytes ++ more)) ≡ Some fault }
{}
