//! Laws on the data of a world: functions that do nothing, whose contracts speak of definitions alone.
ghost use Rattle.std.specs.Prelude.{◌≡◌, ℕ, List, [], ◌∷◌, slice_get, Some, None};
ghost use Rattle.spk_edge_rules.specs.Inputs.{Input};
ghost use Rattle.spk_host_session.specs.Data.{Config};
ghost use Rattle.spk_world_rules.specs.Answers.{Answer, answer_of};
ghost use Rattle.spk_world_rules.specs.Events.{AtNode, Death, Deed, Hand, Renew, Tick, World};
ghost use Rattle.spk_world_rules.specs.Refusals.{refusal_of};
ghost use Rattle.spk_world_run.specs.Data.{HostPart, NodePart, PublishedData, WorldData};
ghost use Rattle.spk_world_run.specs.Fresh.{IsFresh};
ghost use Rattle.spk_world_run.specs.Run.{IsRun, IsWorld};
ghost use Rattle.spk_world_run.specs.Sending.{IsKnown, IsSendable};
ghost use Rattle.spk_world_run.specs.Step.{IsDeath, IsHand, IsInput, IsRenewal, IsStep, IsTick, death_of, packet_of};
ghost use Rattle.spk_world_run.specs.Tests.{refusal_at};

/// A world as it begins is one in which nothing was done.
pub fn begins()
    ensures { (w : World) (configs : List Config) (d : WorldData) → IsWorld w → IsFresh w configs d
        → IsRun w [] d }
{
    spk_edge::laws::along();
}

/// A thing is refused by the data exactly where, and as, it is by the list of what was done.
pub fn refusals()
    ensures { (w : World) (done : List Deed) (d : WorldData) (e : Deed) → IsRun w done d
        → refusal_at d e ≡ refusal_of w done e }
{
    spk_sequence::laws::positions();
    spk_sequence::laws::records();
    spk_edge_rules::laws::any_list();
    spk_host::laws::any_list();
    spk_heard::laws::consumption();
    spk_world_rules::laws::lawful();
}

/// An input that comes to a node, in a world in which a list of things was done, newest first.
pub fn inputs()
    ensures runs { (w : World) (done : List Deed) (d after : WorldData) (n : ℕ) (input : Input)
        (answer : Answer) → IsRun w done d → refusal_of w done (AtNode n input) ≡ None
        → IsInput d n input after answer → IsRun w (AtNode n input ∷ done) after }
    ensures answers { (w : World) (done : List Deed) (d after : WorldData) (n : ℕ) (input : Input)
        (answer : Answer) → IsRun w done d → IsInput d n input after answer
        → answer ≡ answer_of w done (AtNode n input) }
{
    spk_sequence::laws::positions();
    spk_sequence::laws::records();
    spk_edge_rules::laws::any_list();
    spk_edge_rules::laws::published();
    spk_edge_rules::laws::messages();
    spk_edge::laws::along();
    spk_heard::laws::grows();
    spk_world_rules::laws::lawful();
}

/// A message that is handed to a host.
pub fn hands()
    ensures runs { (w : World) (done : List Deed) (d after : WorldData) (h n p now : ℕ)
        (answer : Answer) → IsRun w done d → refusal_of w done (Hand h n p now) ≡ None
        → IsHand d h n p now after answer → IsRun w (Hand h n p now ∷ done) after }
    ensures answers { (w : World) (done : List Deed) (d after : WorldData) (h n p now : ℕ)
        (answer : Answer) → IsRun w done d → IsHand d h n p now after answer
        → answer ≡ answer_of w done (Hand h n p now) }
{
    spk_sequence::laws::positions();
    spk_sequence::laws::records();
    spk_tie::laws::messages();
    spk_host::laws::any_list();
    spk_heard::laws::consumption();
    spk_world_rules::laws::lawful();
    spk_world_rules::laws::headline();
}

/// The NDEATH of a session that is handed to a host.
pub fn deaths()
    ensures runs { (w : World) (done : List Deed) (d after : WorldData) (h n s now : ℕ)
        (answer : Answer) → IsRun w done d → refusal_of w done (Death h n s now) ≡ None
        → IsDeath d h n s now after answer → IsRun w (Death h n s now ∷ done) after }
    ensures answers { (w : World) (done : List Deed) (d after : WorldData) (h n s now : ℕ)
        (answer : Answer) → IsRun w done d → refusal_of w done (Death h n s now) ≡ None
        → IsDeath d h n s now after answer → answer ≡ answer_of w done (Death h n s now) }
{
    spk_packets::laws::spelling_spells();
    spk_tie::laws::deaths();
    spk_world_rules::laws::headline();
}

/// A moment that comes to a host.
pub fn ticks()
    ensures runs { (w : World) (done : List Deed) (d after : WorldData) (h now : ℕ)
        (answer : Answer) → IsRun w done d → refusal_of w done (Tick h now) ≡ None
        → IsTick d h now after answer → IsRun w (Tick h now ∷ done) after }
    ensures answers { (w : World) (done : List Deed) (d after : WorldData) (h now : ℕ)
        (answer : Answer) → IsRun w done d → refusal_of w done (Tick h now) ≡ None
        → IsTick d h now after answer → answer ≡ answer_of w done (Tick h now) }
{
    spk_sequence::laws::positions();
    spk_host::laws::any_list();
    spk_heard::laws::consumption();
    spk_world_rules::laws::lawful();
    spk_world_rules::laws::headline();
}

/// The end of a host's session, and the beginning of its next.
pub fn renewals()
    ensures runs { (w : World) (done : List Deed) (d after : WorldData) (h now : ℕ)
        (answer : Answer) → IsRun w done d → refusal_of w done (Renew h now) ≡ None
        → IsRenewal d h now after answer → IsRun w (Renew h now ∷ done) after }
    ensures answers { (w : World) (done : List Deed) (d after : WorldData) (h now : ℕ)
        (answer : Answer) → IsRenewal d h now after answer
        → answer ≡ answer_of w done (Renew h now) }
{}

/// What a world hands to a host is refused for want of memory alone: the host is within a session,
/// the packet can be written, and nobody refuses its bytes.
pub fn sent()
    ensures messages { (w : World) (done : List Deed) (d : WorldData) (h n p : ℕ) (host : HostPart)
        (part : NodePart) (message : PublishedData) → IsRun w done d
        → slice_get d.hosts h ≡ Some host → slice_get d.nodes n ≡ Some part
        → slice_get part.published p ≡ Some message
        → IsSendable host.host (packet_of message) × IsKnown message }
    ensures deaths { (w : World) (done : List Deed) (d : WorldData) (h n session time : ℕ)
        (host : HostPart) (part : NodePart) → IsRun w done d → slice_get d.hosts h ≡ Some host
        → slice_get d.nodes n ≡ Some part → slice_get part.opened session ≡ Some time
        → IsSendable host.host (death_of part.node.config session time) }
{
    spk_packets::laws::spelling_spells();
    spk_tie::laws::messages();
    spk_tie::laws::deaths();
}

/// Of the data of a world in which a list of things was done, newest first: any nodes, of both
/// numberings, any hosts, windows of any width. A step by the data is the next thing of the list,
/// and answers what is asked of the list.
pub fn any_list()
    ensures runs { (w : World) (done : List Deed) (d after : WorldData) (e : Deed) (answer : Answer)
        → IsRun w done d → refusal_at d e ≡ None → IsStep d e after answer
        → IsRun w (e ∷ done) after }
    ensures answers { (w : World) (done : List Deed) (d after : WorldData) (e : Deed)
        (answer : Answer) → IsRun w done d → refusal_at d e ≡ None → IsStep d e after answer
        → answer ≡ answer_of w done e }
{
    refusals();
    inputs();
    hands();
    deaths();
    ticks();
    renewals();
}
