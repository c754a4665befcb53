//! Rebirth requests to a node.
ghost use Rattle.std.specs.Prelude.{◌≡◌, ◌++◌, ◌∷◌, [], true, All, map, replicate, IfOk, OnOk};
ghost use Rattle.spk_topics.specs.Spark.{named};
ghost use Rattle.spk_topics.specs.Spark.Named.{of_node};
ghost use Rattle.spk_host_session.specs.Data.{is_address};
ghost use Rattle.spk_host_session.specs.Packets.{IsPacket};
ghost use Rattle.spk_host.specs.Step.{requests_to, spelled, topics_to};

use spk_host_session::{HostFault, rebirth};
use spk_topics::{Spark, Verb};
use std::alloc::{AllocError, Global};

/// The topic of a request.
fn topic_to(alloc: Global, group: &str, node: &str) -> Result<Spark, AllocError>
    ensures { IfOk result (λ t. named t ≡ of_node group.now Verb.Command node.now) }
{
    Ok(Spark::Node {
        group: String::from_str(alloc, group)?,
        kind: Verb::Command,
        node: String::from_str(alloc, node)?,
    })
}

/// A request to a node, behind those that are there.
pub(crate) fn ask(
    alloc: Global,
    group: &str,
    node: &str,
    now: u64,
    rebirths: &mut Vec<Spark>,
    packets: &mut Vec<Vec<u8>>,
) -> Result<(), AllocError>
    ensures topics { OnOk result (map named rebirths.new.items
        ≡ map named rebirths.old.items ++ topics_to group.now node.now 1) }
    ensures packets { OnOk result (map (λ b. b.items) packets.new.items
        ≡ map (λ b. b.items) packets.old.items ++ spelled (requests_to group.now node.now now 1)) }
    ensures whole { All (λ b. IsPacket b.items) packets.old.items
        → OnOk result (All (λ b. IsPacket b.items) packets.new.items) }
{
    match rebirth(alloc, group, node, now) {
        Ok(bytes) => {
            rebirths.push(topic_to(alloc, group, node)?)?;
            packets.push(bytes)?;
            Ok(())
        }
        Err(HostFault::NotSparkplug) => Ok(()),
        Err(_) => Err(AllocError),
    }
}

/// A request to a node, whose bytes are these, behind those that are there.
fn ask_copy(
    alloc: Global,
    group: &str,
    node: &str,
    bytes: &[u8],
    rebirths: &mut Vec<Spark>,
    packets: &mut Vec<Vec<u8>>,
) -> Result<(), AllocError>
    requires { is_address group.now node.now ≡ true }
    ensures topics { OnOk result (map named rebirths.new.items
        ≡ map named rebirths.old.items ++ topics_to group.now node.now 1) }
    ensures packets { OnOk result (map (λ b. b.items) packets.new.items
        ≡ map (λ b. b.items) packets.old.items ++ bytes.now ∷ []) }
    ensures whole { IsPacket bytes.now → All (λ b. IsPacket b.items) packets.old.items
        → OnOk result (All (λ b. IsPacket b.items) packets.new.items) }
{
    let copy = bytes.to_vec(alloc)?;
    rebirths.push(topic_to(alloc, group, node)?)?;
    packets.push(copy)?;
    Ok(())
}

/// So many requests to a node, whose bytes are these, behind those that are there.
fn ask_copies(
    alloc: Global,
    group: &str,
    node: &str,
    count: usize,
    bytes: &[u8],
    rebirths: &mut Vec<Spark>,
    packets: &mut Vec<Vec<u8>>,
) -> Result<(), AllocError>
    requires { is_address group.now node.now ≡ true }
    ensures topics { OnOk result (map named rebirths.new.items
        ≡ map named rebirths.old.items ++ topics_to group.now node.now count) }
    ensures packets { OnOk result (map (λ b. b.items) packets.new.items
        ≡ map (λ b. b.items) packets.old.items ++ replicate count bytes.now) }
    ensures whole { IsPacket bytes.now → All (λ b. IsPacket b.items) packets.old.items
        → OnOk result (All (λ b. IsPacket b.items) packets.new.items) }
{
    for _copy in 0..count {
        ask_copy(alloc, group, node, bytes, rebirths, packets)?;
    }
    Ok(())
}

/// So many requests to a node, behind those that are there. They are of one moment, so they are written once.
fn ask_many(
    alloc: Global,
    group: &str,
    node: &str,
    now: u64,
    count: usize,
    rebirths: &mut Vec<Spark>,
    packets: &mut Vec<Vec<u8>>,
) -> Result<(), AllocError>
    ensures topics { OnOk result (map named rebirths.new.items
        ≡ map named rebirths.old.items ++ topics_to group.now node.now count) }
    ensures packets { OnOk result (map (λ b. b.items) packets.new.items
        ≡ map (λ b. b.items) packets.old.items
        ++ spelled (requests_to group.now node.now now count)) }
    ensures whole { All (λ b. IsPacket b.items) packets.old.items
        → OnOk result (All (λ b. IsPacket b.items) packets.new.items) }
{
    match rebirth(alloc, group, node, now) {
        Ok(bytes) => ask_copies(alloc, group, node, count, &bytes, rebirths, packets),
        Err(HostFault::NotSparkplug) => Ok(()),
        Err(_) => Err(AllocError),
    }
}

/// So many requests to a node, behind those that are there.
pub(crate) fn ask_all(
    alloc: Global,
    group: &str,
    node: &str,
    now: u64,
    count: usize,
    rebirths: &mut Vec<Spark>,
    packets: &mut Vec<Vec<u8>>,
) -> Result<(), AllocError>
    ensures topics { OnOk result (map named rebirths.new.items
        ≡ map named rebirths.old.items ++ topics_to group.now node.now count) }
    ensures packets { OnOk result (map (λ b. b.items) packets.new.items
        ≡ map (λ b. b.items) packets.old.items
        ++ spelled (requests_to group.now node.now now count)) }
    ensures whole { All (λ b. IsPacket b.items) packets.old.items
        → OnOk result (All (λ b. IsPacket b.items) packets.new.items) }
{
    if count > 1 {
        return ask_many(alloc, group, node, now, count, rebirths, packets);
    }
    for _request in 0..count {
        ask(alloc, group, node, now, rebirths, packets)?;
    }
    Ok(())
}
