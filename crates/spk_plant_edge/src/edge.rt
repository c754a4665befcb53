//! An edge node's thread, from its start to its end.
ghost use Rattle.std.specs.Prelude.{◌≡◌, [], IfOk, IfErr};
ghost use Rattle.spk_edge.specs.Along.{node_of};
ghost use Rattle.spk_edge_rules.specs.Config.{Setup};
ghost use Rattle.spk_ingress.specs.Passes.{PutsInto};
ghost use Rattle.spk_plant_edge.specs.Done.{EdgeDone, EdgeFailed};
ghost use Rattle.spk_plant_edge.specs.Fault.{fault_of};

use crate::desk::Desk;
use crate::fault::EdgeCause;
use crate::told::Told;
use spk_edge::{EdgeNode, Published};
use spk_ingress::{Ingress, PutPass};
use spk_plan::{Gate, PlantFault, Step};
use spk_rings::Inlet;
use std::alloc::Global;
use std::fmt;
use std::sync::Wait;
use std::thread::Parker;

/// What an edge node's thread begins with.
#[derive(Drop)]
pub struct EdgeStart {
    /// The node, as it was made.
    pub node: EdgeNode,
    /// What it does, in order; then it stops.
    pub script: Vec<Step>,
    /// Its pass to the broker.
    pub pass: PutPass,
    /// Its place among the senders, for the gate.
    pub place: usize,
    /// The ring from the broker.
    pub inlet: Inlet,
}

impl fmt::Debug for EdgeStart {
    fn fmt<W: fmt::Write>(&self, f: &mut fmt::Formatter<W>) -> fmt::Result {
        f.write_str("EdgeStart { .. }")
    }
}

/// What it has done at its end.
#[derive(Drop)]
pub struct EdgeEnd {
    /// What the node was told, oldest first; refused inputs too.
    pub inputs: Vec<Told>,
    /// What it published, oldest first.
    pub published: Vec<Published>,
    pub node: EdgeNode,
    pub pass: PutPass,
    pub inlet: Inlet,
}

impl fmt::Debug for EdgeEnd {
    fn fmt<W: fmt::Write>(&self, f: &mut fmt::Formatter<W>) -> fmt::Result {
        f.write_str("EdgeEnd { .. }")
    }
}

/// Why it couldn't go on.
#[derive(Drop)]
pub struct EdgeFailure {
    pub cause: EdgeCause,
    pub pass: PutPass,
}

impl EdgeFailure {
    /// The fault of a plant: NoMemory (1) or Closed (90).
    pub fn fault(&self) -> PlantFault
        ensures { result ≡ fault_of self.now.cause }
    {
        self.cause.fault()
    }
}

impl fmt::Debug for EdgeFailure {
    fn fmt<W: fmt::Write>(&self, f: &mut fmt::Formatter<W>) -> fmt::Result {
        f.write_str("EdgeFailure { .. }")
    }
}

/// Runs an edge node's script: it reads its ring before each step and does the step, each at the moment 1,000,000 and the number of its
/// inputs so far; then it stops, and puts End. While it waits for its births and its ring is empty, the thread is parked at this
/// bell: who offers to the ring, or drops it, unparks the bell afterwards. What the node answers is put packet by packet, and Cut where its connection is
/// gone, or closed by it. A step that the node refuses is passed over, and so are items of a connection that was ended since
/// (own rules).
///
/// Refused for want of memory, with End put all the same; and with Closed (90), where the frames' taker is gone, and then End isn't put.
/// So the frames put tell which it is. The pass must be of this ingress.
pub fn run_edge<R: Wait, G: Gate>(
    rt: &R,
    alloc: Global,
    ingress: &Ingress,
    gate: &G,
    bell: &Parker,
    start: EdgeStart,
) -> Result<EdgeEnd, EdgeFailure>
    requires { PutsInto ingress.now start.pass }
    // whatever the node was made with
    ensures done { (s : Setup) → start.node ≡ node_of s [] → IfOk result (EdgeDone s start) }
    ensures pass { IfOk result (λ e. PutsInto ingress.now e.pass
        × (e.pass.sender ≡ start.pass.sender)) }
    ensures failed { IfErr result (EdgeFailed start) }
    ensures failed_pass { IfErr result (λ e. PutsInto ingress.now e.pass
        × (e.pass.sender ≡ start.pass.sender)) }
{
    let EdgeStart {
        node,
        script,
        pass,
        place,
        inlet,
    } = start;
    let mut desk = Desk::new(alloc, node, pass, place, inlet);
    let ran = desk.run(rt, gate, ingress, bell, &script);
    let put = desk.sender.end(rt, gate, ingress, &ran);
    let Desk {
        node,
        inputs,
        published,
        sender,
        inlet,
        ..
    } = desk;
    let pass = sender.pass;
    if let Err(gone) = put {
        return Err(EdgeFailure {
            cause: EdgeCause::Closed(gone),
            pass,
        });
    }
    if let Err(cause) = ran {
        return Err(EdgeFailure { cause, pass });
    }
    Ok(EdgeEnd {
        inputs,
        published,
        node,
        pass,
        inlet,
    })
}
