//! What is tied once all threads are joined.
ghost use Rattle.std.specs.Prelude.{◌≡◌, ◌⊎◌, ◌<◌, [], ◌∷◌, ◌++◌, length, IfOk, IfErr, IfSome, OnOk, Some, None};
ghost use Rattle.spk_plant_given.specs.Handed.{IsOfNode};
ghost use Rattle.spk_plant.specs.Choice.{IsMissing, IsUnsettled};
ghost use Rattle.spk_plant.specs.Done.{AreApart, AreTheirs, AreTied, IsFrontOf, IsReportOf, IsTied, lists};
ghost use Rattle.spk_rings.specs.Ring.{IsTokenOf};

use crate::choice::Ends;
use crate::report::{NodeReport, Report};
use spk_edge::EdgeNode;
use spk_ingress::{Ingress, Message, PutPass, SettleFault};
use spk_plan::PlantFault;
use spk_plant_broker::BrokerEnd;
use spk_plant_edge::EdgeEnd;
use spk_plant_given::{OfNode, of_node};
use spk_plant_host::{Given, HostEnd};
use spk_rings::Token;
use std::alloc::{AllocError, Global};
use std::sync::Wait;

/// The last token, if the ring's inlet was there.
fn last_of(tokens: &mut Vec<Option<Token>>) -> Option<Token>
    requires { 0 < length tokens.old.items }
    ensures there { IfSome result (λ t. tokens.old.items ≡ tokens.new.items ++ Some t ∷ []) }
    ensures missing { result ≡ None → IsMissing tokens.old.items }
{
    tokens.pop()?
}

/// The lists that tell what the host was handed of each edge node: the frames that the broker took, how many of them when the host's ring
/// took each item, and the items.
#[derive(Clone, Copy)]
struct Seen<'a> {
    taken: &'a Vec<Message>,
    accepted: &'a Vec<usize>,
    given: &'a Vec<Given>,
}

/// What the host was handed of an edge node, the sender at this place, and consumed of it.
fn handed_of(
    alloc: Global,
    seen: Seen<'_>,
    place: usize,
    node: &EdgeNode,
) -> Result<OfNode, AllocError>
    ensures { IfOk result (λ o. IsOfNode node.now.config.group node.now.config.node place
        seen.entry.taken.now.items seen.entry.accepted.now.items seen.entry.given.now.items
        o.given.items o.consumed.items) }
{
    of_node(
        alloc,
        node.config().group.as_str(),
        node.config().node.as_str(),
        place,
        seen.taken,
        seen.accepted,
        seen.given,
    )
}

/// What an edge node's end leaves for the report, and its pass; it is the sender at this place. What is left on its ring is counted with
/// its token.
fn parted(
    alloc: Global,
    seen: Seen<'_>,
    place: usize,
    end: EdgeEnd,
    mut token: Token,
) -> Result<(NodeReport, PutPass), AllocError>
    requires { IsTokenOf token end.inlet }
    ensures report { IfOk result
        (λ r. IsReportOf (lists seen.entry.taken.now.items seen.entry.accepted.now.items
        seen.entry.given.now.items) place end r.0) }
    ensures pass { IfOk result (λ r. r.1 ≡ end.pass) }
    ensures front { OnOk result (IsFrontOf end (Some token)) }
{
    let EdgeEnd {
        inputs,
        published,
        node,
        pass,
        mut inlet,
    } = end;
    let _left = inlet.left_after(&mut token);
    let handed = handed_of(alloc, seen, place, &node)?;
    let report = NodeReport {
        inputs,
        published,
        given: handed.given,
        consumed: handed.consumed,
    };
    Ok((report, pass))
}

/// The edges' reports and passes, in order. What is left on each ring is counted with its token.
fn apart(
    alloc: Global,
    seen: Seen<'_>,
    mut ends: Vec<EdgeEnd>,
    mut tokens: Vec<Option<Token>>,
) -> Result<(Vec<NodeReport>, Vec<PutPass>), PlantFault>
    requires sized { length tokens.items ≡ length ends.items }
    requires theirs { AreTheirs ends.items tokens.items }
    ensures apart { IfOk result (λ r. AreApart (lists seen.entry.taken.now.items
        seen.entry.accepted.now.items seen.entry.given.now.items) ends.items tokens.items r.0.items r.1.items) }
    ensures fault { IfErr result (λ e. (e ≡ PlantFault.NoMemory)
        ⊎ ((e ≡ PlantFault.Unsettled) × IsMissing tokens.items)) }
{
    let Some(end) = ends.pop() else {
        return Ok((Vec::new(alloc), Vec::new(alloc)));
    };
    let Some(token) = last_of(&mut tokens) else {
        return Err(PlantFault::Unsettled);
    };
    let place = ends.len();
    let parts = parted(alloc, seen, place, end, token)?;
    let (report, pass) = parts;
    let (mut reports, mut passes) = match apart(alloc, seen, ends, tokens) {
        Ok(others) => others,
        Err(fault) => return Err(fault),
    };
    reports.push(report)?;
    passes.push(pass)?;
    Ok((reports, passes))
}

/// The report of a plant whose threads have ended. Unsettled (93) where a ring's token isn't there, the host's ring isn't
/// empty, or frames weren't taken; NoMemory (1) where a growth was refused.
pub(crate) fn report_of<R: Wait>(
    rt: &R,
    alloc: Global,
    ingress: Ingress,
    ends: Ends,
) -> Result<Report, PlantFault>
    requires { AreTied ingress ends }
    ensures tied { IfOk result (IsTied ends) }
    ensures fault { IfErr result (λ e. (e ≡ PlantFault.NoMemory)
        ⊎ ((e ≡ PlantFault.Unsettled) × IsUnsettled ends)) }
{
    let Ends {
        edges,
        broker,
        host,
    } = ends;
    let BrokerEnd {
        pass: taker,
        taken,
        refusals,
        refused,
        accepted,
        mut tokens,
        is_cut,
    } = broker;
    let HostEnd {
        given,
        host: _host,
        pass,
        mut inlet,
    } = host;
    let Some(mut token) = last_of(&mut tokens) else {
        return Err(PlantFault::Unsettled);
    };
    if inlet.left_after(&mut token) != 0 {
        return Err(PlantFault::Unsettled);
    }
    let seen = Seen {
        taken: &taken,
        accepted: &accepted,
        given: &given,
    };
    let (nodes, mut passes) = match apart(alloc, seen, edges, tokens) {
        Ok(parts) => parts,
        Err(fault) => return Err(fault),
    };
    passes.push(pass)?;
    match ingress.settle(rt, alloc, passes, taker) {
        Ok(_counts) => {}
        Err(SettleFault::NoMemory) => return Err(PlantFault::NoMemory),
        Err(SettleFault::Unsettled) => return Err(PlantFault::Unsettled),
    }
    Ok(Report {
        taken,
        refusals,
        nodes,
        given,
        accepted,
        refused,
        is_cut,
    })
}
