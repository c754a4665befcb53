//! What the broker's thread hands on.
ghost use Rattle.std.specs.Prelude.{◌≡◌, ◌<◌, ◌+◌, ℕ, Bool, List, length, IfOk, OnOk};
ghost use Rattle.spk_ingress.specs.declared.rule.Message.{Message};
ghost use Rattle.spk_rings.specs.declared.item.Item.{Item};
ghost use Rattle.spk_rings.specs.declared.outlet.Outlet.{Outlet};
ghost use Rattle.spk_plant_broker.specs.Done.{AreTokens, IsEndOf, refused_to};
ghost use Rattle.spk_plant_broker.specs.Holding.{FitLines};

use crate::hub::Hub;
use crate::line::Line;
use crate::part::{BrokerEnd, Refusal};
use spk_ingress::TakePass;
use spk_rings::Token;
use std::alloc::{AllocError, Global};

/// How many of these were a client's.
fn refused_to(refusals: &[Refusal], client: usize) -> usize
    ensures { result ≡ refused_to client refusals.now }
{
    refusals.iter().filter(|r| r.client == client).count()
}

/// The tokens of the rings' dropping.
fn tokens_of(alloc: Global, lines: Vec<Line>) -> Result<Vec<Option<Token>>, AllocError>
    ensures tokens { IfOk result
        (λ ts. (firsts : List Outlet) (dropped : ℕ → Bool) (got : ℕ → List Item)
        (taken : List Message)
        → FitLines firsts dropped got taken lines.items → AreTokens firsts got ts.items) }
    ensures sized { IfOk result (λ ts. length ts.items ≡ length lines.items) }
{
    let mut tokens = Vec::new(alloc);
    for line in lines {
        tokens.push(line.into_token())?;
    }
    Ok(tokens)
}

/// What is handed on when all senders have ended.
pub(crate) fn end_of(alloc: Global, hub: Hub, pass: TakePass) -> Result<BrokerEnd, AllocError>
    requires { hub.edges < length hub.desk.clients.items }
    ensures done { IfOk result (λ end. IsEndOf hub pass end) }
{
    let is_cut = hub.desk.is_closed(hub.edges);
    let refused = refused_to(hub.refusals.as_slice(), hub.edges);
    let Hub {
        lines,
        taken,
        refusals,
        accepted,
        ..
    } = hub;
    Ok(BrokerEnd {
        pass,
        taken,
        refusals,
        refused,
        accepted,
        tokens: tokens_of(alloc, lines)?,
        is_cut,
    })
}
