//! The end of all connections, as at a restart.
ghost use Rattle.std.specs.Prelude.{◌≡◌, ◌++◌, IfOk, OnOk, map};
ghost use Rattle.std.specs.List.{flat_map};
ghost use Rattle.spk_broker_rules.specs.Plan.{Closed};
ghost use Rattle.spk_broker_rules.specs.Step.{step};
ghost use Rattle.spk_broker_rules.specs.Words.{option_list};
ghost use Rattle.spk_broker_replay.specs.Replay.{connections, ends, run};
ghost use Rattle.spk_broker_journal.specs.Ending.{conns_of, newcomer_conn};

use spk_broker::{Broker, BrokerFault, Conn};
use spk_broker_rules::laws;
use std::alloc::{AllocError, Global};

/// The connections without CONNECT, behind those that are there.
fn add_waiting(broker: &Broker, conns: &mut Vec<Conn>) -> Result<(), AllocError>
    ensures { OnOk result (conns.new.items ≡ conns.old.items ++ map newcomer_conn broker.now.newcomers) }
{
    for at in 0..usize::MAX {
        let Some(conn) = broker.connection(at) else {
            return Ok(());
        };
        conns.push(conn)?;
    }
    Err(AllocError)
}

/// One connection more, if there is one.
fn add_one(conn: Option<Conn>, conns: &mut Vec<Conn>) -> Result<(), AllocError>
    ensures { OnOk result (conns.new.items ≡ conns.old.items ++ option_list conn) }
{
    let Some(conn) = conn else {
        return Ok(());
    };
    conns.push(conn)?;
    Ok(())
}

/// Those of sessions, behind those that are there.
fn add_sitting(broker: &Broker, conns: &mut Vec<Conn>) -> Result<(), AllocError>
    ensures { OnOk result (conns.new.items ≡ conns.old.items ++ flat_map conns_of broker.now.sessions) }
{
    for at in 0..usize::MAX {
        let Some(session) = broker.session(at) else {
            return Ok(());
        };
        add_one(session.connection(), conns)?;
    }
    Err(AllocError)
}

/// All connections of a broker.
fn connections(alloc: Global, broker: &Broker) -> Result<Vec<Conn>, AllocError>
    ensures { IfOk result (λ v. v.items ≡ connections broker.now) }
{
    let mut conns = Vec::new(alloc);
    add_waiting(broker, &mut conns)?;
    add_sitting(broker, &mut conns)?;
    Ok(conns)
}

/// A broker behind the end of a connection, which may have ended before.
fn behind_end(mut broker: Broker, conn: Conn) -> Result<Broker, AllocError>
    ensures { IfOk result (λ b. b ≡ (step broker (Closed conn 0)).broker) }
{
    laws::routing();
    match broker.closed(conn, 0) {
        Ok(_out) => Ok(broker),
        Err(BrokerFault::NoSuchConn) => Ok(broker),
        Err(_) => Err(AllocError),
    }
}

/// A broker behind the ends of all its connections, with their wills, of which nothing is sent: what a restart makes of the one that was put together,
/// since whoever was connected is gone (own rule). Refused only where memory is; then the broker is gone.
pub fn ended(alloc: Global, broker: Broker) -> Result<Broker, AllocError>
    ensures { IfOk result (λ b. b ≡ run broker (ends broker)) }
{
    let conns = connections(alloc, &broker)?;
    let mut left = broker;
    for conn in &conns {
        left = behind_end(left, *conn)?;
    }
    Ok(left)
}
