//! `serve`: the broker over TCP, as the program runs it, and how serving went.
#![tactic(auto)]

use spk_broker_store::{Disk, Kept};
use spk_door::Door;
use spk_runtime::{Holdings, ServeFault, Serving, serve_kept};
use std::io;
use std::io::Write;
use std::net::{IpAddr, Net};
use std::sync::Wait;
use std::time::Clock;

/// Says how serving went, and answers the status: 0, or 1 for a fault.
pub fn said<W: Write>(out: &mut W, answer: Result<u32, ServeFault>) -> io::Result<u8> {
    let status = match answer {
        Ok(served) => {
            writeln!(out, "served {served}")?;
            0
        }
        Err(fault) => {
            let number = fault.number();
            writeln!(out, "fault {fault} ({number})")?;
            1
        }
    };
    out.flush()?;
    Ok(status)
}

/// Serves clients at this address and port, so many or for ever, with a status page at the other port, where there is one, and behind a door,
/// where there is one, which bounds what users hold, where that is said, with what a store kept, where there is one, and answers the status. All texts go to the writer, but for the lines of closes,
/// which go to the log.
pub fn serve_clients<R: AllocGlobal + Wait + Clock + Net, D: Disk, W: Write, L: Write>(
    rt: &R,
    bind: IpAddr,
    port: u16,
    clients: Option<u16>,
    status: Option<u16>,
    door: Option<&Door>,
    holdings: Option<Holdings>,
    store: Option<Kept<D>>,
    out: &mut W,
    log: &mut L,
) -> u8 {
    let serving = Serving {
        bind,
        port,
        clients: clients.map(usize::from),
        status,
    };
    let answer = serve_kept(rt, rt.alloc(), &serving, door, holdings, store, out, log);
    said(out, answer).unwrap_or(1)
}
