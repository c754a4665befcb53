//! The figures of a broker, and their text.

use crate::closes::Closes;
use spk_clients::Cause;
use std::fmt;

/// The causes, in the order of the text.
const CAUSES: [Cause; 9] = [
    Cause::Left,
    Cause::Gone,
    Cause::Silent,
    Cause::Unreadable,
    Cause::Refused,
    Cause::KeepAlive,
    Cause::TakenOver,
    Cause::Slow,
    Cause::Memory,
];

/// The figures of a broker. What is counted is counted since it began.
#[derive(Clone, Copy, Debug, PartialEq, Eq)]
pub struct Figures {
    /// Clients that are connected.
    pub clients: u64,
    /// Sessions, with and without a connection.
    pub sessions: u64,
    /// Topics with a retained message.
    pub retained: u64,
    /// PUBLISH packets of clients.
    pub heard: u64,
    /// PUBLISH packets for clients.
    pub sent: u64,
    /// Packets for clients that were refused.
    pub dropped: u64,
    /// Waits of a publisher for a slow client.
    pub stalls: u64,
    /// Clients whose sockets were shut.
    pub closes: Closes,
}

/// A figure, with what it is and whether it only grows.
fn figure<W: fmt::Write>(
    f: &mut fmt::Formatter<W>,
    name: &str,
    kind: &str,
    help: &str,
    value: u64,
) -> fmt::Result {
    writeln!(f, "# HELP juldremm_{name} {help}")?;
    writeln!(f, "# TYPE juldremm_{name} {kind}")?;
    writeln!(f, "juldremm_{name} {value}")
}

/// The clients whose sockets were shut, by cause.
fn by_cause<W: fmt::Write>(f: &mut fmt::Formatter<W>, closes: &Closes) -> fmt::Result {
    writeln!(
        f,
        "# HELP juldremm_closes_total Clients whose sockets were shut."
    )?;
    writeln!(f, "# TYPE juldremm_closes_total counter")?;
    for cause in CAUSES {
        let count = closes.of(cause);
        writeln!(f, "juldremm_closes_total{{cause=\"{cause}\"}} {count}")?;
    }
    Ok(())
}

/// What is there now.
fn gauges<W: fmt::Write>(f: &mut fmt::Formatter<W>, figures: &Figures) -> fmt::Result {
    let help = "Clients that are connected.";
    figure(f, "clients", "gauge", help, figures.clients)?;
    let help = "Sessions, with and without a connection.";
    figure(f, "sessions", "gauge", help, figures.sessions)?;
    let help = "Topics with a retained message.";
    figure(f, "retained_messages", "gauge", help, figures.retained)
}

/// What came and went.
fn counters<W: fmt::Write>(f: &mut fmt::Formatter<W>, figures: &Figures) -> fmt::Result {
    let help = "PUBLISH packets of clients.";
    figure(f, "messages_in_total", "counter", help, figures.heard)?;
    let help = "PUBLISH packets for clients.";
    figure(f, "messages_out_total", "counter", help, figures.sent)?;
    let help =
        "Packets for clients that were refused, since too many waited or memory was refused.";
    figure(f, "drops_total", "counter", help, figures.dropped)?;
    let help = "Waits of a publisher for a slow client.";
    figure(f, "stalls_total", "counter", help, figures.stalls)
}

/// The text of Prometheus, version 0.0.4: a line for each figure, behind what it is.
impl fmt::Display for Figures {
    fn fmt<W: fmt::Write>(&self, f: &mut fmt::Formatter<W>) -> fmt::Result {
        gauges(f, self)?;
        counters(f, self)?;
        by_cause(f, &self.closes)
    }
}
