//! The server.
ghost use Rattle.std.specs.Prelude.{◌≡◌, ◌≢◌, ◌≤◌, IfErr, IfOk, OnOk};
ghost use Rattle.spk_runtime.specs.Fault.{IsCount, IsServing};

use crate::client::Client;
use crate::doors::Doors;
use crate::fault::{ServeFault, of_store};
use crate::holdings::Holdings;
use crate::page::{FIRST, PAGE, Page};
use crate::rounds::Rounds;
use crate::sweep::Sweep;
use mio::net::TcpListener;
use mio::{Events, Interest, Poll, Token};
use spk_broker_store::{Disk, Kept, NoDisk, Store};
use spk_door::Door;
use spk_server::ServerFault;
use spk_status::Telling;
use std::alloc::Global;
use std::io::{Write, sink};
use std::net::{IpAddr, Ipv4Addr, Net, SocketAddr};
use std::sync::Wait;
use std::time::{Clock, Duration, Instant};

/// The most clients that are served, unless it stays (own rule).
const MOST: usize = 1_000;

/// How many events are asked for at once.
const EVENTS: usize = 1_024;

/// The token of the listening socket: no connection has this number.
const LISTENER: usize = 0;

/// Where it listens, and for how many clients.
#[derive(Clone, Copy, Debug, Drop)]
pub struct Serving {
    pub bind: IpAddr,
    pub port: u16,
    /// How many clients come before it ends; none where it stays.
    pub clients: Option<usize>,
    /// The port of the status page, on 127.0.0.1; none where there is no page.
    pub status: Option<u16>,
}

/// Milliseconds since the start behind the server's first moment, or the last ones where the clock can't be read.
fn moment<R: Clock>(rt: &R, start: &Option<Instant>, first: u64, last: u64) -> u64 {
    let Some(start) = start else {
        return last;
    };
    match start.elapsed(rt) {
        Ok(since) => u64::try_from(since.as_millis())
            .unwrap_or(u64::MAX)
            .saturating_add(first)
            .max(last),
        Err(_) => last,
    }
}

/// When a round is to begin at the latest, if no socket does anything; the greatest number where it need not.
fn due<D: Disk>(
    doors: &Doors<'_>,
    rounds: &Rounds<Client<'_>>,
    store: &Option<Store<D>>,
    page: &Option<Page>,
    telling: &Telling,
    sweep: &Sweep,
    now: u64,
) -> u64 {
    let mut due = rounds.due().unwrap_or(u64::MAX);
    due = due.min(sweep.due(rounds).unwrap_or(u64::MAX));
    if let Some(store) = store {
        due = due.min(store.due().unwrap_or(u64::MAX));
    }
    if doors.knocked && now < doors.from {
        due = due.min(doors.from);
    }
    if let Some(page) = page {
        due = due.min(page.due(now));
    }
    due.min(telling.due().unwrap_or(u64::MAX))
}

/// Whether a socket of the page is ready.
fn is_page_ready(page: &Option<Page>, now: u64) -> bool {
    match page {
        Some(page) => page.is_ready(now),
        None => false,
    }
}

/// How long may be waited for the sockets. None where nothing is due.
fn pause<D: Disk>(
    doors: &Doors<'_>,
    rounds: &Rounds<Client<'_>>,
    store: &Option<Store<D>>,
    page: &Option<Page>,
    telling: &Telling,
    sweep: &Sweep,
    more: bool,
    now: u64,
) -> Option<Duration> {
    if more || doors.may_accept(rounds, now) || is_page_ready(page, now) {
        return Some(Duration::ZERO);
    }
    let due = due(doors, rounds, store, page, telling, sweep, now);
    if due == u64::MAX {
        return None;
    }
    Some(Duration::from_millis(due.saturating_sub(now)))
}

/// Notes that a socket of the page is ready.
fn note_page(page: &mut Option<Page>, token: usize) {
    if let Some(page) = page {
        page.note(token);
    }
}

/// Reads and writes each of those who ask for the page once.
fn show(
    alloc: Global,
    poll: &Poll,
    rounds: &Rounds<Client<'_>>,
    page: &mut Option<Page>,
    now: u64,
) {
    if let Some(page) = page {
        page.round(alloc, poll, &rounds.figures(), now);
    }
}

/// Tells how many closes weren't told of, once their second is over at this moment.
fn tell_rest<L: Write>(telling: &mut Telling, log: &mut L, now: u64) {
    if let Some(more) = telling.rest(now) {
        let _ = writeln!(log, "{more} more closed");
    }
}

/// Shuts the sockets of those who are done, and tells of them: a line for each, ten in a second, and behind it how many more there were. A
/// log that fails changes nothing; one that takes nothing, as a full pipe, is waited for.
fn shut_all<L: Write>(
    rounds: &mut Rounds<Client<'_>>,
    telling: &mut Telling,
    log: &mut L,
    now: u64,
) {
    tell_rest(telling, log, now);
    for _ in 0..u64::MAX {
        let Some((conn, cause)) = rounds.shut_next() else {
            break;
        };
        if telling.note(now) {
            let _ = writeln!(log, "closed {conn} {cause}");
        }
    }
}

/// Notes what is ready.
fn note(
    events: &Events<Global>,
    doors: &mut Doors<'_>,
    rounds: &mut Rounds<Client<'_>>,
    page: &mut Option<Page>,
) -> Result<(), ServerFault> {
    for event in events.iter() {
        let Token(token) = event.token();
        if token == LISTENER {
            doors.knocked = true;
            continue;
        }
        if token >= FIRST {
            note_page(page, token);
            continue;
        }
        let conn = token as u64;
        let closing = event.is_read_closed() || event.is_error();
        if event.is_readable() || closing {
            rounds.may_read(conn, closing);
        }
        if event.is_writable() {
            rounds.may_write(conn)?;
        }
    }
    Ok(())
}

/// What came to the broker is kept, where there is a store.
fn keep<D: Disk>(
    rounds: &mut Rounds<Client<'_>>,
    store: &mut Option<Store<D>>,
    now: u64,
) -> Result<(), ServeFault>
    ensures { IfErr result (λ e. e ≢ ServeFault.BadPlan) }
{
    match store {
        Some(store) => rounds.keep(store, now),
        None => Ok(()),
    }
}

/// One round: writes are tried again, who waits is accepted, what is ready is read, what came of it is kept and then written. Whether more is ready at once.
fn round<'a, D: Disk>(
    poll: &Poll,
    doors: &mut Doors<'a>,
    rounds: &mut Rounds<Client<'a>>,
    store: &mut Option<Store<D>>,
    now: u64,
) -> Result<bool, ServeFault>
    ensures { IfErr result (λ e. e ≢ ServeFault.BadPlan) }
{
    rounds.try_all_again(now)?;
    doors.accept(rounds, poll, now)?;
    let more_to_read = rounds.take(now)?;
    keep(rounds, store, now)?;
    let more_to_write = rounds.write_all()?;
    Ok(more_to_read || more_to_write)
}

/// Runs rounds until no more clients come and all have ended.
fn run_all<'a, R: Wait + Clock, D: Disk, L: Write>(
    rt: &R,
    alloc: Global,
    poll: &mut Poll,
    events: &mut Events<Global>,
    doors: &mut Doors<'a>,
    rounds: &mut Rounds<Client<'a>>,
    store: &mut Option<Store<D>>,
    page: &mut Option<Page>,
    telling: &mut Telling,
    log: &mut L,
) -> Result<(), ServeFault>
    ensures { IfErr result (λ e. e ≢ ServeFault.BadPlan) }
{
    let start = Instant::now(rt).ok();
    let first = rounds.server.now();
    let mut now = first;
    let mut more = false;
    let mut sweep = Sweep::new(alloc);
    for _ in rt.forever() {
        if doors.are_closed() && rounds.server.clients() == 0 {
            break;
        }
        let timeout = pause(doors, rounds, store, page, telling, &sweep, more, now);
        if poll.poll(events, timeout).is_err() {
            return Err(ServeFault::Device);
        }
        now = moment(rt, &start, first, now);
        note(events, doors, rounds, page)?;
        more = round(poll, doors, rounds, store, now)?;
        shut_all(rounds, telling, log, now);
        sweep.look(rounds, log, now)?;
        show(alloc, poll, rounds, page, now);
    }
    Ok(())
}

/// Runs rounds until no more clients come and all have ended, and then tells of the closes that weren't told of.
fn run<'a, R: Wait + Clock, D: Disk, L: Write>(
    rt: &R,
    alloc: Global,
    poll: &mut Poll,
    events: &mut Events<Global>,
    doors: &mut Doors<'a>,
    rounds: &mut Rounds<Client<'a>>,
    store: &mut Option<Store<D>>,
    page: &mut Option<Page>,
    log: &mut L,
) -> Result<(), ServeFault>
    ensures { IfErr result (λ e. e ≢ ServeFault.BadPlan) }
{
    let mut telling = Telling::new();
    let answer = run_all(
        rt,
        alloc,
        poll,
        events,
        doors,
        rounds,
        store,
        page,
        &mut telling,
        log,
    );
    tell_rest(&mut telling, log, u64::MAX);
    answer
}

/// The status page on this port of 127.0.0.1, if there is one.
fn page_at<R: Net>(
    rt: &R,
    alloc: Global,
    poll: &Poll,
    status: Option<u16>,
) -> Result<Option<Page>, ServeFault>
    ensures { IfErr result (λ e. e ≢ ServeFault.BadPlan) }
{
    let Some(port) = status else {
        return Ok(None);
    };
    let address = SocketAddr::new(IpAddr::V4(Ipv4Addr::LOCALHOST), port);
    let Ok(mut listener) = TcpListener::bind(rt, address) else {
        return Err(ServeFault::Device);
    };
    let registered = poll
        .registry()
        .register(&mut listener, Token(PAGE), Interest::READABLE);
    if registered.is_err() {
        return Err(ServeFault::Device);
    }
    Ok(Some(Page::new(alloc, listener)?))
}

/// A store, and the clients of the broker that it kept; neither where nothing is kept: then the broker is a new one.
fn rounds_of<'a, D: Disk>(
    alloc: Global,
    kept: Option<Kept<D>>,
) -> Result<(Option<Store<D>>, Rounds<Client<'a>>), ServeFault>
    ensures { IfErr result (λ e. e ≢ ServeFault.BadPlan) }
{
    match kept {
        Some(kept) => {
            let Kept {
                store,
                broker,
                cut: _cut,
            } = kept;
            let rounds = Rounds::over_broker(alloc, broker)?;
            Ok((Some(store), rounds))
        }
        None => Ok((None, Rounds::new(alloc)?)),
    }
}

/// What users may hold is looked at from now on, where there are some.
fn hold(
    rounds: &mut Rounds<Client<'_>>,
    door: Option<&Door>,
    holdings: Option<Holdings>,
) -> Result<(), ServeFault>
    ensures { IfErr result (λ e. e ≢ ServeFault.BadPlan) }
{
    if let (Some(door), Some(holdings)) = (door, holdings) {
        rounds.hold(door, holdings)?;
    }
    Ok(())
}

/// A store, and the clients of the broker that it kept, as `rounds_of` has them; what users may hold is looked at from now on, where there are some.
fn begun<'a, D: Disk>(
    alloc: Global,
    door: Option<&Door>,
    holdings: Option<Holdings>,
    kept: Option<Kept<D>>,
) -> Result<(Option<Store<D>>, Rounds<Client<'a>>), ServeFault>
    ensures { IfErr result (λ e. e ≢ ServeFault.BadPlan) }
{
    match rounds_of(alloc, kept) {
        Ok((store, mut rounds)) => match hold(&mut rounds, door, holdings) {
            Ok(()) => Ok((store, rounds)),
            Err(fault) => Err(fault),
        },
        Err(fault) => Err(fault),
    }
}

/// What isn't on the disk yet is brought there at the end.
fn sync_last<D: Disk>(store: &mut Option<Store<D>>) -> Result<(), ServeFault>
    ensures { IfErr result (λ e. e ≢ ServeFault.BadPlan) }
{
    match store {
        Some(store) => match store.sync() {
            Ok(()) => Ok(()),
            Err(fault) => Err(of_store(fault)),
        },
        None => Ok(()),
    }
}

/// Runs rounds until no more clients come and all have ended; then all is on the disk.
fn run_whole<'a, R: Wait + Clock, D: Disk, L: Write>(
    rt: &R,
    alloc: Global,
    poll: &mut Poll,
    events: &mut Events<Global>,
    doors: &mut Doors<'a>,
    rounds: &mut Rounds<Client<'a>>,
    store: &mut Option<Store<D>>,
    page: &mut Option<Page>,
    log: &mut L,
) -> Result<(), ServeFault>
    ensures { IfErr result (λ e. e ≢ ServeFault.BadPlan) }
{
    match run(rt, alloc, poll, events, doors, rounds, store, page, log) {
        Ok(()) => sync_last(store),
        Err(fault) => Err(fault),
    }
}

/// How many were served, where nothing failed.
fn over(answer: Result<(), ServeFault>, doors: &Doors<'_>) -> Result<u32, ServeFault>
    requires { IfErr answer (λ e. e ≢ ServeFault.BadPlan) }
    ensures { IfErr result (λ e. e ≢ ServeFault.BadPlan) }
{
    match answer {
        Ok(()) if doors.failed => Err(ServeFault::Device),
        Ok(()) => Ok(doors.served),
        Err(fault) => Err(fault),
    }
}

/// Serves on a listening socket.
fn serve_on<R: Wait + Clock + Net, D: Disk, L: Write>(
    rt: &R,
    alloc: Global,
    mut poll: Poll,
    mut listener: TcpListener,
    mut page: Option<Page>,
    door: Option<&Door>,
    holdings: Option<Holdings>,
    clients: Option<u32>,
    kept: Option<Kept<D>>,
    log: &mut L,
) -> Result<u32, ServeFault>
    ensures { IfErr result (λ e. e ≢ ServeFault.BadPlan) }
{
    let registered = poll
        .registry()
        .register(&mut listener, Token(LISTENER), Interest::READABLE);
    if registered.is_err() {
        return Err(ServeFault::Device);
    }
    let mut events = Events::with_capacity(alloc, EVENTS)?;
    let mut doors = Doors::new(alloc, listener, door, clients);
    let (mut store, mut rounds) = begun(alloc, door, holdings, kept)?;
    let answer = run_whole(
        rt,
        alloc,
        &mut poll,
        &mut events,
        &mut doors,
        &mut rounds,
        &mut store,
        &mut page,
        log,
    );
    over(answer, &doors)
}

/// How many clients come, if that is 1 to 1,000.
fn count_of(clients: Option<usize>) -> Result<Option<u32>, ServeFault>
    ensures ok { OnOk result (IsServing clients) }
    ensures bad_plan { IfErr result (λ e. ¬ (IsServing clients)) }
{
    match clients {
        None => Ok(None),
        Some(count) if count == 0 || count > MOST => Err(ServeFault::BadPlan),
        Some(count) => Ok(Some(count as u32)),
    }
}

/// An MQTT 3.1.1 server (QoS 0 and 1). Once it listens it writes the line `listening N`, flushed. Where it is for so many
/// clients (1 to 1,000) it ends when they were accepted and all have ended, and answers how many were served; else it
/// stays, and serves 1,000 at once. What it does besides is `spk_server`'s. Where there is a door the server reads of each client what `spk_visitor` lets through
/// with it, and the client gets what that makes of what the server writes; one whom the door ends is closed as refused. Where it has a port for it, `spk_status`' page is served on 127.0.0.1,
/// to sixteen at once, for five seconds each. The log gets a line `closed CONN CAUSE` for each client whose socket is shut, ten in
/// a second, and then `N more closed`; one that fails changes nothing, one that takes nothing is waited for. Refused with BadPlan (92) for another number of
/// clients, and with Device (96) where listening, waiting, accepting or the writer failed. No contract says what goes over a
/// socket.
pub fn serve_at<R: Wait + Clock + Net, W: Write, L: Write>(
    rt: &R,
    alloc: Global,
    serving: &Serving,
    door: Option<&Door>,
    writer: &mut W,
    log: &mut L,
) -> Result<u32, ServeFault>
    ensures ok { OnOk result (IsServing serving.now.clients) }
    ensures bad_plan { IfErr result (λ e. e ≡ ServeFault.BadPlan
        → ¬ (IsServing serving.now.clients)) }
{
    serve_kept(
        rt,
        alloc,
        serving,
        door,
        None,
        None::<Kept<NoDisk>>,
        writer,
        log,
    )
}

/// The same, of a broker that is kept: what comes to it is appended to its journal before anything that came of it is written, and is on the disk at most 10
/// milliseconds later, or at once where its store is so. At its own end all is on the disk. Refused with Unkept (141) where the disk failed. No contract says
/// what a disk does. Where there are holdings, no user of the door comes to hold more than its limits (`spk_quota`) by what is let through: a CONNECT that would
/// be more is answered with code 3, and any other packet closes its connection. Kept sessions end whose clients were away for too long, and of a user for whose
/// kept sessions more waits than may the one for which the most does; it is looked for these each ten seconds, and the log tells of each by a line
/// `ended CLIENT away` or `ended CLIENT full`.
pub fn serve_kept<R: Wait + Clock + Net, D: Disk, W: Write, L: Write>(
    rt: &R,
    alloc: Global,
    serving: &Serving,
    door: Option<&Door>,
    holdings: Option<Holdings>,
    kept: Option<Kept<D>>,
    writer: &mut W,
    log: &mut L,
) -> Result<u32, ServeFault>
    ensures ok { OnOk result (IsServing serving.now.clients) }
    ensures bad_plan { IfErr result (λ e. e ≡ ServeFault.BadPlan
        → ¬ (IsServing serving.now.clients)) }
{
    let clients = match count_of(serving.clients) {
        Ok(clients) => clients,
        Err(fault) => return Err(fault),
    };
    let address = SocketAddr::new(serving.bind, serving.port);
    let Ok(listener) = TcpListener::bind(rt, address) else {
        return Err(ServeFault::Device);
    };
    let Ok(poll) = Poll::new(rt) else {
        return Err(ServeFault::Device);
    };
    let page = match page_at(rt, alloc, &poll, serving.status) {
        Ok(page) => page,
        Err(fault) => return Err(fault),
    };
    let port = serving.port;
    if writeln!(writer, "listening {port}").is_err() || writer.flush().is_err() {
        return Err(ServeFault::Device);
    }
    serve_on(
        rt, alloc, poll, listener, page, door, holdings, clients, kept, log,
    )
}

/// `serve_at` 127.0.0.1 for so many clients, 1 to 1,000, without a status page and a log.
pub fn serve<R: Wait + Clock + Net, W: Write>(
    rt: &R,
    alloc: Global,
    port: u16,
    clients: usize,
    writer: &mut W,
) -> Result<u32, ServeFault>
    ensures ok { OnOk result (IsCount clients) }
    ensures bad_plan { IfErr result (λ e. e ≡ ServeFault.BadPlan → ¬ (IsCount clients)) }
{
    let serving = Serving {
        bind: IpAddr::V4(Ipv4Addr::LOCALHOST),
        port,
        clients: Some(clients),
        status: None,
    };
    serve_at(rt, alloc, &serving, None, writer, &mut sink())
}
