//! The command line of `sparkplug`: its commands, their words and what help says of them.
#![tactic(auto)]

use clap::{Arg, ArgAction, ArgGroup, Command, value_parser};
use std::alloc::{AllocError, Global};

const ABOUT: &str =
    "Sparkplug B over MQTT 3.1.1: reads payloads and packets, and runs a broker, edge nodes, hosts, worlds and plants";

const STATUSES: &str = "\
Status: 0 is done; 1 is a fault, printed as `fault NAME (number)`, or output that could not be written;
2 is a command line that isn't one. docs/FAULTS.md tells each fault by its number.";

const SHOW: &str = "\
Example:
  sparkplug show 0805120b0a05626453657120045800
prints
  timestamp 5 seq - metrics 1
  metric 0 name \"bdSeq\" alias - time - type 4 historical - transient - null - value 0

A field that isn't there is `-`. A value is what the metric's datatype makes of it; bytes are `hex:` and
digits. `other` is a data set, a template or an extension, whose values aren't read; and a float or a
double is, but with --values all, which prints these as decimals.
`mistyped` is a value that the datatype doesn't read. NDATA and DDATA carry no datatypes: they are in the
birth certificate. With its payload they are known, by a metric's alias or, without one, by its name:
  sparkplug show 080712061001180750081801 --birth 0806120b0a017410011806200350071800

Status: 0 is done; 1 is a fault, printed as `fault NAME (number)`, or output that could not be written;
2 is a command line that isn't one. docs/FAULTS.md tells each fault by its number.";

const PACKETS: &str = "\
Example:
  sparkplug packets c000e000
prints
  PINGREQ
  DISCONNECT

A packet identifier that isn't there is `-`. A message is `hex:` and digits. After a PUBLISH on a topic of
Sparkplug stand `sparkplug`, its kind and its names. What stands before a fault is printed first.

Status: 0 is done; 1 is a fault, printed as `fault NAME (number)`, or output that could not be written;
2 is a command line that isn't one. docs/FAULTS.md tells each fault by its number.";

const SERVE: &str = "\
Example, with mosquitto's clients in two more terminals:
  sparkplug serve --port 1883
  mosquitto_sub -p 1883 -t 'plant/#'
  mosquitto_pub -p 1883 -t plant/a -m 1
prints
  listening 1883
and mosquitto_sub prints 1.

It has no TLS. Anybody may connect, publish and subscribe, unless --users or --guard is said: with --users
FILE those alone come in whom a line of FILE names, with their password (`sparkplug passwd --help`), and do
what it lets them; with --guard each node speaks for itself. What a user may hold is bounded, too: kept
sessions, filters, retained messages and bytes, by default a tenth of what the broker holds; who goes beyond is
refused. docs/SERVE.md tells more.
What it holds is lost when it is ended, unless --store FOLDER is said: then retained messages and kept
sessions are in a file there before anything is answered, and the next start goes on with them. A kill costs
nothing that was answered; a power cut may cost its last 10 milliseconds, with --sync each nothing.
It ends by itself once that many clients have come and gone, and prints `served K`; with --stay it doesn't.

For each client whose connection is shut a line `closed N CAUSE` stands on standard error, at most ten in a
second, and then `K more closed`. CAUSE is `left`, `gone`, `silent`, `unreadable`, `refused`, `keep-alive`,
`taken-over`, `slow` or `memory`. With --status PORT its figures are told, too: clients, sessions, retained
messages, messages in and out, drops, waits, and closes by cause.
Standard error has to be read, or led to a file: where it is a pipe that is full, the broker waits.

Who publishes to a subscriber that reads too slowly is slowed, for less than 200 milliseconds at a time; a
subscriber that loses 128 messages of QoS 0, or one of QoS 1, is closed. docs/SECURITY.md tells more.

Status: 0 is done; 1 is a fault, printed as `fault NAME (number)`, or output that could not be written;
2 is a command line that isn't one. docs/FAULTS.md tells each fault by its number.";

const PASSWD: &str = "\
Example:
  printf secret | sparkplug passwd press --node plant/press --subscribe 'spBv1.0/plant/#' >> users
and then
  sparkplug serve --port 1883 --users users
The password is the first line of standard input, of 1 to 65,535 bytes, without its line feed. The line that is
printed has what PBKDF2 with HMAC-SHA-256 derives of it and of 16 random bytes, and not the password itself:
  {\"user\":\"press\",\"password\":{\"rounds\":1000,\"salt\":\"..\",\"key\":\"..\"},\"node\":\"plant/press\",
    \"subscribe\":[\"spBv1.0/plant/#\"]}
(one line). Who guesses at it pays the rounds for each guess, and so does the broker at each CONNECT. Without
--publish or --subscribe any topic will do there. Under `serve --guard` --node and --host say whose messages
are the user's own.

Status: 0 is done; 1 is a fault, printed as `fault NAME (number)`, or output that could not be written;
2 is a command line that isn't one. docs/FAULTS.md tells each fault by its number.";

const EDGE: &str = "\
Example, with a broker on port 1883 (`sparkplug serve --port 1883`):
  sparkplug edge examples/edges/pump.json --broker 127.0.0.1:1883 --record pump.record
The file is a node of a world's file. Each line of standard input tells of its values, and is published at once:
  {\"metric\":\"level\",\"value\":7}
  {\"device\":\"motor\",\"up\":true}
  [{\"device\":\"motor\",\"metric\":\"speed\",\"value\":1500},{\"metric\":\"level\",\"value\":8}]
A command that asks for a value to be written prints
  {\"write\":{\"device\":null,\"metric\":\"level\",\"value\":9}}

While there is no session values are kept, and sent as history once there is one. The record is what makes the
node go on behind a crash without saying a bdSeq or a time twice: one file for one node, and one process. With
--kept NAME its values and what isn't sent yet survive one, too. It ends once standard input is over and all is said.
docs/EDGE.md tells the rest.

Status: 0 is done; 1 is a fault, printed as `fault NAME (number)`, or changes that could not be said;
2 is a command line that isn't one. docs/FAULTS.md tells each fault by its number.";

const HOST: &str = "\
Example, with a broker on port 1883 (`sparkplug serve --port 1883`) and the edge node of `sparkplug edge --help`:
  sparkplug host --broker 127.0.0.1:1883 --group G --name H
prints a JSON line for each message that it consumes, its metrics called as the births call them
  {\"group\":\"G\",\"node\":\"pump\",\"device\":null,\"message\":\"NDATA\",\"seq\":1,\"time\":1764115205000,
    \"metrics\":[{\"metric\":\"level\",\"type\":3,\"value\":7}]}
(one line), and one for each change of how a node or a device stands, and of what that comes
  {\"group\":\"G\",\"node\":\"pump\",\"device\":null,\"state\":\"stale\",\"cause\":\"gap\",\"at\":1764115206000}
`state` is `current`, `stale` or `offline`, `cause` is `birth`, `gap`, `death` or `session`, which is the host's own, or,
with --silence, `silence` and `message`, which ends one.

With --watch it draws a board each second in place of the lines: how many nodes are current, then those that need a
look, since when and how many readings are missing, then the others, and what happened last. It has no colours where
standard output isn't a terminal or NO_COLOR is set.

With --page 8080 it serves a page of its nodes at http://127.0.0.1:8080, to browsers on this machine alone: what needs a
look and why, holes in the readings, each node's metrics, and what happened, as it happens. /view is the same as JSON,
/metrics for Prometheus, /text as text.

With --history plant each message that it consumes, and each birth, death, gap and hole, is kept in files plant.MOMENT
as well, which survive a crash up to the last second; docs/HISTORY.md tells how they are read.

What it consumes of a node is, birth by birth, a prefix of what the node published, each message once and in order;
behind a gap nothing until a newer birth, for which it asks. A broker that drops 256 messages, or nearly as many,
without a word is not found out: docs/BROKERS.md says which do. docs/HOST.md tells the rest.

Status: 0 is done; 1 is a fault, printed as `fault NAME (number)`, or output that could not be written;
2 is a command line that isn't one. docs/FAULTS.md tells each fault by its number.";

const HISTORY: &str = "\
Example, with what `sparkplug host --history plant` kept:
  sparkplug history plant.* --sqlite plant.db
  sparkplug history plant.* --csv level
  sparkplug history plant.* --holes
makes tables that sqlite3, Grafana and pandas read, prints each value of the metrics of that name, and when readings
were missing and how many. A torn end is cut, and told on standard error. docs/HISTORY.md tells the rest.

Status: 0 is done; 1 is a fault, printed as `fault NAME (number)`, or output that could not be written;
2 is a command line that isn't one. docs/FAULTS.md tells each fault by its number.";

const WORLD: &str = "\
Example:
  sparkplug world examples/worlds/loss.json
The file has edge nodes, hosts and events, as JSON; `t` is a metric of the datatype Int32 (3):
  {\"nodes\":[{\"group\":\"G\",\"node\":\"N\",\"primary\":null,\"capacity\":3,\"devices\":[],
    \"metrics\":[{\"device\":null,\"name\":\"t\",\"type\":3,\"value\":7}]}],
   \"hosts\":1,\"wait\":2000,\"events\":[[\"open\",0,5],[\"accepted\",0,6],[\"hand\",0,0,0,7]]}
prints
  open 0: +0
  accepted 0: +1
  hand 0 0 0: consumed 1
  host 0 node 0: 0+1

`+1` is how many messages the node published; what stands behind a `hand` is what became of the message of
that position. Last stand the positions that each host consumed of each node, birth by birth, as START+COUNT.

Events, with n a node, h a host and t a moment in milliseconds:
  [\"open\",n,t] [\"accepted\",n,t] [\"drain\",n,t] [\"stop\",n,t] [\"cut\",n] [\"set\",n,t,alias,value]
  [\"device\",n,t,name,up] [\"rebirth\",n,t] [\"state\",n,t,online,timestamp] [\"hand\",h,n,position,t]
  [\"death\",h,n,session,t] [\"tick\",h,t] [\"session\",h,t]
docs/WORLDS.md tells the rest.

Status: 0 is done; 1 is an event that was refused (`refused at I: NAME (number)`), a fault, printed as
`fault NAME (number)`, or output that could not be written; 2 is a command line that isn't one.
docs/FAULTS.md tells each fault by its number.";

const PLANT: &str = "\
Example:
  sparkplug plant examples/plants/two_nodes.json
The file has edge nodes with their scripts, as JSON; `x` is a metric of the datatype Int32 (3):
  {\"group\":\"G\",\"host\":\"H\",\"ring\":2048,\"ingress\":64,\"wait\":2000,\"nodes\":[
    {\"node\":\"A\",\"capacity\":1000,\"devices\":[],
     \"metrics\":[{\"device\":null,\"name\":\"x\",\"type\":3,\"value\":0}],
     \"script\":[[\"open\"],[\"born\"],[\"ramp\",1,300]]}]}
prints
  node A births 1 published 301 consumed 301
  host open 0

Each edge node, the broker and the host run on a thread of their own, over a channel to the broker and a ring from
it to each of them. `host cut R` says that the broker closed the host, since its ring was full too often; R is how
many sends to the host its ring refused.

Steps: [\"open\"] [\"born\"] [\"set\",alias,value] [\"ramp\",alias,n] [\"device\",name,up] [\"drain\"] [\"cut\"] [\"stop\"]
docs/PLANTS.md tells the rest. After each 100,000 frames and messages a line on standard error tells of them.

Status: 0 is done; 1 is a fault, printed as `fault NAME (number)`, or output that could not be written;
2 is a command line that isn't one. docs/FAULTS.md tells each fault by its number.";

/// A command that takes hexadecimal digits, as a word or in a file.
fn on_digits<'a>(alloc: Global, name: &'a str, digits: &'a str) -> Result<Command<'a>, AllocError> {
    let command = Command::new(alloc, name);
    let hex = Arg::new(alloc, "hex")
        .value_name("HEX")
        .help(digits)
        .action(ArgAction::Set);
    let command = command.arg(hex)?;
    let file = Arg::new(alloc, "file")
        .long("file")
        .value_name("NAME")
        .help(
            "Reads HEX from a file of at most 1,048,576 bytes; white space at its end is passed over",
        )
        .action(ArgAction::Set);
    let command = command.arg(file)?;
    // one of both, and not both
    let either = ArgGroup::new(alloc, "digits")
        .arg("hex")?
        .arg("file")?
        .required(true);
    command.group(either)
}

fn show<'a>(alloc: Global) -> Result<Command<'a>, AllocError> {
    let digits = "The payload's bytes in hexadecimal, of either case";
    let command = on_digits(alloc, "show", digits)?;
    let birth = Arg::new(alloc, "birth")
        .long("birth")
        .value_name("HEX")
        .help(
            "Reads the values by the datatypes of this birth's payload, as a host application does",
        )
        .action(ArgAction::Set);
    let command = command.arg(birth)?;
    let file = Arg::new(alloc, "birth-file")
        .long("birth-file")
        .value_name("NAME")
        .help("Reads that HEX from a file")
        .conflicts_with("birth")?
        .action(ArgAction::Set);
    let command = command.arg(file)?;
    let values = Arg::new(alloc, "values")
        .long("values")
        .value_name("WHICH")
        .help(
            "Which values are read: whole numbers, truth values, texts and bytes alone, or all, floats and doubles as well",
        )
        .value_parser(["whole", "all"].as_slice())
        .default_value("whole")
        .action(ArgAction::Set);
    let command = command.arg(values)?;
    Ok(
        command
            .about("Prints a payload and its metrics")
            .after_help(SHOW),
    )
}

fn packets<'a>(alloc: Global) -> Result<Command<'a>, AllocError> {
    let digits = "The packets' bytes in hexadecimal, of either case";
    let command = on_digits(alloc, "packets", digits)?;
    Ok(
        command
            .about("Prints MQTT packets, a line for each")
            .after_help(PACKETS),
    )
}

/// The words of a door in front of a broker.
fn with_door<'a>(alloc: Global, command: Command<'a>) -> Result<Command<'a>, AllocError> {
    let users = Arg::new(alloc, "users")
        .long("users")
        .value_name("FILE")
        .help(
            "Lets in who is named in this file, with a password; `sparkplug passwd` makes its lines",
        )
        .action(ArgAction::Set);
    let command = command.arg(users)?;
    let days = Arg::new(alloc, "session-days")
        .long("session-days")
        .value_name("N")
        .help(
            "Ends a user's kept session whose client has been away for so many days, 1 to 36500; 30 where nothing is said",
        )
        .value_parser(value_parser!(u16).range(1..=36500))
        .requires_arg("users")?
        .action(ArgAction::Set);
    let command = command.arg(days)?;
    let guard = Arg::new(alloc, "guard")
        .long("guard")
        .help(
            "Lets a node's messages be published by that node alone, STATE by that host, commands by hosts",
        )
        .action(ArgAction::SetTrue);
    command.arg(guard)
}

/// The words of what of a broker survives its end.
fn with_store<'a>(alloc: Global, command: Command<'a>) -> Result<Command<'a>, AllocError> {
    let store = Arg::new(alloc, "store")
        .long("store")
        .value_name("FOLDER")
        .help(
            "Keeps retained messages and kept sessions in this folder, over the end of the process",
        )
        .action(ArgAction::Set);
    let command = command.arg(store)?;
    let sync = Arg::new(alloc, "sync")
        .long("sync")
        .value_name("WHEN")
        .help("each: nothing is answered before it is on the disk; else it is 10 milliseconds late")
        .value_parser(["each"].as_slice())
        .requires_arg("store")?
        .action(ArgAction::Set);
    command.arg(sync)
}

fn serve<'a>(alloc: Global) -> Result<Command<'a>, AllocError> {
    let command = Command::new(alloc, "serve");
    let port = Arg::new(alloc, "port")
        .long("port")
        .value_name("N")
        .help("The port that it listens on, 1 to 65535")
        .required(true)
        .value_parser(value_parser!(u16).range(1..=65535))
        .action(ArgAction::Set);
    let command = command.arg(port)?;
    let clients = Arg::new(alloc, "clients")
        .long("clients")
        .value_name("K")
        .help("How many clients it serves before it ends, 1 to 1000; not beside --stay")
        .default_value("1000")
        .value_parser(value_parser!(u16).range(1..=1000))
        .conflicts_with("stay")?
        .action(ArgAction::Set);
    let command = command.arg(clients)?;
    let stay = Arg::new(alloc, "stay")
        .long("stay")
        .help("Serves for ever, 1000 clients at once at most; a signal ends it")
        .action(ArgAction::SetTrue);
    let command = command.arg(stay)?;
    let bind = Arg::new(alloc, "bind")
        .long("bind")
        .value_name("ADDRESS")
        .help("The IP address that it listens on")
        .default_value("127.0.0.1")
        .action(ArgAction::Set);
    let command = command.arg(bind)?;
    let status = Arg::new(alloc, "status")
        .long("status")
        .value_name("PORT")
        .help("Tells its figures at http://127.0.0.1:PORT/metrics, as Prometheus reads them")
        .value_parser(value_parser!(u16).range(1..=65535))
        .action(ArgAction::Set);
    let command = command.arg(status)?;
    let command = with_store(alloc, command)?;
    Ok(
        with_door(alloc, command)?
            .about("Runs an MQTT 3.1.1 broker (QoS 0 and 1)")
            .after_help(SERVE),
    )
}

/// A word of `passwd` that names filters.
fn filters<'a>(alloc: Global, word: &'a str, help: &'a str) -> Arg<'a> {
    Arg::new(alloc, word)
        .long(word)
        .value_name("FILTER")
        .help(help)
        .action(ArgAction::Append)
}

/// The words of what a user may do.
fn with_rights<'a>(alloc: Global, command: Command<'a>) -> Result<Command<'a>, AllocError> {
    let node = Arg::new(alloc, "node")
        .long("node")
        .value_name("GROUP/NODE")
        .help("The edge node that it is")
        .action(ArgAction::Set);
    let command = command.arg(node)?;
    let host = Arg::new(alloc, "host")
        .long("host")
        .value_name("H")
        .help("The host application that it is")
        .action(ArgAction::Set);
    let command = command.arg(host)?;
    let help =
        "A filter of topics on which it may publish; several may be given; any topic where none is";
    let command = command.arg(filters(alloc, "publish", help))?;
    let help =
        "A filter that it may subscribe to, or to a part of it; several may be given; any where none is";
    command.arg(filters(alloc, "subscribe", help))
}

fn passwd<'a>(alloc: Global) -> Result<Command<'a>, AllocError> {
    let name = Arg::new(alloc, "name")
        .value_name("NAME")
        .help("The user's name: 1 to 256 bytes, without `:` and control characters")
        .required(true)
        .action(ArgAction::Set);
    let command = Command::new(alloc, "passwd").arg(name)?;
    let rounds = Arg::new(alloc, "rounds")
        .long("rounds")
        .value_name("N")
        .help("In how many rounds the key is derived, 1 to 1000000")
        .default_value("1000")
        .value_parser(value_parser!(u32).range(1..=1_000_000))
        .action(ArgAction::Set);
    let command = command.arg(rounds)?;
    Ok(
        with_rights(alloc, command)?
            .about("Makes a line of a users' file, of a password in standard input")
            .after_help(PASSWD),
    )
}

/// The words of a client of a broker: where brokers are, how often it is heard of, and its user name and password.
fn with_broker<'a>(alloc: Global, command: Command<'a>) -> Result<Command<'a>, AllocError> {
    let broker = Arg::new(alloc, "broker")
        .long("broker")
        .value_name("HOST:PORT")
        .help("A broker; several are tried in turn")
        .required(true)
        .action(ArgAction::Append);
    let command = command.arg(broker)?;
    let keep = Arg::new(alloc, "keep-alive")
        .long("keep-alive")
        .value_name("SECONDS")
        .help("The keep alive of its connection, 0 to 65535; 0 is none")
        .default_value("30")
        .value_parser(value_parser!(u16))
        .action(ArgAction::Set);
    let command = command.arg(keep)?;
    let user = Arg::new(alloc, "user")
        .long("user")
        .value_name("NAME")
        .help("The user name that it says")
        .action(ArgAction::Set);
    let command = command.arg(user)?;
    let password = Arg::new(alloc, "password-file")
        .long("password-file")
        .value_name("NAME")
        .help("Reads the password from a file; white space at its end is passed over")
        .requires_arg("user")?
        .action(ArgAction::Set);
    command.arg(password)
}

fn edge<'a>(alloc: Global) -> Result<Command<'a>, AllocError> {
    let command = Command::new(alloc, "edge");
    let file = Arg::new(alloc, "file")
        .value_name("FILE")
        .help("The edge node, as JSON of at most 1,048,576 bytes")
        .required(true)
        .action(ArgAction::Set);
    let command = command.arg(file)?;
    let record = Arg::new(alloc, "record")
        .long("record")
        .value_name("NAME")
        .help("The file of its record: made where there is none")
        .required(true)
        .action(ArgAction::Set);
    let command = command.arg(record)?;
    let kept = Arg::new(alloc, "kept")
        .long("kept")
        .value_name("NAME")
        .help(
            "The file in which values, devices and kept changes survive: made where there is none",
        )
        .action(ArgAction::Set);
    let command = command.arg(kept)?;
    Ok(
        with_broker(alloc, command)?
            .about("Runs an edge node over any MQTT 3.1.1 broker, with values from standard input")
            .after_help(EDGE),
    )
}

/// The words of a history.
fn with_history<'a>(alloc: Global, command: Command<'a>) -> Result<Command<'a>, AllocError> {
    let history = Arg::new(alloc, "history")
        .long("history")
        .value_name("NAME")
        .help(
            "Keeps what it consumes in files NAME.MOMENT, a new one for each run and each full one; in NAME.G.MOMENT where there are several groups",
        )
        .action(ArgAction::Set);
    let command = command.arg(history)?;
    let size = Arg::new(alloc, "history-size")
        .long("history-size")
        .value_name("MIB")
        .help("How many MiB such a file has at most, 1 to 4096; 64 where nothing is said")
        .value_parser(value_parser!(u16).range(1..=4096))
        .requires_arg("history")?
        .action(ArgAction::Set);
    command.arg(size)
}

fn host<'a>(alloc: Global) -> Result<Command<'a>, AllocError> {
    let command = Command::new(alloc, "host");
    let group = Arg::new(alloc, "group")
        .long("group")
        .value_name("G")
        .help(
            "The group whose nodes it follows; several are followed at once, each over a connection of its own",
        )
        .required(true)
        .action(ArgAction::Append);
    let command = command.arg(group)?;
    let name = Arg::new(alloc, "name")
        .long("name")
        .value_name("H")
        .help(
            "Its name: its STATE is published under it, and it is its client identifier; one for each group, in their order",
        )
        .required(true)
        .action(ArgAction::Append);
    let command = command.arg(name)?;
    let wait = Arg::new(alloc, "wait")
        .long("wait")
        .value_name("MILLISECONDS")
        .help("How long a message waits for one before it, and a rebirth request for the next")
        .default_value("2000")
        .value_parser(value_parser!(u64))
        .action(ArgAction::Set);
    let command = command.arg(wait)?;
    let width = Arg::new(alloc, "width")
        .long("width")
        .value_name("N")
        .help("How many sequence numbers, from the next one on, it takes, 1 to 96")
        .default_value("1")
        .value_parser(value_parser!(u8).range(1..=96))
        .action(ArgAction::Set);
    let command = command.arg(width)?;
    let count = Arg::new(alloc, "count")
        .long("count")
        .value_name("N")
        .help("Ends once it has consumed so many messages")
        .value_parser(value_parser!(u64).range(1..))
        .action(ArgAction::Set);
    let command = command.arg(count)?;
    let silence = Arg::new(alloc, "silence")
        .long("silence")
        .value_name("SECONDS")
        .help("Tells a node's values to be stale once nothing of it came for so long")
        .value_parser(value_parser!(u32).range(1..))
        .action(ArgAction::Set);
    let command = command.arg(silence)?;
    let ask = Arg::new(alloc, "ask")
        .long("ask")
        .value_name("NODE")
        .help(
            "Asks this node of the group for a rebirth at the start of each session; several are asked in turn; G/NODE where there are several groups",
        )
        .action(ArgAction::Append);
    let command = command.arg(ask)?;
    let watch = Arg::new(alloc, "watch")
        .long("watch")
        .help("Draws a board of the nodes each second, in place of the lines")
        .action(ArgAction::SetTrue);
    let command = command.arg(watch)?;
    let page = Arg::new(alloc, "page")
        .long("page")
        .value_name("PORT")
        .help("Serves a page of the nodes at this port of 127.0.0.1, and figures at /metrics")
        .value_parser(value_parser!(u16).range(1..))
        .action(ArgAction::Set);
    let command = command.arg(page)?;
    let command = with_history(alloc, command)?;
    Ok(
        with_broker(alloc, command)?
            .about(
                "Runs a host application over any MQTT 3.1.1 broker, and prints what it consumes",
            )
            .after_help(HOST),
    )
}

/// What is made of a history.
fn with_forms<'a>(alloc: Global, command: Command<'a>) -> Result<Command<'a>, AllocError> {
    let tables = Arg::new(alloc, "sqlite")
        .long("sqlite")
        .value_name("OUT")
        .help("Makes tables in a new file for SQLite, in place of a summary")
        .action(ArgAction::Set);
    let command = command.arg(tables)?;
    let csv = Arg::new(alloc, "csv")
        .long("csv")
        .value_name("METRIC")
        .help("Prints the values of the metrics of this name, as CSV")
        .conflicts_with("sqlite")?
        .action(ArgAction::Set);
    let command = command.arg(csv)?;
    let holes = Arg::new(alloc, "holes")
        .long("holes")
        .help("Prints the holes in the readings, as CSV")
        .conflicts_with("sqlite")?
        .conflicts_with("csv")?
        .action(ArgAction::SetTrue);
    command.arg(holes)
}

fn history<'a>(alloc: Global) -> Result<Command<'a>, AllocError> {
    let files = Arg::new(alloc, "files")
        .value_name("FILE")
        .help("The files of `host --history`, oldest first, as the shell lists NAME.*")
        .required(true)
        .num_args(1..)
        .action(ArgAction::Append);
    let command = Command::new(alloc, "history").arg(files)?;
    let command = with_forms(alloc, command)?;
    let from = Arg::new(alloc, "from")
        .long("from")
        .value_name("MOMENT")
        .help("Passes over what was before, in milliseconds since 1970")
        .default_value("0")
        .value_parser(value_parser!(u64))
        .action(ArgAction::Set);
    let command = command.arg(from)?;
    let to = Arg::new(alloc, "to")
        .long("to")
        .value_name("MOMENT")
        .help("Passes over what was at this moment and behind it")
        .value_parser(value_parser!(u64))
        .action(ArgAction::Set);
    let command = command.arg(to)?;
    Ok(
        command
            .about("Reads the history of a host: tables for SQLite, values, holes or a summary")
            .after_help(HISTORY),
    )
}

fn world<'a>(alloc: Global) -> Result<Command<'a>, AllocError> {
    let file = Arg::new(alloc, "file")
        .value_name("FILE")
        .help("The world: edge nodes, hosts and events, as JSON of at most 1,048,576 bytes")
        .required(true)
        .action(ArgAction::Set);
    let command = Command::new(alloc, "world").arg(file)?;
    Ok(
        command
            .about("Does the events of a world of edge nodes and hosts, a line for each")
            .after_help(WORLD),
    )
}

fn plant<'a>(alloc: Global) -> Result<Command<'a>, AllocError> {
    let file = Arg::new(alloc, "file")
        .value_name("FILE")
        .help("The plan: edge nodes with their scripts, as JSON of at most 1,048,576 bytes")
        .required(true)
        .action(ArgAction::Set);
    let command = Command::new(alloc, "plant").arg(file)?;
    Ok(
        command
            .about("Runs a plant of edge nodes, a broker and a host on threads, a line for each")
            .after_help(PLANT),
    )
}

/// The commands that there are.
pub fn command_line<'a>(alloc: Global) -> Result<Command<'a>, AllocError> {
    let command = Command::new(alloc, "sparkplug")
        .about(ABOUT)
        .version("0.3.0")
        .after_help(STATUSES)
        .subcommand_required(true)
        .arg_required_else_help(true);
    let command = command.subcommand(show(alloc)?)?;
    let command = command.subcommand(packets(alloc)?)?;
    let command = command.subcommand(world(alloc)?)?;
    let command = command.subcommand(plant(alloc)?)?;
    let command = command.subcommand(serve(alloc)?)?;
    let command = command.subcommand(passwd(alloc)?)?;
    let command = command.subcommand(edge(alloc)?)?;
    let command = command.subcommand(host(alloc)?)?;
    command.subcommand(history(alloc)?)
}
