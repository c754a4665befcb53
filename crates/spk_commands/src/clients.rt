//! The commands `edge` and `host`: what they are to run, from words and files.

use crate::fault::{Fault, Stop};
use crate::files::{Files, text_of};
use clap::ArgMatches;
use spk_device::Registry;
use spk_files::{Misfit, edge_of};
use spk_host_session::HostConfig;
use spk_program_plans::{EdgePlan, GroupPlan, HostPlan, Words};
use spk_sequence::Width;
use std::alloc::{AllocError, Global};
use std::io::Write;

/// What is said of a width that is none, like what clap says of other words that it refuses.
const NO_WIDTH: &str = "error: --width takes 1 to 96\n\nFor more information, try '--help'.\n";

/// The same of names that aren't one for each group, of a group or a name that comes twice, and of a node whose group isn't said, or isn't followed.
const NO_PAIRS: &str =
    "error: --name is to be given once for each --group, in their order\n\nFor more information, try '--help'.\n";

const TWICE: &str =
    "error: each --group and each --name may be given once alone\n\nFor more information, try '--help'.\n";

const NO_GROUP: &str =
    "error: --ask takes a node of the group, or GROUP/NODE with a group that is followed\n\nFor more information, try '--help'.\n";

/// A text of its own.
pub(crate) fn owned(
    alloc: Global,
    given: &ArgMatches<'_>,
    name: &str,
) -> Result<String, AllocError> {
    String::from_str(alloc, given.get_str(name).unwrap_or(""))
}

/// What a word that may come more than once was given, in order.
pub(crate) fn all_of(
    alloc: Global,
    given: &ArgMatches<'_>,
    word: &str,
) -> Result<Vec<String>, AllocError> {
    let mut all = Vec::new(alloc);
    for text in given.get_strs(word).unwrap_or(&[]) {
        all.push(String::from_str(alloc, text)?)?;
    }
    Ok(all)
}

/// The password, where a file has one, without the white space at its end.
fn password_of<F: Files>(
    alloc: Global,
    given: &ArgMatches<'_>,
    files: &mut F,
) -> Result<Option<Vec<u8>>, Stop> {
    let Some(name) = given.get_str("password-file") else {
        return Ok(None);
    };
    let text = text_of(alloc, files, name)?;
    let text = String::from_str(alloc, text.as_str().trim_end())?;
    Ok(Some(text.into_bytes()))
}

/// The user name and the password, where there are some.
fn login_of<F: Files>(
    alloc: Global,
    given: &ArgMatches<'_>,
    files: &mut F,
) -> Result<Option<Words>, Stop> {
    if given.get_str("user").is_none() {
        return Ok(None);
    }
    let user = owned(alloc, given, "user")?;
    let password = password_of(alloc, given, files)?;
    Ok(Some(Words { user, password }))
}

/// A node's file is judged: what is wrong with it, and where, is noted.
fn judge_file<N: Write>(alloc: Global, text: &str, keep: u16, notes: &mut N) -> Result<(), Stop> {
    match edge_of(alloc, text, keep) {
        Ok(_setup) => Ok(()),
        Err(Misfit::NoMemory) => Err(Stop::no_memory()),
        Err(Misfit::Wrong(place, cause)) => {
            let _ = writeln!(notes, "sparkplug: BadPlan: {place} {cause}");
            Err(Stop::Fault(Fault::BadPlan))
        }
    }
}

/// The registry of a file that was judged.
fn registry_of(alloc: Global, text: &str, keep: u16) -> Result<Registry, AllocError> {
    match edge_of(alloc, text, keep) {
        Ok((_config, registry)) => Ok(registry),
        Err(_) => Err(AllocError),
    }
}

/// The name of the file in which values survive, and the node's registry once more, where there is one.
fn kept_of(
    alloc: Global,
    given: &ArgMatches<'_>,
    text: &str,
    keep: u16,
) -> Result<Option<(String, Registry)>, AllocError> {
    let Some(name) = given.get_str("kept") else {
        return Ok(None);
    };
    let name = String::from_str(alloc, name)?;
    match registry_of(alloc, text, keep) {
        Ok(base) => Ok(Some((name, base))),
        Err(refused) => Err(refused),
    }
}

/// What the words of `edge` say.
#[derive(Drop)]
struct EdgeWords {
    brokers: Vec<String>,
    login: Option<Words>,
    record: String,
}

/// What the words of `edge` say, and the password's file.
fn edge_words<F: Files>(
    alloc: Global,
    given: &ArgMatches<'_>,
    files: &mut F,
) -> Result<EdgeWords, Stop> {
    Ok(EdgeWords {
        brokers: all_of(alloc, given, "broker")?,
        login: login_of(alloc, given, files)?,
        record: owned(alloc, given, "record")?,
    })
}

/// The plan of these words, and of a file that was judged. Each value is dear to hold where one may leave, so those that hold much come last.
fn plan_of(
    alloc: Global,
    text: &str,
    keep: u16,
    words: EdgeWords,
    kept: Option<(String, Registry)>,
) -> Result<EdgePlan, AllocError> {
    let names = registry_of(alloc, text, keep)?;
    match edge_of(alloc, text, keep) {
        Ok((config, registry)) => {
            let EdgeWords {
                brokers,
                login,
                record,
            } = words;
            Ok(EdgePlan {
                config,
                registry,
                names,
                brokers,
                login,
                record,
                kept,
            })
        }
        Err(_) => Err(AllocError),
    }
}

/// What `edge` is to run. What is wrong with its file, and where, is noted.
pub(crate) fn edge_plan<F: Files, N: Write>(
    alloc: Global,
    given: &ArgMatches<'_>,
    text: &str,
    files: &mut F,
    notes: &mut N,
) -> Result<EdgePlan, Stop> {
    let keep = given.get_one::<u16>("keep-alive").unwrap_or(30);
    judge_file(alloc, text, keep, notes)?;
    let words = edge_words(alloc, given, files)?;
    let kept = kept_of(alloc, given, text, keep)?;
    Ok(plan_of(alloc, text, keep, words, kept)?)
}

/// For how many milliseconds a node may be silent, where that is said.
fn silence_of(given: &ArgMatches<'_>) -> Option<u64> {
    let seconds = given.get_one::<u32>("silence")?;
    Some(u64::from(seconds).saturating_mul(1_000))
}

/// The name of the history, and how many bytes a part of it has at most, where one is to be kept.
fn history_of(
    alloc: Global,
    given: &ArgMatches<'_>,
) -> Result<Option<(String, usize)>, AllocError> {
    let Some(name) = given.get_str("history") else {
        return Ok(None);
    };
    let name = String::from_str(alloc, name)?;
    let size = given.get_one::<u16>("history-size").unwrap_or(64);
    Ok(Some((name, usize::from(size).saturating_mul(1_048_576))))
}

/// Words are refused: this is said of them.
fn refused(alloc: Global, text: &str) -> Stop {
    match String::from_str(alloc, text) {
        Ok(text) => Stop::Words(text, 2),
        Err(_) => Stop::no_memory(),
    }
}

/// Whether some text comes twice.
fn comes_twice(texts: &[String]) -> bool {
    for (place, text) in texts.iter().enumerate() {
        for other in texts.iter().skip(place.saturating_add(1)) {
            if other.as_str() == text.as_str() {
                return true;
            }
        }
    }
    false
}

/// The group that a node to be asked is said to be of, if it is said, and the node. No name has `/`.
fn parts_of(ask: &str) -> (Option<&str>, &str) {
    match ask.split_once('/') {
        Some((group, node)) => (Some(group), node),
        None => (None, ask),
    }
}

/// Whether a node to be asked is one of this group. One whose group isn't said is of the only one.
fn is_of(ask: &str, group: &str, is_alone: bool) -> bool {
    match parts_of(ask) {
        (Some(said), _) => said == group,
        (None, _) => is_alone,
    }
}

/// Whether each node to be asked is of one of these groups.
fn are_followed(asks: &[String], groups: &[String]) -> bool {
    for ask in asks {
        let is_followed = groups.iter().any(|group| is_of(
            ask.as_str(),
            group.as_str(),
            groups.len() == 1,
        ));
        if !is_followed {
            return false;
        }
    }
    true
}

/// The nodes of a group that are to be asked.
fn asks_of(
    alloc: Global,
    asks: &[String],
    group: &str,
    is_alone: bool,
) -> Result<Vec<String>, AllocError> {
    let mut nodes = Vec::new(alloc);
    for ask in asks {
        if is_of(ask.as_str(), group, is_alone) {
            let (_group, node) = parts_of(ask.as_str());
            nodes.push(String::from_str(alloc, node)?)?;
        }
    }
    Ok(nodes)
}

/// Why these groups, names and nodes can't be followed, if they can't.
fn misfit_of(groups: &[String], names: &[String], asks: &[String]) -> Option<&'static str> {
    if names.len() != groups.len() {
        Some(NO_PAIRS)
    } else if comes_twice(groups) || comes_twice(names) {
        Some(TWICE)
    } else if !are_followed(asks, groups) {
        Some(NO_GROUP)
    } else {
        None
    }
}

/// The host of a group.
fn group_plan(
    alloc: Global,
    given: &ArgMatches<'_>,
    width: Width,
    group: &str,
    name: &str,
    asks: Vec<String>,
) -> Result<GroupPlan, AllocError> {
    let config = HostConfig {
        name: String::from_str(alloc, name)?,
        group: String::from_str(alloc, group)?,
        wait: given.get_one::<u64>("wait").unwrap_or(2_000),
        keep: given.get_one::<u16>("keep-alive").unwrap_or(30),
        width,
    };
    Ok(GroupPlan { config, asks })
}

/// The hosts of these groups, of these names, which stand in their order.
fn plans_of(
    alloc: Global,
    given: &ArgMatches<'_>,
    width: Width,
    groups: &[String],
    names: &[String],
    asks: &[String],
) -> Result<Vec<GroupPlan>, AllocError> {
    let mut plans = Vec::new(alloc);
    for (place, group) in groups.iter().enumerate() {
        let name = match names.get(place) {
            Some(name) => name.as_str(),
            None => "",
        };
        let group = group.as_str();
        let asks = asks_of(alloc, asks, group, groups.len() == 1)?;
        plans.push(group_plan(alloc, given, width, group, name, asks)?)?;
    }
    Ok(plans)
}

/// The groups that are to be followed, each with its host.
fn groups_of(alloc: Global, given: &ArgMatches<'_>, width: Width) -> Result<Vec<GroupPlan>, Stop> {
    let groups = all_of(alloc, given, "group")?;
    let names = all_of(alloc, given, "name")?;
    let asks = all_of(alloc, given, "ask")?;
    let (groups, names, asks) = (groups.as_slice(), names.as_slice(), asks.as_slice());
    match misfit_of(groups, names, asks) {
        Some(text) => Err(refused(alloc, text)),
        None => Ok(plans_of(alloc, given, width, groups, names, asks)?),
    }
}

/// What `host` is to run.
pub(crate) fn host_plan<F: Files>(
    alloc: Global,
    given: &ArgMatches<'_>,
    files: &mut F,
) -> Result<HostPlan, Stop> {
    let places = given.get_one::<u8>("width").unwrap_or(1);
    let Some(width) = Width::new(places) else {
        return Err(refused(alloc, NO_WIDTH));
    };
    Ok(HostPlan {
        groups: groups_of(alloc, given, width)?,
        brokers: all_of(alloc, given, "broker")?,
        login: login_of(alloc, given, files)?,
        count: given.get_one::<u64>("count"),
        silence: silence_of(given),
        watch: given.get_flag("watch"),
        page: given.get_one::<u16>("page"),
        history: history_of(alloc, given)?,
    })
}
