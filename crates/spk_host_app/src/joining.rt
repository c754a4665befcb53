//! What the host answers, as words to be printed and as bytes to be sent.
ghost use Rattle.std.specs.Prelude.{◌≡◌, ◌++◌, map, IfOk, OnOk};
ghost use Rattle.spk_topics.specs.Spark.{named};
ghost use Rattle.spk_reading.specs.View.{heard_view, numbered_view};
ghost use Rattle.spk_host.specs.View.{out_view};
ghost use Rattle.spk_host_app.specs.Data as plain;
ghost use Rattle.spk_host_app.specs.Step.{first_of_heard, join, lost_at, lost_by, lost_word, out_words};
ghost use Rattle.spk_host_app.specs.View.{word};

use crate::said::Said;
use spk_host::{Entry, Host, Out, Taken};
use spk_reading::{Content, Heard};
use spk_sequence::{Loss, Step};
use spk_topics::Spark;
use std::alloc::{AllocError, Global};

/// These packets, one after the other.
pub(crate) fn joined(alloc: Global, packets: Vec<Vec<u8>>) -> Result<Vec<u8>, AllocError>
    ensures { IfOk result (λ v. v.items ≡ join (map (λ b. b.items) packets.items)) }
{
    let mut bytes = Vec::new(alloc);
    for packet in packets {
        bytes.extend_from_slice(packet.as_slice())?;
    }
    Ok(bytes)
}

/// What is said of a packet before what the host answers.
fn first_words(alloc: Global, heard: &Heard) -> Result<Vec<Said>, AllocError>
    ensures { IfOk result (λ v. map word v.items ≡ first_of_heard (heard_view heard.now)) }
{
    let mut words = Vec::new(alloc);
    match heard {
        Heard::Published {
            content: Content::Death { group, node, .. },
            ..
        } => words.push(Said::Death {
            group: String::from_str(alloc, group.as_str())?,
            node: String::from_str(alloc, node.as_str())?,
        })?,
        Heard::Answered(code) if *code != 0 => words.push(Said::TurnedAway(*code))?,
        Heard::Granted => words.push(Said::Granted)?,
        _ => {}
    }
    Ok(words)
}

/// What is lost of a node is said, behind other words.
fn say_loss(
    alloc: Global,
    words: &mut Vec<Said>,
    group: &str,
    node: &str,
    loss: Loss,
) -> Result<(), AllocError>
    ensures { OnOk result (map word words.new.items
        ≡ map word words.old.items ++ lost_word group.now node.now loss) }
{
    if loss.held > 0 {
        words.push(Said::Lost {
            group: String::from_str(alloc, group)?,
            node: String::from_str(alloc, node)?,
            loss,
        })?;
    }
    Ok(())
}

/// What a packet loses is said, behind other words.
fn say_lost(
    alloc: Global,
    words: &mut Vec<Said>,
    host: &Host,
    heard: &Heard,
    now: u64,
) -> Result<(), AllocError>
    ensures { OnOk result (map word words.new.items
        ≡ map word words.old.items ++ lost_by host.now.nodes (heard_view heard.now) now) }
{
    let loss = host.loss_at(heard, now);
    match heard {
        Heard::Published {
            content: Content::Message(message),
            ..
        } => {
            say_loss(
                alloc,
                words,
                message.group.as_str(),
                message.node.as_str(),
                loss,
            )
        }
        Heard::Published {
            content: Content::Death { group, node, .. },
            ..
        } => say_loss(alloc, words, group.as_str(), node.as_str(), loss),
        _ => Ok(()),
    }
}

/// What is said of a packet, and what it loses, before what the host answers.
pub(crate) fn words_before(
    alloc: Global,
    host: &Host,
    heard: &Heard,
    now: u64,
) -> Result<Vec<Said>, AllocError>
    ensures { IfOk result (λ v. map word v.items
        ≡ first_of_heard (heard_view heard.now)
        ++ lost_by host.now.nodes (heard_view heard.now) now) }
{
    let mut words = first_words(alloc, heard)?;
    say_lost(alloc, &mut words, host, heard, now)?;
    Ok(words)
}

/// What these nodes lose at a moment is said.
pub(crate) fn lost_words(alloc: Global, nodes: &[Entry], now: u64) -> Result<Vec<Said>, AllocError>
    ensures { IfOk result (λ v. map word v.items ≡ lost_at now nodes.now) }
{
    let mut words = Vec::new(alloc);
    for entry in nodes {
        let loss = entry.kept().loss_at_tick(now);
        say_loss(alloc, &mut words, entry.group(), entry.node(), loss)?;
    }
    Ok(words)
}

/// The messages that were consumed are said, behind other words.
fn say_consumed(words: &mut Vec<Said>, consumed: Vec<Taken>) -> Result<(), AllocError>
    ensures { OnOk result (map word words.new.items
        ≡ map word words.old.items ++ map plain.Consumed (map numbered_view consumed.items)) }
{
    for message in consumed {
        words.push(Said::Consumed(message))?;
    }
    Ok(())
}

/// What became of messages is said, behind other words.
fn say_steps(words: &mut Vec<Said>, steps: Vec<Step>) -> Result<(), AllocError>
    ensures { OnOk result (map word words.new.items
        ≡ map word words.old.items ++ map plain.Became steps.items) }
{
    for step in steps {
        words.push(Said::Step(step))?;
    }
    Ok(())
}

/// The requests are said, behind other words.
fn say_asked(words: &mut Vec<Said>, topics: Vec<Spark>) -> Result<(), AllocError>
    ensures { OnOk result (map word words.new.items
        ≡ map word words.old.items ++ map plain.Asked (map named topics.items)) }
{
    for topic in topics {
        words.push(Said::Asked(topic))?;
    }
    Ok(())
}

/// What the host answered is said behind other words, and its packets are joined.
pub(crate) fn answers(alloc: Global, words: &mut Vec<Said>, out: Out) -> Result<Vec<u8>, AllocError>
    ensures words { OnOk result (map word words.new.items
        ≡ map word words.old.items ++ out_words (out_view out)) }
    ensures bytes { IfOk result (λ v. v.items ≡ join (out_view out).packets) }
{
    say_consumed(words, out.consumed)?;
    say_steps(words, out.steps)?;
    say_asked(words, out.rebirths)?;
    joined(alloc, out.packets)
}
