//! Members of one name in one object of a JSON text: its value shows the later one alone.
ghost use Rattle.std.specs.Prelude.{◌≡◌, count_by, nat_eq};

use crate::misfit::{Cause, Misfit, Place};
use json::{Reader, Scratch, Token};
use serde_json::Value as Json;
use std::alloc::Global;
use std::collections::BTreeSet;

/// How deep values lie in a file, as `nodes[0].metrics[1].value.hex` does, the file's own object with them.
const LEVELS: u8 = 6;

/// How many colons a text has.
fn colons(text: &str) -> usize
    ensures { result ≡ count_by (λ b. nat_eq b 58) text.now }
{
    text.bytes().filter(|byte| *byte == b':').count()
}

/// How many members the objects of a value have, those of its parts with them. What lies deeper than so many levels isn't counted.
fn members_in(json: &Json, levels: u8) -> usize {
    if levels == 0 {
        return 0;
    }
    let mut count = 0usize;
    match json {
        Json::Object(members) => {
            count = members.len();
            for member in members.values() {
                count = count.saturating_add(members_in(member, levels - 1));
            }
        }
        Json::Array(items) => {
            for item in items {
                count = count.saturating_add(members_in(item, levels - 1));
            }
        }
        _ => {}
    }
    count
}

/// Whether it is plain that no object of this text, which says this value, has two members of one name: each colon stands behind a
/// member's name, and the value has as many members. False says nothing: a text in it may have a colon, or a part lies deep.
pub(crate) fn is_each_once(text: &str, json: &Json) -> bool {
    colons(text) == members_in(json, LEVELS)
}

/// Refuses a JSON text in which an object has two members of one name.
pub(crate) fn refuse_twice(alloc: Global, text: &str) -> Result<(), Misfit> {
    let mut scratch = Scratch::new(alloc);
    let mut reader = Reader::new(text, &mut scratch)?;
    let mut open: Vec<BTreeSet<String>> = Vec::new(alloc);
    // no token is shorter than a byte
    for _token in 0..text.len() {
        match reader.next() {
            None => break,
            Some(Token::BeginObject) => open.push(BTreeSet::new(alloc))?,
            Some(Token::EndObject) => drop(open.pop()),
            Some(Token::Key(name)) => {
                if let Some(names) = open.last_mut() {
                    note_name(alloc, names, name)?;
                }
            }
            Some(_) => {}
        }
    }
    Ok(())
}

/// Adds a name to those of an object, and refuses one that is there.
fn note_name(alloc: Global, names: &mut BTreeSet<String>, name: &str) -> Result<(), Misfit> {
    if names.contains(name) {
        let name = String::from_str(alloc, name)?;
        return Err(Misfit::Wrong(Place::FILE, Cause::Twice(name)));
    }
    names.insert(String::from_str(alloc, name)?)?;
    Ok(())
}
