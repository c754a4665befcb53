//! What a case says: members of an object of JSON.

use serde_json::Value as Json;
use std::alloc::{AllocError, Global};

/// What stands before and behind the files of the cases that follow.
#[derive(Drop)]
pub(crate) struct Around {
    front: String,
    back: String,
}

impl Around {
    pub(crate) fn new(alloc: Global) -> Around {
        Around {
            front: String::new(alloc),
            back: String::new(alloc),
        }
    }

    /// What stands there from here on.
    pub(crate) fn set(&mut self, alloc: Global, case: &Json) -> Result<(), AllocError> {
        self.front = String::from_str(alloc, text_of(case, "front").unwrap_or(""))?;
        self.back = String::from_str(alloc, text_of(case, "back").unwrap_or(""))?;
        Ok(())
    }

    /// The file of a case, if it has one: a text, or pieces with how often each comes.
    pub(crate) fn file_of(&self, alloc: Global, case: &Json) -> Result<Option<String>, AllocError> {
        let Some(file) = case.get("file") else {
            return Ok(None);
        };
        let mut text = String::from_str(alloc, self.front.as_str())?;
        add(&mut text, file)?;
        text.push_str(self.back.as_str())?;
        Ok(Some(text))
    }
}

/// What a case may say.
const KNOWN: [&str; 15] = [
    "run",
    "file",
    "front",
    "back",
    "out",
    "has",
    "notes",
    "bad plan",
    "any notes",
    "end",
    "room",
    "reads",
    "plant",
    "password",
    "salts",
];

/// Whether a case says nothing else.
pub(crate) fn is_known(case: &Json) -> bool {
    let Some(members) = case.as_object() else {
        return false;
    };
    for name in members.keys() {
        if !KNOWN.iter().any(|known| *known == name.as_str()) {
            return false;
        }
    }
    true
}

/// Whether a case has this member.
pub(crate) fn has(case: &Json, name: &'static str) -> bool {
    case.get(name).is_some()
}

/// A member that is a text.
pub(crate) fn text_of<'a>(case: &'a Json, name: &'static str) -> Option<&'a str> {
    case.get(name).and_then(Json::as_str)
}

/// A member that is a number.
pub(crate) fn number_of(case: &Json, name: &'static str) -> Option<u64> {
    case.get(name).and_then(Json::as_u64)
}

/// Puts a piece behind a text as often as it comes.
fn add_piece(text: &mut String, piece: &Json) -> Result<(), AllocError> {
    let part = piece.get(0usize).and_then(Json::as_str).unwrap_or("");
    let times = piece.get(1usize).and_then(Json::as_u64).unwrap_or(0);
    for _ in 0..times {
        text.push_str(part)?;
    }
    Ok(())
}

/// Puts a file's text or its pieces behind a text.
fn add(text: &mut String, file: &Json) -> Result<(), AllocError> {
    if let Some(whole) = file.as_str() {
        text.push_str(whole)?;
        return Ok(());
    }
    if let Some(pieces) = file.as_array() {
        for piece in pieces {
            add_piece(text, piece)?;
        }
    }
    Ok(())
}

/// The words of a run, the program's own name first.
pub(crate) fn words_of<'a>(alloc: Global, case: &'a Json) -> Result<Vec<&'a str>, AllocError> {
    let mut words = Vec::new(alloc);
    words.push("sparkplug")?;
    if let Some(given) = case.get("run").and_then(Json::as_array) {
        for word in given {
            words.push(word.as_str().unwrap_or(""))?;
        }
    }
    Ok(words)
}
