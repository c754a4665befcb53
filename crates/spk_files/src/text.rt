//! A file's text, as JSON.

use crate::misfit::Misfit;
use crate::twice::{is_each_once, refuse_twice};
use serde_json::Value as Json;
use std::alloc::Global;

/// The value that a text says. Refused where an object of it has two members of one name.
pub(crate) fn json_of(alloc: Global, text: &str) -> Result<Json, Misfit> {
    let json = match Json::from_str(alloc, text) {
        Ok(json) => json,
        Err(error) => return Err(Misfit::of_json(&error)),
    };
    if !is_each_once(text, &json) {
        refuse_twice(alloc, text)?;
    }
    Ok(json)
}
