//! A value of a file, with its place.
ghost use Rattle.std.specs.Prelude.{◌≤◌, IfOk, length};

use crate::misfit::{Cause, Misfit, Place};
use serde_json::Value as Json;
use std::alloc::Global;

/// A value of a file, with its place.
#[derive(Clone, Copy)]
pub(crate) struct Part<'a> {
    pub(crate) place: Place,
    pub(crate) json: &'a Json,
}

impl<'a> Part<'a> {
    /// A file's value.
    pub(crate) fn file(json: &'a Json) -> Part<'a> {
        Part {
            place: Place::FILE,
            json,
        }
    }

    /// It is wrong for this cause.
    pub(crate) fn wrong(self, cause: Cause) -> Misfit {
        Misfit::Wrong(self.place, cause)
    }

    /// Refuses what isn't an object, and an object with other members than these.
    pub(crate) fn only(self, alloc: Global, names: &[&'static str]) -> Result<(), Misfit> {
        let Some(members) = self.json.as_object() else {
            return Err(self.wrong(Cause::Not("an object")));
        };
        for name in members.keys() {
            if !names.iter().any(|known| *known == name.as_str()) {
                let name = String::from_str(alloc, name.as_str())?;
                return Err(self.wrong(Cause::Unknown(name)));
            }
        }
        Ok(())
    }

    /// The member of this name, where there is one.
    pub(crate) fn find(self, name: &'static str) -> Option<Part<'a>> {
        let json = self.json.get(name)?;
        Some(Part {
            place: self.place.member(name),
            json,
        })
    }

    /// The member of this name.
    pub(crate) fn member(self, name: &'static str) -> Result<Part<'a>, Misfit> {
        let place = self.place.member(name);
        self.find(name).ok_or(Misfit::Wrong(place, Cause::Missing))
    }

    /// The items of an array of at most so many.
    pub(crate) fn items(self, most: usize) -> Result<&'a [Json], Misfit>
        ensures { IfOk result (λ items. length items.now ≤ most) }
    {
        let Some(items) = self.json.as_array() else {
            return Err(self.wrong(Cause::Not("an array")));
        };
        if items.len() > most {
            return Err(self.wrong(Cause::More(most)));
        }
        Ok(items.as_slice())
    }

    /// An item of an array, by its number from 0.
    pub(crate) fn item(self, index: usize) -> Result<Part<'a>, Misfit> {
        let place = self.place.item(index);
        match self.json.get(index) {
            Some(json) => Ok(Part { place, json }),
            None => Err(Misfit::Wrong(place, Cause::Missing)),
        }
    }

    /// A text.
    pub(crate) fn text(self) -> Result<&'a str, Misfit> {
        self.json.as_str().ok_or(self.wrong(Cause::Not("a text")))
    }

    /// A text of its own.
    pub(crate) fn owned_text(self, alloc: Global) -> Result<String, Misfit> {
        Ok(String::from_str(alloc, self.text()?)?)
    }

    /// A whole number from the first to the second.
    pub(crate) fn number(self, least: u64, most: u64) -> Result<u64, Misfit>
        ensures least { IfOk result (λ number. least ≤ number) }
        ensures most { IfOk result (λ number. number ≤ most) }
    {
        match self.json.as_u64() {
            Some(number) if least <= number && number <= most => Ok(number),
            _ => Err(self.wrong(Cause::Outside(least, most))),
        }
    }

    /// Any number of 64 bits, as a moment.
    pub(crate) fn any_number(self) -> Result<u64, Misfit> {
        self.number(0, u64::MAX)
    }

    /// True or false.
    pub(crate) fn flag(self) -> Result<bool, Misfit> {
        self.json
            .as_bool()
            .ok_or(self.wrong(Cause::Not("true or false")))
    }
}
