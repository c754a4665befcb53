//! The command `history`: what is to be made of the files of a host's history, from words.

use clap::ArgMatches;
use std::alloc::{AllocError, Global};

/// What is to be made of a history.
#[derive(Debug, Drop)]
pub enum HistoryForm {
    /// A summary is printed.
    Summary,
    /// The values of the metrics of this name are printed, as CSV.
    Csv(String),
    /// The holes are printed, as CSV.
    Holes,
    /// Tables are made in a new file of this name.
    Tables(String),
}

/// A history that is to be read: its files, oldest first, what is to be made of it, and of which moments, in milliseconds since 1970: from the first on, and
/// before the second, if there is one.
#[derive(Debug, Drop)]
pub struct HistoryPlan {
    pub parts: Vec<String>,
    pub form: HistoryForm,
    pub from: u64,
    pub to: Option<u64>,
}

/// What is to be made of it.
fn form_of(alloc: Global, given: &ArgMatches<'_>) -> Result<HistoryForm, AllocError> {
    if let Some(name) = given.get_str("sqlite") {
        return Ok(HistoryForm::Tables(String::from_str(alloc, name)?));
    }
    if let Some(metric) = given.get_str("csv") {
        return Ok(HistoryForm::Csv(String::from_str(alloc, metric)?));
    }
    if given.get_flag("holes") {
        return Ok(HistoryForm::Holes);
    }
    Ok(HistoryForm::Summary)
}

/// What `history` is to do.
pub(crate) fn history_plan(
    alloc: Global,
    given: &ArgMatches<'_>,
) -> Result<HistoryPlan, AllocError> {
    let form = form_of(alloc, given)?;
    let mut parts = Vec::new(alloc);
    for name in given.get_strs("files").unwrap_or(&[]) {
        parts.push(String::from_str(alloc, name)?)?;
    }
    Ok(HistoryPlan {
        parts,
        form,
        from: given.get_one::<u64>("from").unwrap_or(0),
        to: given.get_one::<u64>("to"),
    })
}
