//! The topic filters of sessions (section 3.8).
ghost use Rattle.std.specs.Prelude.{◌≡◌, ◌+◌, ◌++◌, ◌≤◌, ◌&&◌, ℕ, IfOk, OnOk, OnErr, [], count_by, length, map, not, take, vec_capacity, vec_len, if◌then◌else◌};
ghost use Rattle.std.specs.List.{filter, fold, list_any};
ghost use Rattle.std.specs.Str.{bytes_eq};
ghost use Rattle.spk_quota.specs.Held.{is_filter_by};
ghost use Rattle.spk_quota.specs.Names.{AreKnown, has as has_name};
ghost use Rattle.spk_quota.specs.Step.{is_filter, is_it, with_filter};

use crate::names::{Names, filters_of, names_of};
use std::alloc::{AllocError, Global};
use std::marker::Model;

/// A topic filter of a session.
#[derive(Debug, Drop)]
pub(crate) struct Filter {
    user: usize,
    client: String,
    filter: String,
}

impl Model for Filter {
    ghost use Rattle.std.specs.Prelude.{string_bytes};
    ghost use Rattle.spk_quota.specs.Data.{FilterData};

    ghost Value = { FilterData };

    ghost view = { λ f. record { user = f.user; client = string_bytes f.client; filter = string_bytes f.filter } };
}

impl Filter {
    /// A filter of this session.
    fn new(alloc: Global, user: usize, client: &str, filter: &str) -> Result<Filter, AllocError>
        ensures { IfOk result (λ f. f ≡ record { user = user; client = client.now; filter = filter.now }) }
    {
        Ok(Filter {
            user,
            client: String::from_str(alloc, client)?,
            filter: String::from_str(alloc, filter)?,
        })
    }

    /// Whether it is this user's.
    fn is_by(&self, user: usize) -> bool
        ensures { result ≡ is_filter_by user self.now }
    {
        self.user == user
    }

    /// The filter.
    pub(crate) fn text(&self) -> &str
        ensures { result.now ≡ self.now.filter }
    {
        self.filter.as_str()
    }

    /// Whether it is of this session.
    pub(crate) fn is_of(&self, user: usize, client: &str) -> bool
        ensures { result ≡ is_filter user client.now self.now }
    {
        self.user == user && self.client.as_str() == client
    }

    /// Whether it is this filter of this session.
    fn is(&self, user: usize, client: &str, filter: &str) -> bool
        ensures { result ≡ is_it user client.now filter.now self.now }
    {
        self.is_of(user, client) && self.filter.as_str() == filter
    }
}

/// How many a user has.
pub(crate) fn count(filters: &[Filter], user: usize) -> u64
    ensures { result ≡ count_by (is_filter_by user) filters.now }
{
    filters.iter().filter(|f| f.is_by(user)).count() as u64
}

/// How many a user has, but for those of this session.
pub(crate) fn count_others(filters: &[Filter], user: usize, client: &str) -> u64
    ensures { result ≡ count_by (is_filter_by user) (filter (λ f. not (is_filter user client.now f)) filters.now) }
{
    filters
        .iter()
        .filter(|f| !f.is_of(user, client))
        .filter(|f| f.is_by(user))
        .count() as u64
}

/// Whether a session has a filter.
fn has(filters: &[Filter], user: usize, client: &str, filter: &str) -> bool
    ensures { result ≡ list_any (is_it user client.now filter.now) filters.now }
{
    filters.iter().any(|f| f.is(user, client, filter))
}

/// A session has no filters any more.
pub(crate) fn remove(filters: &mut Vec<Filter>, user: usize, client: &str)
    ensures items { filters.new.items ≡ filter (λ f. not (is_filter user client.now f)) filters.old.items }
    ensures len { vec_len filters.new ≤ vec_len filters.old }
    ensures capacity { vec_capacity filters.new ≡ vec_capacity filters.old }
{
    filters.retain(|f| !f.is_of(user, client));
}

/// A session has these filters no more. Refused where memory was, and then nothing changes.
pub(crate) fn remove_some(
    alloc: Global,
    filters: &mut Vec<Filter>,
    user: usize,
    client: &str,
    texts: &[&str],
) -> Result<(), AllocError>
    ensures ok { OnOk result (filters.new.items ≡ filter (λ f. not (is_filter user client.now f
        && list_any (λ n. bytes_eq n f.filter) (map (λ n. n.now) texts.now))) filters.old.items) }
    ensures err { OnErr result (filters.new.items ≡ filters.old.items) }
{
    let names = names_of(alloc, texts)?;
    remove_named(filters, user, client, &names);
    Ok(())
}

/// A session has these filters no more.
fn remove_named(filters: &mut Vec<Filter>, user: usize, client: &str, names: &Names<'_>)
    ensures { filters.new.items ≡ filter (λ f. not (is_filter user client.now f
        && has_name names.now f.filter)) filters.old.items }
{
    filters.retain(|f| !(f.is_of(user, client) && names.has(f.text())));
}

/// A session has one filter more, if it hasn't it already.
fn put(
    alloc: Global,
    filters: &mut Vec<Filter>,
    user: usize,
    client: &str,
    filter: &str,
) -> Result<(), AllocError>
    ensures ok { OnOk result (filters.new.items ≡ with_filter user client.now filters.old.items filter.now) }
    ensures err { OnErr result (filters.new.items ≡ filters.old.items) }
{
    if has(filters, user, client, filter) {
        return Ok(());
    }
    filters.push(Filter::new(alloc, user, client, filter)?)?;
    Ok(())
}

/// These filters of a session, each once.
pub(crate) fn each_once(
    alloc: Global,
    user: usize,
    client: &str,
    names: &[&str],
) -> Result<Vec<Filter>, AllocError>
    ensures { IfOk result (λ v. v.items ≡ fold (with_filter user client.now) [] (map (λ n. n.now) names.now)) }
{
    let mut filters = Vec::new(alloc);
    for name in names {
        put(alloc, &mut filters, user, client, name)?;
    }
    Ok(filters)
}

/// One text more, which is known or a filter that a session hasn't.
fn add<'t>(
    alloc: Global,
    filters: &[Filter],
    own: &Names<'_>,
    named: &mut Names<'t>,
    more: &mut Vec<Filter>,
    user: usize,
    client: &str,
    text: &'t str,
) -> Result<(), AllocError>
    requires { AreKnown user client.now own.now named.old (filters.now ++ more.old.items) }
    ensures whole { OnOk result (filters.now ++ more.new.items
        ≡ with_filter user client.now (filters.now ++ more.old.items) text.now) }
    ensures known { OnOk result
        (AreKnown user client.now own.now named.new (filters.now ++ more.new.items)) }
    ensures whose { OnOk result (count_by (is_filter_by user) more.old.items ≡ length more.old.items
        → count_by (is_filter_by user) more.new.items ≡ length more.new.items) }
{
    if own.has(text) || named.has(text) {
        return Ok(());
    }
    named.note(text)?;
    more.push(Filter::new(alloc, user, client, text)?)?;
    Ok(())
}

/// The filters among these that a session hasn't, each once, in order.
pub(crate) fn missing(
    alloc: Global,
    filters: &[Filter],
    user: usize,
    client: &str,
    texts: &[&str],
) -> Result<Vec<Filter>, AllocError>
    ensures whole { IfOk result (λ v. filters.now ++ v.items
        ≡ fold (with_filter user client.now) filters.now (map (λ n. n.now) texts.now)) }
    ensures whose { IfOk result (λ v. count_by (is_filter_by user) v.items ≡ length v.items) }
{
    let own = filters_of(alloc, filters, user, client)?;
    let mut named = Names::new(alloc);
    let mut more = Vec::new(alloc);
    for text in texts {
        add(
            alloc, filters, &own, &mut named, &mut more, user, client, text,
        )?;
    }
    Ok(more)
}

/// So many filters more.
pub(crate) fn append(filters: &mut Vec<Filter>, more: Vec<Filter>) -> Result<(), AllocError>
    ensures ok { OnOk result (filters.new.items ≡ filters.old.items ++ more.items) }
    ensures err { OnErr result (filters.new.items ≡ filters.old.items) }
{
    let mut more = more;
    filters.append(&mut more)?;
    Ok(())
}

/// The filters of this session are these.
pub(crate) fn renew(filters: &mut Vec<Filter>, user: usize, client: &str, own: Vec<Filter>)
    requires { vec_len filters.old + vec_len own ≤ vec_capacity filters.old }
    ensures { filters.new.items ≡ filter (λ f. not (is_filter user client.now f)) filters.old.items ++ own.items }
{
    remove(filters, user, client);
    let mut own = own;
    let _ = filters.append(&mut own);
}
