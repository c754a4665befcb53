//! A metric that is written from where its parts stand (Sparkplug 3.0.0, 6.4.6): no metric is made of them before.
ghost use Rattle.std.specs.Prelude.{◌≡◌, ◌+◌, ◌-◌, ◌^◌, ◌<◌, ◌≤◌, ◌++◌, length, min, Some, IfOk, IfSome, OnOk, option_copied};
ghost use Rattle.std.specs.Option.{option_map};
ghost use Rattle.std.specs.Str.{IsUtf8};
ghost use Rattle.spk_protobuf.specs.Spelling.{bytes_field, varint};
ghost use Rattle.spk_payload.specs.Meaning.{Other};
ghost use Rattle.spk_payload.specs.Spelling as payload;
ghost use Rattle.spk_packets.specs.Grammar.{largest};
ghost use Rattle.spk_edge.specs.History.{IsTried};
ghost use Rattle.spk_edge.specs.Rows.{row_said, spelled};
ghost use Rattle.spk_edge.specs.Saying.{null_said};

use crate::packet::{bytes_size, field_size, put_field, put_value, value_size};
use spk_payload::Raw;
use spk_protobuf::{put_bytes, put_varint, varint_size};
use std::alloc::AllocError;

/// What a metric says. Each has a time.
#[derive(Clone, Copy)]
pub(crate) struct Row<'a> {
    pub(crate) name: Option<&'a str>,
    pub(crate) alias: Option<u64>,
    pub(crate) time: u64,
    pub(crate) datatype: Option<u32>,
    pub(crate) historical: bool,
    pub(crate) null: bool,
    /// The value as it is written.
    pub(crate) value: &'a Option<Raw>,
}

// ---- fields that may be missing

fn put_text(out: &mut Vec<u8>, text: &str) -> Result<(), AllocError>
    ensures ok { OnOk result (out.new.items ≡ out.old.items ++ bytes_field 1 text.now) }
    ensures fits { IsUtf8 text.now × (length text.now < 2 ^ 64) }
{
    put_bytes(out, 1, text.as_bytes())
}

fn put_name(out: &mut Vec<u8>, name: Option<&str>) -> Result<(), AllocError>
    ensures ok { OnOk result (out.new.items
        ≡ out.old.items ++ payload.if_there (bytes_field 1) (option_copied name.entry)) }
    ensures fits { IfSome (option_copied name.entry)
        (λ bytes. IsUtf8 bytes × (length bytes < 2 ^ 64)) }
{
    match name {
        Some(name) => put_text(out, name),
        None => Ok(()),
    }
}

fn put_long(out: &mut Vec<u8>, tag: u64, number: Option<u64>) -> Result<(), AllocError>
    ensures ok { OnOk result
        (out.new.items ≡ out.old.items ++ payload.if_there (payload.number_field tag) number) }
    ensures fits { IfSome number (λ n. n < 2 ^ 64) }
{
    match number {
        Some(number) => put_field(out, tag, number),
        None => Ok(()),
    }
}

fn put_int(out: &mut Vec<u8>, tag: u64, number: Option<u32>) -> Result<(), AllocError>
    ensures ok { OnOk result
        (out.new.items ≡ out.old.items ++ payload.if_there (payload.number_field tag) number) }
    ensures fits { IfSome number (λ n. n < 2 ^ 32) }
{
    match number {
        Some(number) => put_field(out, tag, u64::from(number)),
        None => Ok(()),
    }
}

/// True is written, false isn't.
fn put_flag(out: &mut Vec<u8>, tag: u64, flag: bool) -> Result<(), AllocError>
    ensures { OnOk result (out.new.items ≡ out.old.items
        ++ payload.if_there (λ b. payload.number_field tag (payload.bit b)) (null_said flag)) }
{
    if flag {
        return put_field(out, tag, 1);
    }
    Ok(())
}

// ---- their sizes, or the greatest number where there are more bytes

fn name_size(name: Option<&str>) -> usize
    ensures { result ≡ min (length (payload.if_there (bytes_field 1) (option_copied name.entry)))
        (2 ^ 64 - 1) }
{
    match name {
        Some(name) => bytes_size(1, name.as_bytes()),
        None => 0,
    }
}

fn long_size(tag: u64, number: Option<u64>) -> usize
    ensures size { result ≡ length (payload.if_there (payload.number_field tag) number) }
    ensures small { result ≤ 20 }
{
    match number {
        Some(number) => field_size(tag, number),
        None => 0,
    }
}

fn int_size(tag: u64, number: Option<u32>) -> usize
    ensures size { result ≡ length (payload.if_there (payload.number_field tag) number) }
    ensures small { result ≤ 20 }
{
    match number {
        Some(number) => field_size(tag, u64::from(number)),
        None => 0,
    }
}

fn flag_size(tag: u64, flag: bool) -> usize
    ensures size { result ≡ length (payload.if_there
        (λ b. payload.number_field tag (payload.bit b)) (null_said flag)) }
    ensures small { result ≤ 20 }
{
    if flag { field_size(tag, 1) } else { 0 }
}

/// How many bytes a metric has as a field of its payload, where its fields have so many.
fn field_of(size: usize) -> usize
    ensures { result ≡ min (size + length (varint size) + 1) (2 ^ 64 - 1) }
{
    size.saturating_add(varint_size(size as u64) + 1)
}

impl<'a> Row<'a> {
    /// How many bytes its fields have, or the greatest number.
    #[tactic(auto, unfolding(spk_payload::specs::Spelling::metric_spelling))]
    fn size(&self) -> usize
        ensures { result
            ≡ min (length (payload.metric_spelling (row_said self.now))) (2 ^ 64 - 1) }
    {
        let numbers = long_size(2 * 8, self.alias) + field_size(3 * 8, self.time);
        let kind = int_size(4 * 8, self.datatype);
        let flags = flag_size(5 * 8, self.historical) + flag_size(7 * 8, self.null);
        let rest = value_size(self.value).saturating_add(numbers + kind + flags);
        name_size(self.name).saturating_add(rest)
    }

    /// Its fields, in ascending number.
    #[tactic(auto, unfolding(spk_payload::specs::Spelling::metric_spelling))]
    fn put_fields(&self, out: &mut Vec<u8>) -> Result<(), AllocError>
        requires { (row_said self.now).value ≡ Some Other → ⊥ }
        ensures ok { OnOk result
            (out.new.items ≡ out.old.items ++ payload.metric_spelling (row_said self.now)) }
        ensures fits { OnOk result (payload.MetricFits (row_said self.now)) }
    {
        put_name(out, self.name)?;
        put_long(out, 2 * 8, self.alias)?;
        put_field(out, 3 * 8, self.time)?;
        put_int(out, 4 * 8, self.datatype)?;
        put_flag(out, 5 * 8, self.historical)?;
        put_flag(out, 7 * 8, self.null)?;
        put_value(out, self.value)
    }

    /// The metric, as a field of its payload, where its fields have so many bytes.
    fn put_sized(&self, out: &mut Vec<u8>, size: usize) -> Result<(), AllocError>
        requires known { (row_said self.now).value ≡ Some Other → ⊥ }
        requires size { size
            ≡ min (length (payload.metric_spelling (row_said self.now))) (2 ^ 64 - 1) }
        ensures ok { OnOk result (out.new.items ≡ out.old.items ++ spelled (row_said self.now)) }
        ensures fits { OnOk result (payload.MetricFits (row_said self.now)) }
    {
        put_varint(out, 2 * 8 + 2)?;
        put_varint(out, size as u64)?;
        self.put_fields(out)
    }

    /// The metric, as a field of its payload.
    pub(crate) fn put(&self, out: &mut Vec<u8>) -> Result<(), AllocError>
        requires { (row_said self.now).value ≡ Some Other → ⊥ }
        ensures ok { OnOk result (out.new.items ≡ out.old.items ++ spelled (row_said self.now)) }
        ensures fits { OnOk result (payload.MetricFits (row_said self.now)) }
    {
        self.put_sized(out, self.size())
    }

    /// How many bytes it has as a field of its payload, or the greatest number.
    pub(crate) fn whole_size(&self) -> usize
        ensures { result ≡ min (length (spelled (row_said self.now))) (2 ^ 64 - 1) }
    {
        field_of(self.size())
    }

    /// The metric, as a field of its payload, where no more than so many bytes are there behind it; else nothing is put. The
    /// answer is whether it was.
    pub(crate) fn put_within(&self, out: &mut Vec<u8>, limit: usize) -> Result<bool, AllocError>
        requires known { (row_said self.now).value ≡ Some Other → ⊥ }
        requires small { limit ≤ largest }
        ensures { IfOk result (IsTried limit out.old.items out.new.items (row_said self.now)) }
    {
        let size = self.size();
        if out.len().saturating_add(field_of(size)) > limit {
            return Ok(false);
        }
        self.put_sized(out, size)?;
        Ok(true)
    }
}
