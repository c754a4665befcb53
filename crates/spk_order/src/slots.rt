//! One slot for each sequence number, for the payload of a held message.
ghost use Rattle.std.specs.Prelude.{◌≡◌, ℕ, ◌+◌, ◌-◌, ◌%◌, ◌<◌, ◌≤◌, ◌++◌, length, map, set, replicate, [], Some, None, is_some, IfOk, vec_len, vec_capacity, true, false};
ghost use Rattle.std.specs.List.{range_with_len};
ghost use Rattle.spk_sequence.specs.Step.{ahead};
ghost use Rattle.spk_order.specs.Ordered.{kept_at};
ghost use Rattle.spk_sequence.specs.declared.answer.Step.{Step};
ghost use Rattle.spk_order.specs.Step.{left_by, placed, consumed_with, HasRun, IsBeyond};

use spk_sequence::{Sequence, Step};
use std::alloc::{AllocError, Global};

/// 256 empty slots.
pub(crate) fn empty_slots<T: Drop>(alloc: Global) -> Result<Vec<Option<T>>, AllocError>
    ensures { IfOk result (λ v. v.items ≡ replicate 256 None) }
{
    let mut slots = Vec::with_capacity(alloc, 256)?;
    for _slot in 0..256u16 {
        slots.push_reserved(None);
    }
    Ok(slots)
}

/// Takes the payload of a number out of its slot.
fn take_one<T: Drop>(slots: &mut Vec<Option<T>>, number: u8) -> T
    requires sized { length slots.old.items ≡ 256 }
    requires full { is_some (kept_at slots.old.items number) ≡ true }
    ensures value { Some result ≡ kept_at slots.old.items number }
    ensures after { slots.new.items ≡ set slots.old.items number None }
{
    slots[usize::from(number)].take().unwrap()
}

/// Takes the payloads of the numbers after this one, so that with it there are `count` of them, and puts
/// them behind what is there.
fn take_run<T: Drop>(slots: &mut Vec<Option<T>>, number: u8, count: u8, consumed: &mut Vec<T>)
    requires sized { length slots.old.items ≡ 256 }
    requires full { (i : ℕ) → 0 < i → i < count
        → is_some (kept_at slots.old.items ((number + i) % 256)) ≡ true }
    requires room { vec_len consumed.old + count ≤ vec_capacity consumed.old + 1 }
    ensures taken { map Some consumed.new.items ≡ map Some consumed.old.items ++
        map (λ i. kept_at slots.old.items ((number + i) % 256)) (range_with_len 1 (count - 1)) }
    ensures sized { length slots.new.items ≡ 256 }
    ensures others { (x : ℕ) → x < 256 → (0 < ahead x number → count ≤ ahead x number)
        → kept_at slots.new.items x ≡ kept_at slots.old.items x }
{
    for distance in 1..count {
        consumed.push_reserved(take_one(slots, number.wrapping_add(distance)));
    }
}

/// Puts the payload of a message where its step says: out, with those that are consumed after it, or in
/// its slot. Where the message is neither consumed nor held, the payload is freed.
pub(crate) fn place<T: Drop>(
    slots: &mut Vec<Option<T>>,
    mut consumed: Vec<T>,
    number: u8,
    payload: T,
    step: Step,
) -> Vec<T>
    requires sized { length slots.old.items ≡ 256 }
    requires full { HasRun slots.old.items number step }
    requires empty { consumed.items ≡ [] }
    requires some_room { 0 < vec_capacity consumed }
    requires room { (n : ℕ) → step ≡ Step.Consumed n → n ≤ vec_capacity consumed }
    ensures consumed { map Some result.items ≡ consumed_with slots.old.items number payload step }
    ensures sized { length slots.new.items ≡ 256 }
    ensures others { (x : ℕ) → x < 256 → IsBeyond x number step
        → kept_at slots.new.items x ≡ kept_at (placed slots.old.items number payload step) x }
{
    if let Step::Consumed(count) = step {
        consumed.push_reserved(payload);
        take_run(slots, number, count, &mut consumed);
        return consumed;
    }
    if let Step::Held = step {
        slots[usize::from(number)] = Some(payload);
    }
    consumed
}

/// Frees the payloads of the messages that the order no longer holds.
fn free_dropped<T: Drop>(slots: &mut Vec<Option<T>>, sequence: &Sequence)
    requires { length slots.old.items ≡ 256 }
    ensures { slots.new.items ≡ left_by sequence.now slots.old.items }
{
    for number in 0..256u16 {
        if slots[usize::from(number)].is_some() && !sequence.is_held(number as u8) {
            slots[usize::from(number)] = None;
        }
    }
}

/// Frees the payloads of the messages that the order no longer holds, unless there are none.
pub(crate) fn settle<T: Drop>(slots: &mut Vec<Option<T>>, sequence: &Sequence, is_needed: bool)
    requires sized { length slots.old.items ≡ 256 }
    requires still { is_needed ≡ false → left_by sequence.now slots.old.items ≡ slots.old.items }
    ensures { slots.new.items ≡ left_by sequence.now slots.old.items }
{
    if is_needed {
        free_dropped(slots, sequence);
    }
}
