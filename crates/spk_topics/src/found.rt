//! The greatest QoS of each key, gathered grant by grant.
ghost use Rattle.std.specs.Prelude.{◌≡◌, ℕ, IfOk, IfErr, OnOk, Some, cond, max, unwrap_or};
ghost use Rattle.std.specs.Ordering.{nat_cmp, is_eq};
ghost use Rattle.std.specs.BTreeMap.{get, IsOrdered};
ghost use Rattle.spk_topics.specs.Found.{Gathers};

use crate::fault::TopicFault;
use std::alloc::Global;
use std::collections::BTreeMap;

/// The QoS that a key has at least.
fn raise(found: &mut BTreeMap<u64, u8>, key: u64, qos: u8) -> Result<(), TopicFault>
    ensures ok { OnOk result
        ((j : ℕ)
        → get nat_cmp found.new j
        ≡ cond (is_eq (nat_cmp key j)) (Some (max (unwrap_or (get nat_cmp found.old j) 0) qos))
        (get nat_cmp found.old j)) }
    ensures fault { IfErr result (λ e. e ≡ TopicFault.NoMemory) }
{
    let old = found.get(&key).copied().unwrap_or(0);
    match found.insert(key, old.max(qos)) {
        Ok(_) => Ok(()),
        Err(_) => Err(TopicFault::NoMemory),
    }
}

/// Gathers the grants of one filter.
pub(crate) fn gather(
    found: &mut BTreeMap<u64, u8>,
    grants: &BTreeMap<u64, u8>,
) -> Result<(), TopicFault>
    ensures ok { OnOk result
        (Gathers (get nat_cmp found.old) (get nat_cmp found.new) (get nat_cmp grants.now)) }
    ensures fault { IfErr result (λ e. e ≡ TopicFault.NoMemory) }
{
    if found.is_empty() {
        *found = grants.clone()?;
        return Ok(());
    }
    for (key, qos) in grants.iter() {
        raise(found, *key, *qos)?;
    }
    Ok(())
}

/// The keys in ascending order, each with its QoS.
pub(crate) fn listed(alloc: Global, found: &BTreeMap<u64, u8>) -> Result<Vec<(u64, u8)>, TopicFault>
    ensures ok { IfOk result (λ list. list.items ≡ found.now.entries) }
    ensures ordered { OnOk result (IsOrdered nat_cmp found.now) }
    ensures fault { IfErr result (λ e. e ≡ TopicFault.NoMemory) }
{
    let mut list = Vec::with_capacity(alloc, found.len())?;
    for (key, qos) in found.iter() {
        list.push((*key, *qos))?;
    }
    Ok(list)
}
