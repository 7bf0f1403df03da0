//! Maps by name, and by life.
ghost use Rattle.std.specs.Prelude.{◌≡◌, ◌+◌, ◌-◌, ℕ, List, OnOk, OnErr, Some, None, is_some, length, bytes_eq, if◌then◌else◌};
ghost use Rattle.tab_policy.specs.Entries.{at_name, at_life, changed_at, changed_at_life, same_life};

use crate::name_key::NameKey;
use std::alloc::AllocError;
use std::collections::BTreeMap;
use tab_key::Name;

// Puts the value under the name, in place of what stands there. An error leaves the map as it was.
pub fn put<V: Drop>(
    map: &mut BTreeMap<NameKey, V>,
    name: NameKey,
    value: V,
) -> Result<(), AllocError>
    ensures ok { OnOk result ((q : List ℕ) → at_name q map.new.entries ≡ (if bytes_eq name q then Some value else at_name q map.old.entries)) }
    ensures err { OnErr result (map.new.entries ≡ map.old.entries) }
{
    map.insert(name, value)?;
    Ok(())
}

// Takes away what stands under the name.
pub fn take_away<V: Drop>(map: &mut BTreeMap<NameKey, V>, name: &Name)
    ensures { (q : List ℕ) → at_name q map.new.entries ≡ (if bytes_eq name.now q then None else at_name q map.old.entries) }
{
    let _ = map.remove(name);
}

// Puts the value under the life, in place of what stands there. An error leaves the map as it was.
pub fn put_at<V: Drop>(map: &mut BTreeMap<u64, V>, life: u64, value: V) -> Result<(), AllocError>
    ensures ok { OnOk result ((l : ℕ) → at_life l map.new.entries ≡ (if same_life life l then Some value else at_life l map.old.entries)) }
    ensures err { OnErr result (map.new.entries ≡ map.old.entries) }
{
    map.insert(life, value)?;
    Ok(())
}

// Takes away what stands under the life.
pub fn take_away_at<V: Drop>(map: &mut BTreeMap<u64, V>, life: u64)
    ensures { (l : ℕ) → at_life l map.new.entries ≡ (if same_life life l then None else at_life l map.old.entries) }
{
    let _ = map.remove(&life);
}

// Puts the value in place of what stands under the life, if anything does. It takes no memory.
pub fn replace_at<V: Drop>(map: &mut BTreeMap<u64, V>, life: u64, value: V)
    ensures { (l : ℕ) → at_life l map.new.entries ≡ changed_at_life life (λ _. value) map.old.entries l }
{
    if let Some(held) = map.get_mut(&life) {
        *held = value;
    }
}
