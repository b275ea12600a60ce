//! Keys that others make live while a collection runs.
ghost use Rattle.std.specs.Prelude.{◌≡◌, ◌⊎◌, ◌↔◌, ◌++◌, ℕ, List, [], ◌∷◌, Contains, OnOk, OnErr, IfOk, IfErr};
ghost use Rattle.container_meta.specs.declared.place.Place.{Place as PlaceValue};
ghost use Rattle.gc_enumerate.specs.Live.{IsLiveAt};
ghost use Rattle.refusals.specs.declared.refusal.Refusal.TheVariants.{Memory};
ghost use Rattle.gc_steps.specs.Fresh.{AreFresh, HasMarked, IsAsLive, Unmarks};
ghost use Rattle.gc_steps.specs.Roots.{Marks};

use crate::collection::Collection;
use crate::starting::{any_place, mark_key};
use container_meta::Key;
use gc_enumerate::Live;
use refusals::Refusal;
use std::alloc::{AllocError, Global};

// Makes a key live. Where it was not, it is one more of the fresh ones; where memory runs out it may be one of them and not live.
fn mark_one(live: &mut Live, key: &Key, fresh: &mut Vec<Key>) -> Result<(), AllocError>
    ensures ok { OnOk result (Marks (λ k. k ≡ key.now) live.old live.new) }
    ensures fresh { OnOk result ((place : PlaceValue) →
        (IsLiveAt live.old key.now place × (fresh.new.items ≡ fresh.old.items))
        ⊎ ((IsLiveAt live.old key.now place → ⊥) × (fresh.new.items ≡ fresh.old.items ++ key.now ∷ []))) }
    ensures err { OnErr result (live.new ≡ live.old) }
    ensures some { OnErr result ((place : PlaceValue) →
        (fresh.new.items ≡ fresh.old.items)
        ⊎ ((IsLiveAt live.old key.now place → ⊥) × (fresh.new.items ≡ fresh.old.items ++ key.now ∷ []))) }
{
    if live.is_live(key, &any_place()) {
        return Ok(());
    }
    fresh.push(*key)?;
    mark_key(live, key)
}

// Makes these keys live, and lists those that were not. Where memory runs out some of them may be live, and just those are that
// are listed.
fn mark_new(live: &mut Live, keys: &[Key], fresh: &mut Vec<Key>) -> Result<(), AllocError>
    requires { fresh.old.items ≡ [] }
    ensures ok { OnOk result (Marks (Contains keys.now) live.old live.new) }
    ensures fresh { OnOk result (AreFresh keys.now live.old fresh.new.items) }
    ensures some { HasMarked fresh.new.items live.old live.new }
{
    for key in keys {
        mark_one(live, key, fresh)?;
    }
    Ok(())
}

// Takes the marks of these keys away.
fn unmark_keys(live: &mut Live, keys: &[Key])
    ensures { Unmarks keys.now live.old live.new }
{
    for key in keys {
        live.unmark(key, &any_place());
    }
}

/// Makes these keys live, and gives those that were not. The one refusal is `Memory`, and then each key is as live as before.
pub fn mark_fresh(
    alloc: Global,
    collection: &mut Collection,
    keys: &[Key],
) -> Result<Vec<Key>, Refusal>
    ensures ok { OnOk result (Marks (Contains keys.now) collection.old.live collection.new.live) }
    ensures fresh { IfOk result (λ fresh. AreFresh keys.now collection.old.live fresh.items) }
    ensures kept { OnErr result (IsAsLive collection.old.live collection.new.live) }
    ensures others { collection.new ≡ record collection.old { live = collection.new.live } }
    ensures refused { IfErr result (λ refusal. refusal ≡ Memory) }
{
    let mut fresh = Vec::new(alloc);
    match mark_new(&mut collection.live, keys, &mut fresh) {
        Ok(()) => Ok(fresh),
        Err(_) => {
            unmark_keys(&mut collection.live, &fresh);
            Err(Refusal::Memory)
        }
    }
}

/// Takes the marks of these keys away. It takes no memory.
pub fn unmark(collection: &mut Collection, keys: &[Key])
    ensures unmarks { Unmarks keys.now collection.old.live collection.new.live }
    ensures others { collection.new ≡ record collection.old { live = collection.new.live } }
{
    unmark_keys(&mut collection.live, keys)
}
