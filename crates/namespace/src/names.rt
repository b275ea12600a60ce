//! The names of a store.

ghost use Rattle.std.specs.Prelude.{◌≡◌, ◌⊎◌, ℕ, List, IfOk, IfErr, OnOk, OnErr, IsTrue, IsSome, None, not, map};
ghost use Rattle.std.specs.FinMap as finite;
ghost use Rattle.std.specs.List.Sorted.{IsPermutation};
ghost use Rattle.disk_format.specs.Cells.{RecordValue, IsName};
ghost use Rattle.namespace.specs.Names.{HasRoom, IsFull, IsTaken, IsRefused, IsPutRefused, AreTaken, AreRefused, IsAnswer, AreNames, record_value};
ghost use Rattle.namespace.specs.Names.{put_of, names_with, names_after, names_given, NameMap};
ghost use Rattle.namespace.specs.Listing.{listing_of};
ghost use Rattle.namespace.specs.Numbers.{Rise, AreNumbered, AreInOrder};
ghost use Rattle.namespace.specs.Puts.{puts_of};

use crate::fault::NameFault;
use crate::listing::{ListedName, Listing};
use crate::name::is_name;
use crate::record::{Change, Named, Record, Root};
use disk_format::MOST_NAMES;
use std::alloc::{AllocError, Global};
use std::collections::BTreeMap;
use std::marker::Model;

/// Names, and what each of them has.
#[derive(Drop)]
pub struct Names {
    entries: BTreeMap<Vec<u8>, Named>,
}

impl Model for Names {
    ghost use Rattle.std.specs.FinMap as finite;
    ghost use Rattle.namespace.specs.Names.{NameMap, coded_names};

    ghost Value = { NameMap };

    ghost coded = { coded_names };

    ghost use Rattle.namespace.specs.Keys.{by_bytes};

    ghost view = { λ n. finite.from_entries (by_bytes n.entries.entries) };

    ghost use Rattle.namespace.specs.Names.{AreNames};

    ghost invariant = { λ n. AreNames (finite.from_entries (by_bytes n.entries.entries)) };
}

impl Names {
    /// No names. The allocator is kept, so that `apply` takes none.
    pub fn new(alloc: Global) -> Names
        ensures empty { result ≡ finite.empty }
        ensures names { AreNames result }
    {
        Names {
            entries: BTreeMap::new(alloc),
        }
    }

    /// How many names are there.
    pub fn count(&self) -> usize
        ensures { result ≡ finite.len self.now }
    {
        self.entries.len()
    }

    /// Whether a name is there.
    fn has(&self, name: &[u8]) -> bool
        ensures there { IsTrue result → IsSome (finite.get self.now name.now) }
        ensures absent { IsTrue (not result) → finite.get self.now name.now ≡ None }
    {
        self.entries.contains_key(name)
    }

    /// Whether a name has room: it is there already, or fewer than `MOST_NAMES` are.
    fn has_room(&self, name: &[u8]) -> bool
        ensures room { IsTrue result → HasRoom self.now name.now }
        ensures full { IsTrue (not result) → IsFull self.now name.now }
    {
        self.has(name) || self.entries.len() < MOST_NAMES
    }

    /// Whether `apply` takes a put of a name, but for want of memory: `BadName` where it is none, then `TooMany` where it is
    /// new and `MOST_NAMES` are there.
    pub fn may_put(&self, name: &[u8]) -> Result<(), NameFault>
        ensures named { OnOk result (IsName name.now) }
        ensures room { OnOk result (HasRoom self.now name.now) }
        ensures cause { IfErr result (IsPutRefused self.now name.now) }
    {
        if !is_name(name) {
            return Err(NameFault::BadName);
        }
        if !self.has_room(name) {
            return Err(NameFault::TooMany);
        }
        Ok(())
    }

    /// Whether `apply` takes a record, but for want of memory: `BadName` where its name is none, then `TooMany` for a
    /// put of a new name where `MOST_NAMES` are there, and `NoFile` for a delete of a name that is not there.
    pub fn check(&self, given: &Record) -> Result<(), NameFault>
        ensures taken { OnOk result (IsTaken self.now (record_value given.now)) }
        ensures cause { IfErr result (λ fault. IsRefused self.now (record_value given.now) fault) }
        ensures refused { (fault : NameFault) → IsRefused self.now (record_value given.now) fault → result ≡ Err fault }
    {
        if !is_name(&given.name) {
            return Err(NameFault::BadName);
        }
        match given.change {
            Change::Put(_) => {
                if !self.has_room(&given.name) {
                    return Err(NameFault::TooMany);
                }
            }
            Change::Delete => {
                if !self.has(&given.name) {
                    return Err(NameFault::NoFile);
                }
            }
        }
        Ok(())
    }

    /// Gives a name what a put says. An error leaves the names as they were.
    fn set(&mut self, name: &Vec<u8>, named: Named) -> Result<(), AllocError>
        requires named { IsName name.now.items }
        requires room { HasRoom self.old name.now.items }
        ensures ok { OnOk result (self.new ≡ finite.insert self.old name.now.items named) }
        ensures err { OnErr result (self.new ≡ self.old) }
        ensures names { OnOk result (AreNames self.new) }
    {
        self.entries.insert(name.clone()?, named)?;
        Ok(())
    }

    /// Takes a name away.
    fn remove(&mut self, name: &[u8])
        ensures removed { self.new ≡ finite.remove self.old name.now }
        ensures names { AreNames self.new }
    {
        self.entries.remove(name);
    }

    /// Applies a record, or refuses it as `check` does. An error leaves the names as they were. A put may run out of
    /// memory; a delete never does.
    pub fn apply(&mut self, given: &Record) -> Result<(), NameFault>
        ensures ok { OnOk result (self.new ≡ names_with (record_value given.now) self.old) }
        ensures err { OnErr result (self.new ≡ self.old) }
        ensures taken { OnOk result (IsTaken self.old (record_value given.now)) }
        ensures cause { IfErr result (λ fault. (fault ≡ NameFault.Memory) ⊎ IsRefused self.old (record_value given.now) fault) }
        ensures taken_cause { IsTaken self.old (record_value given.now) → IfErr result (λ fault. fault ≡ NameFault.Memory) }
        ensures delete_cause { given.now.change ≡ Change.Delete → IfErr result (IsRefused self.old (record_value given.now)) }
        ensures refused { (fault : NameFault) → IsRefused self.old (record_value given.now) fault → result ≡ Err fault }
        ensures names { OnOk result (AreNames self.new) }
    {
        self.check(given)?;
        match given.change {
            Change::Put(root) => {
                let named = Named {
                    sequence: given.sequence,
                    root,
                };
                self.set(&given.name, named)?;
            }
            Change::Delete => self.remove(&given.name),
        }
        Ok(())
    }

    /// The root that a name has: `BadName` where the bytes are no name, `NoFile` where the name is not there.
    pub fn get(&self, name: &[u8]) -> Result<Root, NameFault>
        ensures { IsAnswer self.now name.now result }
    {
        if !is_name(name) {
            return Err(NameFault::BadName);
        }
        match self.entries.get(name) {
            Some(named) => Ok(named.root),
            None => Err(NameFault::NoFile),
        }
    }

    /// What a name has.
    pub fn find(&self, name: &[u8]) -> Option<Named>
        ensures { result ≡ finite.get self.now name.now }
    {
        self.entries.get(name).copied()
    }

    /// Gives a name that is there what it had before, or takes it away where it had nothing. It takes no memory.
    pub fn take_back(&mut self, name: Vec<u8>, before: Option<Named>)
        requires there { IsSome (finite.get self.old name.items) }
        ensures given { self.new ≡ names_given name.items before self.old }
        // A put is undone.
        ensures back { (names : NameMap) (named : Named) → finite.get names name.items ≡ before
            → self.old ≡ finite.insert names name.items named → self.new ≡ names }
    {
        match before {
            Some(named) => self.put_back(name, named),
            None => self.remove(&name),
        }
    }

    /// Gives a name that is there another value. An insertion fails for a new name alone.
    fn put_back(&mut self, name: Vec<u8>, named: Named)
        requires there { IsSome (finite.get self.old name.items) }
        ensures { self.new ≡ finite.insert self.old name.items named }
    {
        match self.entries.insert(name, named) {
            Ok(_) => {}
            Err(_) => unreachable!(),
        }
    }

    /// The puts that give the names what they have, in the order of the names' bytes. It fails for want of memory alone.
    pub fn list(&self, alloc: Global) -> Result<Vec<Record>, AllocError>
        ensures listed { IfOk result (λ puts. map record_value puts.items ≡ map put_of (finite.entries self.now)) }
        ensures replays { IfOk result (λ puts. names_after (map record_value puts.items) finite.empty ≡ self.now) }
        ensures taken { IfOk result (λ puts. AreTaken finite.empty (map record_value puts.items)) }
        ensures names { AreNames self.now }
    {
        let mut records = Vec::with_capacity(alloc, self.entries.len())?;
        for (name, named) in &self.entries {
            records.push(Record {
                sequence: named.sequence,
                name: name.clone()?,
                change: Change::Put(named.root),
            })?;
        }
        Ok(records)
    }

    /// Each name with its root, in the order of the names' bytes. It fails for want of memory alone.
    pub fn files(&self, alloc: Global) -> Result<Listing, AllocError>
        ensures { IfOk result (λ files. files ≡ listing_of self.now) }
    {
        let mut names = Vec::with_capacity(alloc, self.entries.len())?;
        for (name, named) in &self.entries {
            names.push(ListedName {
                name: name.clone()?,
                root: named.root,
            })?;
        }
        Ok(Listing { names })
    }

    /// The puts that give the names what they have, by their sequence numbers, the lowest first. It fails for want of memory
    /// alone.
    #[tactic(auto, using(crate::proofs::Puts::puts_in_order))]
    pub fn puts_in_order(&self, alloc: Global) -> Result<Vec<Record>, AllocError>
        ensures puts { IfOk result (λ puts. map record_value puts.items ≡ puts_of self.now) }
        // Where each name has a number of its own, these rise, and a replay of the puts gives the names.
        ensures in_order { (last : ℕ) → AreNumbered self.now last → AreInOrder (puts_of self.now) self.now last }
        // No other list has the names' puts by rising numbers.
        ensures only { (last : ℕ) (puts : List RecordValue) → AreNumbered self.now last
            → IsPermutation (map put_of (finite.entries self.now)) puts → Rise 0 puts → puts ≡ puts_of self.now }
        ensures names { AreNames self.now }
    {
        let mut puts = self.list(alloc)?;
        puts.sort_by_key(|put| put.sequence)?;
        Ok(puts)
    }

    /// The names after records, the first of them first. The first that is refused refuses all, by what `check` answers.
    pub fn replay(alloc: Global, records: &[Record]) -> Result<Names, NameFault>
        ensures ok { IfOk result (λ names. names ≡ names_after (map record_value records.now) finite.empty) }
        ensures names { IfOk result (λ names. AreNames names) }
        ensures taken { OnOk result (AreTaken finite.empty (map record_value records.now)) }
        ensures cause { IfErr result (λ fault. (fault ≡ NameFault.Memory)
            ⊎ AreRefused finite.empty (map record_value records.now) fault) }
    {
        let mut names = Names::new(alloc);
        for record in records {
            names.apply(record)?;
        }
        Ok(names)
    }
}
