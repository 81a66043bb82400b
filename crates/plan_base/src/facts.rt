ghost use Rattle.std.specs.Prelude.{◌≡◌, ◌++◌, ◌∷◌, [], Some, OnOk};
ghost use Rattle.std.specs.Option.{option_map};
ghost use Rattle.std.specs.FinMap as map;
ghost use Rattle.plan_base.specs.Heard.{IsChild, AreNamed, IsHeard};
ghost use Rattle.plan_base.specs.Stops.{Reaches};
ghost use Rattle.plan_base.specs.Told.{untold, entry_in, count_in, value_in, names_in, node_told, entry_told, count_told, value_told, names_told};

use crate::entry_list::EntryList;
use crate::question::{Question, Stop};
use crate::seen::{CountFact, EntryFact, NamesFact, Seen, ValueFact};
use fid_space::{Bytes, Fid};
use std::alloc::{AllocError as Memory, Global};
use std::collections::BTreeMap;
use std::marker::Model;
use striped_dir::Layout;
use tree_model::Name;

/// What a planner was told so far.
#[derive(Drop)]
pub struct Facts {
    nodes: BTreeMap<Fid, Option<Seen>>,
    entries: Vec<EntryFact>,
    counts: Vec<CountFact>,
    values: Vec<ValueFact>,
    names: Vec<NamesFact>,
}

impl Model for Facts {
    ghost use Rattle.std.specs.FinMap.{from_entries};
    ghost use Rattle.plan_base.specs.Told.{Told, coded_told};

    ghost Value = { Told };

    ghost coded = { coded_told };

    ghost view = { λ f. record { nodes = from_entries f.nodes.entries; entries = f.entries.items; counts = f.counts.items; values = f.values.items; names = f.names.items } };
}

impl Facts {
    /// Nothing was told.
    pub(crate) fn new(alloc: Global) -> Facts
        ensures { result ≡ untold }
    {
        Facts {
            nodes: BTreeMap::new(alloc),
            entries: Vec::new(alloc),
            counts: Vec::new(alloc),
            values: Vec::new(alloc),
            names: Vec::new(alloc),
        }
    }

    /// What was told of a node; none where it isn't known.
    pub(crate) fn known_node(&self, fid: Fid) -> Option<Option<Seen>>
        ensures { result ≡ map.get self.now.nodes fid }
    {
        self.nodes.get(&fid).copied()
    }

    /// The node with a FID, or none.
    pub fn node(&self, fid: Fid) -> Result<Option<Seen>, Stop>
        ensures { Reaches (λ x. x) result (node_told self.now fid) }
    {
        match self.known_node(fid) {
            Some(seen) => Ok(seen),
            None => Err(Stop::Ask(Question::Node(fid))),
        }
    }

    /// What a name stands for, or none.
    pub fn entry(
        &self,
        alloc: Global,
        directory: Fid,
        layout: Layout,
        name: &Name,
    ) -> Result<Option<Fid>, Stop>
        ensures { Reaches (λ x. x) result (entry_told self.now directory layout name.now) }
    {
        match entry_in(self.entries.as_slice(), directory, name) {
            Some(child) => Ok(child),
            None => Err(Stop::Ask(Question::Entry(directory, layout, name.copy(alloc)?))),
        }
    }

    /// How many entries a part has.
    pub fn count(&self, directory: Fid, layout: Layout, index: u8) -> Result<u32, Stop>
        ensures { Reaches (λ x. x) result (count_told self.now directory layout index) }
    {
        match count_in(self.counts.as_slice(), directory, index) {
            Some(entries) => Ok(entries),
            None => Err(Stop::Ask(Question::Count(directory, layout, index))),
        }
    }

    /// Whether a node has an attribute.
    pub fn value(&self, alloc: Global, fid: Fid, name: &Name) -> Result<Option<&Bytes>, Stop>
        ensures { Reaches (λ x. option_map (λ v. v.now) x) result (value_told self.now fid name.now) }
    {
        match value_in(self.values.as_slice(), fid, name) {
            Some(value) => Ok(value),
            None => Err(Stop::Ask(Question::Value(fid, name.copy(alloc)?))),
        }
    }

    /// The first 33 entries of a part.
    pub fn names(&self, directory: Fid, layout: Layout, index: u8) -> Result<&EntryList, Stop>
        ensures { Reaches (λ x. x.now) result (names_told self.now directory layout index) }
    {
        match names_in(self.names.as_slice(), directory, index) {
            Some(entries) => Ok(entries),
            None => Err(Stop::Ask(Question::Names(directory, layout, index))),
        }
    }

    /// Keeps what was told of a node.
    pub(crate) fn tell_node(&mut self, fid: Fid, seen: Option<Seen>) -> Result<(), Memory>
        ensures told { OnOk result (self.new ≡ record self.old { nodes = map.insert self.old.nodes fid seen }) }
        ensures heard { IsHeard self.old → IsHeard self.new }
    {
        self.nodes.insert(fid, seen)?;
        Ok(())
    }

    /// Keeps what was told of an entry.
    pub(crate) fn tell_entry(&mut self, fact: EntryFact) -> Result<(), Memory>
        requires child { IsChild fact.child }
        ensures told { OnOk result (self.new ≡ record self.old { entries = self.old.entries ++ fact ∷ [] }) }
        ensures heard { IsHeard self.old → IsHeard self.new }
    {
        self.entries.push(fact)?;
        Ok(())
    }

    /// Keeps what was told of a part.
    pub(crate) fn tell_count(&mut self, fact: CountFact) -> Result<(), Memory>
        ensures told { OnOk result (self.new ≡ record self.old { counts = self.old.counts ++ fact ∷ [] }) }
        ensures heard { IsHeard self.old → IsHeard self.new }
    {
        self.counts.push(fact)?;
        Ok(())
    }

    /// Keeps what was told of an attribute.
    pub(crate) fn tell_value(&mut self, fact: ValueFact) -> Result<(), Memory>
        ensures told { OnOk result (self.new ≡ record self.old { values = self.old.values ++ fact ∷ [] }) }
        ensures heard { IsHeard self.old → IsHeard self.new }
    {
        self.values.push(fact)?;
        Ok(())
    }

    /// Keeps what was told of the entries of a part.
    pub(crate) fn tell_names(&mut self, fact: NamesFact) -> Result<(), Memory>
        requires named { AreNamed fact }
        ensures told { OnOk result (self.new ≡ record self.old { names = self.old.names ++ fact ∷ [] }) }
        ensures heard { IsHeard self.old → IsHeard self.new }
    {
        self.names.push(fact)?;
        Ok(())
    }
}

fn entry_in(facts: &[EntryFact], directory: Fid, name: &Name) -> Option<Option<Fid>>
    ensures { result ≡ entry_in facts.now directory name.now }
{
    for fact in facts {
        if fact.directory == directory && fact.name == *name {
            return Some(fact.child);
        }
    }
    None
}

fn count_in(facts: &[CountFact], directory: Fid, index: u8) -> Option<u32>
    ensures { result ≡ count_in facts.now directory index }
{
    for fact in facts {
        if fact.directory == directory && fact.index == index {
            return Some(fact.entries);
        }
    }
    None
}

fn value_in<'a>(facts: &'a [ValueFact], fid: Fid, name: &Name) -> Option<Option<&'a Bytes>>
    ensures { option_map (λ o. option_map (λ v. v.now) o) result ≡ value_in facts.now fid name.now }
{
    for fact in facts {
        if fact.fid == fid && fact.name == *name {
            return Some(fact.value.as_ref());
        }
    }
    None
}

fn names_in(facts: &[NamesFact], directory: Fid, index: u8) -> Option<&EntryList>
    ensures { option_map (λ l. l.now) result ≡ names_in facts.now directory index }
{
    for fact in facts {
        if fact.directory == directory && fact.index == index {
            return Some(&fact.entries);
        }
    }
    None
}
