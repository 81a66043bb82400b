ghost use Rattle.std.specs.Prelude.{◌≡◌, ◌≤◌, IfOk, IfSome, IsSome, OnOk, OnErr};
ghost use Rattle.std.specs.FinMap as map;
ghost use Rattle.commit_sharing.specs.Pending.{noted, put_back};

use fid_space::{Fid, Targets};
use std::alloc::{AllocError as Memory, Global};
use std::collections::BTreeMap;
use std::marker::Model;

/// The last writers of a target's objects since its last commit. Contracts see a finite map from an
/// object's FID to the number of the request that wrote it last, and the targets that it is on.
#[derive(Drop)]
pub struct Pending {
    writers: BTreeMap<Fid, (u32, Targets)>,
}

impl Model for Pending {
    ghost use Rattle.std.specs.FinMap.{from_entries};
    ghost use Rattle.commit_sharing.specs.Pending.{Writers, AreRequests, coded_writers};

    ghost Value = { Writers };

    ghost coded = { coded_writers };

    ghost view = { λ p. from_entries p.writers.entries };

    ghost invariant = { λ p. AreRequests (from_entries p.writers.entries) };
}

impl Pending {
    /// No writer.
    pub fn new(alloc: Global) -> Pending
        ensures { result ≡ map.empty }
    {
        Pending {
            writers: BTreeMap::new(alloc),
        }
    }

    /// Notes that a request, whose number is 1 or more, wrote objects. Want of memory changes nothing. Each
    /// object costs a look-up in an ordered map; the call nests as deep as there are objects, which are at
    /// most those of one part.
    pub fn note(&mut self, number: u32, on: Targets, written: &[Fid]) -> Result<(), Memory>
        requires { 1 ≤ number }
        ensures ok { OnOk result (self.new ≡ noted number on self.old written.now) }
        ensures err { OnErr result (self.new ≡ self.old) }
    {
        match written.split_first() {
            None => Ok(()),
            Some((fid, rest)) => {
                let before = self.put(*fid, number, on)?;
                match self.note(number, on, rest) {
                    Ok(()) => Ok(()),
                    Err(error) => {
                        self.put_back(*fid, before);
                        Err(error)
                    }
                }
            }
        }
    }

    /// Notes one writer, and gives the one before.
    fn put(&mut self, fid: Fid, number: u32, on: Targets) -> Result<Option<(u32, Targets)>, Memory>
        requires { 1 ≤ number }
        ensures ok { OnOk result (self.new ≡ map.insert self.old fid (number, on)) }
        ensures before { IfOk result (λ before. before ≡ map.get self.old fid) }
        ensures number { IfOk result (λ before. IfSome before (λ w. 1 ≤ w.0)) }
        ensures err { OnErr result (self.new ≡ self.old) }
    {
        let before = self.writers.insert(fid, (number, on))?;
        Ok(before)
    }

    /// Puts back what was noted before of an object of which something is noted now.
    fn put_back(&mut self, fid: Fid, before: Option<(u32, Targets)>)
        requires noted { IsSome (map.get self.old fid) }
        requires number { IfSome before (λ w. 1 ≤ w.0) }
        ensures { self.new ≡ put_back self.old fid before }
    {
        match before {
            None => {
                self.writers.remove(&fid);
            }
            Some(writer) => {
                if let Some(kept) = self.writers.get_mut(&fid) {
                    *kept = writer;
                }
            }
        }
    }

    /// The number of the request that wrote an object last, and the targets that it is on. It takes no memory.
    pub fn writer(&self, fid: Fid) -> Option<(u32, Targets)>
        ensures value { result ≡ map.get self.now fid }
        ensures number { IfSome result (λ w. 1 ≤ w.0) }
    {
        self.writers.get(&fid).copied()
    }

    /// Forgets all writers, as a commit does.
    pub fn clear(&mut self)
        ensures { self.new ≡ map.empty }
    {
        self.writers.clear();
    }
}
