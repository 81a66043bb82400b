ghost use Rattle.std.specs.Prelude.{◌≡◌, ◌++◌, ◌∷◌, [], OnOk};

use crate::words::Held;
use commit_sharing::Seen;
use fid_space::{Fid, Targets};
use std::alloc::{AllocError as Memory, AllocFailed, Global};
use std::marker::Model;

/// Held targets, in the order in which they were held.
#[derive(Drop)]
pub struct HeldList {
    inner: Vec<Held>,
}

impl Model for HeldList {
    ghost use Rattle.std.specs.Prelude.{List};
    ghost use Rattle.update_coordinator.specs.declared.words.Held.{Held};

    ghost Value = { List Held };

    ghost view = { λ h. h.inner.items };
}

impl HeldList {
    /// None.
    pub fn new(alloc: Global) -> HeldList
        ensures { result ≡ [] }
    {
        HeldList {
            inner: Vec::new(alloc),
        }
    }

    /// One more.
    pub fn push(&mut self, item: Held) -> Result<(), Memory>
        ensures { OnOk result (self.new ≡ self.old ++ item ∷ []) }
    {
        match self.inner.push(item) {
            Ok(()) => Ok(()),
            Err(AllocFailed { .. }) => Err(Memory),
        }
    }

    /// Lends them.
    pub fn items(&self) -> &[Held]
        ensures { result.now ≡ self.now }
    {
        self.inner.as_slice()
    }
}

/// Objects that were asked for, with what was told of their writers, in the order of the looks.
#[derive(Drop)]
pub struct SeenList {
    inner: Vec<Seen>,
}

impl Model for SeenList {
    ghost use Rattle.std.specs.Prelude.{List};
    ghost use Rattle.commit_sharing.specs.declared.sharing.Seen.{Seen};

    ghost Value = { List Seen };

    ghost view = { λ s. s.inner.items };
}

impl SeenList {
    /// None.
    pub fn new(alloc: Global) -> SeenList
        ensures { result ≡ [] }
    {
        SeenList {
            inner: Vec::new(alloc),
        }
    }

    /// One more.
    pub fn push(
        &mut self,
        target: u8,
        fid: Fid,
        writer: Option<(u32, Targets)>,
    ) -> Result<(), Memory>
        ensures { OnOk result (self.new ≡ self.old ++ record { target = target; fid = fid; writer = writer } ∷ []) }
    {
        match self.inner.push(Seen {
            target,
            fid,
            writer,
        }) {
            Ok(()) => Ok(()),
            Err(AllocFailed { .. }) => Err(Memory),
        }
    }

    /// Lends them.
    pub fn items(&self) -> &[Seen]
        ensures { result.now ≡ self.now }
    {
        self.inner.as_slice()
    }
}
