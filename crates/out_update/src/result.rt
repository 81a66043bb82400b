ghost use Rattle.std.specs.Prelude.{◌≡◌, ◌++◌, ◌∷◌, [], length, slice_get, OnOk, OnErr};
ghost use Rattle.std.specs.Option.{option_copied};

use fid_space::Bytes;
use std::alloc::{AllocError as Memory, AllocFailed, Global};
use std::marker::Model;

/// What an update answers.
#[derive(Debug, Drop)]
pub struct UpdateResult {
    /// 0, or an error number.
    pub code: u32,
    /// What was asked for.
    pub body: Bytes,
}

/// The results of the updates of a request, in their order.
#[derive(Debug, Drop)]
pub struct UpdateReply {
    pub(crate) inner: Vec<UpdateResult>,
}

impl Model for UpdateReply {
    ghost use Rattle.std.specs.Prelude.{List};
    ghost use Rattle.out_update.specs.declared.result.UpdateResult.{UpdateResult};

    ghost Value = { List UpdateResult };

    ghost view = { λ r. r.inner.items };
}

impl UpdateReply {
    /// The empty list.
    pub fn new(alloc: Global) -> UpdateReply
        ensures { result ≡ [] }
    {
        UpdateReply {
            inner: Vec::new(alloc),
        }
    }

    /// Adds a result at the end. Want of memory changes nothing.
    pub fn push(&mut self, item: UpdateResult) -> Result<(), Memory>
        ensures ok { OnOk result (self.new ≡ self.old ++ item ∷ []) }
        ensures err { OnErr result (self.new ≡ self.old) }
    {
        match self.inner.push(item) {
            Ok(()) => Ok(()),
            Err(AllocFailed { .. }) => Err(Memory),
        }
    }

    /// How many results there are.
    pub fn len(&self) -> usize
        ensures { result ≡ length self.now }
    {
        self.inner.len()
    }

    /// Lends the result at an index, counted from 0, or `None` past the end.
    pub fn get(&self, i: usize) -> Option<&UpdateResult>
        ensures { option_copied result ≡ slice_get self.now i }
    {
        self.inner.get(i)
    }
}
