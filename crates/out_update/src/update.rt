ghost use Rattle.std.specs.Prelude.{◌≡◌, ◌++◌, ◌∷◌, [], length, slice_get, OnOk, OnErr};
ghost use Rattle.std.specs.Option.{option_copied};
ghost use Rattle.out_update.specs.Types.{is_read};

use fid_space::{Bytes, Fid};
use std::alloc::{AllocError as Memory, AllocFailed, Global};
use std::marker::Model;

/// What an update does: one variant per update type. The names follow the OUT request handler of Lustre.
#[derive(Clone, Copy, Debug, PartialEq, Eq)]
pub enum Kind {
    /// The object becomes a body, without entries and attributes.
    Create,
    /// The object is gone with its entries.
    Destroy,
    /// One link more.
    RefAdd,
    /// One link less.
    RefDel,
    /// Mode, owner and group are set.
    AttrSet,
    /// Asks for the body and the count of attributes.
    AttrGet,
    /// An extended attribute is set.
    XattrSet,
    /// Asks for the value of an extended attribute.
    XattrGet,
    /// Asks for the FID of an entry.
    Lookup,
    /// The entry of a name becomes a FID.
    Insert,
    /// An entry is gone.
    Delete,
    /// An extended attribute is gone.
    XattrDel,
    /// The layout of a directory is set.
    LayoutSet,
    /// The parent of a directory is set.
    ParentSet,
    /// Asks for the first 33 entries.
    Names,
    /// Asks for the number of entries.
    Count,
}

impl Kind {
    /// Whether it asks about an object, and changes nothing. The other types are writing types.
    pub fn is_read(self) -> bool
        ensures { result ≡ is_read self }
    {
        match self {
            Kind::AttrGet | Kind::XattrGet | Kind::Lookup | Kind::Names | Kind::Count => true,
            _ => false,
        }
    }
}

/// The parameters of an update, each without its padding.
#[derive(Debug, Drop)]
pub struct Params {
    pub(crate) inner: Vec<Bytes>,
}

impl Model for Params {
    ghost use Rattle.std.specs.Prelude.{List, ℕ};

    ghost Value = { List (List ℕ) };

    ghost view = { λ p. p.inner.items };
}

impl Params {
    /// The empty list.
    pub fn new(alloc: Global) -> Params
        ensures { result ≡ [] }
    {
        Params {
            inner: Vec::new(alloc),
        }
    }

    /// Adds a parameter at the end. Want of memory changes nothing.
    pub fn push(&mut self, item: Bytes) -> Result<(), Memory>
        ensures ok { OnOk result (self.new ≡ self.old ++ item ∷ []) }
        ensures err { OnErr result (self.new ≡ self.old) }
    {
        match self.inner.push(item) {
            Ok(()) => Ok(()),
            Err(AllocFailed { .. }) => Err(Memory),
        }
    }

    /// How many parameters there are.
    pub fn len(&self) -> usize
        ensures { result ≡ length self.now }
    {
        self.inner.len()
    }

    /// Lends the parameter at an index, counted from 0, or `None` past the end.
    pub fn get(&self, i: usize) -> Option<&Bytes>
        ensures { option_copied result ≡ slice_get self.now i }
    {
        self.inner.get(i)
    }
}

/// One change of an object, or one question about it.
#[derive(Debug, Drop)]
pub struct Update {
    /// What it does.
    pub kind: Kind,
    /// The batch of the record that it belongs to; 0 for the read types.
    pub batch: u64,
    /// The object.
    pub fid: Fid,
    /// What its type asks for, as the table of update types says.
    pub params: Params,
}

/// A list of updates for one target.
#[derive(Debug, Drop)]
pub struct UpdateRequest {
    pub(crate) inner: Vec<Update>,
}

impl Model for UpdateRequest {
    ghost use Rattle.std.specs.Prelude.{List};
    ghost use Rattle.out_update.specs.declared.update.Update.{Update};

    ghost Value = { List Update };

    ghost view = { λ r. r.inner.items };
}

impl UpdateRequest {
    /// The empty list.
    pub fn new(alloc: Global) -> UpdateRequest
        ensures { result ≡ [] }
    {
        UpdateRequest {
            inner: Vec::new(alloc),
        }
    }

    /// Adds an update at the end. Want of memory changes nothing.
    pub fn push(&mut self, item: Update) -> Result<(), Memory>
        ensures ok { OnOk result (self.new ≡ self.old ++ item ∷ []) }
        ensures err { OnErr result (self.new ≡ self.old) }
    {
        match self.inner.push(item) {
            Ok(()) => Ok(()),
            Err(AllocFailed { .. }) => Err(Memory),
        }
    }

    /// How many updates there are.
    pub fn len(&self) -> usize
        ensures { result ≡ length self.now }
    {
        self.inner.len()
    }

    /// Lends the updates.
    pub fn items(&self) -> &[Update]
        ensures { result.now ≡ self.now }
    {
        self.inner.as_slice()
    }

    /// Lends the update at an index, counted from 0, or `None` past the end.
    pub fn get(&self, i: usize) -> Option<&Update>
        ensures { option_copied result ≡ slice_get self.now i }
    {
        self.inner.get(i)
    }
}
