ghost use Rattle.std.specs.Prelude.{◌≡◌, length, slice_get, All, OnOk};
ghost use Rattle.std.specs.FinMap as map;
ghost use Rattle.out_update.specs.Spelling.{FitsUpdate};
ghost use Rattle.object_store.specs.ImageReading.{body_at};
ghost use Rattle.object_store.specs.Meaning.{param, created, changed_there, after, after_maybe, after_all};

use crate::body::Body;
use crate::meaning::parameter;
use crate::object::Stored;
use crate::objects::Objects;
use fid_space::Fid;
use out_update::{Kind, Update, UpdateRequest};
use std::alloc::AllocError as Memory;

impl Objects {
    /// Puts a new object with the body that the bytes are, if they are one.
    fn create(&mut self, fid: Fid, bytes: &[u8]) -> Result<(), Memory>
        ensures { OnOk result (self.new ≡ created self.old fid (body_at (length bytes.now) bytes.now)) }
    {
        match Body::decode(bytes) {
            Ok((body, _)) => self.put(fid, Stored::new(self.alloc(), body)),
            Err(_) => Ok(()),
        }
    }

    /// Changes an object, where it is there. After want of memory they are some objects.
    fn alter(&mut self, update: &Update) -> Result<(), Memory>
        requires { FitsUpdate update.now }
        ensures { OnOk result (self.new ≡ changed_there self.old update.now.fid (map.get self.old update.now.fid) update.now.kind (param update.now 0) (param update.now 1)) }
    {
        let mut object = match self.take(update.fid) {
            Some(object) => object,
            None => return Ok(()),
        };
        if object.is_gone_after(update) {
            return Ok(());
        }
        object.change(self.alloc(), update)?;
        self.put(update.fid, object)
    }

    #[tactic(auto, unfolding(crate::specs::Meaning::after))]
    fn apply_one(&mut self, update: &Update) -> Result<(), Memory>
        requires { FitsUpdate update.now }
        ensures { OnOk result (self.new ≡ after self.old update.now) }
    {
        match update.kind {
            Kind::Create => self.create(update.fid, parameter(update, 0)),
            _ => self.alter(update),
        }
    }

    /// Does what the update at an index says, if there is one.
    fn apply_at(&mut self, updates: &UpdateRequest, i: usize) -> Result<(), Memory>
        requires { All FitsUpdate updates.now }
        ensures { OnOk result (self.new ≡ after_maybe self.old (slice_get updates.now i)) }
    {
        match updates.get(i) {
            Some(update) => self.apply_one(update),
            None => Ok(()),
        }
    }

    /// Does what the updates say, one after another, after the OUT request handler of Lustre. An update on
    /// an object that isn't there changes nothing, save create; nor does one that would leave an object with
    /// a body that isn't allowed; one of a read type changes nothing. After want of memory they are some objects, and are to be given up.
    pub fn apply(&mut self, updates: &UpdateRequest) -> Result<(), Memory>
        requires fits { All FitsUpdate updates.now }
        ensures { OnOk result (self.new ≡ after_all self.old updates.now) }
    {
        for i in 0..updates.len() {
            self.apply_at(updates, i)?;
        }
        Ok(())
    }
}
