//! An image from some place on.

ghost use Rattle.std.specs.Prelude.{◌≡◌, ◌++◌, ◌≤◌, ◌<◌, ◌⊎◌, true, false, [], length, take, drop};
ghost use Rattle.object_store.specs.ImageText.{image_text};
ghost use Rattle.object_store.specs.Pieces.{IsLaid, RestFits, part_text, behind_text, left_text};

use crate::object::Stored;
use crate::objects::Objects;
use crate::parts::{Items, Part, next_item, next_object};
use fid_space::Fid;
use std::collections::btree_map::Iter;

/// What is left of an image: a part of which some bytes are given or passed over, and what stands behind it.
#[derive(Drop)]
pub(crate) struct Rest<'a> {
    part: Part<'a>,
    skip: u64,
    items: Option<Items<'a>>,
    objects: Iter<'a, Fid, Stored>,
}

impl<'a> Rest<'a> {
    /// The image from a place on.
    pub(crate) fn of(objects: &'a Objects, at: u64) -> Rest<'a>
        ensures text { left_text result ≡ drop at (image_text objects.now) }
        ensures fits { RestFits result }
    {
        Rest {
            part: Part::Count(objects.count()),
            skip: at,
            items: None,
            objects: objects.inner().iter(),
        }
    }

    /// Goes on behind the part to the part with a place, counted from there. `false` where there is none.
    fn go_on(&mut self, place: u64) -> bool
        requires { RestFits self.old }
        ensures text { left_text self.new ≡ drop place (behind_text self.old) }
        ensures fits { RestFits self.new }
        ensures less { result ≡ true → length (behind_text self.new) < length (behind_text self.old) }
        ensures end { result ≡ false → left_text self.new ≡ [] }
    {
        if let Some(part) = next_item(&mut self.items) {
            self.part = part;
            self.skip = place;
            return true;
        }
        match next_object(&mut self.objects, place) {
            Some((fid, object, place)) => {
                self.part = Part::Head(fid, object);
                self.skip = place;
                self.items = Some(Items::of(object));
                true
            }
            None => {
                self.skip = self.part.size();
                false
            }
        }
    }

    /// Goes on to the part in which the next byte stands, if one is left.
    fn settle(&mut self)
        requires { RestFits self.old }
        ensures text { left_text self.new ≡ left_text self.old }
        ensures fits { RestFits self.new }
        ensures here { (self.new.skip < length (part_text self.new.part)) ⊎ (left_text self.new ≡ []) }
    {
        while self.part.size() <= self.skip {
            let place = self.skip - self.part.size();
            if !self.go_on(place) {
                return;
            }
        }
    }

    /// Copies what fits of what is left of one part.
    fn copy_some(&mut self, into: &mut [u8]) -> usize
        requires { RestFits self.old }
        ensures room { result ≤ length into.old }
        ensures there { result ≤ length (left_text self.old) }
        ensures bytes { into.new ≡ take result (left_text self.old) ++ drop result into.old }
        ensures left { left_text self.new ≡ drop result (left_text self.old) }
        ensures some { result ≡ 0 → (length into.old ≡ 0) ⊎ (length (left_text self.old) ≡ 0) }
        ensures fits { RestFits self.new }
    {
        self.settle();
        let _size = self.part.size();
        let count = self.part.copy(self.skip as usize, into);
        self.skip += count as u64;
        count
    }

    /// Copies as many of the bytes that are left as fit, and answers their number.
    pub(crate) fn copy(&mut self, into: &mut [u8]) -> usize
        requires { RestFits self.old }
        ensures laid { IsLaid (left_text self.old) into.old into.new result }
        ensures left { left_text self.new ≡ drop result (left_text self.old) }
        ensures fits { RestFits self.new }
    {
        let mut done = 0;
        while done < into.len() {
            let count = self.copy_some(&mut into[done..]);
            if count == 0 {
                return done;
            }
            done += count;
        }
        done
    }
}
