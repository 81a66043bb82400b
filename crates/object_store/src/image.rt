ghost use Rattle.std.specs.Prelude.{◌≡◌, ◌<◌, ◌^◌, ℕ, List, get_or, ◌≤◌, ◌++◌, Ok, [], length, take, IfOk, OnOk, OnErr};
ghost use Rattle.object_store.specs.Objects.{ObjectMap};
ghost use Rattle.object_store.specs.ImageText.{image_text, FitsObjects, spells, IsFront};
ghost use Rattle.object_store.specs.ImageReading.{Gives, image_at};

use crate::fault::ImageFault;
use crate::fields::{at, number_32};
use crate::heads::image_head;
use crate::items::read_objects;
use crate::objects::Objects;
use crate::spelling::spell_objects;
use fid_space::Bytes;
use std::alloc::{AllocError as Memory, Global};

impl Objects {
    /// How many bytes their image has. It is kept along, and takes no walk over the objects. It is bounded, so
    /// that it may be added to other lengths: what would pass the bound is answered as want of memory.
    #[tactic(auto, using(crate::proofs::Spelled::image_length))]
    pub fn size(&self) -> u64
        ensures value { result ≡ length (image_text self.now) }
        ensures small { result ≤ 2 ^ 62 }
    {
        self.image_size()
    }

    /// Adds their image at the end: their count and the objects by their FIDs, each with its entries and its
    /// attributes by the bytes of their names. Names and values are copied once, straight into `out`. After
    /// want of memory a front of the image may have been added.
    pub fn encode(&self, out: &mut Bytes) -> Result<(), Memory>
        // The one spelling of these objects.
        ensures ok { OnOk result (out.new ≡ out.old ++ image_text self.now) }
        // They are objects that `decode` reads again.
        ensures fits { OnOk result (FitsObjects self.now) }
        // Behind the old bytes stands a front of it, and nothing else.
        ensures front { OnErr result (IsFront (image_text self.now) out.old out.new) }
    {
        out.append(&image_head(self.count()))?;
        spell_objects(out, self.inner())?;
        Ok(())
    }

    /// The objects whose image stands at the front of the bytes, and how many bytes it has. The image is
    /// judged from the left: the count, and each object with its entries and its attributes.
    pub fn decode(alloc: Global, bytes: &[u8]) -> Result<(Objects, usize), ImageFault>
        // What is read is spelled so.
        ensures found { IfOk result (λ x. (x.1 ≤ length bytes.now) × spells x.0 (take x.1 bytes.now)) }
        // What is spelled so is read, whatever follows, unless memory runs out.
        ensures only { (m : ObjectMap) (rest : List ℕ) → FitsObjects m → bytes.now ≡ image_text m ++ rest → Gives {Y = ObjectMap × ℕ} (λ x. (x.0, x.1)) result (Ok (m, length (image_text m))) }
        // The first field that isn't as stated, with its place, or the end inside an image.
        ensures exact { Gives (λ x. (x.0, x.1)) result (image_at bytes.now) }
    {
        whole(alloc, bytes)
    }
}

#[tactic(auto, unfolding(crate::specs::ImageReading::objects_at))]
fn whole(alloc: Global, bytes: &[u8]) -> Result<(Objects, usize), ImageFault>
    ensures value { Gives (λ x. (x.0, x.1)) result (image_at bytes.now) }
    ensures bytes { (i : ℕ) → get_or bytes.now i 0 < 256 }
{
    let len = bytes.len();
    let (count, rest) = number_32(0, u32::MAX, len, bytes)?;
    let (_zero, rest) = number_32(0, 0, len, rest)?;
    let (objects, rest) = read_objects(alloc, len, count, rest)?;
    Ok((objects, at(len, rest)))
}

/// Laws of images.
pub fn one_image_per_objects()
    // Two maps with one image are one map.
    ensures one_value { (m n : ObjectMap) (bytes : List ℕ) → spells m bytes → spells n bytes → m ≡ n }
    // No image is the front of a longer one.
    ensures no_prefix { (m n : ObjectMap) (bytes rest : List ℕ) → spells m bytes → spells n (bytes ++ rest) → rest ≡ [] }
{}
