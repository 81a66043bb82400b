//! The parts of the image that aren't kept as bytes, and the image as a whole.

ghost use Rattle.std.specs.Prelude.{◌≡◌, ◌≤◌, ◌<◌, ◌++◌, length, IfOk, OnOk};
ghost use Rattle.std.specs.Int.{w32};
ghost use Rattle.byte_grammar.specs.Numbers.{word, zeros};
ghost use Rattle.llog_store.specs.Log.{log_text};
ghost use Rattle.llog_store.specs.Chunked.{chunk_at, chunk_count};
ghost use Rattle.state_image.specs.StateText.{log_part};
ghost use Rattle.state_image.specs.FrontText.{front_text};
ghost use Rattle.target_state.specs.Image.{front_of, state_text, most_image};

use crate::state::{State, log_length};
use fid_space::Bytes;
use llog_store::Llog;
use state_image::FrontBytes;
use std::alloc::AllocError as Memory;

/// What stands before the bytes of a log of such a length: the length, and zeros.
#[tactic(auto, unfolding(byte_grammar::specs::Numbers::word, byte_grammar::specs::Numbers::zeros))]
fn head(len: u32) -> [u8; 8]
    ensures { result ≡ word w32 len ++ zeros 4 }
{
    let mut head = [0; 8];
    head[..4].copy_from_slice(&len.to_le_bytes());
    head
}

/// Adds a chunk of a log.
fn add_chunk(out: &mut Bytes, log: &Llog, i: u32) -> Result<(), Memory>
    requires { i < chunk_count (log_text log.now) }
    ensures { OnOk result (out.new ≡ out.old ++ chunk_at (log_text log.now) i) }
{
    match log.chunk(i) {
        Some(chunk) => out.append(chunk),
        None => unreachable!(),
    }
}

/// Adds the bytes of a log.
fn add_log(out: &mut Bytes, log: &Llog) -> Result<(), Memory>
    ensures { OnOk result (out.new ≡ out.old ++ log_text log.now) }
{
    for i in 0..log.chunks() {
        add_chunk(out, log, i)?;
    }
    Ok(())
}

impl State {
    /// What stands before the bytes of the log in the image: their length, and zeros.
    pub fn log_head(&self) -> [u8; 8]
        ensures { result ≡ word w32 (length (log_text self.now.log)) ++ zeros 4 }
    {
        head(log_length(self.log.log()) as u32)
    }

    /// What stands before the objects in the image. It takes no memory.
    pub fn front_bytes(&self) -> FrontBytes
        ensures { result ≡ front_text (front_of self.now) }
    {
        self.front.bytes()
    }

    /// The image as a whole, for a disk that is formatted.
    #[tactic(auto, using(crate::proofs::Lengths::state_length))]
    pub fn image(&self) -> Result<Bytes, Memory>
        ensures value { IfOk result (λ image. image ≡ state_text self.now) }
        ensures some { IfOk result (λ image. 0 < length image) }
        ensures fits { IfOk result (λ image. length image ≤ most_image) }
    {
        let mut image = Bytes::new(self.alloc);
        self.front.encode(&mut image)?;
        self.objects.encode(&mut image)?;
        image.append(&self.log_head())?;
        add_log(&mut image, self.log.log())?;
        self.fits_a_disk();
        Ok(image)
    }
}
