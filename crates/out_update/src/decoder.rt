ghost use Rattle.std.specs.Prelude.{◌≡◌, ◌≢◌, ℕ, true, List, [], ◌++◌, Err};
ghost use Rattle.out_update.specs.declared.fault.UpdateFault.{UpdateFault};
ghost use Rattle.out_update.specs.Spelling.{spells};
ghost use Rattle.out_update.specs.Replies.{spells_reply};
ghost use Rattle.out_update.specs.Decoding.{judge_request, judge_reply, is_update_reason, IsFault, Tells, Keeps};

use crate::fault::UpdateFault;
use crate::reply::{self, ReplyPosition};
use crate::request::{self, RequestPosition};
use crate::result::UpdateReply;
use crate::update::UpdateRequest;
use crate::value::{reply_of, request_of};
use byte_grammar::{BuildFault, Fed, FeedFault, Feeder, Position, Reason, Refusal, Verdict};
use std::alloc::{AllocError as Memory, Global};
use std::marker::Model;

impl Position for RequestPosition {
    ghost use Rattle.out_update.specs.Spelling.{spells};
    ghost use Rattle.out_update.specs.Reading.{request};
    ghost use Rattle.out_update.specs.Positions.{at_alone, rank_of};
    ghost use Rattle.out_update.specs.Begins.{request_begins};

    type Value = UpdateRequest;

    const LIMIT: usize = 24_576;

    ghost LIMIT = { 24576 };

    ghost grammar = { at_alone };

    ghost whole = { request };

    ghost spells = { spells };

    ghost rank = { rank_of };

    #[tactic(auto, unfolding(crate::specs::Reading::request))]
    fn start() -> RequestPosition {
        RequestPosition::Magic
    }

    fn width(self) -> Option<usize> {
        request::width(self)
    }

    fn read(self, place: usize, bytes: &[u8]) -> Result<RequestPosition, Refusal> {
        request::read(None, self, place, bytes)
    }

    fn build(alloc: Global, bytes: &[u8]) -> Result<UpdateRequest, Memory> {
        match request_of(alloc, bytes) {
            Ok((value, _)) => Ok(value),
            Err(BuildFault::Memory) => Err(Memory),
            Err(BuildFault::Short) => unreachable!(),
        }
    }

    ghost begins = { request_begins };
}

impl Position for ReplyPosition {
    ghost use Rattle.out_update.specs.Replies.{spells_reply, reply};
    ghost use Rattle.out_update.specs.Positions.{at_reply_alone, reply_rank};
    ghost use Rattle.out_update.specs.Begins.{reply_begins};

    type Value = UpdateReply;

    const LIMIT: usize = 24_576;

    ghost LIMIT = { 24576 };

    ghost grammar = { at_reply_alone };

    ghost whole = { reply };

    ghost spells = { spells_reply };

    ghost rank = { reply_rank };

    #[tactic(auto, unfolding(crate::specs::Replies::reply))]
    fn start() -> ReplyPosition {
        ReplyPosition::Magic
    }

    fn width(self) -> Option<usize> {
        reply::width(self)
    }

    fn read(self, place: usize, bytes: &[u8]) -> Result<ReplyPosition, Refusal> {
        reply::read(self, place, bytes)
    }

    fn build(alloc: Global, bytes: &[u8]) -> Result<UpdateReply, Memory> {
        match reply_of(alloc, bytes) {
            Ok((value, _)) => Ok(value),
            Err(BuildFault::Memory) => Err(Memory),
            Err(BuildFault::Short) => unreachable!(),
        }
    }

    ghost begins = { reply_begins };
}

/// What a piece of a request brings.
pub type Progress = Fed<UpdateRequest>;

/// What a piece of a reply brings.
pub type ReplyProgress = Fed<UpdateReply>;

fn fault_of(refusal: Refusal) -> UpdateFault
    requires { is_update_reason refusal.reason ≡ true }
    ensures fault { IsFault result (Verdict.Refused refusal) }
    ensures told { result ≢ UpdateFault.Memory }
{
    let place = refusal.place;
    match refusal.reason {
        Reason::BadMagic => UpdateFault::BadMagic(place),
        Reason::BadType => UpdateFault::BadType(place),
        Reason::BadCount => UpdateFault::BadCount(place),
        Reason::BadLength => UpdateFault::BadLength(place),
        Reason::BadPadding => UpdateFault::BadPadding(place),
        Reason::BadValue => UpdateFault::BadValue(place),
        Reason::TooLong => UpdateFault::TooLong(place),
        Reason::BadIndex | Reason::BadTail | Reason::BadBitmap => unreachable!(),
    }
}

/// Reads a request that comes in pieces, in any cutting. Contracts see the bytes of the request so far.
#[derive(Drop)]
pub struct Decoder {
    feeder: Feeder<RequestPosition>,
}

impl Model for Decoder {
    ghost use Rattle.std.specs.Prelude.{List, ℕ};

    ghost Value = { List ℕ };

    ghost view = { λ d. d.feeder };
}

impl Decoder {
    /// Before the first byte of a request.
    pub fn new(alloc: Global) -> Decoder
        ensures { result ≡ [] }
    {
        Decoder {
            feeder: Feeder::new(alloc),
        }
    }

    /// Takes the next piece: at most 24,576 bytes are a request. It answers the request where it ends, with
    /// the bytes of this piece that belong to it, and is as new then. A fault is the first field from the
    /// left that can't stand, told as soon as that is known, and the same again at each later call. Want of
    /// memory leaves the decoder as it was.
    pub fn feed(&mut self, piece: &[u8]) -> Result<Progress, UpdateFault>
        // The answer is the verdict on all bytes of the request so far.
        ensures exact { Tells spells (judge_request (self.old ++ piece.now)) self.old piece.now result }
        // What it has then.
        ensures keeps { Keeps judge_request self.old piece.now result self.new }
        // The same fault again, and never want of memory.
        ensures same { (e : UpdateFault) → e ≢ UpdateFault.Memory → IsFault e (judge_request self.old) → result ≡ Err e }
    {
        if self.feeder.keep(piece) {
            return Ok(Fed::More);
        }
        match self.feeder.feed(piece) {
            Ok(progress) => Ok(progress),
            Err(FeedFault::Memory) => Err(UpdateFault::Memory),
            Err(FeedFault::Refused(refusal)) => Err(fault_of(refusal)),
        }
    }
}

/// Reads a reply that comes in pieces, in any cutting. Contracts see the bytes of the reply so far.
#[derive(Drop)]
pub struct ReplyDecoder {
    feeder: Feeder<ReplyPosition>,
}

impl Model for ReplyDecoder {
    ghost use Rattle.std.specs.Prelude.{List, ℕ};

    ghost Value = { List ℕ };

    ghost view = { λ d. d.feeder };
}

impl ReplyDecoder {
    /// Before the first byte of a reply.
    pub fn new(alloc: Global) -> ReplyDecoder
        ensures { result ≡ [] }
    {
        ReplyDecoder {
            feeder: Feeder::new(alloc),
        }
    }

    /// Takes the next piece: at most 24,576 bytes are a reply. All that is said of `Decoder::feed` holds.
    pub fn feed(&mut self, piece: &[u8]) -> Result<ReplyProgress, UpdateFault>
        // The answer is the verdict on all bytes of the reply so far.
        ensures exact { Tells spells_reply (judge_reply (self.old ++ piece.now)) self.old piece.now result }
        // What it has then.
        ensures keeps { Keeps judge_reply self.old piece.now result self.new }
        // The same fault again, and never want of memory.
        ensures same { (e : UpdateFault) → e ≢ UpdateFault.Memory → IsFault e (judge_reply self.old) → result ≡ Err e }
    {
        if self.feeder.keep(piece) {
            return Ok(Fed::More);
        }
        match self.feeder.feed(piece) {
            Ok(progress) => Ok(progress),
            Err(FeedFault::Memory) => Err(UpdateFault::Memory),
            Err(FeedFault::Refused(refusal)) => Err(fault_of(refusal)),
        }
    }
}
