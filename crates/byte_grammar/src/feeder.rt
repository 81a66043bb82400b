ghost use Rattle.std.specs.Prelude.{◌≡◌, ℕ, ◌≤◌, ◌++◌, ◌+◌, ◌-◌, ◌<◌, ◌^◌, Some, None, true, false, List, [], length, take, IfOk, IfSome, Err, if◌then◌else◌};
ghost use Rattle.byte_grammar.specs.Grammar.{judge};
ghost use Rattle.byte_grammar.specs.declared.verdict.Refusal.{Refusal};
ghost use Rattle.byte_grammar.specs.Steps.{width_at};
ghost use Rattle.byte_grammar.specs.Feeding.{Answers, Leaves};

use crate::position::{Position, Reached, scan};
use crate::verdict::{Refusal, Verdict};
use std::alloc::{AllocError as Memory, Global};
use std::marker::Model;

/// What a piece brings.
#[derive(Debug, Drop)]
pub enum Fed<V> {
    /// The value isn't whole yet.
    More,
    /// The value is whole, with so many bytes of this piece.
    Done { value: V, used: usize },
}

/// Why a piece brings nothing.
#[derive(Clone, Copy, Debug, PartialEq, Eq)]
pub enum FeedFault {
    /// Memory ran out.
    Memory,
    /// A field can't stand.
    Refused(Refusal),
}

/// Reads a value that comes in pieces. Contracts see the bytes of the value so far. It keeps them, and how
/// far they were read: each field is judged once, and the value is built when its last byte is there.
#[derive(Drop)]
pub struct Feeder<P: Position> {
    alloc: Global,
    bytes: Vec<u8>,
    place: usize,
    position: P,
    // The next field isn't complete before the value has so many bytes.
    wanted: usize,
    refused: Option<Refusal>,
}

impl<P: Position> Model for Feeder<P> {
    ghost use Rattle.std.specs.Prelude.{List, ℕ};
    ghost use Rattle.byte_grammar.specs.Steps.{IsFed};

    ghost Value = { List ℕ };

    ghost view = { λ f. f.bytes.items };

    ghost invariant = { λ f. IsFed P.LIMIT P.whole (P.grammar f.position) f.place f.bytes.items f.wanted f.refused };
}

/// The value of the first bytes.
fn built<P: Position>(alloc: Global, bytes: &[u8], end: usize) -> Result<P::Value, Memory>
    requires { judge P.LIMIT P.whole 0 bytes.now ≡ Verdict.Done end }
    ensures { IfOk result (λ value. P.spells value (take end bytes.now)) }
{
    P::build(alloc, &bytes[..end])
}

/// At most so many bytes.
fn front_of(piece: &[u8], room: usize) -> &[u8]
    ensures { result.now ≡ take room piece.now }
{
    if piece.len() < room {
        piece
    } else {
        &piece[..room]
    }
}

/// The value that a piece begins with and the bytes of it, where it is whole there.
fn whole_in<P: Position>(alloc: Global, piece: &[u8]) -> Result<Option<(P::Value, usize)>, Memory>
    ensures { IfOk result (λ o. IfSome o (λ x. (judge P.LIMIT P.whole 0 piece.now ≡ Verdict.Done x.1) × (x.1 ≤ length piece.now) × P.spells x.0 (take x.1 piece.now))) }
{
    let front = front_of(piece, P::LIMIT);
    let start = Reached {
        place: 0,
        position: P::start(),
    };
    let (_, verdict) = scan(front, start);
    match verdict {
        Verdict::Done(end) => Ok(Some((built::<P>(alloc, front, end)?, end))),
        Verdict::More | Verdict::Refused(_) => Ok(None),
    }
}

/// How many bytes the value has where the next field is complete; 0 at the end.
fn wanted_at<P: Position>(place: usize, position: P) -> usize
    ensures end { width_at (P.grammar position) ≡ None → result ≡ 0 }
    ensures field { (w : ℕ) → width_at (P.grammar position) ≡ Some w → result ≤ place + w }
{
    match position.width() {
        Some(width) => place.saturating_add(width),
        None => 0,
    }
}

/// Adds the bytes, or nothing where memory runs out.
fn add_all(bytes: &mut Vec<u8>, piece: &[u8]) -> bool
    ensures { bytes.new.items ≡ (if result then bytes.old.items ++ piece.now else bytes.old.items) }
{
    bytes.extend_from_slice(piece).is_ok()
}

/// Adds what of the piece a value can have, or nothing where memory runs out.
fn grow<P: Position>(bytes: &mut Vec<u8>, piece: &[u8]) -> bool
    requires { length bytes.old.items ≤ P.LIMIT }
    ensures { bytes.new.items ≡ (if result then bytes.old.items ++ take (P.LIMIT - length bytes.old.items) piece.now else bytes.old.items) }
{
    let front = front_of(piece, P::LIMIT - bytes.len());
    add_all(bytes, front)
}

impl<P: Position> Feeder<P> {
    /// Before the first byte of a value.
    pub fn new(alloc: Global) -> Feeder<P>
        ensures { result ≡ [] }
    {
        Feeder {
            alloc,
            bytes: Vec::new(alloc),
            place: 0,
            position: P::start(),
            wanted: 0,
            refused: None,
        }
    }

    /// Takes the next piece. After a value it is as new, after a fault it answers the same fault again, and
    /// after want of memory it is as before the call. A value that is whole in one piece isn't copied.
    pub fn feed(&mut self, piece: &[u8]) -> Result<Fed<P::Value>, FeedFault>
        // The answer is the verdict on all bytes of the value so far.
        ensures exact { Answers P.spells (judge P.LIMIT P.whole 0 (self.old ++ piece.now)) self.old piece.now result }
        // What it has then.
        ensures leaves { Leaves (judge P.LIMIT P.whole 0) self.old piece.now result self.new }
        // The same fault again, and never want of memory.
        ensures same { (refusal : Refusal) → judge P.LIMIT P.whole 0 self.old ≡ Verdict.Refused refusal → result ≡ Err (FeedFault.Refused refusal) }
    {
        if self.keep(piece) {
            return Ok(Fed::More);
        }
        if !self.bytes.is_empty() || self.refused.is_some() {
            return self.feed_more(piece);
        }
        match whole_in::<P>(self.alloc, piece) {
            Ok(Some((value, used))) => Ok(Fed::Done { value, used }),
            Ok(None) => self.feed_more(piece),
            Err(_) => Err(FeedFault::Memory),
        }
    }

    /// Takes a piece that completes no field, and says whether it did. Else nothing changes.
    pub fn keep(&mut self, piece: &[u8]) -> bool
        ensures kept { result ≡ true → (judge P.LIMIT P.whole 0 (self.old ++ piece.now) ≡ Verdict.More) × (self.new ≡ self.old ++ piece.now) }
        ensures before { result ≡ true → judge P.LIMIT P.whole 0 self.old ≡ Verdict.More }
        ensures left { result ≡ false → self.new ≡ self.old }
    {
        if piece.len() >= self.wanted.saturating_sub(self.bytes.len()) {
            return false;
        }
        if !add_all(&mut self.bytes, piece) {
            return false;
        }
        true
    }

    // Takes the next piece behind the bytes that it has.
    fn feed_more(&mut self, piece: &[u8]) -> Result<Fed<P::Value>, FeedFault>
        ensures exact { Answers P.spells (judge P.LIMIT P.whole 0 (self.old ++ piece.now)) self.old piece.now result }
        ensures leaves { Leaves (judge P.LIMIT P.whole 0) self.old piece.now result self.new }
        ensures same { (refusal : Refusal) → judge P.LIMIT P.whole 0 self.old ≡ Verdict.Refused refusal → result ≡ Err (FeedFault.Refused refusal) }
    {
        if let Some(refusal) = self.refused {
            return Err(FeedFault::Refused(refusal));
        }
        let before = self.bytes.len();
        if !grow::<P>(&mut self.bytes, piece) {
            return Err(FeedFault::Memory);
        }
        let (reached, verdict) = scan(
            &self.bytes,
            Reached {
                place: self.place,
                position: self.position,
            },
        );
        match verdict {
            Verdict::More => {
                self.wanted = wanted_at(reached.place, reached.position);
                self.place = reached.place;
                self.position = reached.position;
                Ok(Fed::More)
            }
            Verdict::Refused(refusal) => {
                self.wanted = 0;
                self.refused = Some(refusal);
                Err(FeedFault::Refused(refusal))
            }
            Verdict::Done(end) => match built::<P>(self.alloc, &self.bytes, end) {
                Ok(value) => {
                    self.bytes.clear();
                    self.place = 0;
                    self.wanted = 0;
                    self.position = P::start();
                    Ok(Fed::Done {
                        value,
                        used: end - before,
                    })
                }
                Err(_) => {
                    self.bytes.truncate(before);
                    Err(FeedFault::Memory)
                }
            },
        }
    }
}
