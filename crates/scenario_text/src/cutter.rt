//! Cuts lines out of bytes that come in pieces.
ghost use Rattle.std.specs.Prelude.{◌≡◌, ◌≢◌, ◌<◌, ◌≤◌, ◌↔◌, [], false, length, take, slice_index, IsErr, IsTrue, IfNone, IfOk, IfSome};
ghost use Rattle.scenario_text.specs.Spelling.{NoFeed};
ghost use Rattle.scenario_text.specs.Cutting.{Cuts, open_line};

use fid_space::Bytes;
use std::alloc::{AllocError as Memory, Global};
use std::marker::Model;

/// How many bytes of a line are kept at most: one more than a line may have.
const MOST: usize = 16_385;

/// What a piece gives.
#[derive(Clone, Copy, Debug, PartialEq, Eq)]
pub enum Cut {
    /// The line goes on behind the piece.
    More,
    /// A line ends in the piece. So many bytes of it were used, the line feed among them.
    Line { used: usize },
    /// The line has more than 16,384 bytes. So many bytes of the piece were used, up to the line's byte 16,385.
    Long { used: usize },
}

/// A line that is cut out of pieces. The lines are those of all pieces joined, however these are cut.
#[derive(Drop)]
pub struct LineCutter {
    rest: Bytes,
    ended: bool,
}

impl Model for LineCutter {
    ghost use Rattle.std.specs.Prelude.{◌≤◌, length};
    ghost use Rattle.scenario_text.specs.Cutting.{Cutting, coded_cutting};

    ghost Value = { Cutting };

    ghost coded = { coded_cutting };

    ghost view = { λ c. record { line = c.rest; ended = c.ended } };

    ghost invariant = { λ c. length c.rest ≤ 16385 };
}

impl LineCutter {
    /// A cutter to which no byte has come.
    pub fn new(alloc: Global) -> LineCutter
        ensures { result ≡ record { line = []; ended = false } }
    {
        LineCutter {
            rest: Bytes::new(alloc),
            ended: false,
        }
    }

    /// Takes the bytes of a piece up to the end of a line, or up to the byte with which the line is too long;
    /// the bytes behind these are for the next call. A line that is too long stays so. Want of memory takes
    /// nothing of the piece.
    pub fn feed(&mut self, piece: &[u8]) -> Result<Cut, Memory>
        ensures ok { IfOk result (λ cut. Cuts (open_line self.old) piece.now cut self.new) }
        ensures err { IsErr result → self.new ≡ record { line = open_line self.old; ended = false } }
    {
        if self.ended {
            self.rest.clear();
            self.ended = false;
        }
        let window = front(piece, MOST - self.rest.len());
        match feed_in(window) {
            Some(at) => {
                self.rest.append(&window[..at])?;
                self.ended = true;
                Ok(Cut::Line { used: at + 1 })
            }
            None => {
                self.rest.append(window)?;
                if self.rest.len() == MOST {
                    return Ok(Cut::Long { used: window.len() });
                }
                Ok(Cut::More)
            }
        }
    }

    /// The line, without its line feed: all of it where it has ended, or what came of it so far.
    pub fn line(&self) -> &[u8]
        ensures { result.now ≡ self.now.line }
    {
        self.rest.bytes()
    }

    /// Whether bytes of a line came that hasn't ended.
    pub fn is_open(&self) -> bool
        ensures { IsTrue result ↔ open_line self.now ≢ [] }
    {
        !self.ended && !self.rest.is_empty()
    }
}

/// The front of a piece, at most so long.
fn front(piece: &[u8], most: usize) -> &[u8]
    ensures { result.now ≡ take most piece.now }
{
    if piece.len() <= most {
        piece
    } else {
        &piece[..most]
    }
}

/// The place of the first line feed.
fn feed_in(bytes: &[u8]) -> Option<usize>
    ensures some { IfSome result (λ i. (i < length bytes.now) × NoFeed (take i bytes.now) × (slice_index bytes.now i ≡ 10)) }
    ensures none { IfNone result (NoFeed bytes.now) }
{
    for (i, byte) in bytes.iter().enumerate() {
        if *byte == b'\n' {
            return Some(i);
        }
    }
    None
}
