ghost use Rattle.std.specs.Prelude.{◌≡◌, ◌<◌, get_or, length, None, true};
ghost use Rattle.reply_cache.specs.Seats.{no_seats, answer_of, refusal_of, is_answer, judged, has_later, put_seat};

use std::marker::Model;
use tree_model::{Errno, Reply};

/// The last answer of a client.
#[derive(Clone, Copy, Debug, PartialEq, Eq)]
pub struct Seat {
    /// The number of the request.
    pub number: u32,
    /// The error that was its reply, or none where it was done.
    pub refused: Option<Errno>,
}

/// What a request's number is by the seat of its client.
#[derive(Debug, Drop)]
pub enum Judgement {
    /// It is the one that was answered last, with this reply.
    Repeat(Reply),
    /// A greater one was answered: this one.
    Stale(u32),
    /// It is greater than all that were answered.
    New,
}

/// The seats of a target, which contracts see as a list of 64, by client.
#[derive(Drop)]
pub struct Seats {
    seats: [Option<Seat>; 64],
}

impl Model for Seats {
    ghost use Rattle.std.specs.Prelude.{List, Option, length, ◌≡◌};
    ghost use Rattle.reply_cache.specs.declared.seats.Seat.{Seat};

    ghost Value = { List (Option Seat) };

    ghost view = { λ s. s.seats };

    ghost invariant = { λ s. length s.seats ≡ 64 };
}

/// The reply that a seat keeps.
fn answer(refused: Option<Errno>) -> Reply
    ensures { result ≡ answer_of refused }
{
    match refused {
        None => Reply::Ok,
        Some(errno) => Reply::Err(errno),
    }
}

impl Seat {
    /// The reply that it keeps.
    pub fn answer(self) -> Reply
        ensures { result ≡ answer_of self.refused }
    {
        answer(self.refused)
    }
}

/// What a seat keeps of a reply.
fn refusal(reply: &Reply) -> Option<Errno>
    ensures { result ≡ refusal_of reply.now }
{
    match reply {
        Reply::Err(errno) => Some(*errno),
        _ => None,
    }
}

/// Whether a seat has a greater number.
fn has_later(seat: Option<Seat>, number: u32) -> bool
    ensures { result ≡ has_later seat number }
{
    match seat {
        None => false,
        Some(seat) => number < seat.number,
    }
}

impl Seats {
    /// Seats without an answer.
    pub fn new() -> Seats
        ensures { result ≡ no_seats }
    {
        Seats { seats: [None; 64] }
    }

    /// The seat of a client, 0 to 63, or none where it was never answered.
    pub fn seat(&self, client: u8) -> Option<Seat>
        requires { client < 64 }
        ensures value { result ≡ get_or self.now client None }
        ensures all { length self.now ≡ 64 }
    {
        self.seats[client as usize]
    }

    /// Lends the seats by the clients.
    pub fn items(&self) -> &[Option<Seat>]
        ensures value { result.now ≡ self.now }
        ensures all { length self.now ≡ 64 }
    {
        self.seats.as_slice()
    }

    /// What a number of a client is: a repeat, stale or new. It takes no memory.
    pub fn judge(&self, client: u8, number: u32) -> Judgement
        requires { client < 64 }
        ensures { result ≡ judged (get_or self.now client None) number }
    {
        match self.seat(client) {
            None => Judgement::New,
            Some(seat) => {
                if seat.number == number {
                    Judgement::Repeat(answer(seat.refused))
                } else if number < seat.number {
                    Judgement::Stale(seat.number)
                } else {
                    Judgement::New
                }
            }
        }
    }

    /// Keeps a reply, `Ok` or an error, where its number isn't smaller than the seat's. It takes no memory.
    pub fn put(&mut self, client: u8, number: u32, reply: &Reply)
        requires client { client < 64 }
        requires answer { is_answer reply.now ≡ true }
        ensures { self.new ≡ put_seat self.old client number reply.now }
    {
        if has_later(self.seat(client), number) {
            return;
        }
        self.seats[client as usize] = Some(Seat {
            number,
            refused: refusal(reply),
        });
    }
}
