//! Writing a front.

ghost use Rattle.std.specs.Prelude.{◌≡◌, ◌≤◌, ◌+◌, ◌++◌, length, OnOk, OnErr};
ghost use Rattle.std.specs.Int.{w32};
ghost use Rattle.byte_grammar.specs.Numbers.{word, zeros};
ghost use Rattle.reply_cache.specs.declared.seats.Seat.{Seat};
ghost use Rattle.state_image.specs.FrontText.{names_text, numbers_text, seat_text, maybe_seat, seats_from, taken_count, one_if, front_text};

use crate::front::Front;
use crate::front_bytes::FrontBytes;
use fid_space::Bytes;
use reply_cache::Seat;
use std::alloc::AllocError as Memory;
use update_record::code_of_answer;

/// A seat.
#[tactic(auto, unfolding(byte_grammar::specs::Numbers::word, byte_grammar::specs::Numbers::zeros, crate::specs::FrontText::seat_text))]
fn seat_bytes(client: u32, seat: Seat) -> [u8; 16]
    ensures { result ≡ seat_text client seat }
{
    let mut bytes = [0; 16];
    bytes[..4].copy_from_slice(&client.to_le_bytes());
    bytes[4..8].copy_from_slice(&seat.number.to_le_bytes());
    bytes[8..12].copy_from_slice(&code_of_answer(&seat.answer()).to_le_bytes());
    bytes
}

/// Adds a client's seat, where it has one.
fn push_seat(out: &mut FrontBytes, client: u32, seat: Option<Seat>)
    requires { length out.old + 16 ≤ 1088 }
    ensures value { out.new ≡ out.old ++ maybe_seat client seat }
    ensures size { length out.new ≤ length out.old + 16 }
{
    match seat {
        None => {}
        Some(seat) => out.push(&seat_bytes(client, seat)),
    }
}

/// Adds the seats that are taken, by their clients.
fn push_taken(out: &mut FrontBytes, seats: &[Option<Seat>])
    requires few { length seats.now ≤ 64 }
    requires room { length out.old ≤ 64 }
    ensures { out.new ≡ out.old ++ seats_from 0 seats.now }
{
    let mut client = 0;
    for seat in seats {
        push_seat(out, client, *seat);
        client += 1;
    }
}

/// 1 for a seat that is taken.
fn one_if(seat: Option<Seat>) -> u32
    ensures value { result ≡ one_if seat }
    ensures small { result ≤ 1 }
{
    match seat {
        None => 0,
        Some(_) => 1,
    }
}

/// How many seats are taken.
fn count_taken(seats: &[Option<Seat>]) -> u32
    requires { length seats.now ≤ 64 }
    ensures value { result ≡ taken_count seats.now }
    ensures small { result ≤ 64 }
{
    let mut count = 0;
    for seat in seats {
        count += one_if(*seat);
    }
    count
}

impl Front {
    /// What stands before the seats: magic, format, the epoch, which target it is, the numbers, and how many
    /// seats follow.
    #[tactic(auto, unfolding(byte_grammar::specs::Numbers::word, byte_grammar::specs::Numbers::zeros))]
    fn head(&self) -> [u8; 64]
        ensures { result ≡ names_text self.now ++ (numbers_text self.now ++ (word w32 (taken_count self.now.seats) ++ zeros 4)) }
    {
        let mut head = [0; 64];
        head[..4].copy_from_slice(&0x444e_4531_u32.to_le_bytes());
        head[4..8].copy_from_slice(&1_u32.to_le_bytes());
        head[8..12].copy_from_slice(&self.epoch.to_le_bytes());
        head[12..16].copy_from_slice(&u32::from(self.index).to_le_bytes());
        head[16..20].copy_from_slice(&u32::from(self.cluster.targets()).to_le_bytes());
        head[24..32].copy_from_slice(&self.transno.to_le_bytes());
        head[32..40].copy_from_slice(&self.clock.to_le_bytes());
        head[40..48].copy_from_slice(&self.next_batch.to_le_bytes());
        head[48..56].copy_from_slice(&self.mark.to_le_bytes());
        head[56..60].copy_from_slice(&count_taken(self.seats.items()).to_le_bytes());
        head
    }

    /// Its bytes. It takes no memory.
    #[tactic(auto, using(crate::proofs::Pieces::head_joined, crate::proofs::Pieces::head_length))]
    pub fn bytes(&self) -> FrontBytes
        ensures { result ≡ front_text self.now }
    {
        let mut bytes = FrontBytes::new();
        bytes.push(&self.head());
        push_taken(&mut bytes, self.seats.items());
        bytes
    }

    /// Adds the front at the end, at most 1,088 bytes. Want of memory adds nothing.
    pub fn encode(&self, out: &mut Bytes) -> Result<(), Memory>
        ensures ok { OnOk result (out.new ≡ out.old ++ front_text self.now) }
        ensures err { OnErr result (out.new ≡ out.old) }
    {
        out.append(self.bytes().bytes())
    }

    /// How many bytes the front has: 64, and 16 for each seat that is taken.
    #[tactic(auto, using(crate::proofs::Lengths::front_length))]
    pub fn size(&self) -> u32
        ensures value { result ≡ length (front_text self.now) }
        ensures small { result ≤ 1088 }
    {
        64 + 16 * count_taken(self.seats.items())
    }
}
