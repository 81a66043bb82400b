//! What a target that serves keeps in memory.
ghost use Rattle.std.specs.Prelude.{◌≡◌, ◌+◌, ◌*◌, ◌≤◌, ◌++◌, ◌∷◌, [], length, false, replicate, ℕ, OnOk, IfOk};
ghost use Rattle.tree_model.specs.Step.{step};
ghost use Rattle.tree_model.specs.TreeText.{tree_text};
ghost use Rattle.scenario_text.specs.LineText.{texts, line_text};
ghost use Rattle.scenario_text.specs.declared.line.Line.{Line};
ghost use Rattle.dne_cli.specs.Kept.{all_stable, empty_ledger, image_bytes, is_late, item_for, no_seats, seat_of, serve_lines, served, served_lines, served_one, two_lines, accepted_by};

use crate::image::Image;
use fid_space::{Bytes, Cluster, Numbers, Targets};
use scenario_text::{print_accept, print_reply, print_stale};
use std::alloc::{AllocError as Memory, Global};
use std::marker::Model;
use std::mem;
use tree_model::{PlainTree, Request};

/// How many seats there are: one for each client that a request can name.
const SEATS: usize = 256;

/// The tree, the image that a commit writes, the greatest number that each client had accepted, and the
/// numbers that aren't stable yet.
#[derive(Drop)]
pub struct Ledger {
    alloc: Global,
    tree: PlainTree,
    image: Image,
    seats: Vec<u32>,
    pend: Numbers,
}

impl Model for Ledger {
    ghost use Rattle.std.specs.Prelude.{◌≡◌, length};
    ghost use Rattle.dne_cli.specs.Kept.{Ledger, coded_ledger};

    ghost Value = { Ledger };

    ghost coded = { coded_ledger };

    ghost view = { λ l. record { tree = l.tree; count = l.image.0; bytes = l.image.1; seats = l.seats.items; pend = l.pend } };

    ghost invariant = { λ l. length l.seats.items ≡ 256 };
}

impl Ledger {
    /// The ledger of a target that has accepted nothing.
    pub fn new(alloc: Global, cluster: Cluster) -> Result<Ledger, Memory>
        ensures { IfOk result (λ l. l ≡ empty_ledger cluster) }
    {
        let tree = PlainTree::new(alloc, cluster)?;
        let image = Image::new(alloc)?;
        let seats = seats(alloc, SEATS)?;
        Ok(Ledger {
            alloc,
            tree,
            image,
            seats,
            pend: Numbers::new(alloc),
        })
    }

    /// Lends the bytes that a commit writes.
    pub fn image(&self) -> &[u8]
        ensures bytes { result.now ≡ image_bytes self.now }
        ensures short { length result.now ≤ 8 + 303 * self.now.count }
    {
        self.image.bytes()
    }

    /// Takes the numbers that aren't stable yet.
    pub fn take_pending(&mut self) -> Numbers
        ensures numbers { result ≡ self.old.pend }
        ensures after { self.new ≡ all_stable self.old }
    {
        mem::replace(&mut self.pend, Numbers::new(self.alloc))
    }

    /// Adds the text of the tree.
    pub fn show(&self, out: &mut Bytes) -> Result<(), Memory>
        ensures { OnOk result (out.new ≡ out.old ++ tree_text self.now.tree.tree) }
    {
        self.tree.print(out)
    }

    /// The greatest number that a client had accepted, or 0.
    fn seat(&self, client: u8) -> u32
        ensures { result ≡ seat_of self.now client }
    {
        self.seats[client as usize]
    }

    /// Serves the requests in their order, and adds the lines of each. After want of memory the ledger is
    /// given up.
    pub fn serve_all(&mut self, requests: &[Request], out: &mut Bytes) -> Result<(), Memory>
        requires { self.old.count + length requests.now ≤ 65537 }
        ensures after { OnOk result (self.new ≡ served self.old requests.now) }
        ensures count { self.new.count ≤ self.old.count + length requests.now }
        ensures lines { OnOk result (out.new ≡ out.old ++ texts (served_lines self.old requests.now)) }
    {
        for request in requests {
            self.serve(request, out)?;
        }
        Ok(())
    }

    /// Serves a request, and adds its lines. One that is late changes nothing.
    fn serve(&mut self, request: &Request, out: &mut Bytes) -> Result<(), Memory>
        requires { self.old.count ≤ 65536 }
        ensures after { OnOk result (self.new ≡ served_one self.old request.now) }
        ensures count { self.new.count ≤ self.old.count + 1 }
        ensures lines { OnOk result (out.new ≡ out.old ++ texts (serve_lines self.old request.now)) }
    {
        let last = self.seat(request.client);
        if request.number < last {
            return print_stale(request.number, last, out);
        }
        self.accept(request, out)
    }

    /// Accepts a request, which is on target 0 alone, and adds its two lines.
    fn accept(&mut self, request: &Request, out: &mut Bytes) -> Result<(), Memory>
        requires { self.old.count ≤ 65536 }
        ensures count { self.new.count ≤ self.old.count + 1 }
        ensures after { OnOk result (self.new ≡ accepted_by self.old request.now) }
        ensures lines { OnOk result (out.new ≡ out.old ++ texts (two_lines (item_for self.old request.now))) }
    {
        let reply = self.tree.apply(&request.op)?;
        self.image.push(self.alloc, request, &reply)?;
        self.seats[request.client as usize] = request.number;
        self.pend.push(request.number)?;
        print_accept(request.number, &reply, Targets::of_number(1), out)?;
        print_reply(request.number, &reply, out)?;
        Ok(())
    }
}

/// So many seats of clients that had nothing accepted.
fn seats(alloc: Global, len: usize) -> Result<Vec<u32>, Memory>
    ensures { IfOk result (λ v. v.items ≡ no_seats len) }
{
    vec![in alloc; 0u32; len]
}
