ghost use Rattle.std.specs.Prelude.{◌≡◌, ◌≢◌, ◌≤◌, ◌∷◌, ◌↔◌, [], ℕ, IsTrue, codes, map, IfOk};
ghost use Rattle.std.specs.Fmt.{decimal};
ghost use Rattle.scenario_text.specs.Spelling.{IsCommand, IsPlayed, IsTarget, spelling, words_of, is_create};
ghost use Rattle.tree_model.specs.OpText.{IsOp, op_words};
ghost use Rattle.tree_model.specs.declared.op.Op.{Op};

use fid_space::Cluster;
use std::alloc::Global;
use tree_model::{Op, OpFault, Request, number, words};

/// What a line of a scenario asks for.
#[derive(Debug, Drop)]
pub enum Command {
    /// Makes the cluster.
    Cluster(Cluster),
    /// Sends a request.
    Send(Request),
    /// Sends the request with this number once more.
    Again(u32),
    /// Delivers the message with this number, also one that was delivered or lost before.
    Deliver(u32),
    /// Loses the message with this number: `settle` passes it over.
    Drop(u32),
    /// Delivers what was sent.
    Settle,
    /// Sends once more what has no answer yet.
    Resend,
    /// Shows the messages that wait to be delivered.
    List,
    /// Shows the live records of a target's update log.
    Log(u8),
    /// Shows the tree.
    Tree,
    /// Ends the scenario.
    End,
    /// Commits what a target has accepted.
    Commit(u8),
    /// Stops a target: it loses all but its disk.
    Crash(u8),
    /// Starts a target that is down, from its disk.
    Restart(u8),
    /// Lets so many writes and syncs of a target's disk pass, and fails the next one. The choice says which
    /// of the bytes that aren't settled a restart finds: those whose offset modulo 8 is a bit of it.
    Fuse { target: u8, after: u32, choice: u8 },
}

/// Why a line was refused.
#[derive(Clone, Copy, Debug, PartialEq, Eq)]
pub enum TextFault {
    /// It is no command that is known so far, or none that may come here.
    NotYet,
    /// Memory ran out.
    Memory,
}

impl Command {
    /// Reads a line without its line feed. A request is read for the cluster that was made, and none is
    /// where none was made.
    pub fn parse(alloc: Global, line: &[u8], cluster: Option<Cluster>) -> Result<Command, TextFault>
        ensures ok { IfOk result (λ c. IsCommand cluster c × (line.now ≡ spelling c)) }
        ensures refused { result ≡ Err TextFault.NotYet → (c : _) → IsCommand cluster c → line.now ≢ spelling c }
    {
        let words = match words(alloc, line) {
            Ok(words) => words,
            Err(_) => return Err(TextFault::Memory),
        };
        of_words(alloc, words.as_slice(), cluster)
    }

    /// Whether it is one of the commands that are played so far: a cluster of one target, creates, and
    /// what speaks of no message and no log.
    pub fn is_played(&self) -> bool
        ensures { IsTrue result ↔ IsPlayed self.now }
    {
        match self {
            Command::Cluster(cluster) => cluster.targets() == 1,
            Command::Send(request) => is_create(&request.op),
            Command::Again(_) => false,
            Command::Deliver(_) => false,
            Command::Drop(_) => false,
            Command::Settle => true,
            Command::Resend => false,
            Command::List => false,
            Command::Log(_) => false,
            Command::Tree => true,
            Command::End => true,
            Command::Commit(_) => true,
            Command::Crash(_) => true,
            Command::Restart(_) => true,
            Command::Fuse { .. } => true,
        }
    }
}

fn is_create(op: &Op) -> bool
    ensures { result ≡ is_create op.now }
{
    match op {
        Op::Create { .. } => true,
        _ => false,
    }
}

/// Reads the words of a line.
fn of_words(alloc: Global, words: &[&[u8]], cluster: Option<Cluster>) -> Result<Command, TextFault>
    ensures ok { IfOk result (λ c. IsCommand cluster c × (map (λ w. w.now) words.now ≡ words_of c)) }
    ensures refused { result ≡ Err TextFault.NotYet → (c : _) → IsCommand cluster c → map (λ w. w.now) words.now ≢ words_of c }
{
    match words {
        [one] => of_one(*one, cluster),
        [one, two] => of_two(alloc, *one, *two, cluster),
        [first, second, third, rest @ ..] => {
            of_more(alloc, *first, *second, *third, rest, cluster)
        }
        _ => Err(TextFault::NotYet),
    }
}

fn of_one(word: &[u8], cluster: Option<Cluster>) -> Result<Command, TextFault>
    ensures ok { IfOk result (λ c. IsCommand cluster c × (word.now ∷ [] ≡ words_of c)) }
    ensures refused { result ≡ Err TextFault.NotYet → (c : _) → IsCommand cluster c → word.now ∷ [] ≢ words_of c }
{
    let _ = cluster;
    if word == b"settle".as_slice() {
        return Ok(Command::Settle);
    }
    if word == b"tree".as_slice() {
        return Ok(Command::Tree);
    }
    if word == b"end".as_slice() {
        return Ok(Command::End);
    }
    if word == b"resend".as_slice() {
        return Ok(Command::Resend);
    }
    if word == b"list".as_slice() {
        return Ok(Command::List);
    }
    Err(TextFault::NotYet)
}

fn of_two(
    alloc: Global,
    first: &[u8],
    second: &[u8],
    cluster: Option<Cluster>,
) -> Result<Command, TextFault>
    ensures ok { IfOk result (λ c. IsCommand cluster c × (first.now ∷ second.now ∷ [] ≡ words_of c)) }
    ensures refused { result ≡ Err TextFault.NotYet → (c : _) → IsCommand cluster c → first.now ∷ second.now ∷ [] ≢ words_of c }
{
    if first == b"cluster".as_slice() {
        return Ok(Command::Cluster(cluster_in(alloc, second)?));
    }
    if first == b"commit".as_slice() {
        return Ok(Command::Commit(target_in(alloc, second, cluster)?));
    }
    if first == b"crash".as_slice() {
        return Ok(Command::Crash(target_in(alloc, second, cluster)?));
    }
    if first == b"restart".as_slice() {
        return Ok(Command::Restart(target_in(alloc, second, cluster)?));
    }
    if first == b"log".as_slice() {
        return Ok(Command::Log(target_in(alloc, second, cluster)?));
    }
    if first == b"again".as_slice() {
        return Ok(Command::Again(number_in(alloc, second, 1, 65_536)?));
    }
    if first == b"deliver".as_slice() {
        return Ok(Command::Deliver(message_in(alloc, second)?));
    }
    if first == b"drop".as_slice() {
        return Ok(Command::Drop(message_in(alloc, second)?));
    }
    Err(TextFault::NotYet)
}

/// Reads three words or more.
fn of_more(
    alloc: Global,
    first: &[u8],
    second: &[u8],
    third: &[u8],
    rest: &[&[u8]],
    cluster: Option<Cluster>,
) -> Result<Command, TextFault>
    ensures ok { IfOk result (λ c. IsCommand cluster c
        × (first.now ∷ second.now ∷ third.now ∷ map (λ w. w.now) rest.now ≡ words_of c)) }
    ensures refused { result ≡ Err TextFault.NotYet → (c : _) → IsCommand cluster c
        → first.now ∷ second.now ∷ third.now ∷ map (λ w. w.now) rest.now ≢ words_of c }
{
    if first == b"send".as_slice() {
        return of_send(alloc, second, third, rest, cluster);
    }
    if first == b"fuse".as_slice() {
        return of_fuse(alloc, second, third, rest, cluster);
    }
    Err(TextFault::NotYet)
}

fn of_fuse(
    alloc: Global,
    target: &[u8],
    after: &[u8],
    rest: &[&[u8]],
    cluster: Option<Cluster>,
) -> Result<Command, TextFault>
    ensures ok { IfOk result (λ c. IsCommand cluster c
        × (codes "fuse" ∷ target.now ∷ after.now ∷ map (λ w. w.now) rest.now ≡ words_of c)) }
    ensures refused { result ≡ Err TextFault.NotYet → (c : _) → IsCommand cluster c
        → codes "fuse" ∷ target.now ∷ after.now ∷ map (λ w. w.now) rest.now ≢ words_of c }
{
    match rest {
        [choice] => fuse_of(alloc, target, after, *choice, cluster),
        _ => Err(TextFault::NotYet),
    }
}

fn fuse_of(
    alloc: Global,
    target_word: &[u8],
    after_word: &[u8],
    choice_word: &[u8],
    cluster: Option<Cluster>,
) -> Result<Command, TextFault>
    ensures ok { IfOk result (λ c. IsCommand cluster c
        × (codes "fuse" ∷ target_word.now ∷ after_word.now ∷ choice_word.now ∷ [] ≡ words_of c)) }
    ensures refused { result ≡ Err TextFault.NotYet → (c : _) → IsCommand cluster c
        → codes "fuse" ∷ target_word.now ∷ after_word.now ∷ choice_word.now ∷ [] ≢ words_of c }
{
    let target = target_in(alloc, target_word, cluster)?;
    let after = number_in(alloc, after_word, 0, 1_000_000)?;
    let choice = number_in(alloc, choice_word, 0, 255)?;
    Ok(Command::Fuse {
        target,
        after,
        choice: choice as u8,
    })
}

fn of_send(
    alloc: Global,
    number_word: &[u8],
    client_word: &[u8],
    op_words: &[&[u8]],
    cluster: Option<Cluster>,
) -> Result<Command, TextFault>
    ensures ok { IfOk result (λ c. IsCommand cluster c
        × (codes "send" ∷ number_word.now ∷ client_word.now ∷ map (λ w. w.now) op_words.now ≡ words_of c)) }
    ensures refused { result ≡ Err TextFault.NotYet → (c : _) → IsCommand cluster c
        → codes "send" ∷ number_word.now ∷ client_word.now ∷ map (λ w. w.now) op_words.now ≢ words_of c }
{
    let cluster = match cluster {
        Some(cluster) => cluster,
        None => return Err(TextFault::NotYet),
    };
    let number = number_in(alloc, number_word, 1, 65_536)?;
    let client = number_in(alloc, client_word, 0, 63)?;
    let op = op_in(alloc, op_words, cluster)?;
    Ok(Command::Send(Request {
        number,
        client: client as u8,
        op,
    }))
}

/// Reads an operation.
fn op_in(alloc: Global, words: &[&[u8]], cluster: Cluster) -> Result<Op, TextFault>
    ensures ok { IfOk result (λ op. IsOp cluster op × (map (λ w. w.now) words.now ≡ op_words op)) }
    ensures refused { result ≡ Err TextFault.NotYet → (op : Op) → IsOp cluster op → map (λ w. w.now) words.now ≢ op_words op }
{
    match Op::from_words(alloc, words, cluster) {
        Ok(op) => Ok(op),
        Err(OpFault::Memory) => Err(TextFault::Memory),
        Err(_) => Err(TextFault::NotYet),
    }
}

/// Reads a number between two limits.
fn number_in(alloc: Global, word: &[u8], least: u32, most: u32) -> Result<u32, TextFault>
    ensures ok { IfOk result (λ n. (least ≤ n) × (n ≤ most) × (word.now ≡ decimal n)) }
    ensures refused { result ≡ Err TextFault.NotYet → (n : ℕ) → least ≤ n → n ≤ most → word.now ≢ decimal n }
{
    let n = match number(alloc, word) {
        Ok(Some(n)) => n,
        Ok(None) => return Err(TextFault::NotYet),
        Err(_) => return Err(TextFault::Memory),
    };
    if n < least {
        return Err(TextFault::NotYet);
    }
    if n > most {
        return Err(TextFault::NotYet);
    }
    Ok(n)
}

/// Reads the number of a message.
fn message_in(alloc: Global, word: &[u8]) -> Result<u32, TextFault>
    ensures ok { IfOk result (λ k. (k ≤ 4294967295) × (word.now ≡ decimal k)) }
    ensures refused { result ≡ Err TextFault.NotYet → (k : ℕ) → k ≤ 4294967295 → word.now ≢ decimal k }
{
    number_in(alloc, word, 0, u32::MAX)
}

/// Reads the number of a target of the cluster.
fn target_in(alloc: Global, word: &[u8], cluster: Option<Cluster>) -> Result<u8, TextFault>
    ensures ok { IfOk result (λ t. IsTarget cluster t × (word.now ≡ decimal t)) }
    ensures refused { result ≡ Err TextFault.NotYet → (t : ℕ) → IsTarget cluster t → word.now ≢ decimal t }
{
    let cluster = match cluster {
        Some(cluster) => cluster,
        None => return Err(TextFault::NotYet),
    };
    let target = number_in(alloc, word, 0, u32::from(cluster.targets() - 1))?;
    Ok(target as u8)
}

/// Reads how many targets a cluster has.
fn cluster_in(alloc: Global, word: &[u8]) -> Result<Cluster, TextFault>
    ensures ok { IfOk result (λ n. (1 ≤ n) × (n ≤ 16) × (word.now ≡ decimal n)) }
    ensures refused { result ≡ Err TextFault.NotYet → (n : ℕ) → 1 ≤ n → n ≤ 16 → word.now ≢ decimal n }
{
    let targets = number_in(alloc, word, 1, 16)?;
    match Cluster::new(targets as u8) {
        Some(cluster) => Ok(cluster),
        None => unreachable!(),
    }
}
