ghost use Rattle.std.specs.Prelude.{◌≡◌, ◌≢◌, ◌≤◌, ◌++◌, ◌∷◌, [], codes, IfOk, IfSome, IfNone, OnOk, is_some};
ghost use Rattle.std.specs.Fmt.{decimal};
ghost use Rattle.fid_space.specs.FidText.{fid_text, IsFid};
ghost use Rattle.outside.specs.Causes.{Rose};
ghost use Rattle.outside.specs.declared.status.Status.{Status};
ghost use Rattle.fid_space.specs.Homes.{home_text};
ghost use Rattle.dne_cli.specs.Words.{all_bytes, Asks, IsQuery, Answers, query_answer, home_answer};

use fid_space::{Bytes, Cluster, Fid, print_home};
use outside::{Sink, Status, put_all};
use std::alloc::{AllocError as Memory, Global};
use striped_dir::{fnv1a_64, print_hash};
use tree_model::{Name, NameFault, number};

/// What the program's words ask for.
#[derive(Clone, Copy, Debug, PartialEq, Eq)]
pub enum Mode {
    /// To play a scenario.
    Play,
    /// To run a scenario on the plain tree alone.
    Model,
    /// To show an update request.
    DecodeRequest,
    /// To show an update record.
    DecodeRecord,
    /// To show an update log.
    DecodeLog,
    /// An answer that reads no input.
    Query,
}

/// What words that read no input ask for.
#[derive(Drop)]
pub enum Query {
    /// The hash of a name.
    Hash(Name),
    /// Where a FID lives in a cluster.
    Home(Cluster, Fid),
    /// Nothing that the program has.
    Bad,
}

/// What the words ask for: a run over the input, or an answer that reads none.
pub fn mode_of(words: &[String]) -> Mode
    ensures { Asks (all_bytes words.now) result }
{
    match words {
        [word] => mode_of_one(word.as_bytes()),
        [first, word] => mode_of_two(first.as_bytes(), word.as_bytes()),
        _ => Mode::Query,
    }
}

fn mode_of_one(word: &[u8]) -> Mode
    ensures { Asks (word.now ∷ []) result }
{
    match word {
        b"play" => Mode::Play,
        b"model" => Mode::Model,
        _ => Mode::Query,
    }
}

fn mode_of_two(first: &[u8], word: &[u8]) -> Mode
    ensures { Asks (first.now ∷ word.now ∷ []) result }
{
    if first != b"decode".as_slice() {
        return Mode::Query;
    }
    mode_of_format(word)
}

/// The mode that decodes the format of this name.
fn mode_of_format(word: &[u8]) -> Mode
    ensures { Asks (codes "decode" ∷ word.now ∷ []) result }
{
    if word == b"request".as_slice() {
        Mode::DecodeRequest
    } else if word == b"record".as_slice() {
        Mode::DecodeRecord
    } else if word == b"log".as_slice() {
        Mode::DecodeLog
    } else {
        Mode::Query
    }
}

/// What the words ask for, where they ask for no run over the input.
fn query_of(alloc: Global, words: &[String]) -> Result<Query, Memory>
    ensures { IfOk result (λ query. IsQuery (all_bytes words.now) query) }
{
    match words {
        [first, name] => hash_query(alloc, first.as_bytes(), name.as_bytes()),
        [first, targets, fid] => {
            home_query(alloc, first.as_bytes(), targets.as_bytes(), fid.as_bytes())
        }
        _ => Ok(Query::Bad),
    }
}

fn hash_query(alloc: Global, first: &[u8], word: &[u8]) -> Result<Query, Memory>
    ensures { IfOk result (λ query. IsQuery (first.now ∷ word.now ∷ []) query) }
{
    if first != b"hash".as_slice() || word.first() == Some(&b'-') {
        return Ok(Query::Bad);
    }
    match Name::parse(alloc, word) {
        Ok(name) => Ok(Query::Hash(name)),
        Err(NameFault::BadName) => Ok(Query::Bad),
        Err(NameFault::Memory) => Err(Memory),
    }
}

fn home_query(alloc: Global, first: &[u8], targets: &[u8], fid: &[u8]) -> Result<Query, Memory>
    ensures { IfOk result (λ query. IsQuery (first.now ∷ targets.now ∷ fid.now ∷ []) query) }
{
    if first != b"fid".as_slice() {
        return Ok(Query::Bad);
    }
    let cluster = match cluster_of(alloc, targets)? {
        Some(cluster) => cluster,
        None => return Ok(Query::Bad),
    };
    match Fid::parse(fid) {
        Ok(fid) => Ok(Query::Home(cluster, fid)),
        Err(_) => Ok(Query::Bad),
    }
}

/// The cluster with as many targets as the word says, or `None` where it says no number of 1 to 16.
fn cluster_of(alloc: Global, word: &[u8]) -> Result<Option<Cluster>, Memory>
    ensures some { IfOk result (λ r. IfSome r (λ targets. (1 ≤ targets) × (targets ≤ 16) × (word.now ≡ decimal targets))) }
    ensures none { IfOk result (λ r. IfNone r ((targets : _) → 1 ≤ targets → targets ≤ 16 → word.now ≢ decimal targets)) }
{
    let targets = match number(alloc, word)? {
        Some(targets) => targets,
        None => return Ok(None),
    };
    if targets == 0 || targets > 16 {
        return Ok(None);
    }
    Ok(Cluster::new(targets as u8))
}

/// Adds the answer's text, and answers its status.
fn print_query(query: &Query, out: &mut Bytes) -> Result<Status, Memory>
    ensures text { OnOk result (out.new ≡ out.old ++ (query_answer query.now).0) }
    ensures status { IfOk result (λ status. status ≡ (query_answer query.now).1) }
{
    match query {
        Query::Hash(name) => {
            print_hash(fnv1a_64(name.bytes()), out)?;
            out.push(b'\n')?;
            Ok(Status::Done)
        }
        Query::Home(cluster, fid) => print_where(*cluster, *fid, out),
        Query::Bad => {
            out.append(b"words: BadWords\n")?;
            Ok(Status::Refused)
        }
    }
}

fn print_where(cluster: Cluster, fid: Fid, out: &mut Bytes) -> Result<Status, Memory>
    ensures text { OnOk result (out.new ≡ out.old ++ (home_answer (home_text cluster fid)).0) }
    ensures status { IfOk result (λ status. status ≡ (home_answer (home_text cluster fid)).1) }
{
    if print_home(cluster, fid, out)? {
        out.push(b'\n')?;
        Ok(Status::Done)
    } else {
        out.append(b"no home\n")?;
        Ok(Status::Refused)
    }
}

/// Answers words that ask for no run over the input.
pub fn answer<O: Sink>(alloc: Global, words: &[String], output: &mut O) -> Status
    ensures answers { Answers (all_bytes words.now) (O.written output.old) (O.written output.new) result }
    ensures source { result ≢ Status.Source }
    ensures sink { result ≡ Status.Sink → Rose (O.sink_faults output.old) (O.sink_faults output.new) }
{
    let query = match query_of(alloc, words) {
        Ok(query) => query,
        Err(_) => return Status::Memory,
    };
    let mut text = Bytes::new(alloc);
    let status = match print_query(&query, &mut text) {
        Ok(status) => status,
        Err(_) => return Status::Memory,
    };
    match put_all(output, text.bytes()) {
        Ok(()) => status,
        Err(_) => Status::Sink,
    }
}
