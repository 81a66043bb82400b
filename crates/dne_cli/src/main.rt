//! The program `dne`: plays a scenario of requests on a cluster of Lustre metadata targets and writes its
//! transcript.
//!
//! The top call is `dne_main`. It carries the headline for the commands that exist so far: what it writes
//! is the transcript of a run of one plain tree over exactly the lines that it read.
#![tactic(auto)]

ghost use Rattle.std.specs.Prelude.{◌≡◌, vec_len, IfNone, IfOk};

mod image;
mod ledger;
mod modes;
mod session;
mod target;
mod top;
mod turns;

use disk_files::open_disks;
use outside::{MemoryDisk, Plant, StreamSink, StreamSource};
use std::alloc::{AllocError as Memory, Global};
use std::env;
use std::process::ExitCode;
pub use top::dne_main;

/// The words after the program's name. Words that can't be had, as one that isn't UTF-8, are none.
fn words_of(rt: &HostRuntime) -> Result<Vec<String>, Memory> {
    let mut words = Vec::new(rt.alloc());
    if let Ok(args) = env::args(rt) {
        for word in args.skip(1) {
            words.push(word)?;
        }
    }
    Ok(words)
}

/// Takes a leading `--store DIR` off the words, and gives DIR.
fn take_store(words: &mut Vec<String>) -> Option<String>
    ensures none { IfNone result (words.new.items ≡ words.old.items) }
{
    if words.len() >= 2 && words[0].as_str() == "--store" {
        let folder = words.remove(1);
        let _ = words.remove(0);
        return Some(folder);
    }
    None
}

/// Sixteen disks in memory.
fn memory_disks(alloc: Global) -> Result<Vec<MemoryDisk>, Memory>
    ensures { IfOk result (λ disks. vec_len disks ≡ 16) }
{
    let mut disks = Vec::new(alloc);
    for _index in 0..16u8 {
        disks.push(MemoryDisk::new(alloc, &[])?)?;
    }
    Ok(disks)
}

/// Runs the program over standard input and output.
fn run_over<D: Plant>(rt: &HostRuntime, words: &[String], mut disks: Vec<D>) -> u8
    requires { vec_len disks ≡ 16 }
{
    let mut input = StreamSource::new(rt.stdin());
    let mut output = StreamSink::new(rt.stdout());
    dne_main(rt.alloc(), words, &mut input, &mut output, &mut disks)
}

fn run(rt: &HostRuntime) -> Result<u8, Memory> {
    let mut words = words_of(rt)?;
    match take_store(&mut words) {
        None => Ok(run_over(rt, words.as_slice(), memory_disks(rt.alloc())?)),
        Some(folder) => match open_disks(rt, folder.as_str()) {
            Ok(disks) => Ok(run_over(rt, words.as_slice(), disks)),
            Err(_) => {
                let _ = rt.print("store: cannot open\n");
                Ok(6)
            }
        },
    }
}

fn main(rt: HostRuntime) -> ExitCode {
    match run(&rt) {
        Ok(status) => ExitCode::from(status),
        Err(_) => ExitCode::from(3),
    }
}
