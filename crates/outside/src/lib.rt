//! The outside of the program: where its bytes come from, where they go, and the disks.
//!
//! The layer above may rest on this: each object counts its faults, a call fails only where the count of
//! its object rose, what a source or a sink in memory tells is exact, and whether it tells never changes;
//! `take_all` answers all bytes that a source has.
//! An honest disk reads what was written, a sync that succeeds settles all, and after a stop it has an image
//! of its settled bytes; after a fault every call but `power_cycle` fails. `MemoryDisk` and `SureDisk` are
//! honest, and when their calls fail is exact; of a `FileDisk` only the count of faults is known.
#![tactic(auto)]

mod bytes;
mod disk;
mod file;
mod fill;
mod memory;
mod page;
mod pages;
mod put;
mod sink;
mod source;
mod status;
mod stream;
mod sure;
mod take;
mod tally;
mod text_sink;
mod text_source;

pub use disk::{Disk, DiskFault, Plant};
pub use file::FileDisk;
pub use memory::MemoryDisk;
pub use put::put_all;
pub use sink::{Sink, SinkFault};
pub use source::{Source, SourceFault};
pub use status::Status;
pub use stream::{StreamSink, StreamSource};
pub use sure::SureDisk;
pub use take::{TakeFault, take_all};
pub use text_sink::TextSink;
pub use text_source::TextSource;
