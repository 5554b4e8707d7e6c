//! Sources and sinks of bytes, and disks: traits that define the bytes left to read, the bytes
//! written and the images that a stop may leave, with a count of faults; in memory, in memory with
//! scripted faults, and over the runtime.
#![tactic(auto)]

mod disk;
mod file_disk;
mod history;
mod plain_disk;
mod plain_streams;
mod script_disk;
mod script_streams;
mod std_streams;
mod streams;

pub use disk::{Disk, images_split, write_synced};
pub use file_disk::FileDisk;
pub use history::Pick;
pub use plain_disk::PlainDisk;
pub use plain_streams::{PlainSink, PlainSource};
pub use script_disk::ScriptDisk;
pub use script_streams::{ScriptSink, ScriptSource};
pub use std_streams::{StdSink, StdSource};
pub use streams::{Failed, Sink, Source};
