//! One file that grows at its end, as a trait: a logger keeps its log in it. The calls that change it are recorded, so that a contract can say what a death at
//! any of them may leave. A desk is such a file together with a network of datagrams, whose calls are recorded in one order. Each has a form in memory, and one
//! over std's files and sockets, of which contracts know only how many calls failed.
#![tactic(auto)]

pub use calls::{DeskCall, DiskCall};
pub use death::Death;
pub use desk::Desk;
pub use disk::Disk;
pub use file_disk::FileDisk;
pub use host_desk::HostDesk;
pub use mem_desk::MemDesk;
pub use mem_disk::MemDisk;
pub use mem_file::MemFile;
pub use open_file::OpenFile;
pub use shelf_end::ShelfEnd;
pub use std_file::StdFile;

mod calls;
mod death;
mod desk;
mod disk;
mod excluded;
mod file_disk;
mod host_desk;
mod mem_desk;
mod mem_disk;
mod mem_file;
mod named;
mod open_file;
mod shelf_end;
mod std_file;
