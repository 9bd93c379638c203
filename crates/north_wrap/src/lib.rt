//! The north wrapper: it reads for the service as the law of reads says, logs the length of each read, and gives output to TCP only once the reads that it
//! depends on are known to be logged.
#![tactic(auto)]

pub use north::North;
pub use read_record::ReadRecord;
pub use records::ReadRecords;
pub use replayed_reads::ReplayedReads;

mod excluded;
pub mod laws;
mod north;
mod read_record;
mod records;
mod replayed_reads;
mod rest;
mod service_run;
