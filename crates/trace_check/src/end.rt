//! Why a text isn't accepted as the report of a legal trace.

use report_laws::Law;

/// Why a check doesn't accept a text.
#[derive(Clone, Copy)]
pub enum CheckEnd {
    NoMemory,
    /// The first line that is rejected, counted from 1, and the law that it breaks. The end of the text counts as a line.
    Reject { line: u32, law: Law },
}
