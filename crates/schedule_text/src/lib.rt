//! The texts of a run: the schedule that is read and the report that is written.
#![tactic(auto)]

pub use closing_text::{
    LogLine, phase_word, write_client_line, write_end, write_gone_line, write_log_line,
};
pub use end::ScheduleEnd;
pub use event_text::write_event;
pub use forget_text::write_forget_line;
pub use ft_model::{ClientLine, ClientLines, Events, Limit, LineWhy, Schedule, Script, Way};
pub use header_text::write_header;
pub use packet_text::{is_packet, write_packet_line, write_packet_line_by};
pub use read::{read_fleeting_schedule, read_schedule};
pub use spelling::{read_addr, read_number, read_profile, read_script, read_service};

mod closing_text;
mod end;
mod event_line;
mod event_text;
mod excluded;
pub mod fleeting;
mod forget_text;
mod header_text;
mod line;
mod line_out;
mod line_text;
mod mark_text;
mod message_text;
mod packet_text;
mod read;
pub mod round_trip;
mod spelling;
mod words;
