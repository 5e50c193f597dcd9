//! What a script's simulation prints: the texts of replies, of the ends of drains, and of the report.

pub mod parts;
mod report;
mod text;

pub use report::report_text;
pub use text::{appended_line, drain_line, drain_text, outcome_line, reply_text};
