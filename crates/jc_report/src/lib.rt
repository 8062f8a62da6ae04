//! The texts that a run comes to: replies, and the report of a transcript, for people and as JSON for programs.
#![tactic(auto)]

mod arguments;
mod callers;
mod counters;
mod groups;
mod line_numbers;
mod lines;
mod managed_text;
mod managing;
mod queue;
mod quote;
mod replies;
mod reply;
mod report_json;
mod report_text;
mod run_record;
mod totals;
mod values;

pub use groups::grouped;
pub use line_numbers::{Asked, NumberedLine, outline};
pub use managed_text::name_of_op;
pub use quote::quote_text;
pub use reply::{name_of_hook, push_number, reply_text};
pub use report_json::json_report;
pub use report_text::{name_of_kind, report};
pub use run_record::RunRecord;
