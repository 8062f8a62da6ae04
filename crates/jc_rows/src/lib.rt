//! The table of rows that all caches share, its plain reference body, and tables that others may watch.
#![tactic(auto)]

pub mod list_rows;
pub mod rows;
pub mod watched;
