//! A script of calls, one JSON object a line, and what its lines come to that create and destroy caches;
//! and the members of lines that their ops do not need, or that stand twice.
#![tactic(auto)]

mod creating;
mod fault;
mod following;
mod item;
mod laws;
mod line;
mod live;
mod managed;
mod member;
mod members;
mod number;
mod object;
mod operation;
mod parse;
mod script;
mod stray;
mod tree;
mod twice;

pub use fault::{Member, ScriptFault};
pub use following::{Followed, follow, same_lives};
pub use laws::others_are_ignored;
pub use line::{Line, LineCall};
pub use managed::{ManageOp, Managed};
pub use members::has_member;
pub use operation::name_of;
pub use parse::read_json;
pub use script::{is_blank, pieces, read_script};
pub use stray::stray_line;
pub use twice::{member_twice, number_written};
