//! A whole script that is to be run on silos: its lines, or its first fault; and what its producers are told and
//! what the report of a run of it is, as far as the script alone says so.

mod laws;
mod line;
mod reading;
mod script_line;

pub use laws::{
    explicit_are_told, implicit_are_owed, implicit_subs_are_owed, misses_change_no_other,
    open_have_all, producers_tell, quiet_tells, quiet_tells_script, replies_are_told,
    rules_are_told, scripts_grow,
};
pub use line::Line;
pub use reading::{Script, read_lines};
pub use script_line::ScriptLine;
