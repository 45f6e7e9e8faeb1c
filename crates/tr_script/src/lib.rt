//! Scripts: the meaning of a text of lines, or the first line with a fault and that line's first
//! fault.
//!
//! A line is judged by its row of a table, which has its fixed words, its values with their ranges and
//! its names, and by the declarations of the lines before it.
#![tactic(auto)]

mod act_lines;
mod desk_lines;
mod editor_lines;
mod leaf_lines;
mod lines;
mod names;
mod opening_lines;
mod refusals;
mod report_lines;
mod scripts;
mod widget_lines;

pub use lines::{MOST_LINES, meaning_of_line, take_line, take_step};
pub use scripts::{read_script, refused_at};
