//! Clients of windows: a content with a picture, commands that change it, and the patch of each command,
//! which leads from the old picture to the new one. The laws of [`Client`] suffice to prove that a screen
//! is right after patches are executed on it.
//!
//! [`Prepared`] is a list of commands for a content, which a window may take over at once.
#![tactic(auto)]

mod areas;
mod clients;
mod lines;
mod prepared;
mod texts;

pub use areas::{PLAIN, keeps_nothing, kept_part, part_of_window, window};
pub use clients::Client;
pub use lines::{
    MOST_LINES, append_lines, area_of, begin_of, cleared, downwards, paint_lines, room, same_lines,
    upwards,
};
pub use prepared::Prepared;
pub use texts::{append_all, append_with_text, decimal_line, line_in_a_row};
