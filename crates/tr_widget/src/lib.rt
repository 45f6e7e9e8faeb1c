//! The widgets as one client, so that the windows of one screen can have different ones: a content is
//! the content of one widget, and a command is for one widget. Each widget does its own work; a command
//! for another widget changes nothing, and paints nothing.
#![tactic(auto)]

mod commands;
mod widgets;

pub use commands::WidgetCmd;
pub use widgets::Widget;
