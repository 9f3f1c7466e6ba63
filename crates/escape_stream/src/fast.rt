//! Shortcuts: `starts` reads what is whole at the start of the remaining bytes where nothing is unfinished, `command` a
//! command that is whole there without a copy, `parts` a command of few parts without a list of them. A reader may skip
//! this module: each shortcut finds what the general way does, or returns `None`, which leaves all to the general way.

mod command;
mod parts;
mod starts;

pub(crate) use parts::command_of_short;
