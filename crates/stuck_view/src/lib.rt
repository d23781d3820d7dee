//! Where a program is stuck, shown to a reader: the lines that `eval` prints of it, each with a picture
//! of the box or of the module that it names.
#![tactic(auto)]

mod page;
mod parts;
mod trail;

pub use page::{Answer, Page, stuck_page};

#[cfg(test)]
mod tests;
