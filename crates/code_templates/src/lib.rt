//! Tables of instructions with holes, and what each of them does on the machine.
#![tactic(auto)]

mod blocks;
mod boot;
mod macros;
mod printer;
mod template;

pub use blocks::{
    branch_on_slot, call_block, choose_slot, make_cell, read_part, return_outcome, set_slot,
    take_outcome,
};
pub use boot::{copy_block, make_table};
pub use printer::{go_to_part, go_to_text, halt, pop_work, push_work, start_text, write_byte};
pub use template::{Hole, Holes, Row, Template};
