//! Forms of a list whose fractions stand over one denominator: those of every list that fits.
#![tactic(auto)]

mod joint;
mod joint_clear;
mod joint_form;
mod joint_list;
mod joint_made;
mod joint_row;
mod joint_step;
mod joint_value;
mod joint_width;

pub use joint_list::joint_forms;
