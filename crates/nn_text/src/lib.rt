//! What listings and images are made of: numbers in decimal, and paths as JSON writes them.
//!
//! Each call puts its text on a page, and takes no memory of its own.
#![tactic(auto)]

mod digits;
mod path;
mod plain;
mod put;

pub use digits::fill_number;
pub use put::{put_number, put_path};
