//! The namespace as a directory tree, with an index of the blocks that its files have.
//!
//! An edit walks down the paths that it names and looks at nothing else: a rename moves one node, whatever
//! lies below it, and the status of a block is one look-up. Contracts see neither tree nor index. They see the
//! path map of the definitions, and an edit does to it what the definitions say.
//!
//! Every call takes time in the depth of a path times the logarithm of a directory's width, and in the
//! logarithm of the number of blocks. A delete and a listing take time in the size of what they go through. However
//! deep directories nest, no call takes more stack than a walk down a path. A listing goes row by row, and takes
//! memory for the names of one path and for the directories on its way that have children left. A delete goes the same
//! way, and dropping a namespace takes no memory. How many files and directories there are is kept, and not counted.
#![tactic(auto)]

mod fault;
mod found;
mod index;
mod issued;
mod listing;
mod name;
mod namespace;
mod rows;
mod sizes;
mod touched;
mod tree;

pub use fault::RestoreFault;
pub use found::Found;
pub use listing::{PathRow, copied_names};
pub use namespace::{BlockRows, Namespace};
pub use nn_model::{BlockRow, FileRow, Form};
pub use nn_types::EditFault;
pub use rows::{Extent, Rows};
pub use touched::Touched;
