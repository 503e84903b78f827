//! Images of a namespace: written as text in large parts, and read back line by line.
#![tactic(auto)]

mod arrays;
mod fault;
mod front;
mod header;
mod law;
mod loading;
mod restoring;
mod rewriting;
mod row_line;
mod row_members;
mod row_text;
mod saving;
mod values;

pub use fault::{ImageFault, RewriteFault, SaveFault};
pub use front::{FrontImage, load_at_once, load_front};
pub use law::{reading_is_the_image, reads_back, reads_old_back};
pub use loading::Loading;
pub use restoring::load;
pub use rewriting::rewrite;
pub use saving::{ReadyImage, Saving, image_name, save};
