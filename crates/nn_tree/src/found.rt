//! What a look-up finds.
use nn_model::FileRow;

/// What stands at a path.
#[derive(Clone, Copy, Debug)]
pub enum Found<'a> {
    Dir,
    File(&'a FileRow),
}
