//! The table with which a standby starts over a namespace.
ghost use Rattle.std.specs.Prelude.{◌≡◌, OnOk, IfOk};
ghost use Rattle.nn_model.specs.WellFormed.{IsWellFormed};
ghost use Rattle.nn_shadow.specs.Starting.{files_set, HasAll, IsBlank};

use crate::table::set_file;
use nn_replicas::Replicas;
use nn_tree::{Found, Namespace};
use nn_types::Settings;
use std::alloc::{AllocError, Global};

/// The rows of the blocks of all files, closed or open. O(blocks · log blocks).
pub(crate) fn blank_table(
    alloc: Global,
    namespace: &Namespace,
    settings: Settings,
) -> Result<Replicas, AllocError>
    ensures { IfOk result (IsBlank namespace.now settings.min) }
{
    let mut table = Replicas::new(alloc, settings);
    // By ascending id, so that the table grows at its end. What follows takes no memory of it.
    for row in namespace.blocks() {
        table.set_block(row.block, row.closed, 0)?;
    }
    namespace.recall_invariant();
    set_files(&mut table, namespace)?;
    Ok(table)
}

// Sets the rows of all files, each with the file's replication.
fn set_files(table: &mut Replicas, namespace: &Namespace) -> Result<(), AllocError>
    requires well_formed { IsWellFormed namespace.now }
    requires all { HasAll namespace.now table.old }
    ensures { OnOk result (table.new ≡ files_set table.old namespace.now.rows) }
{
    let mut rows = namespace.rows();
    while let Some(found) = rows.next_row()? {
        if let Found::File(file) = found {
            set_file(table, file);
        }
    }
    Ok(())
}
