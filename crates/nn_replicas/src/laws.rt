//! Laws over the definitions: functions that do nothing, whose contracts hold.
ghost use Rattle.std.specs.Prelude.{◌≡◌, ℕ, Bool, true, false, Option, Some, None};
ghost use Rattle.nn_types.specs.declared.block.Block.{Block};
ghost use Rattle.nn_types.specs.declared.replica.Replica.{Replica};
ghost use Rattle.nn_replicas.specs.Table.{Replicas};
ghost use Rattle.nn_replicas.specs.Calls.{empty_table, room_made, block_set, pair_placed, replica_put, replica_erased, stamp_at, reaches, due_told, block_retired, room_given_back};
ghost use Rattle.nn_replicas.specs.Effects.{MakesRoom, Names, Places, SetsReplica, Retires, GivesBack};
ghost use Rattle.nn_replicas.specs.Agreement.{CountsAgree};
ghost use Rattle.nn_replicas.specs.Order.{IsSortedTable};

/// What each call of the table changes, told by the four things that it is asked for: rows, replicas, orders and
/// room.
pub fn each_call_changes()
    ensures make_room { (t : Replicas) (id : ℕ) → MakesRoom t id (room_made t id) }
    ensures set_block { (t : Replicas) (block : Block) (closed : Bool) (replication : ℕ) → Names t block closed replication (block_set t block closed replication) }
    ensures place { (t : Replicas) (dn id : ℕ) → Places t dn id (pair_placed t dn id) }
    ensures put { (t : Replicas) (dn id : ℕ) (r : Replica) → SetsReplica t dn id (Some r) (replica_put t dn id r) }
    ensures erase { (t : Replicas) (dn id : ℕ) → SetsReplica t dn id None (replica_erased t dn id) }
    ensures tell_due { (t : Replicas) (dn id stamp : ℕ) (r : Option Replica) → reaches (stamp_at t id) stamp ≡ true → SetsReplica (pair_placed t dn id) dn id r (due_told t dn id stamp r) }
    ensures tell_early { (t : Replicas) (dn id stamp : ℕ) (r : Option Replica) → reaches (stamp_at t id) stamp ≡ false → Places t dn id (due_told t dn id stamp r) }
    ensures retire { (t : Replicas) (id : ℕ) → Retires t id (block_retired t id) }
    ensures give_back { (t : Replicas) (id : ℕ) → IsSortedTable t → GivesBack t id (room_given_back t id) }
{}

/// Block ids are in order in every table that the calls make, and so are the DataNodes of each.
pub fn tables_are_in_order()
    ensures new { (min : ℕ) → IsSortedTable (empty_table min) }
    ensures make_room { (t : Replicas) (id : ℕ) → IsSortedTable t → IsSortedTable (room_made t id) }
    ensures set_block { (t : Replicas) (block : Block) (closed : Bool) (replication : ℕ) → IsSortedTable t → IsSortedTable (block_set t block closed replication) }
    ensures place { (t : Replicas) (dn id : ℕ) → IsSortedTable t → IsSortedTable (pair_placed t dn id) }
    ensures put { (t : Replicas) (dn id : ℕ) (r : Replica) → IsSortedTable t → IsSortedTable (replica_put t dn id r) }
    ensures erase { (t : Replicas) (dn id : ℕ) → IsSortedTable t → IsSortedTable (replica_erased t dn id) }
    ensures tell_due { (t : Replicas) (dn id stamp : ℕ) (r : Option Replica) → IsSortedTable t → IsSortedTable (due_told t dn id stamp r) }
    ensures retire { (t : Replicas) (id : ℕ) → IsSortedTable t → IsSortedTable (block_retired t id) }
    ensures give_back { (t : Replicas) (id : ℕ) → IsSortedTable t → IsSortedTable (room_given_back t id) }
{}

/// A table that shows a namespace has its counts.
pub fn counts_are_the_namespaces()
    ensures { CountsAgree }
{}
