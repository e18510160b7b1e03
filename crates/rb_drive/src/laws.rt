//! What holds of a durable subscription over a restart.

ghost use Rattle.std.specs.Prelude.{◌≡◌, IfSome, None, OnOk};
ghost use Rattle.sqlite.specs.Held.{state};
ghost use Rattle.sqlite.specs.State.{HasCleanDisk};
ghost use Rattle.replica_store.specs.Durable.{HasRows, KeepsRows};
ghost use Rattle.replica_store.specs.Picture.{HoldsReplica};
ghost use Rattle.rb_subscriber.specs.Durable.{DurableAnswers};
ghost use Rattle.rb_subscriber.specs.Subscription.{cursor_of};
ghost use Rattle.rb_drive.specs.Restart.{HoldsRun};

use par_apply::Gate;
use rb_desk::Delivery;
use rb_sequence::Sequence;
use rb_subscriber::{DurableError, StepLedger, Subscription, Workers};
use replica_store::laws::crash_and_open;
use replica_store::{Replica, ReplicaError};
use sqlite::Alter;
use sqlite_trees::store::Reopen;
use std::alloc::Global;
use std::thread::Threads;

/// Accepts a delivery into a replica, loses the machine, and opens the replica again. Returns what
/// the accept returned, and the replica if it opens. Whatever the accept returned, the file has the
/// rows and the cursor of one run of the subscription: what it had accepted, or that and this
/// delivery. After `Ok` it has the rows and the cursor that the subscription has then.
pub fn accept_and_crash<L: StepLedger, R: Threads + Sync, G: Gate, S: Alter + Reopen + Drop>(
    workers: &Workers<R, G>,
    alloc: Global,
    sequence: &Sequence,
    subscription: &mut Subscription<L>,
    mut replica: Replica<S>,
    delivery: &Delivery,
) -> (Result<u64, DurableError<ReplicaError>>, Option<Replica<S>>)
    requires cells { sequence.now ≡ L.cells }
    requires stands { subscription.old.pending ≡ None }
    requires kept { KeepsRows (state S.Store replica.conn) subscription.old.tables.rows
        (cursor_of subscription.old) }
    ensures answers { DurableAnswers L.cells delivery.now result.0 subscription.old
        subscription.new }
    ensures holds { IfSome result.1 (λ again. HasCleanDisk (state S.Store again.conn)
        → HoldsReplica (state S.Store again.conn)
        × HoldsRun L.cells subscription.old delivery.now
        (state S.Store again.conn).committed.trees) }
    ensures stands { OnOk result.0 (IfSome result.1 (λ again.
        HasCleanDisk (state S.Store again.conn)
        → HasRows (state S.Store again.conn).committed.trees subscription.new.tables.rows
        (cursor_of subscription.new))) }
{
    // for what their clauses say of what it has accepted, before and after
    let _cursor_before = subscription.cursor();
    let _tables_before = subscription.tables();
    let answer = subscription.accept_durable(workers, alloc, sequence, &mut replica, delivery);
    let _cursor_after = subscription.cursor();
    let _tables_after = subscription.tables();
    let _fallen = subscription.is_fallen();
    (answer, crash_and_open(alloc, replica))
}
