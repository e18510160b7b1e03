//! Closes the database of a subscriber's replica at the end of a drive.

ghost use Rattle.std.specs.Prelude.{◌≡◌, map, IfErr, IfOk};
ghost use Rattle.std.specs.List.{AllByRecursion};
ghost use Rattle.rb_drive.specs.Ending.{HasShownConflict};
ghost use Rattle.rb_drive.specs.Owners.{beginning_of};
ghost use Rattle.rb_drive.specs.Run.{IsOfThreads};

use crate::accepting::{Accepting, EndedSubscriber};
use crate::fault::DriveError;
use rb_broker::BrokerBrand;
use replica_store::Replica;
use sqlite::{Alter, FileStore, MemStore};
use sqlite_disk::Disk;
use sqlite_trees::error::StoreError;
use std::alloc::Global;

/// A store of a database that can be closed.
pub trait Closable: Alter {
    /// Copies what its log has into its file, if it has these. All that was committed is in the
    /// file then, without the log.
    fn copy_log(&mut self) -> Result<(), StoreError>;
}

/// A database in memory has no log.
impl Closable for MemStore {
    fn copy_log(&mut self) -> Result<(), StoreError> {
        Ok(())
    }
}

/// After `Ok` the log has nothing.
impl<D: Disk + Drop> Closable for FileStore<D> {
    ghost use Rattle.std.specs.Prelude.{◌≡◌, OnOk};
    ghost use Rattle.sqlite_store.specs.FileStore.{HasSpilled, log_frames};

    fn copy_log(&mut self) -> Result<(), StoreError>
        ensures { OnOk result (¬ HasSpilled self.old → log_frames self.new ≡ 0) }
    {
        self.checkpoint()
    }
}

/// The subscribers, whose replicas are closed.
pub fn all_closed<L: BrokerBrand, S: Closable + Drop>(
    alloc: Global,
    accepting: Vec<Accepting<L, S>>,
) -> Result<Vec<EndedSubscriber<L>>, DriveError>
    ensures begun { IfOk result (λ all. map (λ one. beginning_of one.subscription) all.items
        ≡ map (λ one. beginning_of one.subscription) accepting.items) }
    ensures shown { IfOk result (λ all. AllByRecursion
        (λ one. HasShownConflict L.cells one.subscription one.ending) all.items) }
    ensures err { IfErr result IsOfThreads }
{
    let mut all = Vec::with_capacity(alloc, accepting.len())?;
    for one in accepting {
        all.push(closed(one)?)?;
    }
    Ok(all)
}

fn closed<L: BrokerBrand, S: Closable + Drop>(
    one: Accepting<L, S>,
) -> Result<EndedSubscriber<L>, DriveError>
    ensures begun { IfOk result (λ ended. beginning_of ended.subscription
        ≡ beginning_of one.subscription) }
    ensures shown { IfOk result (λ ended.
        HasShownConflict L.cells ended.subscription ended.ending) }
    ensures err { IfErr result IsOfThreads }
{
    let Accepting {
        subscription,
        ending,
    } = one;
    let (subscription, replica) = subscription.into_parts();
    if let Some(replica) = replica {
        close(replica)?;
    }
    Ok(EndedSubscriber {
        subscription,
        ending,
    })
}

fn close<S: Closable + Drop>(replica: Replica<S>) -> Result<(), DriveError>
    ensures { IfErr result IsOfThreads }
{
    let mut store = replica.into_connection().into_store();
    match store.copy_log() {
        Ok(()) => Ok(()),
        Err(StoreError::OutOfMemory) => Err(DriveError::Memory),
        Err(_) => Err(DriveError::Store),
    }
}
