//! Keepers of stores in memory and in files.
ghost use Rattle.std.specs.Prelude.{◌≡◌, [], None, Some, IfOk, IsErrOf, true};
ghost use Rattle.sqlite.specs.Files.{over_files};
ghost use Rattle.merge_ports.specs.Faults.{one_more};
ghost use Rattle.merge_ports.specs.Keeping.{HasKeepCause};
ghost use Rattle.merge_ports.specs.declared.keeper.KeepFault.TheVariants.{Failed as failed};
ghost use Rattle.merge_sqlite.specs.Keeping.{HasCommitted, HasLoaded};

use merge_keeper::MemoryKeeper;
use merge_ports::{Entries, EntryEdit, KeepFault, Keeper};
use merge_sqlite::SqliteKeeper;
use merge_types::Listing;
use sqlite::FileStore;
use sqlite_std_file::File;
use std::alloc::Global;

/// The keeper of a store in memory or in a file. It tells what that keeper tells.
#[derive(Drop)]
pub enum Store<M, F> {
    Memory(M),
    File(F),
}

impl<M: Keeper, F: Keeper> Keeper for Store<M, F> {
    ghost use Rattle.merge_outside.specs.Stores.{told_by, count_of};

    ghost told = { told_by M.told F.told };

    ghost count = { count_of M.count F.count };

    fn load(&mut self) -> Result<Entries, KeepFault> {
        match self {
            Store::Memory(keeper) => keeper.load(),
            Store::File(keeper) => keeper.load(),
        }
    }

    fn commit(&mut self, edits: &[EntryEdit]) -> Result<(), KeepFault> {
        match self {
            Store::Memory(keeper) => keeper.commit(edits),
            Store::File(keeper) => keeper.commit(edits),
        }
    }

    fn faults(&self) -> u64 {
        match self {
            Store::Memory(keeper) => keeper.faults(),
            Store::File(keeper) => keeper.faults(),
        }
    }
}

/// The keeper of a SQLite file that the system has. It tells nothing of its map, and promises what
/// that of the file does.
///
/// Its name has no parameters, so a proof of what is called with it looks into no database.
#[derive(Drop)]
pub struct FileKeeper {
    keeper: SqliteKeeper<FileStore<File>>,
}

impl FileKeeper {
    // The keeper of the file at a path.
    fn open(rt: &HostRuntime, path: &str) -> Result<Self, KeepFault>
        ensures fresh { IfOk result (λ keeper. ⟦<FileKeeper as Keeper>⟧.count keeper ≡ 0) }
    {
        let keeper = SqliteKeeper::open(rt, path)?;
        Ok(FileKeeper { keeper })
    }
}

impl Keeper for FileKeeper {
    ghost use Rattle.std.specs.Prelude.{None};

    ghost told = { λ k. None };

    ghost count = { λ k. ⟦<SqliteKeeper<FileStore<File>> as Keeper>⟧.count k.keeper };

    fn load(&mut self) -> Result<Entries, KeepFault>
        ensures cause { HasKeepCause self.old.keeper.count self.new.keeper.count result }
        ensures counted { IsErrOf result failed → self.new.keeper.count ≡ one_more self.old.keeper.count }
        ensures loaded { HasLoaded over_files self.old.keeper.all.text self.old.keeper.conn self.new.keeper.conn result }
        ensures kept { self.new.keeper ≡ record self.old.keeper { conn = self.new.keeper.conn; count = self.new.keeper.count } }
    {
        self.keeper.load()
    }

    fn commit(&mut self, edits: &[EntryEdit]) -> Result<(), KeepFault>
        ensures cause { HasKeepCause self.old.keeper.count self.new.keeper.count result }
        ensures counted { IsErrOf result failed → self.new.keeper.count ≡ one_more self.old.keeper.count }
        ensures committed { HasCommitted over_files self.old.keeper.put.text self.old.keeper.take.text edits.now self.old.keeper.conn self.new.keeper.conn result }
        ensures kept { self.new.keeper ≡ record self.old.keeper { conn = self.new.keeper.conn; count = self.new.keeper.count } }
    {
        self.keeper.commit(edits)
    }

    fn faults(&self) -> u64 {
        self.keeper.faults()
    }
}

/// The keeper of a store of the program: one in memory tells its map, one in a file does not.
#[derive(Drop)]
pub struct RealStore {
    kept: Store<MemoryKeeper, FileKeeper>,
}

impl RealStore {
    /// A store in memory, which has no entries.
    pub(crate) fn in_memory(alloc: Global) -> Self
        ensures told { ⟦<RealStore as Keeper>⟧.told result ≡ Some [] }
        ensures fresh { ⟦<RealStore as Keeper>⟧.count result ≡ 0 }
    {
        let none = Listing::empty(alloc);
        let entries = Entries::empty(alloc);
        let keeper = MemoryKeeper::new(alloc, entries, none, Listing::empty(alloc));
        RealStore {
            kept: Store::Memory(keeper),
        }
    }

    /// The store in the file at a path.
    pub(crate) fn in_file(rt: &HostRuntime, path: &str) -> Result<Self, KeepFault>
        ensures told { IfOk result (λ store. ⟦<RealStore as Keeper>⟧.told store ≡ None) }
        ensures fresh { IfOk result (λ store. ⟦<RealStore as Keeper>⟧.count store ≡ 0) }
    {
        let keeper = FileKeeper::open(rt, path)?;
        Ok(RealStore {
            kept: Store::File(keeper),
        })
    }

    /// Whether it is in a file, of which nothing is told.
    pub(crate) fn is_in_file(&self) -> bool
        ensures { result ≡ true → ⟦<RealStore as Keeper>⟧.told self.now ≡ None }
    {
        matches!(self.kept, Store::File(_))
    }
}

impl Keeper for RealStore {
    ghost use Rattle.std.specs.Prelude.{IfSome, OnErr, OnOk};
    ghost use Rattle.merge_ports.specs.Entries.{told_after};
    ghost use Rattle.merge_outside.specs.Stores.{OnFile};

    ghost told = { λ s. ⟦<Store<MemoryKeeper, FileKeeper> as Keeper>⟧.told s.kept };

    ghost count = { λ s. ⟦<Store<MemoryKeeper, FileKeeper> as Keeper>⟧.count s.kept };

    fn load(&mut self) -> Result<Entries, KeepFault>
        ensures ok { IfOk result (λ entries. IfSome (⟦<Store<MemoryKeeper, FileKeeper> as Keeper>⟧.told self.old.kept) (λ map. entries ≡ map)) }
        ensures same { ⟦<Store<MemoryKeeper, FileKeeper> as Keeper>⟧.told self.new.kept ≡ ⟦<Store<MemoryKeeper, FileKeeper> as Keeper>⟧.told self.old.kept }
        ensures cause { HasKeepCause (⟦<Store<MemoryKeeper, FileKeeper> as Keeper>⟧.count self.old.kept) (⟦<Store<MemoryKeeper, FileKeeper> as Keeper>⟧.count self.new.kept) result }
        ensures counted { IsErrOf result failed → OnFile self.old.kept self.new.kept (λ before after. after.keeper.count ≡ one_more before.keeper.count) }
        ensures file { OnFile self.old.kept self.new.kept (λ before after. HasLoaded over_files before.keeper.all.text before.keeper.conn after.keeper.conn result) }
    {
        match &mut self.kept {
            Store::Memory(keeper) => keeper.load(),
            Store::File(keeper) => keeper.load(),
        }
    }

    fn commit(&mut self, edits: &[EntryEdit]) -> Result<(), KeepFault>
        ensures ok { OnOk result (⟦<Store<MemoryKeeper, FileKeeper> as Keeper>⟧.told self.new.kept ≡ told_after edits.now (⟦<Store<MemoryKeeper, FileKeeper> as Keeper>⟧.told self.old.kept)) }
        ensures err { OnErr result (⟦<Store<MemoryKeeper, FileKeeper> as Keeper>⟧.told self.new.kept ≡ ⟦<Store<MemoryKeeper, FileKeeper> as Keeper>⟧.told self.old.kept) }
        ensures cause { HasKeepCause (⟦<Store<MemoryKeeper, FileKeeper> as Keeper>⟧.count self.old.kept) (⟦<Store<MemoryKeeper, FileKeeper> as Keeper>⟧.count self.new.kept) result }
        ensures counted { IsErrOf result failed → OnFile self.old.kept self.new.kept (λ before after. after.keeper.count ≡ one_more before.keeper.count) }
        ensures file { OnFile self.old.kept self.new.kept (λ before after. HasCommitted over_files before.keeper.put.text before.keeper.take.text edits.now before.keeper.conn after.keeper.conn result) }
    {
        match &mut self.kept {
            Store::Memory(keeper) => keeper.commit(edits),
            Store::File(keeper) => keeper.commit(edits),
        }
    }

    fn faults(&self) -> u64 {
        self.kept.faults()
    }
}
