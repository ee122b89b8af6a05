//! The files as the disk.
ghost use Rattle.std.specs.Prelude.{◌≡◌, ◌≤◌, true, OnOk, OnErr, IsErr};
ghost use Rattle.machine_model.specs.Causes.{Rose, HasCause};
ghost use Rattle.machine_files.specs.Telling.{OnlyDisk};
ghost use Rattle.machine_files.specs.Meaning.{meaning, disk_state};

use crate::machine::FileMachine;
use machine_model::{Area, Disk, Failed};
use std::fs::OpenFile;
use std::io::{Read, Seek, Write};
use std::os::unix::fs::FileExt;

impl<F: FileExt + Seek + OpenFile, I: Read, O: Write> Disk for FileMachine<F, I, O> {
    ghost use Rattle.machine_model.specs.declared.area.Area.TheVariants.{Journal, Pages};
    ghost use Rattle.machine_files.specs.Telling.{OnlyDisk};
    ghost use Rattle.machine_files.specs.Laws.{OnlyDisk-same, OnlyDisk-joins, OnlyDisk-reach};
    ghost use Rattle.machine_files.specs.Meaning.{meaning, disk_state};

    ghost disk_tells = { ⊥ };

    ghost disk = { disk_state };

    ghost only = { λ x y. OnlyDisk (meaning x) (meaning y) };

    ghost has_lost = { λ x. x.store.has_lost ≡ true };

    ghost only_same = { λ x. OnlyDisk-same (meaning x) };

    ghost only_joins = { λ x y z one two. OnlyDisk-joins (meaning x) (meaning y) (meaning z) one two };

    ghost only_faults = { λ x y one. one.faults };

    ghost only_reach = { λ x y area one. OnlyDisk-reach (meaning x) (meaning y) area one };

    ghost only_goes_on = { λ x y tells one. absurd tells };

    ghost only_beside = { λ x y tells one. absurd tells };

    ghost only_read = { λ x y area tells one. absurd tells };

    ghost only_lost = { λ x y one was. one.lost was };

    ghost faults_limit = { λ x. x.disk_faults.limit };

    ghost reach_limit = { λ x. elim [ Journal ↦ x.store.journal.limit | Pages ↦ x.store.pages.limit ] };

    ghost reach_holds = { λ x area tells. absurd tells };

    ghost holds_allowed = { λ x tells. absurd tells };

    ghost stable_bytes = { λ x area tells. absurd tells };

    fn length(&mut self, area: Area) -> Result<u64, Failed> {
        Ok(self.store.length(area))
    }

    fn read(&mut self, area: Area, at: u64, buf: &mut [u8]) -> Result<(), Failed> {
        let read = self.store.read(area, at, buf);
        self.counted(read)
    }

    fn write(&mut self, area: Area, at: u64, bytes: &[u8]) -> Result<(), Failed> {
        let written = self.store.write(area, at, bytes);
        self.counted(written)
    }

    fn sync(&mut self) -> Result<(), Failed>
        ensures only { OnlyDisk (meaning self.old) (meaning self.new) }
        ensures cause { HasCause (disk_state self.old).faults (disk_state self.new).faults result }
        ensures reach { (disk_state self.new).reach ≡ (disk_state self.old).reach }
        ensures lost { OnErr result (self.new.store.has_lost ≡ true) }
        ensures stays_lost { self.old.store.has_lost ≡ true → IsErr result }

        // exactly
        ensures journal { OnOk result (self.new.store.journal.is_synced ≡ true) }
        ensures pages { OnOk result (self.new.store.pages.is_synced ≡ true) }
        ensures folder { OnOk result (self.new.store.is_folder_synced ≡ true) }
    {
        let synced = self.store.sync();
        self.counted(synced)
    }
}

impl<F, I, O> FileMachine<F, I, O> {
    /// Counts a call of the disk that failed, and passes on its answer.
    fn counted(&mut self, answer: Result<(), Failed>) -> Result<(), Failed>
        ensures answer { result ≡ answer }
        ensures later { self.old.disk_faults.value ≤ self.new.disk_faults.value }
        ensures risen { OnErr answer (Rose self.old.disk_faults.value self.new.disk_faults.value) }
        ensures rest { self.new ≡ record self.old { disk_faults = self.new.disk_faults } }
    {
        if answer.is_err() {
            self.disk_faults.rise();
        }
        answer
    }
}
