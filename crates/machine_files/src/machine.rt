//! The machine that a program runs on.
ghost use Rattle.std.specs.Prelude.{◌≡◌, IfOk};
ghost use Rattle.machine_files.specs.Telling.{source_from, sink_from};
ghost use Rattle.machine_files.specs.Stores.{IsNotedAlike};
ghost use Rattle.machine_files.specs.Meaning.{source_state, sink_state, disk_state};

use crate::fault_count::FaultCount;
use crate::lock::LockFile;
use crate::open_error::OpenError;
use crate::progress::Progress;
use crate::read_file::ReadFile;
use crate::store::Store;
use crate::watched::{WatchedFile, WatchedStream};
use machine_model::Machine;
use std::fs::{Files, OpenFile};
use std::io;
use std::io::{Printer, Read, Seek, Write};
use std::os::unix::fs::FileExt;

/// The two files of an archive, the stream that commands come from and the one that replies go to.
///
/// It knows the lengths of its files and how often the calls of each trait failed, and tells
/// nothing else. Its streams are not buffered: a pull is one read, a push is one write.
#[derive(Drop)]
pub struct FileMachine<F, I, O> {
    pub(crate) store: Store<F>,
    pub(crate) input: I,
    pub(crate) output: O,
    pub(crate) source_faults: FaultCount,
    pub(crate) sink_faults: FaultCount,
    pub(crate) disk_faults: FaultCount,
}

/// Makes the machine of the working folder's files, `archive.journal` and `archive.pages`, and the
/// standard streams. The files are made where they are missing. What they hold stays, and none of
/// it is read. The machine has the exclusive lock of the journal until it is dropped. It takes the
/// lock before it asks anything of the journal, and before it opens or makes `archive.pages`. What a
/// lock keeps out no clause says: *tested* on the built programs.
///
/// `Held`: somebody else has a lock of the journal, or the journal isn't the file at its path any
/// more; `NoLock`: it can't be locked; `Failed`: a file or the folder can't be opened, or a file is
/// longer than 2^40 bytes. A file that was made by then stays, empty. Costs a few calls of the
/// system, however long the files are, and waits for nobody's lock.
pub fn open_machine<R: Files + Input + Print>(
    rt: &R,
) -> Result<FileMachine<R::File, R::Reader, Printer<'_, R>>, OpenError>
where
    R::File: FileExt + LockFile,
    ensures source { IfOk result (λ x. source_state x ≡ source_from 0) }
    ensures sink { IfOk result (λ x. sink_state x ≡ sink_from 0) }
    ensures disk { IfOk result (λ x. (disk_state x).faults ≡ 0) }
{
    let store = Store::open(rt)?;
    Ok(machine_of(rt, store))
}

/// Makes a machine that reads the working folder's files, `archive.journal` and `archive.pages`, and
/// the standard streams. Its calls that write or sync fail, and do nothing. No file is made, and none
/// is read yet. The machine has a shared lock of the journal until it is dropped: others that read
/// may have one too, and nobody that writes.
///
/// `Held`: somebody else has the exclusive lock of the journal, or the journal isn't the file at its
/// path any more; `NoLock`: it can't be locked; `Failed`: a file is missing, a file or the folder
/// can't be opened, or a file is longer than 2^40 bytes. Costs a few calls of the system, however
/// long the files are, and waits for nobody's lock.
pub fn open_to_read<R: Files + Input + Print>(
    rt: &R,
) -> Result<FileMachine<ReadFile<R::File>, R::Reader, Printer<'_, R>>, OpenError>
where
    R::File: FileExt + LockFile,
    ensures source { IfOk result (λ x. source_state x ≡ source_from 0) }
    ensures sink { IfOk result (λ x. sink_state x ≡ sink_from 0) }
    ensures disk { IfOk result (λ x. (disk_state x).faults ≡ 0) }
{
    let store = Store::open_to_read(rt)?;
    Ok(machine_of(rt, store))
}

/// The machine of these files and the standard streams, no call of which has failed.
fn machine_of<R: Input + Print, F>(
    rt: &R,
    store: Store<F>,
) -> FileMachine<F, R::Reader, Printer<'_, R>>
    ensures source { source_state result ≡ source_from 0 }
    ensures sink { sink_state result ≡ sink_from 0 }
    ensures disk { (disk_state result).faults ≡ 0 }
{
    FileMachine {
        store,
        input: rt.reader(),
        output: io::writer(rt),
        source_faults: FaultCount::new(),
        sink_faults: FaultCount::new(),
        disk_faults: FaultCount::new(),
    }
}

/// A machine of whose long work a progress tells.
pub type WatchedMachine<'p, F, I, O, C, E> = FileMachine<
    WatchedFile<'p, F, C, E>,
    WatchedStream<'p, I, C, E>,
    WatchedStream<'p, O, C, E>,
>;

impl<F, I, O> FileMachine<F, I, O> {
    /// The same machine, of whose long work the progress tells. No contract shows the difference.
    pub fn watched<C, E: Eprint>(
        self,
        progress: &Progress<C, E>,
    ) -> WatchedMachine<'_, F, I, O, C, E>
        ensures source { source_state result ≡ source_state self }
        ensures sink { sink_state result ≡ sink_state self }
        ensures disk { disk_state result ≡ disk_state self }
        ensures alike { IsNotedAlike self.store result.store }
    {
        FileMachine {
            store: self.store.watched(progress),
            input: WatchedStream::new(self.input, progress),
            output: WatchedStream::new(self.output, progress),
            source_faults: self.source_faults,
            sink_faults: self.sink_faults,
            disk_faults: self.disk_faults,
        }
    }
}

impl<F: FileExt + Seek + OpenFile, I: Read, O: Write> Machine for FileMachine<F, I, O> {
    ghost use Rattle.std.proofs.Common.{◌∙◌};
    ghost use Rattle.machine_model.specs.Pulls.{AreAsked};
    ghost use Rattle.machine_model.proofs.PullLemmas.{asked_laws};
    ghost use Rattle.machine_files.specs.Telling.{OnlySource, OnlySink, OnlyDisk, IsBefore};
    ghost use Rattle.machine_files.specs.Meaning.{meaning};
    ghost use Rattle.machine_files.specs.Laws.{IsSameBeside-same};

    ghost asked = { λ x pulls y. AreAsked (λ m. m.source) IsBefore OnlySource (meaning x) pulls (meaning y) };

    ghost asked_laws = { asked_laws meaning (λ m. m.source) (λ m. m.sink) OnlySource (λ a b one. one.sink) OnlySink
        (λ a b one. one.source) OnlyDisk (λ a b one. one.source) };

    ghost source_alone = { λ x y one. (one.sink, one.disk) };

    ghost disk_alone = { λ x y one. (one.source, one.sink) };

    ghost sink_alone = { λ x y one. (one.source, IsSameBeside-same (disk_state x) (disk_state y) one.disk) };

    ghost source_keeps_lost = { λ x y one was. one.lost ∙ was };

    ghost sink_keeps_lost = { λ x y one was. one.lost ∙ was };

    ghost beside_shown = { λ x sink_tells disk_tells. absurd sink_tells };

    ghost shows = { λ x y sink_tells disk_tells one. absurd sink_tells };

    ghost shows_piece = { λ x y piece answer sink_tells disk_tells one. absurd sink_tells };
}
