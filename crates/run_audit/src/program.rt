//! An audit.
ghost use Rattle.std.specs.Prelude.{◌≡◌, ◌⊎◌, ◌↔◌, ◌≤◌, ℕ, length, IsTrue};
ghost use Rattle.machine_model.specs.Calls.{OnlyReads};
ghost use Rattle.machine_model.specs.Causes.{Rose};
ghost use Rattle.machine_model.specs.Images.{MayLeave};
ghost use Rattle.machine_model.specs.Moments.{LeavesOnly};
ghost use Rattle.machine_model.specs.Pushes.{IsPrefix};
ghost use Rattle.model_archive.specs.Histories.{History};
ghost use Rattle.model_archive.specs.Legal.{IsLegal};
ghost use Rattle.model_archive.specs.Stands.{Stands, IsNotArchive};
ghost use Rattle.run_audit.specs.Audits.{IsAudited, IsCutOff, IsLeftAlone, IsWhole};
ghost use Rattle.run_audit.specs.Statuses.{ShowsNothing};

use crate::examining::finding_of;
use crate::status::AuditStatus;
use crate::telling::tell;
use machine_model::Machine;
use std::alloc::Global;

/// Whether an audit refuses these words of the command line, given without the program's name. It takes
/// no words, and refuses any before it touches anything. Constant cost.
pub fn are_refused(words: &[String]) -> bool
    ensures { IsTrue result ↔ (1 ≤ length words.now) }
{
    !words.is_empty()
}

/// Audits the archive of a machine. `words` are those of the command line, without the program's name;
/// there may be none.
///
/// `audit` opens the archive on the machine's disk for reading only, checks it against its own texts,
/// and shows the verdict's line; where that would be that all is sound, and a digest in the journal isn't
/// that of its sublist's bytes, it shows the first such. A journal of at most 17 bytes is that of an
/// archive without entries, which is sound. The first event that ends the audit decides the status.
/// `docs/claims.md` says in words what each clause promises.
///
/// Costs what a load costs, and `archive_check::verify_with_digests`: it reads each live sublist once.
pub fn audit<M: Machine>(alloc: Global, words: &[String], machine: &mut M) -> AuditStatus
    // Any word is one too many, and then nothing is touched.
    ensures usage { (result ≡ AuditStatus.Usage) ↔ (1 ≤ length words.now) }
    ensures untouched { 1 ≤ length words.now → machine.new ≡ machine.old }
    // A fault comes only where the machine's count rose.
    ensures disk_fault { result ≡ AuditStatus.Disk → Rose (M.disk machine.old).faults (M.disk machine.new).faults }
    ensures sink_fault { result ≡ AuditStatus.Sink → Rose (M.sink machine.old).faults (M.sink machine.new).faults }
    // It reads alone, and then shows; nothing is pulled.
    ensures reads { (read : M)
        × (M.Disk.only machine.old read × OnlyReads (M.disk machine.old) (M.disk read) × M.Sink.only read machine.new) }
    ensures unpulled { M.source machine.new ≡ M.source machine.old }
    // So no length, no byte and no image changes, on any disk, at any moment.
    ensures left_alone { IsLeftAlone (M.disk machine.old) (M.disk machine.new) }
    ensures images { M.sink_tells → M.disk_tells → LeavesOnly (M.disk machine.old) (M.disk machine.new)
        (λ image beside. MayLeave (M.disk machine.old).now image × IsPrefix (M.sink machine.old).shown beside) }
    // The journal is refused exactly where the bytes are no archive's, unless the disk failed or memory ran out first.
    ensures not_archive { M.disk_tells → (at : ℕ) → result ≡ AuditStatus.NotArchive at → IsNotArchive (M.disk machine.old).holds at }
    ensures refused { M.disk_tells → length words.now ≡ 0 → (at : ℕ) → IsNotArchive (M.disk machine.old).holds at →
        (result ≡ AuditStatus.NotArchive at) ⊎ ((result ≡ AuditStatus.Disk) ⊎ (result ≡ AuditStatus.Memory)) }
    // Whatever the disk holds: at the statuses 0 and 1 what was shown is the line of what is found of the bytes that reads gave, the verdict or a
    // digest, and the status is 0 where that is that all is sound. Where the sink failed it was a part of the line; elsewhere nothing.
    ensures audited { M.sink_tells → M.disk_tells → (result ≡ AuditStatus.Sound) ⊎ (result ≡ AuditStatus.Faulty) →
        IsAudited (M.disk machine.old).holds result (M.sink machine.old).shown (M.sink machine.new).shown }
    ensures cut_off { M.sink_tells → M.disk_tells → result ≡ AuditStatus.Sink
        → IsCutOff (M.disk machine.old).holds (M.sink machine.old).shown (M.sink machine.new).shown }
    ensures unshown { ShowsNothing result → M.sink machine.new ≡ M.sink machine.old }
    // At status 0 the bytes stand for a history: the journal spells it, a load accepts it, and the pages hold each live plan's sublists.
    ensures whole { M.disk_tells → result ≡ AuditStatus.Sound → IsWhole (M.disk machine.old).holds }
    // Of bytes that stand for a history in which each plan is what its kind promises, no fault is told.
    ensures no_false_alarm { M.disk_tells → (h : History) → IsLegal h → Stands h (M.disk machine.old).holds → result ≡ AuditStatus.Faulty
        → ⊥ }
    // Where nothing is wrong with the machine, an archive has its verdict, unless memory runs out.
    ensures complete { M.disk_tells → length words.now ≡ 0 →
        ((at : ℕ) → IsNotArchive (M.disk machine.old).holds at → ⊥) →
        (Rose (M.disk machine.old).faults (M.disk machine.new).faults → ⊥) →
        (Rose (M.sink machine.old).faults (M.sink machine.new).faults → ⊥) →
        (result ≡ AuditStatus.Sound) ⊎ ((result ≡ AuditStatus.Faulty) ⊎ (result ≡ AuditStatus.Memory)) }
{
    if are_refused(words) {
        return AuditStatus::Usage;
    }
    match finding_of(alloc, machine) {
        Ok(finding) => tell(alloc, machine, &finding),
        Err(status) => status,
    }
}
