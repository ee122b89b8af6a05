//! What is found of the archive of a disk.
ghost use Rattle.std.specs.Prelude.{◌≡◌, ◌⊎◌, ℕ, IfOk, IfErr, IsErrOf};
ghost use Rattle.machine_model.specs.Causes.{Rose};
ghost use Rattle.machine_model.specs.Calls.{OnlyReads};
ghost use Rattle.model_archive.specs.Histories.{History};
ghost use Rattle.model_archive.specs.Stands.{IsNotArchive};
ghost use Rattle.archive_check.specs.Digests.{IsExamined};
ghost use Rattle.run_audit.specs.Audits.{IsFindingOn};
ghost use Rattle.run_audit.specs.Opened.{IsOpened};
ghost use Rattle.run_audit.specs.Statuses.{EndsEarly};

use crate::opening::{Opened, open};
use crate::status::AuditStatus;
use archive_check::{Finding, VerifyError, verify_with_digests};
use machine_model::Disk;
use model_archive::Verdict;
use std::alloc::Global;

/// Opens the archive of a disk to read it alone, and checks it. Of a new journal all is sound, and there
/// is nothing to check.
pub(crate) fn finding_of<D: Disk>(alloc: Global, disk: &mut D) -> Result<Finding, AuditStatus>
    ensures only { D.Disk.only disk.old disk.new }
    ensures same { OnlyReads (D.disk disk.old) (D.disk disk.new) }
    ensures failed { IsErrOf result AuditStatus.Disk → Rose (D.disk disk.old).faults (D.disk disk.new).faults }
    ensures early { IfErr result EndsEarly }
    ensures not_archive { D.disk_tells → (at : ℕ) → IsErrOf result (AuditStatus.NotArchive at) → IsNotArchive (D.disk disk.old).holds at }
    ensures refused { D.disk_tells → (at : ℕ) → IsNotArchive (D.disk disk.old).holds at →
        IsErrOf result (AuditStatus.NotArchive at) ⊎ (IsErrOf result AuditStatus.Disk ⊎ IsErrOf result AuditStatus.Memory) }
    ensures found { D.disk_tells → IfOk result (IsFindingOn (D.disk disk.old).holds) }
{
    let opened = match open(alloc, disk) {
        Ok(opened) => opened,
        Err(error) => return Err(AuditStatus::from(error)),
    };
    match opened {
        Some(archive) => examined(alloc, disk, &archive),
        None => Ok(Finding::Told(Verdict::Sound {
            words: 0,
            segments: 0,
        })),
    }
}

/// Checks an archive that was opened.
fn examined<D: Disk>(alloc: Global, disk: &mut D, archive: &Opened) -> Result<Finding, AuditStatus>
    requires opened { (h : History) × IsOpened h (D.disk disk.old).reach archive.now }
    ensures only { D.Disk.only disk.old disk.new }
    ensures same { OnlyReads (D.disk disk.old) (D.disk disk.new) }
    ensures failed { IsErrOf result AuditStatus.Disk → Rose (D.disk disk.old).faults (D.disk disk.new).faults }
    ensures early { IfErr result (λ status. (status ≡ AuditStatus.Disk) ⊎ (status ≡ AuditStatus.Memory)) }
    ensures examined { D.disk_tells → (h : History) → IsOpened h (D.disk disk.old).reach archive.now
        → IfOk result (IsExamined h (D.disk disk.old).holds) }
{
    let plans = archive.shelf.plans();
    match verify_with_digests(alloc, disk, &archive.journal, &archive.directory, plans) {
        Ok(finding) => Ok(finding),
        Err(VerifyError::Failed) => Err(AuditStatus::Disk),
        Err(VerifyError::Memory) => Err(AuditStatus::Memory),
    }
}
