//! Telling what was found.
ghost use Rattle.std.specs.Prelude.{◌≡◌, ◌⊎◌, ◌+◌, ◌<◌, ◌++◌, length, OnOk};
ghost use Rattle.machine_model.specs.Causes.{Rose};
ghost use Rattle.machine_model.specs.Pushes.{IsPrefix};
ghost use Rattle.run_audit.specs.Audits.{finding_text};
ghost use Rattle.run_audit.specs.Statuses.{status_of_finding};

use crate::status::AuditStatus;
use archive_check::Finding;
use archive_replies::{ReplyPage, show};
use machine_model::{Failed, Sink};
use std::alloc::{AllocError, Global};

/// Shows the line of what was found, and tells how the audit ends.
pub(crate) fn tell<K: Sink>(alloc: Global, sink: &mut K, finding: &Finding) -> AuditStatus
    ensures only { K.Sink.only sink.old sink.new }
    ensures ends { (result ≡ status_of_finding finding.now) ⊎ ((result ≡ AuditStatus.Sink) ⊎ (result ≡ AuditStatus.Memory)) }
    ensures failed { result ≡ AuditStatus.Sink → Rose (K.sink sink.old).faults (K.sink sink.new).faults }
    ensures unshown { result ≡ AuditStatus.Memory → sink.new ≡ sink.old }
    ensures whole { K.sink_tells → result ≡ status_of_finding finding.now
        → (K.sink sink.new).shown ≡ (K.sink sink.old).shown ++ finding_text finding.now }
    ensures front { K.sink_tells → result ≡ AuditStatus.Sink
        → IsPrefix (K.sink sink.new).shown ((K.sink sink.old).shown ++ finding_text finding.now) }
    ensures short { K.sink_tells → result ≡ AuditStatus.Sink
        → length (K.sink sink.new).shown < length (K.sink sink.old).shown + length (finding_text finding.now) }
{
    let Ok(mut page) = ReplyPage::new(alloc) else {
        return AuditStatus::Memory;
    };
    if write(&mut page, finding).is_err() {
        return AuditStatus::Memory;
    }
    match show(sink, page.as_bytes()) {
        Ok(()) => AuditStatus::of(finding),
        Err(Failed) => AuditStatus::Sink,
    }
}

/// Writes the line of what was found, in place of what the page held.
fn write(page: &mut ReplyPage, finding: &Finding) -> Result<(), AllocError>
    ensures { OnOk result (page.new.bytes ≡ finding_text finding.now) }
{
    match finding {
        Finding::Told(verdict) => page.verified(verdict),
        Finding::BadDigest { word, segment } => page.bad_digest(word, *segment),
    }
}
