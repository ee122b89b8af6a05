//! Answering one item of the input.
ghost use Rattle.std.specs.Prelude.{◌≡◌, ◌⊎◌, ◌<◌, Ok, OnOk, IsOk, IsErr, IsErrOf, IsSome};
ghost use Rattle.machine_model.specs.Causes.{Rose};
ghost use Rattle.model_archive.specs.Replies.{reply_text};
ghost use Rattle.model_archive.specs.Steps.{Found, FoundBest, Neared, Refused, Reply, Spanned, left_of};
ghost use Rattle.archive_hand.specs.Jobs.{plain_job};
ghost use Rattle.archive_hand.specs.States.{AreInStepBy};
ghost use Rattle.archive_hand.specs.Stored.{Spoils, Store, StoreStep, StoreStint, TellsNoEntry};
ghost use Rattle.archive_hand.specs.Adding.{IsDone};
ghost use Rattle.archive_hand.specs.Takes.{said};
ghost use Rattle.archive_changes.specs.Endings.{begun, changed, changed_all, plainly, planned, unchanged};
ghost use Rattle.archive_questions.specs.Endings.{approximated, proposed, shared, version_shown, unanswered, verified};
ghost use Rattle.base_commands.specs.declared.command.Item.TheVariants as items;
ghost use Rattle.base_commands.specs.declared.command.Command.TheVariants as plain;
ghost use Rattle.run_script.specs.Causes.{IsLeft};
ghost use Rattle.run_script.specs.Outcomes.{CanGoOn, IsAnswered, NeverSpoiled, Writes, WritesAnswer, WritesStint};

use crate::stop::Halt;
use archive_changes::{BatchError, batch, begin, delete, mark_format, plan};
use archive_check::VerifyError;
use archive_entries::{Declined, ReadError};
use archive_hand::{Archive, Begun, ChangeError, Stint};
use archive_questions::{
    Approximation, AskError, BestAnswer, RoughAnswer, ShareError, approx, best, between,
    certificate, find, propose, rough, share, show, top, verify,
};
use archive_replies::ReplyPage;
use base_commands::{Command, Item, MOST_TEXT_BYTES, Text};
use base_types::{DocId, Time};
use machine_model::{Disk, Failed};
use model_archive::{Refusal, Sharing, Summary, Verdict};
use pages_sublists::Damage;
use plans_kinds::Proposal;
use query_eval::{Answer, SpanAnswer};
use std::alloc::{AllocError, Global};

/// Carries out an item on the archive and its disk, and writes its reply on the page.
pub(crate) fn answer<D: Disk>(
    alloc: Global,
    disk: &mut D,
    archive: &mut Archive,
    page: &mut ReplyPage,
    item: Item,
) -> Result<(), Halt>
    requires ready { CanGoOn archive.old (D.disk disk.old).reach }
    ensures only { D.Disk.only disk.old disk.new }
    ensures disk_fault { IsErrOf result Halt.Disk → Rose (D.disk disk.old).faults (D.disk disk.new).faults }
    ensures left { OnOk result (IsLeft D.disk_tells (D.disk disk.old) (D.disk disk.new) archive.old archive.new) }
    // What comes of it by what reads give, whatever lies in Pages.
    ensures outcome { D.disk_tells → (s : Store) → AreInStepBy (D.disk disk.old) archive.old s
        → IsAnswered s (StoreStep s item) (Spoils s item) result (D.disk disk.old) (D.disk disk.new) archive.new page.new.bytes }
{
    let Item::Command(command) = item else {
        return refuse(page, Refusal::Line);
    };
    match command {
        Command::Arrive { doc, at, text } => arrive(alloc, disk, archive, page, doc, at, text),
        Command::Delete { doc, at } => {
            let result = delete(alloc, disk, archive, doc, at);
            write_change(page, result)
        }
        Command::Format => {
            let result = mark_format(alloc, disk, archive);
            write_change(page, result)
        }
        Command::Batch(items) => {
            let result = batch(alloc, disk, archive, &items);
            write_batch(page, result)
        }
        Command::Find { at, expr } => {
            let result = find(alloc, disk, archive, at, &expr);
            write_answer(page, result)
        }
        Command::Top { count, at, expr } => {
            let result = top(alloc, disk, archive, count, at, &expr);
            write_answer(page, result)
        }
        Command::Approx { word, tolerance } => {
            let result = approx(alloc, archive, &word, tolerance);
            write_approximated(page, result)
        }
        Command::Rough {
            tolerance,
            at,
            expr,
        } => {
            let result = rough(alloc, disk, archive, tolerance, at, &expr);
            write_answer(page, result)
        }
        Command::Best { count, at, expr } => {
            let result = best(alloc, disk, archive, count, at, &expr);
            write_answer(page, result)
        }
        Command::Between { span, expr } => {
            let result = between(alloc, disk, archive, span, &expr);
            write_answer(page, result)
        }
        Command::Show { doc, at } => {
            let result = show(alloc, disk, archive, doc, at);
            write_version(page, result)
        }
        Command::Propose { word, fraction } => {
            let result = propose(alloc, archive, &word, fraction);
            write_proposed(page, result)
        }
        Command::Plan {
            word,
            kind,
            fraction,
        } => {
            let result = plan(alloc, disk, archive, &word, kind, fraction);
            write_planned(page, result)
        }
        Command::Certificate { word } => {
            let result = certificate(alloc, archive, &word);
            write_proposed(page, result)
        }
        Command::Verify => {
            let result = verify(alloc, disk, archive);
            write_verified(page, result)
        }
        Command::Begin { word, fraction } => {
            let result = begin(alloc, archive, &word, fraction);
            write_begun(page, result)
        }
        Command::Share { fraction, words } => {
            let result = share(alloc, archive, &words, fraction);
            write_shared(page, result)
        }
    }
}

/// Does a stint of the work on the plan that is being written, and writes what it says on the page. Takes no
/// memory.
pub(crate) fn work<D: Disk>(
    disk: &mut D,
    archive: &mut Archive,
    page: &mut ReplyPage,
) -> Result<(), Halt>
    requires ready { CanGoOn archive.old (D.disk disk.old).reach }
    requires working { IsSome archive.old.job }
    ensures only { D.Disk.only disk.old disk.new }
    ensures disk_fault { IsErrOf result Halt.Disk → Rose (D.disk disk.old).faults (D.disk disk.new).faults }
    ensures fed { IsErrOf result Halt.Memory → ⊥ }
    ensures undamaged { (d : Damage) → IsErrOf result (Halt.Damaged d) → ⊥ }
    ensures left { OnOk result (IsLeft D.disk_tells (D.disk disk.old) (D.disk disk.new) archive.old archive.new) }
    ensures less { OnOk result (left_of (plain_job archive.new.job) < left_of (plain_job archive.old.job)) }
    // What comes of it by what reads give, whatever lies in Pages.
    ensures outcome { D.disk_tells → (s : Store) → AreInStepBy (D.disk disk.old) archive.old s
        → IsAnswered s (StoreStint s) NeverSpoiled result (D.disk disk.old) (D.disk disk.new) archive.new page.new.bytes }
{
    let stint = archive.advance(disk);
    write_stint(page, stint)
}

/// Writes what a stint says on the page, or halts the run.
fn write_stint(page: &mut ReplyPage, stint: Result<Stint, Failed>) -> Result<(), Halt>
    ensures writes { WritesStint stint result page.new.bytes }
    ensures fault { IsErrOf result Halt.Disk → IsErr stint }
    ensures fed { IsErrOf result Halt.Memory → ⊥ }
    ensures undamaged { (d : Damage) → IsErrOf result (Halt.Damaged d) → ⊥ }
    ensures made { OnOk result (IsOk stint) }
{
    match stint {
        Ok(stint) => {
            write_said(page, stint);
            Ok(())
        }
        Err(Failed) => Err(Halt::Disk),
    }
}

/// Writes what a stint says on the page.
fn write_said(page: &mut ReplyPage, stint: Stint)
    ensures { page.new.bytes ≡ reply_text (said stint) }
{
    match stint {
        Stint::Wrote { .. } => page.silent(),
        Stint::Done(summary) => page.finished(summary),
        Stint::Dropped(why) => page.refused(why),
    }
}

/// Carries out an arrival. A text that was too long to be kept is refused for that.
fn arrive<D: Disk>(
    alloc: Global,
    disk: &mut D,
    archive: &mut Archive,
    page: &mut ReplyPage,
    doc: DocId,
    at: Time,
    text: Text,
) -> Result<(), Halt>
    requires ready { CanGoOn archive.old (D.disk disk.old).reach }
    ensures only { D.Disk.only disk.old disk.new }
    ensures disk_fault { IsErrOf result Halt.Disk → Rose (D.disk disk.old).faults (D.disk disk.new).faults }
    ensures left { OnOk result (IsLeft D.disk_tells (D.disk disk.old) (D.disk disk.new) archive.old archive.new) }
    ensures undamaged { (d : Damage) → IsErrOf result (Halt.Damaged d) → ⊥ }
    ensures outcome { D.disk_tells → (s : Store) → AreInStepBy (D.disk disk.old) archive.old s →
        IsAnswered s (StoreStep s (items.Command (plain.Arrive doc at text))) (Spoils s (items.Command (plain.Arrive doc at text))) result
        (D.disk disk.old) (D.disk disk.new) archive.new page.new.bytes }
{
    match text {
        Text::Bytes(content) => {
            let result = archive_changes::arrive(alloc, disk, archive, doc, at, content.as_slice());
            write_change(page, result)
        }
        Text::TooLong { .. } => refuse(
            page,
            Refusal::TooLong {
                limit: MOST_TEXT_BYTES as u64,
            },
        ),
    }
}

/// Writes a refusal on the page.
fn refuse(page: &mut ReplyPage, why: Refusal) -> Result<(), Halt>
    ensures goes_on { result ≡ Ok tt }
    ensures reply { page.new.bytes ≡ reply_text (Refused why) }
{
    page.refused(why);
    Ok(())
}

/// Writes what became of a change on the page, or halts the run.
fn write_change(page: &mut ReplyPage, change: Result<u64, ChangeError>) -> Result<(), Halt>
    ensures writes { Writes (changed change) result page.new.bytes }
    ensures fault { IsErrOf result Halt.Disk → IsErrOf change ChangeError.Failed }
    ensures undamaged { (d : Damage) → IsErrOf result (Halt.Damaged d) → ⊥ }
    ensures live { OnOk result (IsOk change ⊎ ((why : Refusal) × IsErrOf change (ChangeError.Refused why))) }
{
    match change {
        Ok(length) => {
            page.accepted(length);
            Ok(())
        }
        Err(error) => write_unchanged(page, error),
    }
}

/// Writes what became of a batch on the page, or halts the run.
fn write_batch(page: &mut ReplyPage, batch: Result<u64, BatchError>) -> Result<(), Halt>
    ensures writes { Writes (changed_all batch) result page.new.bytes }
    ensures fault { IsErrOf result Halt.Disk → IsErrOf batch BatchError.Failed }
    ensures undamaged { (d : Damage) → IsErrOf result (Halt.Damaged d) → ⊥ }
    ensures live { OnOk result (IsDone (plainly batch)) }
{
    match batch {
        Ok(length) => {
            page.accepted(length);
            Ok(())
        }
        Err(
            BatchError::Refused {
                refusal,
                index: None,
            },
        ) => refuse(page, refusal),
        Err(
            BatchError::Refused {
                refusal,
                index: Some(index),
            },
        ) => {
            page.refused_in(refusal, index);
            Ok(())
        }
        Err(BatchError::Failed) => Err(Halt::Disk),
        Err(BatchError::Memory) => Err(Halt::Memory),
    }
}

/// Writes what became of a plan on the page, or halts the run.
fn write_planned(page: &mut ReplyPage, plan: Result<Summary, ChangeError>) -> Result<(), Halt>
    ensures writes { Writes (planned plan) result page.new.bytes }
    ensures fault { IsErrOf result Halt.Disk → IsErrOf plan ChangeError.Failed }
    ensures undamaged { (d : Damage) → IsErrOf result (Halt.Damaged d) → ⊥ }
    ensures live { OnOk result (IsOk plan ⊎ ((why : Refusal) × IsErrOf plan (ChangeError.Refused why))) }
{
    match plan {
        Ok(summary) => {
            page.planned(summary);
            Ok(())
        }
        Err(error) => write_unchanged(page, error),
    }
}

/// Writes why a change was not made on the page, or halts the run.
fn write_unchanged(page: &mut ReplyPage, error: ChangeError) -> Result<(), Halt>
    ensures writes { Writes (unchanged error) result page.new.bytes }
    ensures fault { IsErrOf result Halt.Disk → error ≡ ChangeError.Failed }
    ensures undamaged { (d : Damage) → IsErrOf result (Halt.Damaged d) → ⊥ }
    ensures live { OnOk result ((why : Refusal) × (error ≡ ChangeError.Refused why)) }
{
    match error {
        ChangeError::Refused(why) => refuse(page, why),
        ChangeError::Failed => Err(Halt::Disk),
        ChangeError::Memory => Err(Halt::Memory),
    }
}

/// What a query answers, which is written on a page.
trait Written: Drop {
    /// Its reply.
    ghost reply: { Self → Reply };

    /// Writes its reply on the page. An error means that there was no memory.
    fn write(&self, page: &mut ReplyPage) -> Result<(), AllocError>
        ensures written { OnOk result (page.new.bytes ≡ reply_text (reply self.now)) }
        ensures none { TellsNoEntry (reply self.now) };
}

impl Written for Answer {
    ghost reply = { λ answer. Found answer.rows.items answer.read };

    fn write(&self, page: &mut ReplyPage) -> Result<(), AllocError> {
        page.found(&self.rows, self.read)
    }
}

impl Written for RoughAnswer {
    ghost reply = { λ answer. Neared answer.rows.items answer.read };

    fn write(&self, page: &mut ReplyPage) -> Result<(), AllocError> {
        page.neared(&self.rows, self.read)
    }
}

impl Written for BestAnswer {
    ghost reply = { λ best. FoundBest best.rows.items best.read best.opened best.blocks };

    fn write(&self, page: &mut ReplyPage) -> Result<(), AllocError> {
        page.found_best(&self.rows, self.read, self.opened, self.blocks)
    }
}

impl Written for SpanAnswer {
    ghost reply = { λ answer. Spanned answer.rows.items answer.read };

    fn write(&self, page: &mut ReplyPage) -> Result<(), AllocError> {
        page.spanned(&self.rows, self.read)
    }
}

/// Writes what a query answers on the page, or halts the run.
fn write_answer<T: Written>(page: &mut ReplyPage, answer: Result<T, AskError>) -> Result<(), Halt>
    ensures { WritesAnswer T.reply answer result page.new.bytes }
{
    match answer {
        Ok(answer) => {
            answer.write(page)?;
            Ok(())
        }
        Err(error) => write_unanswered(page, error),
    }
}

/// Writes a plan that was asked for on the page, proposed or stored, or halts the run.
fn write_proposed(page: &mut ReplyPage, plan: Result<Proposal, Declined>) -> Result<(), Halt>
    ensures writes { Writes (proposed plan) result page.new.bytes }
    ensures fault { IsErrOf result Halt.Disk → ⊥ }
    ensures undamaged { (d : Damage) → IsErrOf result (Halt.Damaged d) → ⊥ }
{
    match plan {
        Ok(plan) => {
            page.proposed(&plan.segments, &plan.nodes, plan.space)?;
            Ok(())
        }
        Err(Declined::Refused(why)) => refuse(page, why),
        Err(Declined::Memory) => Err(Halt::Memory),
    }
}

/// Writes what is told of a plan that was begun on the page, or halts the run.
fn write_begun(page: &mut ReplyPage, plan: Result<Begun, Declined>) -> Result<(), Halt>
    ensures writes { Writes (begun plan) result page.new.bytes }
    ensures fault { IsErrOf result Halt.Disk → ⊥ }
    ensures undamaged { (d : Damage) → IsErrOf result (Halt.Damaged d) → ⊥ }
{
    match plan {
        Ok(begun) => {
            page.begun(begun.segments, begun.pages);
            Ok(())
        }
        Err(Declined::Refused(why)) => refuse(page, why),
        Err(Declined::Memory) => Err(Halt::Memory),
    }
}

/// Writes an approximation that was asked for on the page, or halts the run.
fn write_approximated(
    page: &mut ReplyPage,
    approximation: Result<Approximation, Declined>,
) -> Result<(), Halt>
    ensures writes { Writes (approximated approximation) result page.new.bytes }
    ensures fault { IsErrOf result Halt.Disk → ⊥ }
    ensures undamaged { (d : Damage) → IsErrOf result (Halt.Damaged d) → ⊥ }
{
    match approximation {
        Ok(approximation) => {
            page.approximated(&approximation.short, approximation.full)?;
            Ok(())
        }
        Err(Declined::Refused(why)) => refuse(page, why),
        Err(Declined::Memory) => Err(Halt::Memory),
    }
}

/// Writes how words share a budget on the page, or halts the run.
fn write_shared(page: &mut ReplyPage, sharing: Result<Sharing, ShareError>) -> Result<(), Halt>
    ensures writes { Writes (shared sharing) result page.new.bytes }
    ensures fault { IsErrOf result Halt.Disk → ⊥ }
    ensures undamaged { (d : Damage) → IsErrOf result (Halt.Damaged d) → ⊥ }
{
    match sharing {
        Ok(sharing) => {
            page.shared(&sharing)?;
            Ok(())
        }
        Err(ShareError::Refused { why, index }) => {
            page.refused_in(why, index);
            Ok(())
        }
        Err(ShareError::Memory) => Err(Halt::Memory),
    }
}

/// Writes what a check told on the page, or halts the run.
fn write_verified(page: &mut ReplyPage, verdict: Result<Verdict, VerifyError>) -> Result<(), Halt>
    ensures writes { Writes (verified verdict) result page.new.bytes }
    ensures fault { IsErrOf result Halt.Disk → IsErrOf verdict VerifyError.Failed }
    ensures undamaged { (d : Damage) → IsErrOf result (Halt.Damaged d) → ⊥ }
{
    match verdict {
        Ok(verdict) => {
            page.verified(&verdict)?;
            Ok(())
        }
        Err(VerifyError::Failed) => Err(Halt::Disk),
        Err(VerifyError::Memory) => Err(Halt::Memory),
    }
}

/// Writes the text of a version on the page, or that there is none, or halts the run.
fn write_version(page: &mut ReplyPage, text: Result<Option<Vec<u8>>, ReadError>) -> Result<(), Halt>
    ensures writes { Writes (version_shown (λ v. v.items) text) result page.new.bytes }
    ensures fault { IsErrOf result Halt.Disk → IsErrOf text ReadError.Failed }
    ensures undamaged { (d : Damage) → IsErrOf result (Halt.Damaged d) → ⊥ }
{
    match text {
        Ok(text) => write_text(page, text),
        Err(ReadError::Failed) => Err(Halt::Disk),
        Err(ReadError::Memory) => Err(Halt::Memory),
    }
}

/// Writes a text on the page, or that there is none.
fn write_text(page: &mut ReplyPage, text: Option<Vec<u8>>) -> Result<(), Halt>
    ensures writes { Writes (version_shown (λ v. v.items) (Ok text)) result page.new.bytes }
    ensures fault { IsErrOf result Halt.Disk → ⊥ }
    ensures undamaged { (d : Damage) → IsErrOf result (Halt.Damaged d) → ⊥ }
{
    let Some(text) = text else {
        page.none();
        return Ok(());
    };
    page.version(&text)?;
    Ok(())
}

/// Writes why a query was not answered on the page, or halts the run.
fn write_unanswered(page: &mut ReplyPage, error: AskError) -> Result<(), Halt>
    ensures writes { Writes (unanswered error) result page.new.bytes }
    ensures fault { IsErrOf result Halt.Disk → error ≡ AskError.Failed }
    ensures damage { (d : Damage) → IsErrOf result (Halt.Damaged d) → error ≡ AskError.Damaged d }
{
    match error {
        AskError::Refused(why) => refuse(page, why),
        AskError::Failed => Err(Halt::Disk),
        AskError::Damaged(damage) => Err(Halt::Damaged(damage)),
        AskError::Memory => Err(Halt::Memory),
    }
}
