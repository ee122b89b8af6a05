//! The program's run.
ghost use Rattle.std.specs.Prelude.{◌≡◌, ◌⊎◌, ◌<◌, ◌≤◌, ℕ, List, [], length, IfSome, IfNone, IfOk, IfErr};
ghost use Rattle.machine_model.specs.Calls.{Syncs};
ghost use Rattle.machine_model.specs.Causes.{Rose};
ghost use Rattle.machine_model.specs.Pulls.{Pull};
ghost use Rattle.machine_model.specs.States.{state_by};
ghost use Rattle.model_archive.specs.Histories.{History};
ghost use Rattle.model_archive.specs.Legal.{IsLoadable};
ghost use Rattle.model_archive.specs.Stands.{Stands, EachStands, IsNotArchive, bodies_of};
ghost use Rattle.archive_hand.specs.Changing.{KeepsHistory};
ghost use Rattle.journal_gates.specs.Crash.{KeepsBodies};
ghost use Rattle.journal_gates.specs.Spelled.{EachSpells, Spells};
ghost use Rattle.run_words.specs.Words.{AreNoWords, AreWords, texts};
ghost use Rattle.run_words.specs.declared.task.Task.{Task as PlainTask};
ghost use Rattle.run_words.specs.declared.task.Task.TheVariants as tasks;
ghost use Rattle.run_words.specs.declared.task.FirstEntry.{FirstEntry as PlainFirst};
ghost use Rattle.run_words.specs.declared.task.SampleNumbers.{SampleNumbers as PlainNumbers};
ghost use Rattle.run_script.specs.Exporting.{EndsExport, Exported, LeavesAlone};
ghost use Rattle.run_script.specs.Following.{EndsFollow, IsCompletelyFollowed, Replicated};
ghost use Rattle.run_script.specs.Headline.{Ends, EndsSpoiled, IsComplete, IsLoadedFrom, LoadsAs, ReadingRun, StandingRun, store_of};
ghost use Rattle.run_script.specs.Sampling.{EndsSample, Sampled};
ghost use Rattle.run_script.specs.Statuses.{OfPackets};

use crate::exporting::run_export;
use crate::following::run_follow;
use crate::sampling::run_sample;
use crate::script::run_script;
use crate::status::Status;
use machine_model::Machine;
use pages_sublists::Damage;
use run_words::{Task, WordsError, read_words};
use std::alloc::Global;

/// Says how a run ends at once because of these words of the command line, given without the program's
/// name: they ask for nothing, or there is no memory to read them. `None` where the run goes on. A
/// program calls this before it opens any file. Costs the length of the words.
pub fn refusal_of(alloc: Global, words: &[String]) -> Option<Status>
    ensures refused { IfSome result (λ status. (status ≡ Status.Memory) ⊎ ((status ≡ Status.Usage) × AreNoWords (texts words.now))) }
    ensures taken { IfNone result ((task : PlainTask) × AreWords (texts words.now) task) }
{
    match task_of(alloc, words) {
        Ok(_) => None,
        Err(status) => Some(status),
    }
}

/// Reads what the words ask for, or says how the run ends at once.
fn task_of(alloc: Global, words: &[String]) -> Result<Task, Status>
    ensures read { IfOk result (AreWords (texts words.now)) }
    ensures refused { IfErr result (λ status. (status ≡ Status.Memory) ⊎ ((status ≡ Status.Usage) × AreNoWords (texts words.now))) }
{
    match read_words(alloc, words) {
        Ok(task) => Ok(task),
        Err(WordsError::Refused) => Err(Status::Usage),
        Err(WordsError::Memory) => Err(Status::Memory),
    }
}

/// Runs the program on a machine. `words` are those of the command line, without the program's name.
///
/// Where the words ask for the script, `run` loads the archive from the machine's disk and carries out
/// the items of its source one after another. It shows each reply whole before it pulls more input.
/// Where they ask for a sample, `run` carries out the sample's commands on an archive without entries,
/// and shows two lines about them. Where they ask for an export, it shows the archive's entries as packets.
/// Where they ask to follow, it takes the packets of its source into the archive, and shows a line for each.
/// The first event that ends the run decides the status.
/// `docs/claims.md` says in words what each clause promises, and under which premises.
///
/// Costs the length of the journal once, and for each command what its call of the archive costs.
pub fn run<M: Machine>(alloc: Global, words: &[String], machine: &mut M) -> Status
    // Words that ask for nothing are refused, unless there is no memory to read them, and then nothing is touched.
    ensures usage { result ≡ Status.Usage → AreNoWords (texts words.now) }
    ensures refused_words { AreNoWords (texts words.now) → (result ≡ Status.Usage) ⊎ (result ≡ Status.Memory) }
    ensures untouched { AreNoWords (texts words.now) → machine.new ≡ machine.old }
    // A fault comes only where the machine's count rose.
    ensures disk_fault { result ≡ Status.Disk → Rose (M.disk machine.old).faults (M.disk machine.new).faults }
    ensures source_fault { result ≡ Status.Source → Rose (M.source machine.old).faults (M.source machine.new).faults }
    ensures sink_fault { result ≡ Status.Sink → Rose (M.sink machine.old).faults (M.sink machine.new).faults }
    // Statuses that speak of packets come with the word of a follower alone.
    ensures packets { OfPackets result → AreWords (texts words.now) tasks.Follow }
    // The journal is refused exactly where the bytes are no archive's, unless the disk failed or memory ran out first.
    ensures not_archive { M.disk_tells → (at : ℕ) → result ≡ Status.NotArchive at → IsNotArchive (M.disk machine.old).holds at }
    ensures refused { M.disk_tells → (task : PlainTask) → AreWords (texts words.now) task → (at : ℕ)
        → IsNotArchive (M.disk machine.old).holds at →
        (result ≡ Status.NotArchive at) ⊎ ((result ≡ Status.Disk) ⊎ (result ≡ Status.Memory)) }
    // Such bytes are left as they are: they are synced and read, and nothing is pulled, shown or written.
    ensures left_alone { M.disk_tells → (at : ℕ) → IsNotArchive (M.disk machine.old).holds at →
        (M.source machine.new ≡ M.source machine.old) × (M.sink machine.new ≡ M.sink machine.old)
        × Syncs (M.disk machine.old) (M.disk machine.new) }
    // Where the bytes stand for a history: one run of the abstract archive over the items of the bytes pulled, what is shown of it and when, what each
    // image left at any moment stands for, and where the input was.
    ensures headline { M.source_tells → M.sink_tells → M.disk_tells → AreWords (texts words.now) tasks.Script → (h : History)
        → Stands h (M.disk machine.old).holds →
        (pulls : List Pull) × M.asked machine.old pulls machine.new
        × StandingRun h result (state_by M.source M.sink M.disk machine.old) (state_by M.source M.sink M.disk machine.new) pulls }
    // The same by what reads give, whatever lies in Pages: from the history for which a load takes the bytes, one run in which changes and plans are
    // the abstract archive's, answers are made from the lists that are chosen, and verdicts from the bytes that are there. Each image left at any moment has the
    // journal of its state, and in each live place the bytes that reads give; so a plan whose sublists are held keeps them while it is live, whatever
    // became of the others. Where the run ends at a damaged sublist, it is the first damage of what is read for the next item. At the end as many
    // bytes of Pages were read as the run says, in which each query asks for just the pages of the lists that are chosen for it.
    ensures by_reads { M.source_tells → M.sink_tells → M.disk_tells → AreWords (texts words.now) tasks.Script → (h : History)
        → LoadsAs h (M.disk machine.old).holds →
        (pulls : List Pull) × M.asked machine.old pulls machine.new
        × ReadingRun (store_of h (M.disk machine.old)) result (state_by M.source M.sink M.disk machine.old)
        (state_by M.source M.sink M.disk machine.new) pulls }
    // Whatever the source and the sink tell, a damaged sublist is told only of a question, and only where it is the first damage of what is read for
    // that one, by the history to which the items in front of it led the one loaded.
    ensures damaged { M.disk_tells → AreWords (texts words.now) tasks.Script → (d : Damage) → result ≡ Status.Damaged d →
        (h : History) × LoadsAs h (M.disk machine.old).holds
        × EndsSpoiled M.source_tells (store_of h (M.disk machine.old)) (M.source machine.old) (M.source machine.new)
        (M.disk machine.new) d }
    // Unless the bytes were refused, the disk failed or memory ran out, a load took them for a history's.
    ensures loaded { M.disk_tells → AreWords (texts words.now) tasks.Script → IsLoadedFrom (M.disk machine.old).holds result }
    // And whatever the disk holds, unless its bytes were refused: where the input was.
    ensures input_at { M.source_tells → AreWords (texts words.now) tasks.Script → ((at : ℕ) × (result ≡ Status.NotArchive at))
        ⊎ Ends result (M.source machine.old) (M.source machine.new) }
    // Where nothing is wrong, the run comes to the end of the input, unless memory runs out or a sublist is damaged.
    ensures complete { M.source_tells → M.sink_tells → M.disk_tells → AreWords (texts words.now) tasks.Script →
        IsComplete result (state_by M.source M.sink M.disk machine.old) (state_by M.source M.sink M.disk machine.new) }
    // With the words of a sample nothing is pulled, and no status speaks of the input.
    ensures sample_ends { (numbers : PlainNumbers) → AreWords (texts words.now) (tasks.Generate numbers) →
        EndsSample result ⊎ (((at : ℕ) × (result ≡ Status.NotArchive at)) ⊎ ((n : ℕ) × (result ≡ Status.NotEmpty n))) }
    ensures unpulled { (numbers : PlainNumbers) → AreWords (texts words.now) (tasks.Generate numbers)
        → M.source machine.new ≡ M.source machine.old }
    // An archive with entries is told so, exactly with these words, unless it can't be loaded; it keeps its history, and nothing is shown.
    ensures not_empty { (n : ℕ) → result ≡ Status.NotEmpty n
        → (1 ≤ n) × ((numbers : PlainNumbers) × AreWords (texts words.now) (tasks.Generate numbers))
        × (M.disk_tells → (h : History) × Spells (M.disk machine.old).holds.journal (bodies_of h) × IsLoadable h × (n ≡ length h)) }
    ensures occupied { M.disk_tells → (numbers : PlainNumbers) → AreWords (texts words.now) (tasks.Generate numbers) →
        (h : History) → Spells (M.disk machine.old).holds.journal (bodies_of h) → IsLoadable h → 1 ≤ length h →
        (result ≡ Status.NotEmpty (length h))
        ⊎ ((result ≡ Status.Disk) ⊎ ((result ≡ Status.Memory) ⊎ ((at : ℕ) × (result ≡ Status.NotArchive at)))) }
    ensures spared { M.disk_tells → (numbers : PlainNumbers) → AreWords (texts words.now) (tasks.Generate numbers) → (h : History)
        → EachStands (M.disk machine.old) h → 1 ≤ length h →
        (M.sink machine.new ≡ M.sink machine.old) × KeepsHistory h (M.disk machine.old) (M.disk machine.new) }
    ensures unwritten { M.disk_tells → (numbers : PlainNumbers) → AreWords (texts words.now) (tasks.Generate numbers)
        → (bodies : List (List ℕ)) → EachSpells (M.disk machine.old) bodies → 1 ≤ length bodies →
        (M.sink machine.new ≡ M.sink machine.old) × KeepsBodies bodies (M.disk machine.old) (M.disk machine.new) }
    // From an archive without entries: one run of the abstract archive over the sample's commands, the lines that are shown of it, and what each
    // image left at any moment stands for.
    ensures sampled { M.sink_tells → M.disk_tells → (numbers : PlainNumbers) → AreWords (texts words.now) (tasks.Generate numbers)
        → Stands [] (M.disk machine.old).holds →
        Sampled numbers.seed numbers.count result (M.sink machine.old) (M.sink machine.new) (M.disk machine.old) (M.disk machine.new) }
    ensures filled { M.disk_tells → (numbers : PlainNumbers) → AreWords (texts words.now) (tasks.Generate numbers)
        → Stands [] (M.disk machine.old).holds →
        (Rose (M.disk machine.old).faults (M.disk machine.new).faults → ⊥) →
        (Rose (M.sink machine.old).faults (M.sink machine.new).faults → ⊥) →
        (result ≡ Status.Done) ⊎ (result ≡ Status.Memory) }
    // With the words of an export nothing is pulled, and no status speaks of the input.
    ensures export_ends { (first : PlainFirst) → AreWords (texts words.now) (tasks.Export first) → EndsExport result }
    ensures export_unpulled { (first : PlainFirst) → AreWords (texts words.now) (tasks.Export first)
        → M.source machine.new ≡ M.source machine.old }
    // Unless the bytes were refused, the disk failed or memory ran out, a load took them for a history's. A front of that history's packets from the
    // entry of this number on is shown, and at status 0 all of them, and what is shown is in each image that a stop may leave from then on.
    ensures export_loaded { M.disk_tells → (first : PlainFirst) → AreWords (texts words.now) (tasks.Export first)
        → IsLoadedFrom (M.disk machine.old).holds result }
    ensures exported { M.sink_tells → M.disk_tells → (first : PlainFirst) → AreWords (texts words.now) (tasks.Export first)
        → (h : History) → LoadsAs h (M.disk machine.old).holds →
        Exported h first.number result (M.sink machine.old) (M.sink machine.new) (M.disk machine.old) (M.disk machine.new) }
    // Whatever the disk holds, nothing of the archive is written, but that a journal which is new is begun.
    ensures export_spared { M.sink_tells → M.disk_tells → (first : PlainFirst) → AreWords (texts words.now) (tasks.Export first) →
        LeavesAlone (M.disk machine.old) (M.disk machine.new) (M.sink machine.old).shown (M.sink machine.new).shown }
    // Where nothing is wrong, all is shown, unless memory runs out.
    ensures export_complete { M.disk_tells → (first : PlainFirst) → AreWords (texts words.now) (tasks.Export first) →
        ((at : ℕ) → IsNotArchive (M.disk machine.old).holds at → ⊥) →
        (Rose (M.disk machine.old).faults (M.disk machine.new).faults → ⊥) →
        (Rose (M.sink machine.old).faults (M.sink machine.new).faults → ⊥) →
        (result ≡ Status.Done) ⊎ (result ≡ Status.Memory) }
    // With the word of a follower, unless the bytes were refused, the disk failed or memory ran out, a load took them for a history's.
    ensures follow_ends { AreWords (texts words.now) tasks.Follow → EndsFollow result }
    ensures follow_loaded { M.disk_tells → AreWords (texts words.now) tasks.Follow → IsLoadedFrom (M.disk machine.old).holds result }
    // From that history: one run of the abstract follower over the packets of the bytes pulled, the lines that are shown of it and when, what each
    // image left at any moment has, and at which packet and why it ended.
    ensures followed { M.source_tells → M.sink_tells → M.disk_tells → AreWords (texts words.now) tasks.Follow → (h : History)
        → LoadsAs h (M.disk machine.old).holds →
        (pulls : List Pull) × M.asked machine.old pulls machine.new
        × Replicated h result (state_by M.source M.sink M.disk machine.old) (state_by M.source M.sink M.disk machine.new) pulls }
    // Where nothing is wrong, the bytes of the input decide how it ends, unless memory runs out.
    ensures follow_complete { M.source_tells → M.sink_tells → M.disk_tells → AreWords (texts words.now) tasks.Follow →
        IsCompletelyFollowed result (state_by M.source M.sink M.disk machine.old) (state_by M.source M.sink M.disk machine.new) }
{
    let task = match task_of(alloc, words) {
        Ok(task) => task,
        Err(status) => return status,
    };
    match task {
        Task::Script => run_script(alloc, machine),
        Task::Generate(numbers) => run_sample(alloc, machine, numbers),
        Task::Export(first) => run_export(alloc, machine, first),
        Task::Follow => run_follow(alloc, machine),
    }
}
