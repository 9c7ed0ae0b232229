//! The top calls: all that the program does, with a journal and without.
ghost use Rattle.std.specs.Prelude.{◌≡◌, ◌≤◌, ◌<◌, ◌^◌, ◌⊎◌, ◌∷◌, [], IfSome, None};
ghost use Rattle.ld_base.specs.Outside.{Rose};
ghost use Rattle.ld_top.specs.Completeness.{DidNotFail, EndsAtLimit, EndsRefused, TaskEndsRefused, TaskEndsWell};
ghost use Rattle.ld_top.specs.Endings.{IsOneOf, IsPlainStatus, IsStatus, NotOpened, NothingKept, NothingTaken, NothingWritten, ending_word, number_of};
ghost use Rattle.ld_top.specs.Journaled.{IsGivenToKeep, KeptAll, KeptCut, KeptDiffers, KeptFull, KeptLost, KeptTaken, journaled};
ghost use Rattle.ld_top.specs.Replay.{Refused};
ghost use Rattle.ld_top.specs.Tasks.{OfAsked, TaskCut, TaskDone, TaskRefused, TaskStopped, WantsNoInput, keep_in, task_in};
ghost use Rattle.ld_top.specs.Working.{TaskWorked, WorkedKeep};
ghost use Rattle.ld_words.specs.Forms.{form_in};
ghost use Rattle.ld_words.specs.Words.{words_of};

use crate::ending::Ending;
use crate::generate::generate;
use crate::keep_folders::keep_folders;
use crate::replay_folders::replay_folders;
use crate::report::{Report, report_on};
use ld_base::{Shelf, Sink, Source, Steps};
use ld_keep::Disk;
use ld_words::{Form, form_of};
use std::alloc::Global;
use std::sync::ledger::Ledger;

/// The number of a call's ending (docs/COMMANDS.md, "Statuses"): 0, or one of 2 to 11.
#[derive(Clone, Copy)]
pub struct Status(pub u8);

impl Status {
    /// The word that the program prints on standard error for this status; empty for 0, and for a
    /// number that is no status.
    pub fn word(self) -> &'static str
        ensures word { (ending : Ending) → number_of ending ≡ self.0
            → result.now ≡ ending_word ending }
        ensures other { (IsStatus self.0 → ⊥) → result.now ≡ [] }
    {
        match self.0 {
            2 => "bad-words",
            3 => "shelf-fault",
            4 => "unit-refused",
            5 => "read-fault",
            6 => "write-fault",
            7 => "no-memory",
            8 => "input-too-long",
            9 => "disk-fault",
            10 => "journal-differs",
            11 => "journal-full",
            _ => "",
        }
    }
}

/// Does all that the program does without a journal. `words` are the words after the program's name.
/// It knows all forms but `keep`; words of that form, or of none, are bad words.
pub fn ld_main<H: Shelf, S: Source, K: Sink, L: Ledger>(
    alloc: Global,
    words: &[String],
    shelf: &mut H,
    input: &mut S,
    output: &mut K,
    steps: &mut Steps<L>,
) -> Status
    // Every status is one of the table, and has a cause. Memory may run out while the words are
    // read.
    ensures status { IsPlainStatus result.0 }
    ensures bad_words { result.0 ≡ 2 → task_in (words_of words.now) ≡ None }
    ensures no_task { task_in (words_of words.now) ≡ None → (result.0 ≡ 2) ⊎ (result.0 ≡ 7) }
    ensures shelf_fault { result.0 ≡ 3 → Rose (H.faults shelf.old) (H.faults shelf.new) }
    ensures read_fault { result.0 ≡ 5 → Rose (S.faults input.old) (S.faults input.new) }
    ensures write_fault { result.0 ≡ 6 → Rose (K.faults output.old) (K.faults output.new) }

    // What was done.
    ensures done { result.0 ≡ 0
        → OfAsked (task_in (words_of words.now)) (TaskDone (H.files shelf.old)
        (S.left input.old) (S.left input.new) (K.written output.old) (K.written output.new)) }
    ensures work { result.0 ≡ 0
        → OfAsked (task_in (words_of words.now)) (TaskWorked (H.files shelf.old) (S.left input.old)
        (K.written output.old) (K.written output.new) steps.old steps.new) }
    ensures refused { result.0 ≡ 4
        → OfAsked (task_in (words_of words.now)) (TaskRefused (H.files shelf.old)
        (K.written output.old) (K.written output.new)) }
    ensures read { result.0 ≡ 5
        → OfAsked (task_in (words_of words.now)) (TaskStopped (λ n. n < 2 ^ 40) (H.files shelf.old)
        (S.left input.old) (S.left input.new) (K.written output.old) (K.written output.new)) }
    ensures too_long { result.0 ≡ 8
        → OfAsked (task_in (words_of words.now)) (TaskStopped (λ n. n ≡ 2 ^ 40) (H.files shelf.old)
        (S.left input.old) (S.left input.new) (K.written output.old) (K.written output.new)) }
    ensures cut { result.0 ≡ 6
        → OfAsked (task_in (words_of words.now)) (TaskCut (H.files shelf.old)
        (S.left input.old) (S.left input.new) (K.written output.old) (K.written output.new)) }

    // What was left alone.
    ensures not_written { NothingWritten result.0 → output.new ≡ output.old }
    ensures not_taken { NothingTaken result.0 → input.new ≡ input.old }
    ensures only_replay_takes { OfAsked (task_in (words_of words.now)) WantsNoInput
        → input.new ≡ input.old }
    ensures files { H.files shelf.new ≡ H.files shelf.old }

    // Which status comes where nothing of the outside failed: what is asked, the files and the input
    // tell it, but that memory may run out.
    ensures complete { DidNotFail (H.faults shelf.old) (H.faults shelf.new)
        → DidNotFail (S.faults input.old) (S.faults input.new)
        → DidNotFail (K.faults output.old) (K.faults output.new)
        → IfSome (task_in (words_of words.now))
        (TaskEndsWell (H.files shelf.old) (S.left input.old) result.0) }
    ensures refuses { DidNotFail (H.faults shelf.old) (H.faults shelf.new)
        → DidNotFail (K.faults output.old) (K.faults output.new)
        → IfSome (task_in (words_of words.now)) (TaskEndsRefused (H.files shelf.old) result.0) }
    ensures at_limit { DidNotFail (K.faults output.old) (K.faults output.new)
        → EndsAtLimit (S.left input.old) (S.left input.new) result.0 }

    ensures shelf_counts { H.faults shelf.old ≤ H.faults shelf.new }
    ensures source_counts { S.faults input.old ≤ S.faults input.new }
    ensures sink_counts { K.faults output.old ≤ K.faults output.new }
{
    let Ok(form) = form_of(alloc, words) else {
        return Status(Ending::NoMemory.number());
    };
    match form {
        Some(Form::Replay(folders)) => {
            let ending = replay_folders(alloc, folders, shelf, input, output, steps);
            return Status(ending.number());
        }
        Some(Form::Check(folder)) => {
            let ending = report_on(alloc, Report::Check, folder, shelf, output);
            return Status(ending.number());
        }
        Some(Form::Canon(folder)) => {
            let ending = report_on(alloc, Report::Canon, folder, shelf, output);
            return Status(ending.number());
        }
        Some(Form::Rank(folder)) => {
            let ending = report_on(alloc, Report::Rank, folder, shelf, output);
            return Status(ending.number());
        }
        Some(Form::Gen { number, persons }) => {
            let ending = generate(alloc, number, persons, output, steps);
            return Status(ending.number());
        }
        Some(Form::Keep(_)) | None => {
            return Status(Ending::BadWords.number());
        }
    }
}

/// Does all that the program does. `words` are the words after the program's name. For the form
/// `keep` it answers the lines of the input from the world that the journal of the disk holds, and
/// keeps each line that is done before its reply is written (docs/JOURNAL.md). For all other words
/// it is `ld_main`, and the disk is not called.
pub fn ld_top<H: Shelf, S: Source, K: Sink, D: Disk, L: Ledger>(
    alloc: Global,
    words: &[String],
    shelf: &mut H,
    input: &mut S,
    output: &mut K,
    disk: &mut D,
    steps: &mut Steps<L>,
) -> Status
    // Every status is one of the table, and has a cause. Memory may run out while the words are
    // read.
    ensures status { IsStatus result.0 }
    ensures bad_words { result.0 ≡ 2 → form_in (words_of words.now) ≡ None }
    ensures no_form { form_in (words_of words.now) ≡ None → (result.0 ≡ 2) ⊎ (result.0 ≡ 7) }
    ensures shelf_fault { result.0 ≡ 3 → Rose (H.faults shelf.old) (H.faults shelf.new) }
    ensures read_fault { result.0 ≡ 5 → Rose (S.faults input.old) (S.faults input.new) }
    ensures write_fault { result.0 ≡ 6 → Rose (K.faults output.old) (K.faults output.new) }
    ensures disk_fault { result.0 ≡ 9 → Rose (D.faults disk.old) (D.faults disk.new) }

    // What was done of what is asked: without a journal, or with one.
    ensures done { result.0 ≡ 0
        → OfAsked (task_in (words_of words.now)) (TaskDone (H.files shelf.old)
        (S.left input.old) (S.left input.new) (K.written output.old) (K.written output.new))
        ⊎ OfAsked (keep_in (words_of words.now)) (KeptAll (journaled D.model disk.old disk.new)
        (H.files shelf.old) (D.model.bytes disk.old)
        (S.left input.old) (S.left input.new) (K.written output.old) (K.written output.new)) }
    ensures work { result.0 ≡ 0
        → OfAsked (task_in (words_of words.now)) (TaskWorked (H.files shelf.old) (S.left input.old)
        (K.written output.old) (K.written output.new) steps.old steps.new)
        ⊎ OfAsked (keep_in (words_of words.now)) (WorkedKeep (H.files shelf.old)
        (D.model.bytes disk.old) (S.left input.old)
        (K.written output.old) (K.written output.new) steps.old steps.new) }
    ensures refused { result.0 ≡ 4
        → OfAsked (task_in (words_of words.now)) (TaskRefused (H.files shelf.old)
        (K.written output.old) (K.written output.new))
        ⊎ OfAsked (keep_in (words_of words.now)) (λ folders. Refused folders (H.files shelf.old)
        (K.written output.old) (K.written output.new)) }
    ensures read { result.0 ≡ 5
        → OfAsked (task_in (words_of words.now)) (TaskStopped (λ n. n < 2 ^ 40) (H.files shelf.old)
        (S.left input.old) (S.left input.new) (K.written output.old) (K.written output.new))
        ⊎ OfAsked (keep_in (words_of words.now)) (KeptTaken (λ n. n < 2 ^ 40)
        (journaled D.model disk.old disk.new) (H.files shelf.old) (D.model.bytes disk.old)
        (S.left input.old) (S.left input.new) (K.written output.old) (K.written output.new)) }
    ensures too_long { result.0 ≡ 8
        → OfAsked (task_in (words_of words.now)) (TaskStopped (λ n. n ≡ 2 ^ 40) (H.files shelf.old)
        (S.left input.old) (S.left input.new) (K.written output.old) (K.written output.new))
        ⊎ OfAsked (keep_in (words_of words.now)) (KeptTaken (λ n. n ≡ 2 ^ 40)
        (journaled D.model disk.old disk.new) (H.files shelf.old) (D.model.bytes disk.old)
        (S.left input.old) (S.left input.new) (K.written output.old) (K.written output.new)) }
    ensures cut { result.0 ≡ 6
        → OfAsked (task_in (words_of words.now)) (TaskCut (H.files shelf.old)
        (S.left input.old) (S.left input.new) (K.written output.old) (K.written output.new))
        ⊎ OfAsked (keep_in (words_of words.now)) (KeptCut (journaled D.model disk.old disk.new)
        (H.files shelf.old) (D.model.bytes disk.old)
        (S.left input.old) (S.left input.new) (K.written output.old) (K.written output.new)) }
    ensures lost { result.0 ≡ 9
        → OfAsked (keep_in (words_of words.now)) (KeptLost (journaled D.model disk.old disk.new)
        (H.files shelf.old) (D.model.bytes disk.old)
        (S.left input.old) (S.left input.new) (K.written output.old) (K.written output.new)) }
    ensures differs { result.0 ≡ 10
        → OfAsked (keep_in (words_of words.now)) (KeptDiffers (journaled D.model disk.old disk.new)
        (H.files shelf.old) (D.model.bytes disk.old)
        (S.left input.old) (S.left input.new) (K.written output.old) (K.written output.new)) }
    ensures full { result.0 ≡ 11
        → OfAsked (keep_in (words_of words.now)) (KeptFull (journaled D.model disk.old disk.new)
        (H.files shelf.old) (D.model.bytes disk.old)
        (S.left input.old) (S.left input.new) (K.written output.old) (K.written output.new)) }

    // What was left alone.
    ensures not_written { NothingWritten result.0 → output.new ≡ output.old }
    ensures not_taken { NothingTaken result.0 → input.new ≡ input.old }
    ensures not_kept { NothingKept result.0 → (journaled D.model disk.old disk.new).KeptNone }
    ensures not_opened { NotOpened result.0 → disk.new ≡ disk.old }
    ensures only_keep_keeps { keep_in (words_of words.now) ≡ None → disk.new ≡ disk.old }
    ensures no_input_wanted { OfAsked (task_in (words_of words.now)) WantsNoInput
        → input.new ≡ input.old }
    ensures files { H.files shelf.new ≡ H.files shelf.old }

    // Which status comes where nothing of the outside failed, but that memory may run out: without a
    // journal as `ld_main` says, and with one where nothing is refused, or a folder is.
    ensures complete { DidNotFail (H.faults shelf.old) (H.faults shelf.new)
        → DidNotFail (S.faults input.old) (S.faults input.new)
        → DidNotFail (K.faults output.old) (K.faults output.new)
        → IfSome (task_in (words_of words.now))
        (TaskEndsWell (H.files shelf.old) (S.left input.old) result.0) }
    ensures keeps_well { DidNotFail (H.faults shelf.old) (H.faults shelf.new)
        → DidNotFail (S.faults input.old) (S.faults input.new)
        → DidNotFail (K.faults output.old) (K.faults output.new)
        → DidNotFail (D.faults disk.old) (D.faults disk.new)
        → IfSome (keep_in (words_of words.now)) (λ folders.
        IsGivenToKeep folders (H.files shelf.old) (S.left input.old) (D.model.bytes disk.old)
        → IsOneOf (0 ∷ 7 ∷ []) result.0) }
    ensures refuses { DidNotFail (H.faults shelf.old) (H.faults shelf.new)
        → DidNotFail (K.faults output.old) (K.faults output.new)
        → IfSome (task_in (words_of words.now)) (TaskEndsRefused (H.files shelf.old) result.0) }
    ensures keep_refuses { DidNotFail (H.faults shelf.old) (H.faults shelf.new)
        → DidNotFail (K.faults output.old) (K.faults output.new)
        → IfSome (keep_in (words_of words.now))
        (λ folders. EndsRefused folders (H.files shelf.old) result.0) }
    ensures at_limit { keep_in (words_of words.now) ≡ None
        → DidNotFail (K.faults output.old) (K.faults output.new)
        → EndsAtLimit (S.left input.old) (S.left input.new) result.0 }

    ensures shelf_counts { H.faults shelf.old ≤ H.faults shelf.new }
    ensures source_counts { S.faults input.old ≤ S.faults input.new }
    ensures sink_counts { K.faults output.old ≤ K.faults output.new }
    ensures disk_counts { D.faults disk.old ≤ D.faults disk.new }
{
    let Ok(form) = form_of(alloc, words) else {
        return Status(Ending::NoMemory.number());
    };
    if let Some(Form::Keep(folders)) = form {
        let ending = keep_folders(alloc, folders, shelf, input, output, disk, steps);
        return Status(ending.number());
    }
    ld_main(alloc, words, shelf, input, output, steps)
}
