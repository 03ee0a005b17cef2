//! The call of the program.

ghost use Rattle.std.specs.Prelude.{◌≡◌, ◌≢◌, ◌<◌, ◌≤◌, ◌↔◌, ◌⊎◌, IsTrue, ◌++◌, ℕ, List, false, is_some, length, IfSome, Some, None};
ghost use Rattle.disk_io.specs.Disk.{LeavesOnly};
ghost use Rattle.house_base.specs.Text.{Text};
ghost use Rattle.house_io.specs.Faults.{Rose};
ghost use Rattle.house_io.specs.Sink.{AppendsWhereTold, SameWhereTold};
ghost use Rattle.house_model.specs.Heard.{whole_lines};
ghost use Rattle.house_model.specs.Text.{Lines};
ghost use Rattle.intake_log.specs.Journal.{StandsFor};
ghost use Rattle.intake_log.specs.Log.{LeavesLines};
ghost use Rattle.intake_log.specs.Scan.{found};
ghost use Rattle.intake_log.specs.Scan.Scanned.{Ended, OffForm, Over};
ghost use Rattle.intake_desk.specs.Due.{Gives, GivesWhole, HasAtLeast, IsDue, IsWhole, StartsWith};
ghost use Rattle.intake_desk.specs.Due.{HasLines, due_status, due_text, lines_to_put, status_of};
ghost use Rattle.intake_desk.specs.Input.{taken_before};
ghost use Rattle.intake_desk.specs.Intake.{intake_end, kept_behind, told};
ghost use Rattle.intake_desk.specs.Progress.{IsFront};
ghost use Rattle.intake_desk.specs.Words.{asked_for, texts};
ghost use Rattle.intake_desk.specs.declared.status.DeskStatus.{DeskStatus};

use crate::intake::take_in;
use crate::show::show;
use crate::status::{DeskStatus, Desked};
use crate::words::{Asked, asked_for};
use house_io::{Sink, Source};
use intake_log::{Disk, Log, StartFault};
use std::alloc::Global;

/// Runs the program on its words, its input and a disk: `intake` puts each line of the input into the journal on the disk
/// and tells so, `show` prints the lines of the journal.
pub fn desk<I: Source, O: Sink, D: Disk>(
    alloc: Global,
    words: &Vec<String>,
    input: &mut I,
    output: &mut O,
    disk: D,
) -> Desked<D>
    // Other words touch nothing.
    ensures usage { (result.status ≡ DeskStatus.Usage) ↔ (asked_for (texts words.now.items) ≡ None) }
    ensures usage_touches_nothing { result.status ≡ DeskStatus.Usage →
        (result.disk ≡ disk) × (input.new ≡ input.old) × (output.new ≡ output.old) }

    // The status, and the causes of faults.
    ensures due { IfSome (due_status (asked_for (texts words.now.items)) (D.content disk) (I.left input.old))
        (λ due. IsDue due result.status) }
    ensures complete { (Rose (I.faults input.old) (I.faults input.new) → ⊥) → (Rose (O.faults output.old) (O.faults output.new) → ⊥) →
        (Rose (D.faults disk) (D.faults result.disk) → ⊥) →
        IfSome (due_status (asked_for (texts words.now.items)) (D.content disk) (I.left input.old))
        (λ due. (result.status ≡ due) ⊎ (result.status ≡ DeskStatus.Memory)) }
    ensures read_fault { result.status ≡ DeskStatus.ReadFault → Rose (I.faults input.old) (I.faults input.new) }
    ensures write_fault { result.status ≡ DeskStatus.WriteFault → Rose (O.faults output.old) (O.faults output.new) }
    ensures disk_fault { result.status ≡ DeskStatus.DiskFault → Rose (D.faults disk) (D.faults result.disk) }
    ensures show_reads_nothing { asked_for (texts words.now.items) ≡ Some Asked.Show → (input.new ≡ input.old)
        × (result.status ≢ DeskStatus.ReadFault) × ((number : ℕ) → result.status ≢ DeskStatus.Long number) }

    // Of a journal that is damaged, or longer than it may be, nothing is told and nothing is changed.
    ensures unstarted { (bytes : Text) → D.content disk ≡ Some bytes → ((old : Lines) → found bytes ≢ Ended old) →
        SameWhereTold (O.given output.old) (O.given output.new)
        × (result.status ≢ DeskStatus.DiskFault → D.content result.disk ≡ D.content disk) }
    ensures bad_journal { (place : ℕ) → result.status ≡ DeskStatus.BadJournal place →
        SameWhereTold (O.given output.old) (O.given output.new) }

    // What is given: the lines `kept N` of the lines kept, or the lines of the journal.
    ensures given { (asked : Asked) (old lines : Lines) →
        StartsWith (asked_for (texts words.now.items)) (D.content disk) (I.left input.old) asked old lines →
        Gives result.status (O.given output.old) (O.given output.new) (due_text asked old lines) }

    // What the journal has, through a crash too.
    ensures journal_has_the_lines { (asked : Asked) (old lines : Lines) →
        StartsWith (asked_for (texts words.now.items)) (D.content disk) (I.left input.old) asked old lines →
        IsWhole result.status → HasLines D.content D.images result.disk (old ++ kept_behind old lines) }
    ensures read_fault_keeps_whole_lines { (asked : Asked) (old lines : Lines) →
        StartsWith (asked_for (texts words.now.items)) (D.content disk) (I.left input.old) asked old lines →
        (text rest : Text) → I.left input.old ≡ Some text → I.left input.new ≡ Some rest → result.status ≡ DeskStatus.ReadFault →
        HasLines D.content D.images result.disk (old ++ whole_lines (taken_before text rest))
        × AppendsWhereTold (O.given output.old) (O.given output.new) (told (length old) (length (whole_lines (taken_before text rest)))) }
    ensures acknowledged { (old lines : Lines) →
        StartsWith (asked_for (texts words.now.items)) (D.content disk) (I.left input.old) Asked.Intake old lines →
        (count : ℕ) → 0 < count → GivesWhole (O.given output.old) (O.given output.new) (told (length old) count) →
        (image : Text) → D.images result.disk image → HasAtLeast count old lines image }
    ensures any_moment { (asked : Asked) (old lines : Lines) →
        StartsWith (asked_for (texts words.now.items)) (D.content disk) (I.left input.old) asked old lines →
        LeavesOnly D.moment D.images_since disk result.disk (λ image. D.images disk image ⊎ IsFront old lines image) }
{
    let Some(asked) = asked_for(words) else {
        return Desked {
            status: DeskStatus::Usage,
            disk,
        };
    };
    match Log::start(alloc, disk) {
        Ok(log) => {
            let mut log = log;
            let status = carry_out(alloc, asked, &mut log, input, output);
            Desked {
                status,
                disk: log.into_disk(),
            }
        }
        Err(stopped) => Desked {
            status: status_of(stopped.cause),
            disk: stopped.disk,
        },
    }
}

/// The status of a journal that was not started.
fn status_of(cause: StartFault) -> DeskStatus
    ensures { result ≡ status_of cause }
{
    match cause {
        StartFault::Failed => DeskStatus::DiskFault,
        StartFault::BadJournal(place) => DeskStatus::BadJournal(place),
        StartFault::Full => DeskStatus::Full,
        StartFault::Memory => DeskStatus::Memory,
    }
}

/// Does what is asked for with a journal that was started.
fn carry_out<I: Source, O: Sink, D: Disk>(
    alloc: Global,
    asked: Asked,
    log: &mut Log<D>,
    input: &mut I,
    output: &mut O,
) -> DeskStatus
    requires unbroken { log.old.broken ≡ false }
    ensures due { IfSome (lines_to_put asked (I.left input.old)) (λ lines. IsDue (intake_end log.old.lines lines) result) }
    ensures given { IfSome (lines_to_put asked (I.left input.old)) (λ lines.
        Gives result (O.given output.old) (O.given output.new) (due_text asked log.old.lines lines)) }
    ensures has_the_lines { IfSome (lines_to_put asked (I.left input.old)) (λ lines. IsWhole result →
        LeavesLines D.content D.images log.new.disk (log.old.lines ++ kept_behind log.old.lines lines)) }
    ensures keeps_whole_lines { (text rest : Text) → I.left input.old ≡ Some text → I.left input.new ≡ Some rest →
        result ≡ DeskStatus.ReadFault →
        LeavesLines D.content D.images log.new.disk (log.old.lines ++ whole_lines (taken_before text rest))
        × AppendsWhereTold (O.given output.old) (O.given output.new) (told (length log.old.lines) (length (whole_lines (taken_before text rest)))) }
    ensures acknowledged { asked ≡ Asked.Intake → IfSome (lines_to_put asked (I.left input.old)) (λ lines.
        (count : ℕ) → GivesWhole (O.given output.old) (O.given output.new) (told (length log.old.lines) count) →
        IsTrue (is_some (D.content log.new.disk)) →
        (image : Text) → D.images log.new.disk image → HasAtLeast count log.old.lines lines image) }
    ensures any_moment { (lines : Lines) (bytes : Text) → lines_to_put asked (I.left input.old) ≡ Some lines →
        D.content log.old.disk ≡ Some bytes →
        LeavesOnly D.moment D.images_since log.old.disk log.new.disk (IsFront log.old.lines lines) }
    ensures words_are_known { result ≢ DeskStatus.Usage }
    ensures journal_is_sound { (place : ℕ) → result ≢ DeskStatus.BadJournal place }
    ensures show_reads_nothing { asked ≡ Asked.Show → (input.new ≡ input.old)
        × (result ≢ DeskStatus.ReadFault) × ((number : ℕ) → result ≢ DeskStatus.Long number) }
    ensures read_fault { result ≡ DeskStatus.ReadFault → Rose (I.faults input.old) (I.faults input.new) }
    ensures write_fault { result ≡ DeskStatus.WriteFault → Rose (O.faults output.old) (O.faults output.new) }
    ensures disk_fault { result ≡ DeskStatus.DiskFault → Rose (D.faults log.old.disk) (D.faults log.new.disk) }
    ensures told { is_some (D.content log.new.disk) ≡ is_some (D.content log.old.disk) }
    ensures disk_never_falls { D.faults log.old.disk ≤ D.faults log.new.disk }
{
    match asked {
        Asked::Intake => take_in(log, input, output),
        Asked::Show => show(alloc, log.lines(), output),
    }
}
