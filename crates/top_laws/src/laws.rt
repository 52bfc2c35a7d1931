// What `met` of the top call means in plain words: each function does nothing, and its contract is the law.
// Where the line of a cause was put, a sink that failed as well may have a front of the text alone.
ghost use Rattle.std.specs.Prelude.{◌≡◌, ◌⊎◌, ◌≤◌, ◌++◌, ◌∷◌, ℕ, List, [], None, Option, Some, length};
ghost use mathlib.Core.List.{IsPrefix};
ghost use Rattle.command_line.specs.declared.task.Task.{Task};
ghost use Rattle.command_line.specs.declared.task.Task.TheVariants.{Bench, New, Par, Run, Recover};
ghost use Rattle.iso_disk.specs.Disk.{SinceBind};
ghost use Rattle.iso_image.specs.declared.open_error.OpenError.{OpenError};
ghost use Rattle.iso_io.specs.{Sink.SinkState, Source.SourceState};
ghost use Rattle.iso_model.specs.{declared.access.Geometry.Geometry, History.last, World.{empty_history, fresh}};
ghost use Rattle.iso_recover.specs.Made.{IsUnmadeOrEmpty};
ghost use Rattle.iso_shared.specs.{declared.entry.Entry.Entry, Standing.start_at, States.state_at};
ghost use Rattle.par_script.specs.{Told.Told, declared.part.Part.Part};
ghost use Rattle.store_scripts.specs.{Kept.BeginsWell, Stores.{the_files, the_tree}};
ghost use Rattle.iso_top.specs.{Clients.HasRunClients, Outcome.{HasAnswered, HasMet, HasNotBegun}, Prints.{Printed, WasCut}, Starts.{MayBeUnmade, TellsNamed}, Texts.{disk_fault_text, input_fault_text, memory_text}};
ghost use Rattle.top_laws.specs.Plain.{AnswerInOneOrder, CommitsStayFrom, GoesOnIsolated, HasCommitsOf, NamesBadLine, NamesRefusal, OfItsWorld, OpensFrom, PrintsButShown, PrintsButShownOf, PrintsClients, PrintsClientsFront, PrintsCounts, PrintsDigestOf, PrintsFirst, PrintsFront, PrintsReplies, PrintsRepliesOf, PrintsSomeOfClients, PrintsWholeLines};
ghost use Rattle.script_runner.specs.{declared.run_end.RunEnd.RunEnd, Replies.TellsCommit, Run.Acknowledges, Told.ArePlain};
ghost use Rattle.script_model.specs.{Bench.{bench_output, recover_output}, Script.{replies, script}};

use bench_script::laws::{
    commits_are_twice_the_rounds_less_the_conflicts, drawn_scripts_are_good,
    rounds_conflict_where_places_meet, shown_bytes_are_not_counted,
};
use iso_disk::Image;

/// Status 0 of `new` and `run`, on any disk, also an opaque one, as a real file: no line of the script is bad, and where
/// none calls a store, the model's replies to all its lines were put, but for the bytes that reads show.
pub fn replies_were_printed_on_any_disk<I: Image>(_image: &I)
    ensures made { (g : Geometry) (name all : List ℕ) (old new : I) (input_old input_new : SourceState) (output_old output_new : SinkState)
        → HasMet I.state (New g) name 0 old new input_old input_new output_old output_new → input_old.rest ≡ Some all → ArePlain (script all).lines
        → PrintsButShown (fresh g 1 (empty_history g)) all output_old output_new }
    ensures given { (name all : List ℕ) (old new : I) (input_old input_new : SourceState) (output_old output_new : SinkState)
        → HasMet I.state Run name 0 old new input_old input_new output_old output_new → input_old.rest ≡ Some all → ArePlain (script all).lines
        → PrintsButShownOf ((I.state old).named name) all output_old output_new }
{}

/// Status 0 of `new` and `run`, where what the name names is known, and the bytes of the source: no line of the script is bad, and
/// exactly the model's replies to all its lines were put, from a new image or from the image as given.
pub fn replies_were_printed<I: Image>(_image: &I)
    ensures made { (g : Geometry) (name all : List ℕ) (old new : I) (input_old input_new : SourceState) (output_old output_new : SinkState)
        → HasMet I.state (New g) name 0 old new input_old input_new output_old output_new → TellsNamed name (I.state old) → input_old.rest ≡ Some all
        → PrintsReplies (fresh g 1 (empty_history g)) all output_old output_new }
    ensures given { (name all image : List ℕ) (old new : I) (input_old input_new : SourceState) (output_old output_new : SinkState)
        → HasMet I.state Run name 0 old new input_old input_new output_old output_new → (I.state old).named name ≡ Some image → input_old.rest ≡ Some all
        → PrintsRepliesOf image all output_old output_new }
{}

/// Each image that a crash might have left since the bind opens to a history that has at least the commits of the image as given; one
/// that is being made may be refused as none of this project for a while. Each that a crash leaves when the call has ended opens to
/// a history that has each commit that the model's replies tell of, where what the name names is known, and on any disk each commit
/// that was told of in answer to a line that calls no store.
pub fn images_of_a_crash_open<I: Image>(_image: &I)
    ensures since { (made : Option Geometry) (name : List ℕ) (e : RunEnd) (old new : I) (input_old input_new : SourceState) (output_old output_new : SinkState)
        → (a : HasAnswered I.state made name e old new input_old input_new output_old output_new)
        → SinceBind (I.state new) (λ c. MayBeUnmade made c ⊎ OpensFrom (last a.world.history) c) }
    ensures exit { (made : Option Geometry) (name : List ℕ) (e : RunEnd) (old new : I) (input_old input_new : SourceState) (output_old output_new : SinkState)
        → (a : HasAnswered I.state made name e old new input_old input_new output_old output_new) → TellsNamed name (I.state old)
        → (n : ℕ) → Acknowledges a.world a.run.done n → (c : List ℕ) → (I.state new).now c → OpensFrom n c }
    ensures told { (made : Option Geometry) (name : List ℕ) (e : RunEnd) (old new : I) (input_old input_new : SourceState) (output_old output_new : SinkState)
        → (a : HasAnswered I.state made name e old new input_old input_new output_old output_new)
        → (n : ℕ) → TellsCommit a.run.done a.run.answered.on_any_disk.given n → (c : List ℕ) → (I.state new).now c → OpensFrom n c }
    ensures clients { (name : List ℕ) (status : ℕ) (old new : I) (input_old input_new : SourceState) (output_old output_new : SinkState)
        → (r : HasRunClients I.state name status old new input_old input_new output_old output_new)
        → SinceBind (I.state new) (OpensFrom (last r.world.history)) }
{}

/// Status 0 of `recover`, where what the name names is known: its line has the numbers of the history that the image holds, and
/// the digest of the array at its last commit.
pub fn the_digest_was_printed<I: Image>(_image: &I)
    ensures { (name image : List ℕ) (old new : I) (input_old input_new : SourceState) (output_old output_new : SinkState)
        → HasMet I.state Recover name 0 old new input_old input_new output_old output_new → (I.state old).named name ≡ Some image
        → PrintsDigestOf image output_old output_new }
{}

/// Status 0 of `bench`, on any disk, also an opaque one, as a real file: its line counts a conflict for each round that
/// draws one place twice, and two commits a round less these.
pub fn the_counts_were_printed<I: Image>(_image: &I)
    ensures { (seed count : ℕ) (name : List ℕ) (old new : I) (input_old input_new : SourceState) (output_old output_new : SinkState)
        → HasMet I.state (Bench seed count) name 0 old new input_old input_new output_old output_new → count ≤ 100000
        → PrintsCounts seed count output_old output_new }
{
    drawn_scripts_are_good();
    rounds_conflict_where_places_meet();
    commits_are_twice_the_rounds_less_the_conflicts();
    shown_bytes_are_not_counted();
}

/// A call that was not begun. Of an image that was to be opened, no image that a crash might have left since the bind is another one than
/// the image as given; of one that was to be made, each is none of this project, or is one on which nothing was committed.
pub fn nothing_was_begun<I: Image>(_image: &I)
    ensures given { (e : OpenError) (name image : List ℕ) (old new : I) (input_old input_new : SourceState) (output_old output_new : SinkState)
        → HasNotBegun None name e (I.state old) (I.state new) input_old input_new output_old output_new → (I.state old).named name ≡ Some image → SinceBind (I.state new) (λ c. c ≡ image) }
    ensures made { (g : Geometry) (e : OpenError) (name : List ℕ) (old new : I) (input_old input_new : SourceState) (output_old output_new : SinkState)
        → HasNotBegun (Some g) name e (I.state old) (I.state new) input_old input_new output_old output_new → SinceBind (I.state new) (IsUnmadeOrEmpty g) }
{}

/// Status 3, where what the name names is known, and the bytes of the source: the script has a bad line. Of `new` and `run` what was put
/// is the replies to the lines before it and then the line that names it; of `par` that line alone, and nothing was written.
pub fn the_bad_line_was_named<I: Image>(_image: &I)
    ensures made { (g : Geometry) (name all : List ℕ) (old new : I) (input_old input_new : SourceState) (output_old output_new : SinkState)
        → HasMet I.state (New g) name 3 old new input_old input_new output_old output_new → TellsNamed name (I.state old) → input_old.rest ≡ Some all
        → NamesBadLine (replies (fresh g 1 (empty_history g)) (script all).lines) all output_old output_new }
    ensures given { (name all image : List ℕ) (old new : I) (input_old input_new : SourceState) (output_old output_new : SinkState)
        → HasMet I.state Run name 3 old new input_old input_new output_old output_new → (I.state old).named name ≡ Some image → input_old.rest ≡ Some all
        → OfItsWorld image (λ W. NamesBadLine (replies W (script all).lines) all output_old output_new) }
    ensures clients { (name all image : List ℕ) (old new : I) (input_old input_new : SourceState) (output_old output_new : SinkState)
        → HasMet I.state Par name 3 old new input_old input_new output_old output_new → (I.state old).named name ≡ Some image → input_old.rest ≡ Some all
        → NamesBadLine [] all output_old output_new × SinceBind (I.state new) (λ c. c ≡ image) }
{}

/// Status 4, where what the name names is known: the image as given fails a test, and the line that names the test was put. The input
/// was not read, and no image that a crash might have left since the bind is another one.
pub fn the_refusal_was_named<I: Image>(_image: &I)
    ensures { (task : Task) (name image : List ℕ) (old new : I) (input_old input_new : SourceState) (output_old output_new : SinkState)
        → HasMet I.state task name 4 old new input_old input_new output_old output_new → (I.state old).named name ≡ Some image
        → NamesRefusal name image (I.state new) input_old input_new output_old output_new }
{}

/// Status 5 of `new` and `run`, where what the name names is known, and the bytes of the source: what was put is the replies to some
/// first lines of the script and then the line that tells of the fault. Of an image that was not opened no line was answered. Of
/// clients that were run, on any disk: the whole text of what they were told, and then that line (`clients`). Where `par` has run
/// none, that line was put and nothing was written (`unrun`).
pub fn the_disk_fault_was_told<I: Image>(_image: &I)
    ensures made { (g : Geometry) (name all : List ℕ) (old new : I) (input_old input_new : SourceState) (output_old output_new : SinkState)
        → HasMet I.state (New g) name 5 old new input_old input_new output_old output_new → TellsNamed name (I.state old) → input_old.rest ≡ Some all
        → PrintsFirst (fresh g 1 (empty_history g)) all disk_fault_text output_old output_new }
    ensures given { (name all image : List ℕ) (old new : I) (input_old input_new : SourceState) (output_old output_new : SinkState)
        → HasMet I.state Run name 5 old new input_old input_new output_old output_new → (I.state old).named name ≡ Some image → input_old.rest ≡ Some all
        → Printed output_old output_new disk_fault_text ⊎ OfItsWorld image (λ W. PrintsFirst W all disk_fault_text output_old output_new) }
    ensures clients { (name : List ℕ) (old new : I) (input_old input_new : SourceState) (output_old output_new : SinkState)
        → (r : HasRunClients I.state name 5 old new input_old input_new output_old output_new)
        → PrintsClients (start_at r.world (I.state r.start)) r.lines r.entries disk_fault_text output_old output_new }
    ensures unrun { (name image : List ℕ) (old new : I) (input_old input_new : SourceState) (output_old output_new : SinkState)
        → HasMet I.state Par name 5 old new input_old input_new output_old output_new → (I.state old).named name ≡ Some image
        → (Printed output_old output_new disk_fault_text × SinceBind (I.state new) (λ c. c ≡ image))
        ⊎ HasRunClients I.state name 5 old new input_old input_new output_old output_new }
{}

/// Status 6, where what the name names is known: the source gave some bytes and failed. Of `new` and `run` what was put is the replies to
/// the whole lines among these bytes and then the line that tells of the fault; of `par` that line alone, and nothing was written.
pub fn the_input_fault_was_told<I: Image>(_image: &I)
    ensures made { (g : Geometry) (name : List ℕ) (old new : I) (input_old input_new : SourceState) (output_old output_new : SinkState)
        → HasMet I.state (New g) name 6 old new input_old input_new output_old output_new → TellsNamed name (I.state old)
        → PrintsWholeLines (fresh g 1 (empty_history g)) input_old input_new output_old output_new }
    ensures given { (name image : List ℕ) (old new : I) (input_old input_new : SourceState) (output_old output_new : SinkState)
        → HasMet I.state Run name 6 old new input_old input_new output_old output_new → (I.state old).named name ≡ Some image
        → OfItsWorld image (λ W. PrintsWholeLines W input_old input_new output_old output_new) }
    ensures clients { (name image : List ℕ) (old new : I) (input_old input_new : SourceState) (output_old output_new : SinkState)
        → HasMet I.state Par name 6 old new input_old input_new output_old output_new → (I.state old).named name ≡ Some image
        → Printed output_old output_new input_fault_text × SinceBind (I.state new) (λ c. c ≡ image) }
{}

/// Status 7 of `new` and `run`, where what the name names is known, and the bytes of the source: the sink failed, and what it took is a
/// front of the replies to the lines of the script. Of clients that were run, on any disk: a front of the text of what they were told.
pub fn the_replies_were_cut<I: Image>(_image: &I)
    ensures made { (g : Geometry) (name all : List ℕ) (old new : I) (input_old input_new : SourceState) (output_old output_new : SinkState)
        → HasMet I.state (New g) name 7 old new input_old input_new output_old output_new → TellsNamed name (I.state old) → input_old.rest ≡ Some all
        → PrintsFront (fresh g 1 (empty_history g)) all output_old output_new }
    ensures given { (name all image : List ℕ) (old new : I) (input_old input_new : SourceState) (output_old output_new : SinkState)
        → HasMet I.state Run name 7 old new input_old input_new output_old output_new → (I.state old).named name ≡ Some image → input_old.rest ≡ Some all
        → OfItsWorld image (λ W. PrintsFront W all output_old output_new) }
    ensures clients { (name : List ℕ) (old new : I) (input_old input_new : SourceState) (output_old output_new : SinkState)
        → (r : HasRunClients I.state name 7 old new input_old input_new output_old output_new)
        → PrintsClientsFront (start_at r.world (I.state r.start)) r.lines r.entries output_old output_new }
{}

/// Status 8 of `new` and `run`, where what the name names is known, and the bytes of the source: what was put is the replies to some
/// first lines of the script and then the line that tells of want of memory. Of an image that was not opened no line was answered. Of
/// clients that were run, on any disk: the text of what they were told, or first lines of it, and then that line; or that line alone,
/// and no line of theirs was answered (`clients`). Where `par` has run none, that line was put and nothing was written (`unrun`).
pub fn the_want_of_memory_was_told<I: Image>(_image: &I)
    ensures made { (g : Geometry) (name all : List ℕ) (old new : I) (input_old input_new : SourceState) (output_old output_new : SinkState)
        → HasMet I.state (New g) name 8 old new input_old input_new output_old output_new → TellsNamed name (I.state old) → input_old.rest ≡ Some all
        → PrintsFirst (fresh g 1 (empty_history g)) all memory_text output_old output_new }
    ensures given { (name all image : List ℕ) (old new : I) (input_old input_new : SourceState) (output_old output_new : SinkState)
        → HasMet I.state Run name 8 old new input_old input_new output_old output_new → (I.state old).named name ≡ Some image → input_old.rest ≡ Some all
        → Printed output_old output_new memory_text ⊎ OfItsWorld image (λ W. PrintsFirst W all memory_text output_old output_new) }
    ensures clients { (name : List ℕ) (old new : I) (input_old input_new : SourceState) (output_old output_new : SinkState)
        → (r : HasRunClients I.state name 8 old new input_old input_new output_old output_new)
        → PrintsSomeOfClients (start_at r.world (I.state r.start)) r.lines r.entries memory_text output_old output_new
        ⊎ ((r.entries ≡ []) × Printed output_old output_new memory_text) }
    ensures unrun { (name image : List ℕ) (old new : I) (input_old input_new : SourceState) (output_old output_new : SinkState)
        → HasMet I.state Par name 8 old new input_old input_new output_old output_new → (I.state old).named name ≡ Some image
        → (Printed output_old output_new memory_text × SinceBind (I.state new) (λ c. c ≡ image))
        ⊎ HasRunClients I.state name 8 old new input_old input_new output_old output_new }
{}

/// Statuses 5, 7 and 8 of `recover`: with 5 the line that tells of the fault of the disk was put, and with 8 the line that tells of want
/// of memory. With 7 the sink failed, and it took a front of the line that status 0 puts, where what the name names is known (`cut`).
/// Whatever the status, the input was not read, and no image that a crash might have left since the bind is another one than the image
/// as given (`unwritten`).
pub fn the_digest_was_not_printed<I: Image>(_image: &I)
    ensures disk { (name : List ℕ) (old new : I) (input_old input_new : SourceState) (output_old output_new : SinkState)
        → HasMet I.state Recover name 5 old new input_old input_new output_old output_new → Printed output_old output_new disk_fault_text }
    ensures cut { (name image : List ℕ) (old new : I) (input_old input_new : SourceState) (output_old output_new : SinkState)
        → HasMet I.state Recover name 7 old new input_old input_new output_old output_new → (I.state old).named name ≡ Some image
        → OfItsWorld image (λ W. WasCut output_old output_new (recover_output W.history)) }
    ensures memory { (name : List ℕ) (old new : I) (input_old input_new : SourceState) (output_old output_new : SinkState)
        → HasMet I.state Recover name 8 old new input_old input_new output_old output_new → Printed output_old output_new memory_text }
    ensures unwritten { (name image : List ℕ) (status : ℕ) (old new : I) (input_old input_new : SourceState) (output_old output_new : SinkState)
        → HasMet I.state Recover name status old new input_old input_new output_old output_new → (I.state old).named name ≡ Some image
        → (input_new ≡ input_old) × SinceBind (I.state new) (λ c. c ≡ image) }
{}

/// Statuses 5, 7 and 8 of `bench`: with 5 the line that tells of the fault of the disk was put, and with 8 the line that tells of want
/// of memory. With 7 the sink failed, and it took a front of the model's line, where what the name names is known (`cut`). Whatever the
/// status, the input was not read (`unread`).
pub fn the_counts_were_not_printed<I: Image>(_image: &I)
    ensures disk { (seed count : ℕ) (name : List ℕ) (old new : I) (input_old input_new : SourceState) (output_old output_new : SinkState)
        → HasMet I.state (Bench seed count) name 5 old new input_old input_new output_old output_new → Printed output_old output_new disk_fault_text }
    ensures cut { (seed count : ℕ) (name : List ℕ) (old new : I) (input_old input_new : SourceState) (output_old output_new : SinkState)
        → HasMet I.state (Bench seed count) name 7 old new input_old input_new output_old output_new → TellsNamed name (I.state old)
        → WasCut output_old output_new (bench_output seed count) }
    ensures memory { (seed count : ℕ) (name : List ℕ) (old new : I) (input_old input_new : SourceState) (output_old output_new : SinkState)
        → HasMet I.state (Bench seed count) name 8 old new input_old input_new output_old output_new → Printed output_old output_new memory_text }
    ensures unread { (seed count status : ℕ) (name : List ℕ) (old new : I) (input_old input_new : SourceState) (output_old output_new : SinkState)
        → HasMet I.state (Bench seed count) name status old new input_old input_new output_old output_new → input_new ≡ input_old }
{}

/// What clients that ran concurrently have made: each image that a crash leaves when `par` has ended, where it told what its name names,
/// opens to a history that has each commit that an entry of the list tells of (`exit`). The history of the list begins with the one of
/// the image as given, and each of its commits is serial or snapshot at its number, by its own mode (`order`). From the moment at which a
/// turn of the list has ended on, each image that a crash might have left opens to a history that has each commit that was told of up
/// to that turn (`stays`).
pub fn commits_of_clients_are_there<I: Image>(_image: &I)
    ensures exit { (name : List ℕ) (status : ℕ) (old new : I) (input_old input_new : SourceState) (output_old output_new : SinkState)
        → (r : HasRunClients I.state name status old new input_old input_new output_old output_new) → TellsNamed name (I.state old)
        → (image : List ℕ) → (I.state new).now image → HasCommitsOf r.entries image }
    ensures order { (name : List ℕ) (status : ℕ) (old new : I) (input_old input_new : SourceState) (output_old output_new : SinkState)
        → (r : HasRunClients I.state name status old new input_old input_new output_old output_new)
        → GoesOnIsolated r.world (state_at (start_at r.world (I.state r.start)) r.entries).world }
    ensures stays { (name : List ℕ) (status : ℕ) (old new : I) (input_old input_new : SourceState) (output_old output_new : SinkState)
        → (r : HasRunClients I.state name status old new input_old input_new output_old output_new) → TellsNamed name (I.state old)
        → (before : List Entry) (e : Entry) (past : List ℕ) (moment : ℕ) → IsPrefix (before ++ e ∷ []) r.entries → IsPrefix (past ++ moment ∷ []) r.moments → length past ≡ length before
        → CommitsStayFrom I.state moment (before ++ e ∷ []) new }
{}

/// The lines of clients that ran concurrently have one order, along which the calls of the hash store and the tree store (`tree`), or of
/// the hash store and the files (`files`), answer as one thread's: where what the name names is known, the stores begin well formed,
/// and each commit keeps to them.
pub fn calls_of_clients_answer_in_one_order<I: Image>(_image: &I)
    ensures tree { (name : List ℕ) (status : ℕ) (parts : List Part) (old new : I) (input_old input_new : SourceState) (output_old output_new : SinkState)
        → (r : HasRunClients I.state name status old new input_old input_new output_old output_new)
        → let A = start_at r.world (I.state r.start) in Told A r.lines parts r.entries → TellsNamed name (I.state old) → BeginsWell the_tree r.world
        → AnswerInOneOrder the_tree A r.lines parts r.entries }
    ensures files { (name : List ℕ) (status : ℕ) (parts : List Part) (old new : I) (input_old input_new : SourceState) (output_old output_new : SinkState)
        → (r : HasRunClients I.state name status old new input_old input_new output_old output_new)
        → let A = start_at r.world (I.state r.start) in Told A r.lines parts r.entries → TellsNamed name (I.state old) → BeginsWell the_files r.world
        → AnswerInOneOrder the_files A r.lines parts r.entries }
{}
