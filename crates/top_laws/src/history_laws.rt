// What `met` of the top call means for the stores on any disk: the function does nothing, and its contract is the law.
ghost use Rattle.std.specs.Prelude.{ℕ, List, Option};
ghost use Rattle.iso_io.specs.{Sink.SinkState, Source.SourceState};
ghost use Rattle.iso_model.specs.declared.access.Geometry.{Geometry};
ghost use Rattle.script_runner.specs.declared.run_end.RunEnd.{RunEnd};
ghost use Rattle.store_scripts.specs.Stores.{the_files, the_tree};
ghost use Rattle.iso_top.specs.Outcome.{HasAnswered};
ghost use Rattle.top_laws.specs.ByAccesses.{AnswersByAccesses};

use iso_disk::Image;

/// The stores of `new` and `run` by the accesses of the commits, on any disk, also an opaque one, as a real file: where the stores begin well
/// formed, and each commit of the history that the lines led to writes their regions by calls of them alone, the calls of each commit
/// answer as one thread's on the maps directly before it, and end in those directly after it; and the stores are well formed at each.
/// So it is of the hash store and the tree store (`tree`), and of the hash store and the files (`files`).
pub fn store_calls_answer_by_their_accesses<I: Image>(_image: &I)
    ensures tree { (made : Option Geometry) (name : List ℕ) (e : RunEnd) (old new : I) (input_old input_new : SourceState) (output_old output_new : SinkState)
        → (a : HasAnswered I.state made name e old new input_old input_new output_old output_new) → AnswersByAccesses the_tree a.world a.run.answered.final }
    ensures files { (made : Option Geometry) (name : List ℕ) (e : RunEnd) (old new : I) (input_old input_new : SourceState) (output_old output_new : SinkState)
        → (a : HasAnswered I.state made name e old new input_old input_new output_old output_new) → AnswersByAccesses the_files a.world a.run.answered.final }
{}
