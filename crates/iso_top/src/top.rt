// The top call.
ghost use Rattle.std.specs.{Prelude.{◌≡◌, ◌≢◌, ◌⊎◌, IfSome, IsNone}, Option.ForSome};
ghost use Rattle.command_line.specs.{declared.task.Task.TheVariants.Par, Grammar.texts, Requests.{made_geometry, request_of, KeepsLimits}};
ghost use Rattle.counts.specs.Count.{Rose};
ghost use Rattle.iso_top.specs.{Outcome.{HasMet, HasNoWords, HasRefusedWords, IsAccepted, IsGoodInput, IsStatus}, Prints.{Printed, SinkFailed}, Texts.{memory_text, usage_text}};

use crate::bench::answer_drawn;
use crate::clients::run_clients;
use crate::ended::{Ended, refused};
use crate::engine::core_on;
use crate::last_line::{put_last, usage};
use crate::recover::tell_last;
use crate::script::answer_script;
use command_line::{Request, Task, read_words};
use iso_disk::Image;
use iso_io::{Sink, Source};
use par_runner::Gate;
use std::alloc::Global;
use std::sync::Wait;
use std::thread::Threads;

/// Does what is requested of an image, but for clients that run concurrently.
fn meet<I: Image + Drop, S: Source, K: Sink>(
    alloc: Global,
    request: &Request<'_>,
    image: I,
    input: &mut S,
    output: &mut K,
) -> Ended<I>
    requires limits { KeepsLimits request.now.task }
    requires alone { request.now.task ≢ Par }
    ensures { HasMet I.state request.now.task request.now.image.now result.status image result.image (S.state input.old) (S.state input.new) (K.state output.old) (K.state output.new) }
{
    let core = match core_on(alloc, request.image, request.task.geometry(), image) {
        Ok(core) => core,
        Err((error, image)) => return refused(output, error, image),
    };
    match request.task {
        Task::New { .. } => answer_script(alloc, core, input, output),
        Task::Run => answer_script(alloc, core, input, output),
        Task::Par => unreachable!(),
        Task::Recover => tell_last(alloc, core, output),
        Task::Bench { seed, count } => answer_drawn(alloc, core, seed, count, output),
    }
}

/// Puts the text of the grammar. The image and the input are as they were.
fn tell_usage<I, K: Sink>(output: &mut K, image: I) -> Ended<I>
    ensures status { result.status ≡ 2 }
    ensures image { result.image ≡ image }
    ensures printed { Printed (K.state output.old) (K.state output.new) usage_text }
{
    put_last(output, usage());
    Ended { status: 2, image }
}

/// Puts a line that says that memory for the words was wanting. The image and the input are as they were.
fn tell_memory<I, K: Sink>(output: &mut K, image: I) -> Ended<I>
    ensures status { result.status ≡ 8 }
    ensures image { result.image ≡ image }
    ensures printed { Printed (K.state output.old) (K.state output.new) memory_text }
{
    put_last(output, b"! memory\n");
    Ended { status: 8, image }
}

/// Does what the words ask for, on this thread alone: `words` are the program's name and its arguments and no `par` command,
/// `image` is not bound yet, `input` has the script and `output` gets the replies. The image is handed back with every status.
pub fn alone<I: Image + Drop, S: Source, K: Sink>(
    alloc: Global,
    words: &[String],
    image: I,
    input: &mut S,
    output: &mut K,
) -> Ended<I>
    requires { ForSome (request_of (texts words.now)) (λ r. r.1 ≢ Par) }
    // What the words ask for was met: the theorems of the replies, of their order and of a crash, and the digests, by the task.
    ensures met { IfSome (request_of (texts words.now)) (λ r. HasMet I.state r.1 r.0 result.status image result.image (S.state input.old) (S.state input.new) (K.state output.old) (K.state output.new)
        ⊎ HasNoWords result.status image result.image (S.state input.old) (S.state input.new) (K.state output.old) (K.state output.new)) }
    ensures refused { IsNone (request_of (texts words.now))
        → HasRefusedWords result.status image result.image (S.state input.old) (S.state input.new) (K.state output.old) (K.state output.new) }

    // Completeness: with nothing to blame all was done, but for want of memory.
    ensures complete { IfSome (request_of (texts words.now)) (λ r. IsAccepted (made_geometry r.1) ((I.state image).named r.0) → IsGoodInput r.1 (S.state input.old).rest
        → ¬ Rose (I.state image).faults (I.state result.image).faults → ¬ Rose (S.state input.old).faults (S.state input.new).faults → ¬ SinkFailed (K.state output.old) (K.state output.new)
        → (result.status ≡ 0) ⊎ (result.status ≡ 8)) }

    // Each status has its cause: 2 the words, 5 the disk, 6 the source, 7 the sink; 3 and 4 as `met` says; 8 is free.
    ensures status { IsStatus result.status }
    ensures words { result.status ≡ 2 → IsNone (request_of (texts words.now)) }
    ensures disk { result.status ≡ 5 → Rose (I.state image).faults (I.state result.image).faults }
    ensures input { result.status ≡ 6 → Rose (S.state input.old).faults (S.state input.new).faults }
    ensures output { result.status ≡ 7 → SinkFailed (K.state output.old) (K.state output.new) }
{
    match read_words(alloc, words) {
        Ok(Some(request)) => meet(alloc, &request, image, input, output),
        Ok(None) => tell_usage(output, image),
        Err(_) => tell_memory(output, image),
    }
}

/// The top call. It does what the words ask for: `words` are the program's name and its arguments, `image` is not bound yet,
/// `input` has the script and `output` gets the replies. The clients of a `par` command run in threads, and `gate` is called before
/// each of their lines; all other words are given to `alone`. The image is handed back with every status.
pub fn isotope<I: Image + Send + Drop, S: Source, K: Sink, G: Gate, R: Threads + Wait + Sync>(
    rt: &R,
    alloc: Global,
    words: &[String],
    image: I,
    input: &mut S,
    output: &mut K,
    gate: &G,
) -> Ended<I>
    // What the words ask for was met: the theorems of the replies, of their order and of a crash, and the digests, by the task.
    ensures met { IfSome (request_of (texts words.now)) (λ r. HasMet I.state r.1 r.0 result.status image result.image (S.state input.old) (S.state input.new) (K.state output.old) (K.state output.new)
        ⊎ HasNoWords result.status image result.image (S.state input.old) (S.state input.new) (K.state output.old) (K.state output.new)) }
    ensures refused { IsNone (request_of (texts words.now))
        → HasRefusedWords result.status image result.image (S.state input.old) (S.state input.new) (K.state output.old) (K.state output.new) }

    // Completeness: with nothing to blame all was done, but for want of memory.
    ensures complete { IfSome (request_of (texts words.now)) (λ r. IsAccepted (made_geometry r.1) ((I.state image).named r.0) → IsGoodInput r.1 (S.state input.old).rest
        → ¬ Rose (I.state image).faults (I.state result.image).faults → ¬ Rose (S.state input.old).faults (S.state input.new).faults → ¬ SinkFailed (K.state output.old) (K.state output.new)
        → (result.status ≡ 0) ⊎ (result.status ≡ 8)) }

    // Each status has its cause: 2 the words, 5 the disk, 6 the source, 7 the sink; 3 and 4 as `met` says; 8 is free.
    ensures status { IsStatus result.status }
    ensures words { result.status ≡ 2 → IsNone (request_of (texts words.now)) }
    ensures disk { result.status ≡ 5 → Rose (I.state image).faults (I.state result.image).faults }
    ensures input { result.status ≡ 6 → Rose (S.state input.old).faults (S.state input.new).faults }
    ensures output { result.status ≡ 7 → SinkFailed (K.state output.old) (K.state output.new) }
{
    match read_words(alloc, words) {
        Ok(Some(request)) => match request.task {
            Task::Par => run_clients(rt, alloc, request.image, image, input, output, gate),
            Task::New { .. } | Task::Run | Task::Recover | Task::Bench { .. } => {
                alone(alloc, words, image, input, output)
            }
        },
        Ok(None) => tell_usage(output, image),
        Err(_) => tell_memory(output, image),
    }
}
