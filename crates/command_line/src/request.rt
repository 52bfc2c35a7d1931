// What the words ask for.
ghost use Rattle.std.specs.Prelude.{◌≡◌, IfOk, IfSome, option_map};
ghost use Rattle.command_line.specs.{Grammar.texts, Requests.{request_of, KeepsLimits}};

use crate::matching::matches_of;
use crate::task::{Task, task_of};
use crate::value::text_of;
use iso_model::Memory;
use std::alloc::Global;

/// A task, and the name of the image that it is for.
#[derive(Clone, Copy)]
pub struct Request<'a> {
    pub image: &'a str,
    pub task: Task,
}

/// What the words of the command line ask for, the program's name first. None exactly where they are outside the
/// grammar.
///
/// # Errors
///
/// Want of memory.
#[tactic(auto, unfolding(crate::specs::Requests::request_of))]
pub fn read_words<'a>(alloc: Global, words: &'a [String]) -> Result<Option<Request<'a>>, Memory>
    ensures request { IfOk result (λ found.
        option_map (λ r. (r.image.now, r.task)) found ≡ request_of (texts words.now)) }
    ensures limits { IfOk result (λ found. IfSome found (λ r. KeepsLimits r.task)) }
{
    let Some(matches) = matches_of(alloc, words)? else {
        return Ok(None);
    };
    let Some((name, inner)) = matches.subcommand() else {
        return Ok(None);
    };
    let Some(image) = text_of(inner, "IMAGE") else {
        return Ok(None);
    };
    let Some(task) = task_of(name, inner) else {
        return Ok(None);
    };
    Ok(Some(Request { image, task }))
}
