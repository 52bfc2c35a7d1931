// What clap finds in the words.
ghost use Rattle.std.specs.Prelude.{◌≡◌, IfOk, option_and_then};
ghost use Rattle.command_line.specs.Grammar.{rows_found, texts};
ghost use Rattle.clap.specs.Words.{subcommand_rows_of};

use crate::command::isotope_command;
use clap::ArgMatches;
use clap::error::ErrorKind;
use iso_model::Memory;
use std::alloc::Global;

/// What clap finds in the words. None where it refuses them.
pub(crate) fn matches_of<'a>(
    alloc: Global,
    words: &'a [String],
) -> Result<Option<ArgMatches<'a>>, Memory>
    ensures { IfOk result (λ found. rows_found (texts words.now) ≡ option_and_then subcommand_rows_of found) }
{
    let Ok(command) = isotope_command(alloc) else {
        return Err(Memory);
    };
    match command.try_get_matches_from(words) {
        Ok(matches) => Ok(Some(matches)),
        Err(error) => {
            if error.kind() == ErrorKind::OutOfMemory {
                Err(Memory)
            } else {
                Ok(None)
            }
        }
    }
}
