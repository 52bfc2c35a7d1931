// The command that clap is given: it has what the grammar of the words says. Each step takes what the steps before it made,
// or that there was no memory for it, so that none of them ends early.
ghost use Rattle.std.specs.Prelude.{◌≡◌, IfOk, false};
ghost use Rattle.clap.specs.Words.{App, Rule, app_of, rule_of, with_rule, with_subcommand};
ghost use Rattle.command_line.specs.{Grammar.{bare_app, bench_app, image_app, isotope_app, new_image_app, placed_rule, valued_rule}, Local.{IsLocal, IsLocalArg}};

use clap::{Arg, ArgAction, Command};
use std::alloc::{AllocError, Global};

/// An option with one value.
fn valued<'a>(alloc: Global, name: &'a str) -> Arg<'a>
    ensures { IsLocalArg (valued_rule name.entry.now) result }
{
    Arg::new(alloc, name).long(name).action(ArgAction::Set)
}

/// A word that has to be there.
fn placed<'a>(alloc: Global, name: &'a str) -> Arg<'a>
    ensures { IsLocalArg (placed_rule name.entry.now) result }
{
    Arg::new(alloc, name).required(true).action(ArgAction::Set)
}

/// A command without help and version.
fn bare<'a>(alloc: Global, name: &'a str) -> Command<'a>
    ensures { IsLocal (bare_app name.entry.now) result }
{
    Command::new(alloc, name)
        .disable_help_flag(true)
        .disable_version_flag(true)
        .disable_help_subcommand(true)
}

/// What was made, with one argument more.
fn with_arg<'a>(
    made: Result<Command<'a>, AllocError>,
    arg: Arg<'a>,
) -> Result<Command<'a>, AllocError>
    requires { arg.global ≡ false }
    ensures { (app : App) (rule : Rule) → rule_of arg.entry ≡ rule → IfOk made.entry (IsLocal app) → IfOk result (IsLocal (with_rule app rule)) }
{
    match made {
        Ok(command) => command.arg(arg),
        Err(e) => Err(e),
    }
}

/// What was made, with one subcommand more.
fn with_command<'a>(
    made: Result<Command<'a>, AllocError>,
    next: Result<Command<'a>, AllocError>,
) -> Result<Command<'a>, AllocError>
    ensures { (app sub : App) → IfOk made.entry (λ c. app_of c ≡ app) → IfOk next.entry (IsLocal sub)
        → IfOk result (λ c. app_of c ≡ with_subcommand app sub.top) }
{
    let Ok(next) = next else {
        return Err(AllocError);
    };
    match made {
        Ok(command) => command.subcommand(next),
        Err(e) => Err(e),
    }
}

/// A command on an image.
fn with_image<'a>(alloc: Global, name: &'a str) -> Result<Command<'a>, AllocError>
    ensures { IfOk result (IsLocal (image_app name.entry.now)) }
{
    with_arg(Ok(bare(alloc, name)), placed(alloc, "IMAGE"))
}

/// The command that makes an image and answers a script.
fn new_command<'a>(alloc: Global) -> Result<Command<'a>, AllocError>
    ensures { IfOk result (IsLocal new_image_app) }
{
    let made = with_image(alloc, "new");
    let made = with_arg(made, valued(alloc, "block-size"));
    let made = with_arg(made, valued(alloc, "blocks"));
    let made = with_arg(made, valued(alloc, "log"));
    let made = with_arg(made, valued(alloc, "mode"));
    let made = with_arg(made, valued(alloc, "hash"));
    with_arg(made, valued(alloc, "tree"))
}

/// The command that makes an image and answers a script that is drawn.
fn bench_command<'a>(alloc: Global) -> Result<Command<'a>, AllocError>
    ensures { IfOk result (IsLocal bench_app) }
{
    let made = with_image(alloc, "bench");
    let made = with_arg(made, placed(alloc, "SEED"));
    with_arg(made, placed(alloc, "COUNT"))
}

/// The program's command, with its subcommands.
pub(crate) fn isotope_command<'a>(alloc: Global) -> Result<Command<'a>, AllocError>
    ensures app { IfOk result (λ c. app_of c ≡ isotope_app) }
{
    let made = Ok(bare(alloc, "isotope").subcommand_required(true));
    let made = with_command(made, new_command(alloc));
    let made = with_command(made, with_image(alloc, "run"));
    let made = with_command(made, with_image(alloc, "par"));
    let made = with_command(made, with_image(alloc, "recover"));
    with_command(made, bench_command(alloc))
}
