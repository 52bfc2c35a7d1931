// What a command is to do, from what clap found after it.
ghost use Rattle.std.specs.Prelude.{◌≡◌, IfSome, IsTrue};
ghost use Rattle.clap.specs.Words.{found_of, rows_of};
ghost use Rattle.iso_model.specs.Geometry.{is_valid};
ghost use Rattle.command_line.specs.Requests.{bench_of, geometry_of, if_valid, made_geometry, task_of, IsOpenGeometry, KeepsLimits};

use crate::long_number::long_number_of;
use crate::value::{count_of, mode_or_serial, number_or, text_of};
use clap::ArgMatches;
use iso_format::is_valid;
use iso_model::{Geometry, Mode};

/// What the program is to do with its image.
#[derive(Clone, Copy, Debug, PartialEq, Eq)]
pub enum Task {
    /// Make it with this geometry, and answer the script on the input.
    New { geometry: Geometry },
    /// Open it, and answer the script on the input.
    Run,
    /// Open it, and run the clients of the script on the input concurrently.
    Par,
    /// Open it, and tell what it holds.
    Recover,
    /// Make it, and answer a script of `count` rounds that is drawn from a seed.
    Bench { seed: u64, count: u32 },
}

impl Task {
    /// The geometry of the image that the task makes. None where it opens one.
    #[tactic(auto, unfolding(iso_model::specs::Geometry::is_valid))]
    pub fn geometry(&self) -> Option<Geometry>
        ensures value { result ≡ made_geometry self.now }
        ensures is_open { KeepsLimits self.now → IfSome result IsOpenGeometry }
    {
        match self {
            Task::New { geometry } => Some(*geometry),
            Task::Run | Task::Par | Task::Recover => None,
            Task::Bench { .. } => Some(Geometry {
                block: 64,
                blocks: 64,
                log: 8_388_608,
                mode: Mode::Serial,
                hash: 0,
                tree: 0,
                form: 1,
            }),
        }
    }
}

fn if_valid(geometry: Geometry) -> Option<Geometry>
    ensures value { result ≡ if_valid geometry }
    ensures limits { IfSome result (λ g. IsTrue (is_valid g) × (g ≡ geometry)) }
{
    if is_valid(&geometry) {
        Some(geometry)
    } else {
        None
    }
}

/// The geometry of a new image. None where a value is not in the grammar.
#[tactic(auto, unfolding(crate::specs::Requests::geometry_of))]
fn geometry_of(matches: &ArgMatches<'_>) -> Option<Geometry>
    ensures value { result ≡ geometry_of (rows_of (found_of matches.now)) }
    ensures is_open { IfSome result IsOpenGeometry }
{
    let block = number_or(4096, text_of(matches, "block-size"))?;
    let blocks = number_or(1024, text_of(matches, "blocks"))?;
    let log = number_or(4_194_304, text_of(matches, "log"))?;
    let mode = mode_or_serial(text_of(matches, "mode"))?;
    let hash = number_or(0, text_of(matches, "hash"))?;
    let tree = number_or(0, text_of(matches, "tree"))?;
    if_valid(Geometry {
        block,
        blocks,
        log,
        mode,
        hash,
        tree,
        form: 1,
    })
}

fn bench_of(matches: &ArgMatches<'_>) -> Option<Task>
    ensures value { result ≡ bench_of (rows_of (found_of matches.now)) }
    ensures limits { IfSome result KeepsLimits }
{
    let seed = long_number_of(text_of(matches, "SEED")?)?;
    let count = count_of(text_of(matches, "COUNT")?)?;
    Some(Task::Bench { seed, count })
}

/// The task of a command. None where a value is not in the grammar.
#[tactic(auto, unfolding(crate::specs::Requests::task_of))]
pub(crate) fn task_of(name: &str, matches: &ArgMatches<'_>) -> Option<Task>
    ensures value { result ≡ task_of name.now (rows_of (found_of matches.now)) }
    ensures limits { IfSome result KeepsLimits }
{
    if name == "new" {
        return geometry_of(matches).map(|geometry| Task::New { geometry });
    }
    if name == "run" {
        return Some(Task::Run);
    }
    if name == "par" {
        return Some(Task::Par);
    }
    if name == "recover" {
        return Some(Task::Recover);
    }
    if name == "bench" {
        return bench_of(matches);
    }
    None
}
