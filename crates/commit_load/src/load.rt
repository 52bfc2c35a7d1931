// What is run.
ghost use Rattle.std.specs.Prelude.{◌≤◌};

/// The most threads: the most members of a group.
pub(crate) const MOST_THREADS: usize = 64;

/// How many threads commit, how often each does, how many microseconds a sync takes, and whether they end together.
#[derive(Clone, Copy)]
pub(crate) struct Load {
    pub(crate) threads: usize,
    pub(crate) commits: u32,
    pub(crate) pause: u64,
    pub(crate) together: bool,
    ghost few: { threads ≤ 64 },
}

impl Load {
    /// None for more than 64 threads.
    pub(crate) fn new(threads: usize, commits: u32, pause: u64, together: bool) -> Option<Load> {
        if threads > MOST_THREADS {
            return None;
        }
        Some(Load {
            threads,
            commits,
            pause,
            together,
        })
    }

    /// The load that four words say: THREADS COMMITS PAUSE and `plain` or `together`.
    pub(crate) fn of(words: &[String]) -> Option<Load> {
        let [threads, commits, pause, ends] = words else {
            return None;
        };
        let together = ends.as_str() == "together";
        if !together && ends.as_str() != "plain" {
            return None;
        }
        Load::new(
            threads.parse::<usize>().ok()?,
            commits.parse::<u32>().ok()?,
            pause.parse::<u64>().ok()?,
            together,
        )
    }
}
