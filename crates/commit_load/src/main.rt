//! Threads that commit transactions on a file, where each sync takes a while: each ends its own, or all end them together
//! (`end_with` of `committer`).
//!
//! `commit_load THREADS COMMITS PAUSE plain|together` prints how many have committed, of COMMITS in each thread, and how many syncs of PAUSE
//! microseconds that took. Without words it runs four small loads. The image is `commit_load.img` in the folder where it runs, removed
//! before and after. What is printed is only tested; `checks/commit_load.sh` takes the time.
#![tactic(auto)]

mod load;
mod run;
mod seats;
mod slow;
mod work;

use file_disk::FileDisk;
use load::Load;
use run::{Done, run};
use slow::SlowDisk;
use std::alloc::AllocError;
use std::rt::Env;
use std::{env, fs, io};

/// The name of the image.
const NAME: &str = "commit_load.img";

/// The words of the command line without the program's.
fn words_of<R: Env + AllocGlobal>(rt: &R) -> Result<Vec<String>, AllocError> {
    match env::args(rt) {
        Ok(args) => args.skip(1).collect(rt.alloc()),
        Err(_) => Ok(Vec::new(rt.alloc())),
    }
}

/// The loads that are run: that of the words, or four small ones.
fn loads_of(words: &[String]) -> [Option<Load>; 4] {
    if words.is_empty() {
        [
            Load::new(1, 20, 100, false),
            Load::new(1, 20, 100, true),
            Load::new(4, 20, 100, false),
            Load::new(4, 20, 100, true),
        ]
    } else {
        [Load::of(words), None, None, None]
    }
}

/// Prints what a small load has done, in words that are the same in each run.
fn print_small<R: Print>(rt: &R, load: &Load, done: &Done) -> io::Result<()> {
    let within = done.syncs <= done.commits.saturating_mul(2);
    println!(rt;
        "threads {}, together {}: {} commits, the last is {}, two syncs each at most: {within}",
        load.threads, load.together, done.commits, done.last
    )
}

fn main(rt: HostRuntime) -> io::Result<()> {
    let alloc = rt.alloc();
    let Ok(words) = words_of(&rt) else {
        return println!(rt; "no memory");
    };
    if !words.is_empty() && Load::of(words.as_slice()).is_none() {
        return println!(rt; "THREADS COMMITS PAUSE plain|together, with 64 threads at most");
    }
    for load in loads_of(words.as_slice()) {
        let Some(load) = load else {
            continue;
        };
        let Ok(files) = rt.clone() else {
            return println!(rt; "no memory");
        };
        let Ok(clock) = rt.clone() else {
            return println!(rt; "no memory");
        };
        let _ = fs::remove_file(&rt, NAME);
        let file = FileDisk::new(files, alloc);
        let disk = SlowDisk::new(file, clock, load.pause);
        let Some(done) = run(&rt, alloc, disk, NAME, &load) else {
            return println!(rt; "no image, or no memory");
        };
        let _ = fs::remove_file(&rt, NAME);
        if words.is_empty() {
            print_small(&rt, &load, &done)?;
        } else {
            println!(rt; "{} commits, {} syncs", done.commits, done.syncs)?;
        }
    }
    Ok(())
}
