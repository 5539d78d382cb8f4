// The examples, run: each pair of arguments is a file with a job and a file with the answer it must get.
#![tactic(auto)]

ghost use Rattle.std.specs.Prelude.{◌≤◌};

use std::fs::File;
use std::rt::Files;
use std::{env, io};

// Whether the job in a file gets the answer in another.
fn agrees<R: Files>(rt: &R, job: &str, answer: &str) -> io::Result<bool> {
    let mut text = [0u8; 4096];
    let n = input::fill(&mut File::open(rt, job)?, &mut text)?;
    let mut told = [0u8; 4096];
    let m = input::fill(&mut File::open(rt, answer)?, &mut told)?;
    let mut out = [0u8; 4096];
    let r = job::run(&text[..n], &mut out);
    Ok(out[..r.len] == told[..m])
}

fn one_unless(same: bool) -> u64
    ensures { result ≤ 1 }
{
    if same { 0 } else { 1 }
}

fn main(rt: HostRuntime) -> io::Result<()> {
    let mut names = env::args(&rt)?;
    let _program = names.next();
    let mut jobs: u64 = 0;
    let mut differ: u64 = 0;
    // Every pair, at most 49 of them.
    for _ in 0..49 {
        let Some(job) = names.next() else {
            break;
        };
        // A job without an answer beside it differs.
        let same = match names.next() {
            Some(answer) => agrees(&rt, job.as_str(), answer.as_str())?,
            None => false,
        };
        differ += one_unless(same);
        jobs += 1;
    }
    println!(rt; "jobs {jobs}, answers that differ from the examples: {differ}")
}
