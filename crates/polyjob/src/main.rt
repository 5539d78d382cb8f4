// polyjob: one job from standard input, its answer to standard output (document 01, "the job program").
#![tactic(auto)]

use std::io;

fn main(rt: HostRuntime) -> io::Result<()> {
    // More than the 4,096 bytes of a job, so that a longer one is seen to be longer.
    let mut text = [0u8; 65536];
    let n = input::fill(&mut &rt.stdin(), &mut text)?;
    let mut out = [0u8; 4096];
    let r = job::run(&text[..n], &mut out);
    rt.write_all(&out[..r.len])
}
