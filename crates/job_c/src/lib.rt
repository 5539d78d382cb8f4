// The library `job` for programs in C: include/kanrosuye.h declares these. Each is the function of its name in `job`.
#![tactic(auto)]

ghost use Rattle.std.specs.Prelude.{◌≡◌, length};
ghost use Rattle.job.specs.Job.{reply_to};
ghost use Rattle.request.specs.Request.{request_of};
ghost use Rattle.job.specs.Run.{ran_in, written_on, place_in};

// `run`, by the answer's length alone: 0 where the output is too short.
#[unsafe(no_mangle)]
pub extern "C" fn kanrosuye_job(input: &[u8], out: &mut [u8]) -> usize
    ensures is { result ≡ (ran_in (length out.old) (reply_to input.now)).len }
    ensures written { out.new ≡ written_on out.old (reply_to input.now) }
{
    job::kanrosuye_job(input, out)
}

// Where a malformed job goes wrong; the greatest number where it isn't malformed.
#[unsafe(no_mangle)]
pub extern "C" fn kanrosuye_place(input: &[u8]) -> usize
    ensures is { result ≡ place_in (request_of input.now).outcome }
{
    job::kanrosuye_place(input)
}
