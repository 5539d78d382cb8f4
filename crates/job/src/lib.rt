// A job in, an answer out (document 01, "the job program"): from the bytes of a job to the bytes of its answer.
#![tactic(auto)]

ghost use Rattle.std.specs.Prelude.{◌≡◌, ◌≤◌, length};
ghost use Rattle.job.specs.Job.{refusing, answering, dividing, numbering, valuing, rooting, factoring, counting, isolating, outcome_of, work_for, work_of, reply_to};
ghost use Rattle.factor.specs.Factors.{factor_for};
ghost use Rattle.request.specs.Request.{request_of};
ghost use Rattle.job.specs.Laid.{LaysReply};
ghost use Rattle.job.specs.Run.{ran_in, written_on, FitsPage, place_in};

use euclid::Whole;
use isolate::Isolation;
use ops::Op;
use ratio::{Ratio, Reason};
use remainders::Division;
use request::Request;
use search::Roots;
use sturm::Count;
use terms::{Answer, Poly};

// What came of a job: its outcome, with the place of what is malformed, and how many bytes of the lent page its answer takes.
// The page is the caller's, in C too.
#[derive(Clone, Copy)]
pub struct Ran {
    pub outcome: Result<(), Reason>,
    pub len: usize,
}

// ---- one function a kind of result

fn refuse(op: Op, why: Reason, page: &mut [u8]) -> Ran
    ensures { LaysReply (refusing op why) page.old page.new result }
{
    Ran {
        outcome: Err(why),
        len: reply::show_refusal(op, why, page, 0),
    }
}

fn answer(op: Op, a: Answer, page: &mut [u8]) -> Ran
    ensures { LaysReply (answering op a) page.old page.new result }
{
    let outcome = a.outcome;
    Ran {
        outcome,
        len: reply::show_answer(op, a, page, 0),
    }
}

fn division(op: Op, d: Division, page: &mut [u8]) -> Ran
    ensures { LaysReply (dividing op d) page.old page.new result }
{
    let outcome = d.outcome;
    Ran {
        outcome,
        len: reply::show_division(op, d, page, 0),
    }
}

fn number(op: Op, w: Whole, page: &mut [u8]) -> Ran
    ensures { LaysReply (numbering op w) page.old page.new result }
{
    let outcome = w.outcome;
    Ran {
        outcome,
        len: reply::show_whole(op, w, page, 0),
    }
}

fn outcome_of(s: Result<Ratio, Reason>) -> Result<(), Reason>
    ensures { result ≡ outcome_of s }
{
    match s {
        Ok(_) => Ok(()),
        Err(why) => Err(why),
    }
}

fn value(op: Op, s: Result<Ratio, Reason>, page: &mut [u8]) -> Ran
    ensures { LaysReply (valuing op s) page.old page.new result }
{
    let outcome = outcome_of(s);
    Ran {
        outcome,
        len: reply::show_step(op, s, page, 0),
    }
}

fn roots(op: Op, x: Roots, page: &mut [u8]) -> Ran
    ensures { LaysReply (rooting op x) page.old page.new result }
{
    let outcome = x.outcome;
    Ran {
        outcome,
        len: reply::show_roots(op, x, page, 0),
    }
}

// That the answer fits the page rests on the engine's promise of what it hands back, so the work is done here.
fn factors(op: Op, p: Poly, budget: u64, page: &mut [u8]) -> Ran
    ensures { LaysReply (factoring op (factor_for p budget)) page.old page.new result }
{
    let f = factor::factor(p, budget);
    let outcome = f.outcome;
    Ran {
        outcome,
        len: reply::show_factors(op, f, page, 0),
    }
}

fn count(op: Op, c: Count, page: &mut [u8]) -> Ran
    ensures { LaysReply (counting op c) page.old page.new result }
{
    let outcome = c.outcome;
    Ran {
        outcome,
        len: reply::show_count(op, c, page, 0),
    }
}

fn isolation(op: Op, x: Isolation, page: &mut [u8]) -> Ran
    ensures { LaysReply (isolating op x) page.old page.new result }
{
    let outcome = x.outcome;
    Ran {
        outcome,
        len: reply::show_floats(op, x, page, 0),
    }
}

// ---- the operations

fn work(r: Request, page: &mut [u8]) -> Ran
    ensures { LaysReply (work_for r.op r) page.old page.new result }
{
    let op = r.op;
    let a = r.a;
    let b = r.b;
    match op {
        Op::Add => answer(op, poly::add(a, b), page),
        Op::Sub => answer(op, poly::sub(a, b), page),
        Op::Mul => answer(op, poly::mul(a, b), page),
        Op::Divide => division(op, euclid::div_rem(a, b), page),
        Op::Gcd => answer(op, euclid::gcd(a, b), page),
        Op::Resultant => number(op, euclid::resultant(a, b), page),
        Op::Neg => answer(op, poly::neg(a), page),
        Op::Diff => answer(op, poly::diff(a), page),
        Op::Discriminant => number(op, euclid::discriminant(a), page),
        Op::Roots => roots(op, roots::rational_roots(a, r.budget), page),
        Op::Factor => factors(op, a, r.budget, page),
        Op::Rebuild => answer(op, factor::rebuild(a, r.budget), page),
        Op::Eval => value(op, poly::eval(a, r.x), page),
        Op::Count => count(op, sturm::count_real_roots(a, r.lo, r.hi), page),
        Op::Isolate => isolation(op, isolate::isolate_real_roots(a, r.lo, r.hi, r.tol), page),
        Op::Unknown => refuse(op, Reason::BadInput, page),
    }
}

fn reply_to(r: Request, page: &mut [u8]) -> Ran
    ensures { LaysReply (work_of r) page.old page.new result }
{
    let o = r.outcome;
    let op = r.op;
    match o {
        Ok(()) => work(r, page),
        Err(why) => refuse(op, why, page),
    }
}

// The answer to a job, written to the lent output; 8 and nothing written where that is shorter. 4,096 bytes are enough for any.
pub fn run(input: &[u8], out: &mut [u8]) -> Ran
    ensures is { result ≡ ran_in (length out.old) (reply_to input.now) }
    ensures written { out.new ≡ written_on out.old (reply_to input.now) }
    ensures fits { FitsPage input.now }
    ensures room { result.len ≤ length out.new }
{
    let mut page = [0u8; 4096];
    let t = reply_to(request::read(input), &mut page);
    let n = t.len;
    if n > out.len() {
        return Ran {
            outcome: Err(Reason::NoRoom),
            len: 0,
        };
    }
    text::write_bytes(&page[..n], out, 0);
    t
}

// ---- for programs in other languages

// `run`, by the answer's length alone: 0 where the output is too short.
pub fn kanrosuye_job(input: &[u8], out: &mut [u8]) -> usize
    ensures is { result ≡ (ran_in (length out.old) (reply_to input.now)).len }
    ensures written { out.new ≡ written_on out.old (reply_to input.now) }
{
    let t = run(input, out);
    t.len
}

fn place(o: Result<(), Reason>) -> usize
    ensures { result ≡ place_in o }
{
    match o {
        Ok(()) => 0xffff_ffff_ffff_ffff,
        Err(why) => match why {
            Reason::NotPolynomial => 0xffff_ffff_ffff_ffff,
            Reason::CoeffOverflow => 0xffff_ffff_ffff_ffff,
            Reason::DivByZero => 0xffff_ffff_ffff_ffff,
            Reason::TooLong => 0xffff_ffff_ffff_ffff,
            Reason::BadInput => 0xffff_ffff_ffff_ffff,
            Reason::Malformed { at } => at,
            Reason::Budget => 0xffff_ffff_ffff_ffff,
            Reason::TooDeep => 0xffff_ffff_ffff_ffff,
            Reason::NoRoom => 0xffff_ffff_ffff_ffff,
        },
    }
}

// Where a malformed job goes wrong; the greatest number where it isn't malformed.
pub fn kanrosuye_place(input: &[u8]) -> usize
    ensures is { result ≡ place_in (request_of input.now).outcome }
{
    let r = request::read(input);
    let o = r.outcome;
    place(o)
}
