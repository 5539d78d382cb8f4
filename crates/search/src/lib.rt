// The search for rational roots, total on any value (document 01, module 5; `rational_roots` of the original's univariate.rs).
// The crate `roots` stands in front of this and makes the test at the door.
#![tactic(auto)]

ghost use Rattle.std.specs.Prelude.{◌≡◌, ◌+◌, ◌/◌, ◌<◌, ◌≤◌, ltb, pos, nat_abs, length, drop, get_or};
ghost use Rattle.ratio.specs.Range.{Within};
ghost use Rattle.ratio.specs.Refusal.{zero_r};
ghost use Rattle.terms.specs.Poly.{terms_of, poly_of};
ghost use Rattle.terms.specs.Machine.{plain, whole_r, fine, over as ran_over};
ghost use Rattle.terms.specs.Work.{valued};
ghost use Rattle.divisors.specs.Walk.{rest};
ghost use Rattle.divisors.specs.Promise.{listed};
ghost use Rattle.search.specs.Clear.{widened, multiple_from, cleared_one, cleared_by};
ghost use Rattle.search.specs.Strip.{zeros};
ghost use Rattle.search.specs.Keep.{turned, inserted};
ghost use Rattle.search.specs.Try.{kept_if, try_one, try_row, try_all};
ghost use Rattle.search.specs.Tally.{count_of, kept_list, Tallied, tally_of, halted_at, valued_of, clear_of};
ghost use Rattle.search.specs.Answer.{no_roots, answer_for, started, searched_below, searched_in, roots_of};

use divisors::Listing;
use ratio::{Ratio, Reason};
use std::cmp::Ordering;
use terms::Poly;

// The roots found, rising; how many candidates were tried, and the rational steps that took.
#[derive(Clone, Copy)]
pub struct Roots {
    pub outcome: Result<(), Reason>,
    pub values: [Ratio; 32],
    pub len: usize,
    pub tried: u64,
    pub steps: u64,
}

// ---- denominators

// The whole number abs n / d.
#[tactic(auto, using(crate::proofs::Auto::share_steps))]
fn share(n: i64, d: u64) -> Ratio
    requires { Within n × (0 < d) }
    ensures { result ≡ whole_r (pos (nat_abs n / d)) }
{
    let q = n.unsigned_abs() / d;
    Ratio {
        num: q as i64,
        den: 1,
    }
}

// The common multiple of m and d.
#[tactic(auto, using(crate::proofs::Auto::denominator_steps), unfolding(crate::specs::Clear::widened))]
pub fn widen(m: Ratio, d: i64) -> Result<Ratio, Reason>
    ensures is { result ≡ widened m d }
{
    if d <= 0 {
        return Err(Reason::CoeffOverflow);
    }
    let g = ratio::gcd_i64(m.num, d);
    ratio::checked_mul(m, share(d, g))
}

// The common multiple of the denominators.
#[tactic(auto, using(crate::proofs::Auto::multiple_steps))]
fn multiple(p: Poly) -> Result<Ratio, Reason>
    ensures { result ≡ multiple_from (terms_of p) (whole_r (pos 1)) }
{
    let n = p.length();
    let mut m = Ratio { num: 1, den: 1 };
    for i in 0..n {
        let Ok(next) = widen(m, p.coeffs[i].den) else {
            return Err(Reason::CoeffOverflow);
        };
        m = next;
    }
    Ok(m)
}

// The coefficient c times m, a multiple of its denominator.
#[tactic(auto, using(crate::proofs::Auto::denominator_steps), unfolding(crate::specs::Clear::cleared_one))]
fn clear_one(m: Ratio, c: Ratio) -> Result<Ratio, Reason>
    requires { Within m.num }
    ensures { result ≡ cleared_one m c }
{
    let d = c.den;
    if d <= 0 {
        return Err(Reason::CoeffOverflow);
    }
    ratio::checked_mul(Ratio { num: c.num, den: 1 }, share(m.num, d as u64))
}

// The coefficients as whole numbers, where they fit.
#[derive(Clone, Copy)]
struct Cleared {
    fine: bool,
    poly: Poly,
}

#[tactic(auto, using(crate::proofs::Auto::clear_steps))]
fn clear(p: Poly, m: Ratio) -> Cleared
    requires { Within m.num }
    ensures { result ≡ clear_of (cleared_by m (terms_of p)) }
{
    let n = p.length();
    let mut out = Poly::zero();
    for i in 0..n {
        let Ok(y) = clear_one(m, p.coeffs[i]) else {
            return Cleared {
                fine: false,
                poly: Poly::zero(),
            };
        };
        out.coeffs[i] = y;
    }
    out.len = n;
    Cleared {
        fine: true,
        poly: out,
    }
}

// ---- zero roots

// How many zeros stand at the bottom.
#[tactic(auto, using(crate::proofs::Auto::zeros_steps))]
fn zeros_of(p: Poly) -> usize
    ensures { result ≡ zeros (terms_of p) }
{
    let n = p.length();
    for i in 0..n {
        if p.coeffs[i].num != 0 {
            return i;
        }
    }
    n
}

// The polynomial without its first k coefficients.
#[tactic(auto, using(crate::proofs::Auto::strip_steps))]
fn strip(p: Poly, k: usize) -> Poly
    requires { k ≤ length (terms_of p) }
    ensures { result ≡ poly_of (drop k (terms_of p)) }
{
    let n = p.length();
    let mut out = Poly::zero();
    for i in 0..n - k {
        out.coeffs[i] = p.coeffs[i + k];
    }
    out.len = n - k;
    out
}

// ---- a rising list

// Two fractions, the smaller first; none where x stands there already.
fn turn(x: Ratio, a: Ratio) -> Option<(Ratio, Ratio)>
    ensures { result ≡ turned x a }
{
    match ratio::compare(x, a) {
        Ok(Ordering::Less) => Some((x, a)),
        Ok(Ordering::Equal) => None,
        Ok(Ordering::Greater) => Some((a, x)),
        Err(_) => None,
    }
}

// The roots found so far, and what was counted.
#[derive(Clone, Copy)]
struct Tally {
    fine: bool,
    values: [Ratio; 32],
    len: usize,
    tried: u64,
    steps: u64,
}

// x put in its place: the smaller stays, the larger is carried on. A repeat is dropped.
#[tactic(auto, using(crate::proofs::Auto::insert_steps))]
fn insert(t: Tally, x: Ratio) -> Tally
    requires { Tallied t }
    ensures { result ≡ tally_of (fine (count_of t) (inserted x (kept_list t))) }
{
    let n = t.len;
    if n >= 32 {
        return t;
    }
    let mut values = t.values;
    let mut carried = x;
    for i in 0..n {
        let Some((low, high)) = turn(carried, values[i]) else {
            return Tally {
                fine: true,
                values,
                len: n,
                tried: t.tried,
                steps: t.steps,
            };
        };
        values[i] = low;
        carried = high;
    }
    values[n] = carried;
    Tally {
        fine: true,
        values,
        len: n + 1,
        tried: t.tried,
        steps: t.steps,
    }
}

// ---- candidates

// A value and the steps that led to it.
#[derive(Clone, Copy)]
struct Valued {
    fine: bool,
    value: Ratio,
    steps: u64,
}

fn over(steps: u64) -> Valued
    ensures { result ≡ valued_of (ran_over steps) }
{
    Valued {
        fine: false,
        value: Ratio { num: 0, den: 1 },
        steps,
    }
}

// The value at x, as `eval_poly_i64_at_ratio` takes it; the steps are counted on.
#[tactic(auto, using(crate::proofs::Auto::value_steps))]
fn evaluate(p: Poly, x: Ratio, steps: u64) -> Valued
    requires { steps ≤ 9007199254740992 }
    ensures { result ≡ valued_of (valued plain (terms_of p) x (whole_r (pos 1)) zero_r steps) }
{
    let n = p.length();
    let mut sum = Ratio { num: 0, den: 1 };
    let mut power = Ratio { num: 1, den: 1 };
    let mut count = steps;
    for i in 0..n {
        let Ok(t) = ratio::checked_mul(p.coeffs[i], power) else {
            return over(count + 1);
        };
        let Ok(s) = ratio::checked_add(sum, t) else {
            return over(count + 2);
        };
        let Ok(next) = ratio::checked_mul(power, x) else {
            return over(count + 3);
        };
        sum = s;
        power = next;
        count += 3;
    }
    Valued {
        fine: true,
        value: sum,
        steps: count,
    }
}

// What is left of a tally whose work was refused.
fn halted(tried: u64, steps: u64) -> Tally
    ensures { result ≡ halted_at tried steps }
{
    Tally {
        fine: false,
        values: [Ratio { num: 0, den: 1 }; 32],
        len: 0,
        tried,
        steps,
    }
}

// One candidate more was tried; a root is kept.
#[tactic(auto, using(crate::proofs::Auto::keep_steps))]
fn keep(t: Tally, x: Ratio, root: bool, steps: u64) -> Tally
    requires { Tallied t × (t.tried ≤ 9007199254740992) }
    ensures { result ≡ tally_of (fine (record { tried = t.tried + 1; steps = steps }) (kept_if root x (kept_list t))) }
{
    let values = t.values;
    let now = Tally {
        fine: true,
        values,
        len: t.len,
        tried: t.tried + 1,
        steps,
    };
    if root { insert(now, x) } else { now }
}

// The candidate n / d; there is none where d is zero.
#[tactic(auto, using(crate::proofs::Auto::try_steps))]
fn try_one(p: Poly, n: i64, d: i64, t: Tally) -> Tally
    requires { Tallied t × (t.tried ≤ 9007199254740992) × (t.steps ≤ 9007199254740992) }
    ensures { result ≡ tally_of (try_one (terms_of p) n d (count_of t) (kept_list t)) }
{
    if d == 0 {
        return t;
    }
    let Ok(x) = Ratio::new(n, d) else {
        return halted(t.tried, t.steps);
    };
    let v = evaluate(p, x, t.steps);
    if !v.fine {
        return halted(t.tried + 1, v.steps);
    }
    keep(t, x, v.value.is_zero(), v.steps)
}

// The candidates n / d for each d of a listing.
#[tactic(auto, using(crate::proofs::Auto::row_steps))]
fn try_row(p: Poly, n: i64, size: u64, marks: &[u64; 1024], t: Tally) -> Tally
    requires { Tallied t × (t.tried ≤ 4503599627370496) × (t.steps ≤ 4503599627370496) }
    ensures is { result ≡ tally_of (try_row (terms_of p) n (rest size marks.now 0) (count_of t) (kept_list t)) }
    ensures few { (result.tried ≤ t.tried + 262144) × (result.steps ≤ t.steps + 25165824) }
{
    let mut so_far = t;
    let mut at: usize = 0;
    while let Some(d) = divisors::next_factor(size, marks, at) {
        let tally = try_one(p, n, d.value, so_far);
        if !tally.fine {
            return tally;
        }
        so_far = tally;
        at = d.next;
    }
    so_far
}

// Every candidate of two listings, in listing order.
#[tactic(auto, using(crate::proofs::Auto::all_steps))]
fn try_all<'a>(
    p: Poly,
    size: u64,
    marks: &'a [u64; 1024],
    lower: u64,
    below: &'a [u64; 1024],
    t: Tally,
) -> Tally
    requires { Tallied t × (t.tried ≡ 0) × (t.steps ≡ 0) }
    ensures { result ≡ tally_of (try_all (terms_of p) (rest size marks.now 0) (rest lower below.now 0) (count_of t) (kept_list t)) }
{
    let mut so_far = t;
    let mut at: usize = 0;
    while let Some(d) = divisors::next_factor(size, marks, at) {
        let tally = try_row(p, d.value, lower, below, so_far);
        if !tally.fine {
            return tally;
        }
        so_far = tally;
        at = d.next;
    }
    so_far
}

// ---- the search

pub fn no_roots(why: Reason) -> Roots
    ensures is { result ≡ no_roots why 0 0 }
{
    Roots {
        outcome: Err(why),
        values: [Ratio { num: 0, den: 1 }; 32],
        len: 0,
        tried: 0,
        steps: 0,
    }
}

// What a tally comes to.
fn answer(t: Tally) -> Roots
    ensures { result ≡ answer_for t }
{
    Roots {
        outcome: if t.fine {
            Ok(())
        } else {
            Err(Reason::CoeffOverflow)
        },
        values: t.values,
        len: t.len,
        tried: t.tried,
        steps: t.steps,
    }
}

// Nothing tried yet; zero is a root where x was divided out.
fn start(zero: bool) -> Tally
    ensures { result ≡ tally_of (fine (record { tried = 0; steps = 0 }) (started zero)) }
{
    Tally {
        fine: true,
        values: [Ratio { num: 0, den: 1 }; 32],
        len: if zero { 1 } else { 0 },
        tried: 0,
        steps: 0,
    }
}

// Coefficient i, 0/1 past the end.
#[tactic(auto, using(crate::proofs::Auto::read_steps))]
fn coefficient(p: Poly, i: usize) -> Ratio
    ensures { result ≡ get_or (terms_of p) i zero_r }
{
    if i < p.length() {
        p.coeffs[i]
    } else {
        Ratio { num: 0, den: 1 }
    }
}

// The constant term's divisors are listed; those of the leading term come next.
#[tactic(auto, using(crate::proofs::Auto::listing_steps))]
fn search_below(p: Poly, zero: bool, budget: u64, first: Listing) -> Roots
    ensures { result ≡ searched_below (terms_of p) zero budget (listed first) }
{
    let lead = coefficient(p, p.length().saturating_sub(1));
    let second = divisors::integer_factors(lead.num, budget);
    match second.outcome {
        Ok(()) => {
            answer(try_all(
                p,
                first.size,
                &first.marks,
                second.size,
                &second.marks,
                start(zero),
            ))
        }
        Err(why) => no_roots(why),
    }
}

// The roots of whole coefficients with no zero at either end.
#[tactic(auto, using(crate::proofs::Auto::listing_steps), unfolding(crate::specs::Answer::searched_in))]
fn search_in(p: Poly, zero: bool, budget: u64) -> Roots
    ensures { result ≡ searched_in (terms_of p) zero budget }
{
    let first = divisors::integer_factors(coefficient(p, 0).num, budget);
    match first.outcome {
        Ok(()) => search_below(p, zero, budget, first),
        Err(why) => no_roots(why),
    }
}

// Zero roots are stripped before the search.
#[tactic(auto, using(crate::proofs::Auto::whole_steps))]
fn search_whole(p: Poly, budget: u64) -> Roots
    ensures { result ≡ searched_in (drop (zeros (terms_of p)) (terms_of p)) (ltb 0 (zeros (terms_of p))) budget }
{
    let k = zeros_of(p);
    search_in(strip(p, k), k > 0, budget)
}

#[tactic(auto, using(crate::proofs::Auto::roots_steps))]
pub fn roots_of(p: Poly, budget: u64) -> Roots
    ensures is { result ≡ roots_of (terms_of p) budget }
{
    let f = p.normalise();
    if f.length() == 0 {
        return answer(start(false));
    }
    let Ok(m) = multiple(f) else {
        return no_roots(Reason::CoeffOverflow);
    };
    let c = clear(f, m);
    if !c.fine {
        return no_roots(Reason::CoeffOverflow);
    }
    search_whole(c.poly, budget)
}
