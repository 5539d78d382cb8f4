// Kronecker's split: a factor found from its values at a few points (document 01, module 5; `kronecker_try_split` of the original's factor.rs).
// Nothing here tests whether a polynomial is canonical: every function is total by its own model, on any value.
#![tactic(auto)]

ghost use Rattle.std.specs.Prelude.{◌≡◌, true, false, ◌&&◌, [], ◌∷◌, ◌++◌, ◌+◌, ◌<◌, ◌≤◌, pos, length, take, Err};
ghost use Rattle.ratio.specs.Refusal.{ratio_of};
ghost use Rattle.ratio.specs.Step.{neg_of};
ghost use Rattle.terms.specs.Poly.{terms_of, poly_of};
ghost use Rattle.terms.specs.Machine.{whole_r};
ghost use Rattle.terms.specs.Answer.{value_of};
ghost use Rattle.divisors.specs.Walk.{rest};
ghost use Rattle.kronecker.specs.Points.{point_of, is_whole, all_whole, surveyed};
ghost use Rattle.kronecker.specs.Combinations.{Stored, rows_of, grown, gathered, gathering_of};
ghost use Rattle.kronecker.specs.Interpolation.{skip, away_from, basis_step, basis_of, Serves, Serving, part_from, added_from, interpolated_of};
ghost use Rattle.kronecker.specs.Split.{without, is_over, judged, tried_of, tried_from, tried_gathered, tried_at, most_of, try_split_of};

use ratio::{Ratio, Reason};
use terms::{Answer, Poly};

// What a search for a factor comes to: found, none so far, none at all, or refused.
#[derive(Clone, Copy)]
pub enum Verdict {
    Found,
    Next,
    NoSplit,
    Refused(Reason),
}

#[derive(Clone, Copy)]
pub struct Split {
    pub verdict: Verdict,
    pub factor: Poly,
}

// The values at the points in use: whole numbers all, or not, or one was refused.
#[derive(Clone, Copy)]
enum Values {
    Whole,
    Broken,
    Over,
}

// A combination: a divisor for each point so far.
#[derive(Clone, Copy)]
struct Combination {
    values: [Ratio; 7],
}

// A fixed array with a length beside it: the project allows no heap.
#[derive(Clone, Copy)]
struct Combinations {
    rows: [Combination; 100],
    len: usize,
}

#[derive(Clone, Copy)]
struct Gathered {
    outcome: Result<(), Reason>,
    combinations: Combinations,
}

// What the part of a sum at one point is made of, whatever its value is to be: the product for that point, and its own value there.
#[derive(Clone, Copy)]
struct Basis {
    fine: bool,
    poly: Poly,
    at: Ratio,
}

// One for each point in use. They are the same for all combinations, so they are made once.
#[derive(Clone, Copy)]
struct Parts {
    rows: [Basis; 7],
}

// ---- points and values

fn whole(n: i64) -> Ratio
    ensures { result ≡ whole_r n }
{
    Ratio { num: n, den: 1 }
}

#[tactic(auto, using(crate::proofs::Auto::point_steps), unfolding(crate::specs::Points::point_of))]
fn point(i: usize) -> Ratio
    ensures { result ≡ point_of i }
{
    if i == 1 {
        whole(1)
    } else if i == 2 {
        whole(-1)
    } else if i == 3 {
        whole(2)
    } else if i == 4 {
        whole(-2)
    } else if i == 5 {
        whole(3)
    } else if i == 6 {
        whole(-3)
    } else {
        whole(0)
    }
}

fn is_whole(r: Ratio) -> bool
    ensures { result ≡ is_whole r }
{
    ratio::magnitude(r.den) == 1
}

fn and(a: bool, b: bool) -> bool
    ensures { result ≡ a && b }
{
    if a { b } else { false }
}

// All the values at n points are looked at, so that a refused one counts before one that isn't whole.
#[tactic(auto, using(crate::proofs::Auto::survey_steps))]
fn survey(f: Poly, n: usize) -> Values
    ensures { result ≡ surveyed (terms_of f) n 0 true }
{
    let mut fine = true;
    for j in 0..n {
        let Ok(v) = f.value_at(point(j)) else {
            return Values::Over;
        };
        fine = and(fine, is_whole(v));
    }
    if fine { Values::Whole } else { Values::Broken }
}

// The value at point j; 0 where it is refused.
fn value(f: Poly, j: usize) -> Ratio
    ensures { result ≡ ratio_of (value_of (terms_of f) (point_of j)) }
{
    let Ok(v) = f.value_at(point(j)) else {
        return whole(0);
    };
    v
}

// ---- combinations

fn nothing() -> Combinations
    ensures { Stored result × (result.len ≡ 0) }
{
    Combinations {
        rows: [Combination {
            values: [whole(0); 7],
        }; 100],
        len: 0,
    }
}

// A combination with the value for point j behind it.
fn longer(c: Combination, j: usize, y: Ratio) -> Combination
    requires { j < 7 }
    ensures { take (j + 1) result.values ≡ take j c.values ++ (y ∷ []) }
{
    let mut values = c.values;
    values[j] = y;
    Combination { values }
}

fn push(out: Combinations, c: Combination) -> Combinations
    requires { out.len < 100 }
    ensures { Stored result × (result.len ≡ out.len + 1) × (take result.len result.rows ≡ take out.len out.rows ++ (c ∷ [])) }
{
    let n = out.len;
    let mut rows = out.rows;
    rows[n] = c;
    Combinations { rows, len: n + 1 }
}

// Each combination goes on with each divisor, until there are 100. Where 100 were reached before this point, none is left.
// The loops stand in one function, so that no row is copied into a call.
#[tactic(auto, using(crate::proofs::Auto::grow_steps))]
fn grow(old: Combinations, j: usize, size: u64, marks: &[u64; 1024]) -> Combinations
    requires { (j < 7) × Stored old }
    ensures { Stored result × (rows_of (j + 1) result ≡ grown (rows_of j old) (rest size marks.now 0)) }
{
    let n = old.len;
    let mut out = nothing();
    if n >= 100 {
        return out;
    }
    for i in 0..n {
        let mut at: usize = 0;
        while let Some(d) = divisors::next_factor(size, marks, at) {
            let m = out.len;
            if m >= 100 {
                return out;
            }
            out.rows[m] = longer(old.rows[i], j, whole(d.value));
            out.len = m + 1;
            at = d.next;
        }
    }
    out
}

fn no_gathering(why: Reason) -> Gathered
    ensures { Stored result.combinations × (result.outcome ≡ Err why) }
{
    Gathered {
        outcome: Err(why),
        combinations: nothing(),
    }
}

// One combination without a value.
fn first() -> Combinations
    ensures { Stored result × (rows_of 0 result ≡ [] ∷ []) }
{
    push(
        nothing(),
        Combination {
            values: [whole(0); 7],
        },
    )
}

// The divisors of the values at n points, combined. Every listing is made, so that each is measured against the budget.
#[tactic(auto, using(crate::proofs::Auto::gather_steps))]
fn gather(f: Poly, n: usize, budget: u64) -> Gathered
    requires { n ≤ 7 }
    ensures { Stored result.combinations × (gathering_of n result ≡ gathered (terms_of f) budget n 0 ([] ∷ [])) }
{
    let mut made = first();
    for j in 0..n {
        let v = value(f, j);
        let l = divisors::integer_factors(v.num, budget);
        let o = l.outcome;
        if let Err(why) = o {
            return no_gathering(why);
        }
        let marks = l.marks;
        made = grow(made, j, l.size, &marks);
    }
    Gathered {
        outcome: Ok(()),
        combinations: made,
    }
}

// ---- interpolation: what is refused here skips one combination

fn skipped() -> Answer
    ensures { result ≡ skip }
{
    terms::refused(Reason::CoeffOverflow, 0)
}

// -r; 0 where there is none.
fn negated(r: Ratio) -> Ratio
    ensures { result ≡ ratio_of (neg_of r) }
{
    let Ok(n) = ratio::checked_neg(r) else {
        return whole(0);
    };
    n
}

// x less point j.
fn away(j: usize) -> Poly
    ensures { result ≡ poly_of (away_from j) }
{
    let mut p = Poly::zero();
    p.coeffs[0] = negated(point(j));
    p.coeffs[1] = whole(1);
    p.len = 2;
    p
}

fn basis_step(acc: Poly, i: usize, j: usize) -> Answer
    ensures { result ≡ basis_step i j (terms_of acc) }
{
    if i == j {
        terms::done(acc.normalise(), 0)
    } else {
        acc.times(away(j))
    }
}

fn one() -> Poly
    ensures { result ≡ poly_of (whole_r (pos 1) ∷ []) }
{
    let mut p = Poly::zero();
    p.coeffs[0] = whole(1);
    p.len = 1;
    p
}

// The product of x less point j, over the n points but number i.
#[tactic(auto, using(crate::proofs::Auto::product_steps), unfolding(crate::specs::Interpolation::basis_of))]
fn product(i: usize, n: usize) -> Answer
    ensures { result ≡ basis_of i n }
{
    let mut acc = one();
    for j in 0..n {
        let a = basis_step(acc, i, j);
        let o = a.outcome;
        if let Err(_) = o {
            return skipped();
        }
        acc = a.poly;
    }
    terms::done(acc.normalise(), 0)
}

fn no_basis() -> Basis
    ensures { result.fine ≡ false }
{
    Basis {
        fine: false,
        poly: Poly::zero(),
        at: whole(0),
    }
}

#[tactic(auto, using(crate::proofs::Auto::basis_steps))]
fn basis_at(i: usize, n: usize) -> Basis
    ensures { Serves i n result }
{
    let b = product(i, n);
    let o = b.outcome;
    if let Err(_) = o {
        return no_basis();
    }
    let p = b.poly;
    let Ok(d) = p.value_at(point(i)) else {
        return no_basis();
    };
    Basis {
        fine: true,
        poly: p,
        at: d,
    }
}

// The bases of n points.
#[tactic(auto, using(crate::proofs::Auto::prepared_steps))]
fn prepared(n: usize) -> Parts
    requires { n ≤ 7 }
    ensures { Serving n n result.rows }
{
    let mut out = Parts {
        rows: [no_basis(); 7],
    };
    for i in 0..n {
        out.rows[i] = basis_at(i, n);
    }
    out
}

// The polynomial that is y at the basis' own point and 0 at the others.
fn part(b: Basis, y: Ratio) -> Answer
    ensures { result ≡ part_from b y }
{
    if !b.fine {
        return skipped();
    }
    let d = b.at;
    let Ok(s) = Ratio::new(y.num, d.num) else {
        return skipped();
    };
    let p = b.poly;
    p.scale(s)
}

fn add_part(acc: Poly, b: Basis, y: Ratio) -> Answer
    ensures { result ≡ added_from (terms_of acc) b y }
{
    let t = part(b, y);
    let o = t.outcome;
    if let Err(_) = o {
        return skipped();
    }
    let p = t.poly;
    acc.zip(p, false)
}

// The polynomial of least degree with a combination's values at the points.
#[tactic(auto, using(crate::proofs::Auto::sum_steps), unfolding(crate::specs::Interpolation::interpolated_of))]
fn interpolate(c: Combination, n: usize, all: Parts) -> Answer
    requires { (n ≤ 7) × Serving n n all.rows }
    ensures { result ≡ interpolated_of (take n c.values) n }
{
    let mut acc = Poly::zero();
    for i in 0..n {
        let y = c.values[i];
        let b = all.rows[i];
        let a = add_part(acc, b, y);
        let o = a.outcome;
        if let Err(_) = o {
            return skipped();
        }
        acc = a.poly;
    }
    terms::done(acc.normalise(), 0)
}

// ---- trials

fn without(v: Verdict) -> Split
    ensures { result ≡ without v }
{
    Split {
        verdict: v,
        factor: Poly::zero(),
    }
}

fn is_over(s: Split) -> bool
    ensures { result ≡ is_over s.verdict }
{
    let v = s.verdict;
    match v {
        Verdict::Found => true,
        Verdict::Next => false,
        Verdict::NoSplit => true,
        Verdict::Refused(_) => true,
    }
}

#[tactic(auto, using(crate::proofs::Auto::whole_steps))]
fn all_whole(p: Poly) -> bool
    ensures { result ≡ all_whole (terms_of p) }
{
    let n = p.length();
    for i in 0..n {
        if !is_whole(p.coeffs[i]) {
            return false;
        }
    }
    true
}

// Whether a candidate divides f; a refused division ends the search.
#[tactic(auto, using(crate::proofs::Auto::judge_steps))]
fn judge(f: Poly, c: Poly) -> Split
    ensures { result ≡ judged (terms_of f) (terms_of c) }
{
    if c.length() < 2 {
        return without(Verdict::Next);
    }
    if !all_whole(c) {
        return without(Verdict::Next);
    }
    let d = remainders::divide(f, c);
    let o = d.outcome;
    if let Err(_) = o {
        return without(Verdict::NoSplit);
    }
    let rest = d.rest;
    if rest.length() > 0 {
        return without(Verdict::Next);
    }
    Split {
        verdict: Verdict::Found,
        factor: c.normalise(),
    }
}

#[tactic(auto, using(crate::proofs::Auto::one_steps))]
fn try_one(f: Poly, c: Combination, n: usize, parts: Parts) -> Split
    requires { (n ≤ 7) × Serving n n parts.rows }
    ensures { result ≡ tried_of (terms_of f) n (take n c.values) }
{
    let a = interpolate(c, n, parts);
    let o = a.outcome;
    if let Err(_) = o {
        return without(Verdict::Next);
    }
    let p = a.poly;
    judge(f, p)
}

#[tactic(auto, using(crate::proofs::Auto::all_steps))]
fn try_all(f: Poly, all: Combinations, n: usize) -> Split
    requires { (n ≤ 7) × Stored all }
    ensures { result ≡ tried_from (terms_of f) n (rows_of n all) }
{
    let parts = prepared(n);
    for i in 0..all.len {
        let c = all.rows[i];
        let s = try_one(f, c, n, parts);
        if is_over(s) {
            return s;
        }
    }
    without(Verdict::Next)
}

// The candidates that n points give.
#[tactic(auto, unfolding(crate::specs::Split::tried_at))]
fn try_points(f: Poly, n: usize, budget: u64) -> Split
    requires { n ≤ 7 }
    ensures { result ≡ tried_at (terms_of f) budget n }
{
    let v = survey(f, n);
    match v {
        Values::Over => without(Verdict::NoSplit),
        Values::Broken => without(Verdict::Next),
        Values::Whole => try_gathered(f, n, budget),
    }
}

#[tactic(auto, using(crate::proofs::Auto::gathered_steps))]
fn try_gathered(f: Poly, n: usize, budget: u64) -> Split
    requires { n ≤ 7 }
    ensures { result ≡ tried_gathered (terms_of f) n (gathered (terms_of f) budget n 0 ([] ∷ [])) }
{
    let g = gather(f, n, budget);
    let o = g.outcome;
    match o {
        Err(why) => without(Verdict::Refused(why)),
        Ok(()) => {
            let all = g.combinations;
            try_all(f, all, n)
        }
    }
}

// The greatest degree of a factor that is looked for: half of f's, and as the seven points allow.
fn most(f: Poly) -> usize
    ensures { result ≡ most_of (terms_of f) }
{
    let k = terms::less_one(f.length()) / 2;
    k.min(6)
}

// A factor of f of degree at least 1, with whole coefficients, from its values at the points 0, 1, -1, 2, -2, 3, -3.
#[tactic(auto, using(crate::proofs::Auto::split_steps))]
pub fn try_split(f: Poly, budget: u64) -> Split
    ensures is { result ≡ try_split_of (terms_of f) budget }
{
    let m = most(f);
    for k in 1..m + 1 {
        let s = try_points(f, k + 1, budget);
        if is_over(s) {
            return s;
        }
    }
    without(Verdict::NoSplit)
}
