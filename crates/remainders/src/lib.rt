// Division, gcd, resultant, discriminant and the square-free part of any lists of coefficients (document 01, module 4; the original's univariate.rs).
// Nothing here tests whether a polynomial is canonical; the crate `euclid` stands in front of this and makes the test once.
// Every answer, a refused one too, carries the number of rational steps that were made.
#![tactic(auto)]

ghost use Rattle.std.specs.Prelude.{◌≡◌, ◌+◌, ◌*◌, ◌-◌, ◌≤◌, ◌<◌, pos, length};
ghost use Rattle.ratio.specs.Refusal.{ratio_of, zero_r};
ghost use Rattle.ratio.specs.Step.{inv_of};
ghost use Rattle.terms.specs.Poly.{terms_of, poly_of, trim};
ghost use Rattle.terms.specs.Machine.{fine, plain, whole_r};
ghost use Rattle.terms.specs.Answer.{answer_of, done_with};
ghost use Rattle.remainders.specs.Divide.{lead as lead_of};
ghost use Rattle.remainders.specs.Gcd.{monic as monic_of, gcd_of, freed, square_free};
ghost use Rattle.remainders.specs.Resultant.{sign_of, powered, joined, ordered as ordered_of, resultant_of, discriminant_of, unit};
ghost use Rattle.remainders.specs.Answer.{no_division, divided_of, no_number, number_of};

use ratio::{Ratio, Reason};
use terms::{Answer, Poly};

// Quotient and rest.
#[derive(Clone, Copy)]
pub struct Division {
    pub outcome: Result<(), Reason>,
    pub quotient: Poly,
    pub rest: Poly,
    pub steps: u64,
}

// A fraction that was worked out.
#[derive(Clone, Copy)]
pub struct Number {
    pub outcome: Result<(), Reason>,
    pub value: Ratio,
    pub steps: u64,
}

pub fn no_division(why: Reason, steps: u64) -> Division
    ensures is { result ≡ no_division why steps }
{
    Division {
        outcome: Err(why),
        quotient: Poly::zero(),
        rest: Poly::zero(),
        steps,
    }
}

fn no_number(steps: u64) -> Number
    ensures { result ≡ no_number steps }
{
    Number {
        outcome: Err(Reason::CoeffOverflow),
        value: whole(0),
        steps,
    }
}

fn worked(value: Ratio, steps: u64) -> Number
    ensures { result ≡ number_of (fine steps value) }
{
    Number {
        outcome: Ok(()),
        value,
        steps,
    }
}

fn whole(n: i64) -> Ratio
    ensures { result ≡ whole_r n }
{
    Ratio { num: n, den: 1 }
}

// The leading coefficient; 0 of zero.
fn lead(p: Poly) -> Ratio
    ensures { result ≡ lead_of plain (terms_of p) }
{
    let n = p.length();
    if n == 0 { whole(0) } else { p.coeffs[n - 1] }
}

// 1 / r; 0 where there is none.
fn inverse(r: Ratio) -> Ratio
    ensures { result ≡ ratio_of (inv_of r) }
{
    let Ok(i) = ratio::inverse(r) else {
        return whole(0);
    };
    i
}

// ---- division

// One quotient term after the other, the highest first.
fn quotients(a: Poly, b: Poly) -> Division
    requires { (1 ≤ length (terms_of b)) × (length (terms_of b) ≤ length (terms_of a)) }
    ensures { result ≡ divided_of (terms_of a) (terms_of b) }
{
    let n = a.length();
    let m = b.length();
    let inv = inverse(lead(b));
    let mut rem = a.coeffs;
    let mut quot = [whole(0); 32];
    let mut steps: u64 = 0;
    let mut k = n - m + 1;
    while k > 0 {
        k -= 1;
        let c = rem[k + m - 1];
        let Ok(t) = ratio::checked_mul(c, inv) else {
            return no_division(Reason::CoeffOverflow, steps + 1);
        };
        let row = terms::row_for(rem, k, t, b, true, steps + 1);
        if !row.fine {
            return no_division(Reason::CoeffOverflow, row.steps);
        }
        rem = row.acc;
        steps = row.steps;
        quot[k] = t;
    }
    let quotient = Poly {
        coeffs: quot,
        len: n - m + 1,
    };
    let rest = Poly {
        coeffs: rem,
        len: m - 1,
    };
    Division {
        outcome: Ok(()),
        quotient: quotient.normalise(),
        rest: rest.normalise(),
        steps,
    }
}

// The quotient and the rest; by zero it is refused with 3, also for a zero dividend.
pub fn divide(a: Poly, b: Poly) -> Division
    ensures is { result ≡ divided_of (terms_of a) (terms_of b) }
{
    let n = a.length();
    let m = b.length();
    if m == 0 {
        return no_division(Reason::DivByZero, 0);
    }
    if n < m {
        return Division {
            outcome: Ok(()),
            quotient: Poly::zero(),
            rest: a.normalise(),
            steps: 0,
        };
    }
    quotients(a, b)
}

// ---- gcd

// The answer with the steps before it counted too.
fn later(r: Answer, steps: u64) -> Answer
    requires { (steps ≤ 65536) × (r.steps ≤ 65536) }
    ensures { result ≡ record { outcome = r.outcome; poly = r.poly; steps = steps + r.steps } }
{
    let o = r.outcome;
    let p = r.poly;
    Answer {
        outcome: o,
        poly: p,
        steps: steps + r.steps,
    }
}

// Scaled so that the leading coefficient is 1; zero stays zero.
pub fn monic(p: Poly) -> Answer
    ensures is { result ≡ answer_of (monic_of plain (terms_of p) 0) }
{
    p.scale(inverse(lead(p)))
}

// Divides until the remainder is zero, then scales.
pub fn greatest(a: Poly, b: Poly) -> Answer
    ensures is { result ≡ answer_of (gcd_of plain (terms_of a) (terms_of b) 0) }
{
    let mut u = a;
    let mut v = b;
    let mut steps: u64 = 0;
    while v.length() > 0 {
        let d = divide(u, v);
        steps += d.steps;
        let o = d.outcome;
        if let Err(_) = o {
            return terms::refused(Reason::CoeffOverflow, steps);
        }
        u = v;
        v = d.rest;
    }
    later(monic(u), steps)
}

// f over g, monic, where g divides f; f itself where it doesn't or where g is constant.
fn free_of(f: Poly, g: Poly) -> Answer
    ensures { result ≡ answer_of (freed plain (terms_of f) (terms_of g) 0) }
{
    if g.length() < 2 {
        return terms::done(f.normalise(), 0);
    }
    let d = divide(f, g);
    let o = d.outcome;
    if let Err(_) = o {
        return terms::refused(Reason::CoeffOverflow, d.steps);
    }
    let rest = d.rest;
    if rest.length() > 0 {
        return terms::done(f.normalise(), d.steps);
    }
    let q = d.quotient;
    later(monic(q), d.steps)
}

// The square-free part: f over the gcd of f and its derivative.
pub fn free_part(f: Poly) -> Answer
    ensures is { result ≡ answer_of (square_free plain (terms_of f) 0) }
{
    if f.length() == 0 {
        return terms::done(Poly::zero(), 0);
    }
    let d = f.differentiate();
    let od = d.outcome;
    if let Err(_) = od {
        return terms::refused(Reason::CoeffOverflow, d.steps);
    }
    let df = d.poly;
    let g = greatest(f, df);
    let og = g.outcome;
    if let Err(_) = og {
        return terms::refused(Reason::CoeffOverflow, d.steps + g.steps);
    }
    let gp = g.poly;
    later(free_of(f, gp), d.steps + g.steps)
}

// ---- resultant

// c to the power of k, one multiplication per exponent.
fn power(c: Ratio, k: usize) -> Number
    requires { k ≤ 32 }
    ensures { result ≡ number_of (powered plain c k (unit plain) 0) }
{
    let mut r = whole(1);
    for i in 0..k {
        let Ok(s) = ratio::checked_mul(r, c) else {
            return no_number((i as u64) + 1);
        };
        r = s;
    }
    worked(r, k as u64)
}

// 1 for an even number, -1 for an odd one.
fn sign(n: usize) -> Ratio
    ensures { result ≡ whole_r (sign_of n) }
{
    if n % 2 == 0 { whole(1) } else { whole(-1) }
}

// The last two multiplications.
fn join(sign: Ratio, power: Ratio, inner: Ratio, steps: u64) -> Number
    requires { steps ≤ 65536 }
    ensures { result ≡ number_of (joined plain sign power inner steps) }
{
    let Ok(t) = ratio::checked_mul(sign, power) else {
        return no_number(steps + 1);
    };
    let Ok(r) = ratio::checked_mul(t, inner) else {
        return no_number(steps + 2);
    };
    worked(r, steps + 2)
}

// The resultant where the first degree is at least 1 and not below the second's; the second's length falls with each call.
fn ordered(a: Poly, b: Poly) -> Number
    requires { length (terms_of b) ≤ length (terms_of a) }
    ensures { result ≡ number_of (ordered_of plain (length (terms_of b)) (terms_of a) (terms_of b) 0) }
{
    let n = a.length();
    let m = b.length();
    if m == 0 {
        return worked(whole(0), 0);
    }
    if m == 1 {
        let c = b.coeffs[0];
        return power(c, terms::less_one(n));
    }
    let d = divide(a, b);
    let o = d.outcome;
    if let Err(_) = o {
        return no_number(d.steps);
    }
    let rest = d.rest;
    let k = rest.length();
    if k == 0 {
        return worked(whole(0), d.steps);
    }
    let p = power(lead(b), terms::less(n, k));
    let op = p.outcome;
    if let Err(_) = op {
        return no_number(d.steps + p.steps);
    }
    let s = ordered(b, rest);
    let os = s.outcome;
    if let Err(_) = os {
        return no_number(d.steps + p.steps + s.steps);
    }
    let total = d.steps + p.steps + s.steps;
    let sg = sign(terms::less_one(n) * (m - 1));
    join(sg, p.value, s.value, total)
}

// The resultant as a fraction: 0 if either is zero.
pub fn resultant_ratio(a: Poly, b: Poly) -> Number
    ensures is { result ≡ number_of (resultant_of plain (terms_of a) (terms_of b) 0) }
{
    let n = a.length();
    let m = b.length();
    if n == 0 {
        return worked(whole(0), 0);
    }
    if m == 0 {
        return worked(whole(0), 0);
    }
    if n == 1 {
        let c = a.coeffs[0];
        return power(c, m - 1);
    }
    if m == 1 {
        let c = b.coeffs[0];
        return power(c, n - 1);
    }
    if n < m {
        return swapped(a, b);
    }
    ordered(a, b)
}

// A lower first degree: the other order, and one multiplication by the sign.
fn swapped(a: Poly, b: Poly) -> Number
    requires { (2 ≤ length (terms_of a)) × (length (terms_of a) < length (terms_of b)) }
    ensures { result ≡ number_of (resultant_of plain (terms_of a) (terms_of b) 0) }
{
    let n = a.length();
    let m = b.length();
    let r = ordered(b, a);
    let o = r.outcome;
    if let Err(_) = o {
        return no_number(r.steps);
    }
    let Ok(s) = ratio::checked_mul(r.value, sign((n - 1) * (m - 1))) else {
        return no_number(r.steps + 1);
    };
    worked(s, r.steps + 1)
}

// The discriminant as a fraction: of zero 0, of a constant 1.
pub fn discriminant_ratio(f: Poly) -> Number
    ensures is { result ≡ number_of (discriminant_of plain (terms_of f) 0) }
{
    let n = f.length();
    if n == 0 {
        return worked(whole(0), 0);
    }
    if n == 1 {
        return worked(whole(1), 0);
    }
    let d = f.differentiate();
    let od = d.outcome;
    if let Err(_) = od {
        return no_number(d.steps);
    }
    let df = d.poly;
    let r = resultant_ratio(f, df);
    let o = r.outcome;
    if let Err(_) = o {
        return no_number(d.steps + r.steps);
    }
    let sg = sign((n - 1) * (n - 2) / 2);
    let inv = inverse(lead(f));
    join(sg, r.value, inv, d.steps + r.steps)
}
