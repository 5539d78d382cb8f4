// Polynomials at the door (document 01, module 3; the original's univariate.rs): every operation takes any value of its types,
// tests once whether its inputs are canonical, and hands the work to the crate `terms`.
#![tactic(auto)]

ghost use Rattle.std.specs.Prelude.{◌≡◌, [], ◌∷◌, ◌≤◌, length, drop};
ghost use Rattle.algebra.specs.Polynomial.{sum, scaled, negated, product, power, derivative, value};
ghost use Rattle.ratio.specs.Promise.{rat};
ghost use Rattle.terms.specs.Poly.{terms_of, poly_of};
ghost use Rattle.terms.specs.Meaning.{rats};
ghost use Rattle.terms.specs.Answer.{done_with};
ghost use Rattle.poly.specs.Door.{all_lowest, is_unused, all_unused, door_of, door_of_ratio, both as both_of, reason_of};
ghost use Rattle.poly.specs.Parts.{paired, parts_lowest, parts_door, parts_of};
ghost use Rattle.poly.specs.Promise.{reading, variable, Gives, GivesValue, TellsDegree, TellsZero, TellsLead};
ghost use Rattle.poly.specs.Operations.{constant_of, monomial_of, degree_of, is_zero_of, lead_of, add_of, sub_of, mul_of, scale_of, neg_of, diff_of, eval_of, power_door, power_from, pow_of};

use ratio::{Ratio, Reason};
use terms::{Answer, Poly};

// Whether an input may come in: over 32 coefficients is 4, what isn't canonical is 5.
#[derive(Clone, Copy)]
pub enum Gate {
    Open,
    Long,
    Bad,
}

// ---- the door

fn all_lowest(p: Poly) -> bool
    ensures { result ≡ all_lowest (terms_of p) }
{
    let n = p.length();
    let mut i: usize = 0;
    while i < n {
        let c = p.coeffs[i];
        if !c.is_lowest() {
            return false;
        }
        i += 1;
    }
    true
}

fn is_unused(r: Ratio) -> bool
    ensures { result ≡ is_unused r }
{
    r.num == 0 && r.den == 1
}

fn all_unused(p: Poly) -> bool
    requires { p.len ≤ 32 }
    ensures { result ≡ all_unused (drop p.len p.coeffs) }
{
    let mut i = p.len;
    while i < 32 {
        let c = p.coeffs[i];
        if !is_unused(c) {
            return false;
        }
        i += 1;
    }
    true
}

// Whether a polynomial is canonical: the test that every operation makes once for each input.
pub fn door(p: Poly) -> Gate
    ensures is { result ≡ door_of p }
{
    if p.len > 32 {
        Gate::Long
    } else if !all_lowest(p) {
        Gate::Bad
    } else if p.top() != p.len {
        Gate::Bad
    } else if all_unused(p) {
        Gate::Open
    } else {
        Gate::Bad
    }
}

fn door_of_ratio(r: Ratio) -> Gate
    ensures { result ≡ door_of_ratio r }
{
    if r.is_lowest() { Gate::Open } else { Gate::Bad }
}

// Of two inputs: 5 before 4.
pub fn both(a: Gate, b: Gate) -> Gate
    ensures is { result ≡ both_of a b }
{
    match a {
        Gate::Open => b,
        Gate::Bad => Gate::Bad,
        Gate::Long => match b {
            Gate::Bad => Gate::Bad,
            Gate::Long => Gate::Long,
            Gate::Open => Gate::Long,
        },
    }
}

pub fn reason(d: Gate) -> Reason
    ensures is { result ≡ reason_of d }
{
    match d {
        Gate::Long => Reason::TooLong,
        Gate::Bad => Reason::BadInput,
        Gate::Open => Reason::BadInput,
    }
}

fn door_of_power(p: Poly, n: usize) -> Gate
    ensures { result ≡ power_door (terms_of p) n }
{
    if n > 200 {
        return Gate::Long;
    }
    let len = p.length();
    if len == 0 {
        return Gate::Open;
    }
    if (len - 1) * n > 31 {
        return Gate::Long;
    }
    Gate::Open
}

// ---- constructors

pub fn constant(c: Ratio) -> Answer
    ensures is { result ≡ constant_of c }
    ensures promise { Gives (rat c ∷ []) result }
{
    let d = door_of_ratio(c);
    if let Gate::Open = d {
        let mut p = Poly::zero();
        p.coeffs[0] = c;
        p.len = 1;
        terms::done(p.normalise(), 0)
    } else {
        terms::refused(reason(d), 0)
    }
}

// The monomial of a degree, with coefficient 1.
pub fn monomial(degree: usize) -> Answer
    ensures is { result ≡ monomial_of degree }
    ensures promise { Gives (power variable degree) result }
{
    if degree > 31 {
        return terms::refused(Reason::TooLong, 0);
    }
    let mut p = Poly::zero();
    p.coeffs[degree] = Ratio { num: 1, den: 1 };
    p.len = degree + 1;
    terms::done(p, 0)
}

// ---- questions

// The degree; zero has none.
#[tactic(auto, using(crate::proofs::Auto::told))]
pub fn degree(p: Poly) -> Result<Option<usize>, Reason>
    ensures is { result ≡ degree_of p }
    ensures promise { TellsDegree p result }
{
    let d = door(p);
    if let Gate::Open = d {
        let n = p.length();
        if n == 0 { Ok(None) } else { Ok(Some(n - 1)) }
    } else {
        Err(reason(d))
    }
}

#[tactic(auto, using(crate::proofs::Auto::told))]
pub fn is_zero(p: Poly) -> Result<bool, Reason>
    ensures is { result ≡ is_zero_of p }
    ensures promise { TellsZero p result }
{
    let d = door(p);
    if let Gate::Open = d {
        Ok(p.length() == 0)
    } else {
        Err(reason(d))
    }
}

// The leading coefficient; 0 of zero.
#[tactic(auto, using(crate::proofs::Auto::told))]
pub fn leading_coeff(p: Poly) -> Result<Ratio, Reason>
    ensures is { result ≡ lead_of p }
    ensures promise { TellsLead p result }
{
    let d = door(p);
    if let Gate::Open = d {
        let n = p.length();
        if n == 0 {
            Ok(Ratio { num: 0, den: 1 })
        } else {
            Ok(p.coeffs[n - 1])
        }
    } else {
        Err(reason(d))
    }
}

// ---- arithmetic

pub fn add(a: Poly, b: Poly) -> Answer
    ensures is { result ≡ add_of a b }
    ensures promise { Gives (sum (reading a) (reading b)) result }
{
    let d = both(door(a), door(b));
    if let Gate::Open = d {
        a.zip(b, false)
    } else {
        terms::refused(reason(d), 0)
    }
}

pub fn sub(a: Poly, b: Poly) -> Answer
    ensures is { result ≡ sub_of a b }
    ensures promise { Gives (sum (reading a) (negated (reading b))) result }
{
    let d = both(door(a), door(b));
    if let Gate::Open = d {
        a.zip(b, true)
    } else {
        terms::refused(reason(d), 0)
    }
}

pub fn mul(a: Poly, b: Poly) -> Answer
    ensures is { result ≡ mul_of a b }
    ensures promise { Gives (product (reading a) (reading b)) result }
{
    let d = both(door(a), door(b));
    if let Gate::Open = d {
        a.times(b)
    } else {
        terms::refused(reason(d), 0)
    }
}

pub fn scale(p: Poly, c: Ratio) -> Answer
    ensures is { result ≡ scale_of p c }
    ensures promise { Gives (scaled (rat c) (reading p)) result }
{
    let d = both(door(p), door_of_ratio(c));
    if let Gate::Open = d {
        p.scale(c)
    } else {
        terms::refused(reason(d), 0)
    }
}

pub fn neg(p: Poly) -> Answer
    ensures is { result ≡ neg_of p }
    ensures promise { Gives (negated (reading p)) result }
{
    let d = door(p);
    if let Gate::Open = d {
        p.negate()
    } else {
        terms::refused(reason(d), 0)
    }
}

pub fn diff(p: Poly) -> Answer
    ensures is { result ≡ diff_of p }
    ensures promise { Gives (derivative (reading p)) result }
{
    let d = door(p);
    if let Gate::Open = d {
        p.differentiate()
    } else {
        terms::refused(reason(d), 0)
    }
}

// The value at x; one power of x beyond the last coefficient is taken, so that it may refuse needlessly.
#[tactic(auto, using(crate::proofs::Auto::told))]
pub fn eval(p: Poly, x: Ratio) -> Result<Ratio, Reason>
    ensures is { result ≡ eval_of p x }
    ensures promise { GivesValue (value (reading p) (rat x)) result }
{
    let d = both(door(p), door_of_ratio(x));
    if let Gate::Open = d {
        p.value_at(x)
    } else {
        Err(reason(d))
    }
}

// The power, one product at a time; the power 0 is 1, also of zero.
pub fn pow(p: Poly, n: usize) -> Answer
    ensures is { result ≡ pow_of p n }
    ensures promise { Gives (power (reading p) n) result }
{
    let d = both(door(p), door_of_power(p, n));
    if let Gate::Open = d {
        pow_terms(p, n)
    } else {
        terms::refused(reason(d), 0)
    }
}

fn pow_terms(p: Poly, n: usize) -> Answer
    requires { n ≤ 200 }
    ensures { result ≡ power_from (terms_of p) n }
{
    let mut acc = Poly::zero();
    acc.coeffs[0] = Ratio { num: 1, den: 1 };
    acc.len = 1;
    let mut steps: u64 = 0;
    let mut i: usize = 0;
    while i < n {
        let r = acc.times(p);
        steps += r.steps;
        let o = r.outcome;
        if let Err(why) = o {
            return terms::refused(why, steps);
        }
        acc = r.poly;
        i += 1;
    }
    terms::done(acc, steps)
}

// ---- from two lent lists

// Whether every pair is a fraction in lowest terms and the last one is not zero.
fn parts_lowest(nums: &[i64], dens: &[i64]) -> bool
    requires { length nums.now ≡ length dens.now }
    ensures { result ≡ parts_lowest nums.now dens.now }
{
    let n = nums.len();
    let mut i: usize = 0;
    while i < n {
        let c = Ratio {
            num: nums[i],
            den: dens[i],
        };
        if !c.is_lowest() {
            return false;
        }
        i += 1;
    }
    if n == 0 {
        return true;
    }
    nums[n - 1] != 0
}

fn parts_door(nums: &[i64], dens: &[i64]) -> Gate
    ensures { result ≡ parts_door nums.now dens.now }
{
    if nums.len() != dens.len() {
        Gate::Bad
    } else if !parts_lowest(nums, dens) {
        Gate::Bad
    } else if nums.len() > 32 {
        Gate::Long
    } else {
        Gate::Open
    }
}

// The polynomial of these numerators and denominators, rising.
#[tactic(auto, unfolding(crate::specs::Parts::parts_of))]
pub fn from_parts(nums: &[i64], dens: &[i64]) -> Answer
    ensures is { result ≡ parts_of nums.now dens.now }
    ensures promise { Gives (rats (paired nums.now dens.now)) result }
{
    let d = parts_door(nums, dens);
    if let Gate::Open = d {
        parts_poly(nums, dens)
    } else {
        terms::refused(reason(d), 0)
    }
}

fn parts_poly(nums: &[i64], dens: &[i64]) -> Answer
    requires { (length nums.now ≡ length dens.now) × (length nums.now ≤ 32) }
    ensures { result ≡ done_with (poly_of (paired nums.now dens.now)) 0 }
{
    let n = nums.len();
    let mut p = Poly::zero();
    let mut i: usize = 0;
    while i < n {
        let c = Ratio {
            num: nums[i],
            den: dens[i],
        };
        p.coeffs[i] = c;
        i += 1;
    }
    p.len = n;
    terms::done(p, 0)
}
