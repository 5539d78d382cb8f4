// Fractions and their checked steps (document 01, module 1; the original's src/poly/mod.rs).
// Every step takes any pair of numbers: what is no fraction within the range is refused with 5.
#![tactic(auto)]

ghost use Rattle.std.specs.Prelude.{◌≡◌, ◌&&◌, eqb, ◌+◌, ◌*◌, ◌-◌, ◌/◌, ◌%◌, ◌^◌, ◌<◌, ◌≤◌, min, pos, nat_abs, ◌+ℤ◌, ◌*ℤ◌};
ghost use Rattle.std.specs.Int.Count.{count_trailing_zeros};
ghost use Rattle.algebra.specs.Rational.{add_q, sub_q, mul_q, neg_q, over};
ghost use Rattle.ratio.specs.Refusal.{number_of};
ghost use Rattle.ratio.specs.Range.{Within, within, fitting};
ghost use Rattle.ratio.specs.Gcd.{gcd_of, IsGcd};
ghost use Rattle.ratio.specs.Step.{is_nil, is_fraction, is_lowest, facing, lowest, new_of, add_of, sub_of, mul_of, neg_of, inv_of, cmp_of};
ghost use Rattle.ratio.specs.Promise.{rat, Fraction, Lowest, AddFits, SubFits, MulFits, InvFits, Answers, Orders, Tells};

use std::cmp::Ordering;

// Why something is refused. `specs/Refusal.antt` gives each reason document 01's number.
#[derive(Clone, Copy)]
pub enum Reason {
    NotPolynomial,
    CoeffOverflow,
    DivByZero,
    TooLong,
    BadInput,
    Malformed { at: usize },
    Budget,
    TooDeep,
    NoRoom,
}

// Document 01's number of a reason.
pub fn number(why: Reason) -> u64
    ensures is { result ≡ number_of why }
{
    match why {
        Reason::NotPolynomial => 1,
        Reason::CoeffOverflow => 2,
        Reason::DivByZero => 3,
        Reason::TooLong => 4,
        Reason::BadInput => 5,
        Reason::Malformed { at: _ } => 5,
        Reason::Budget => 6,
        Reason::TooDeep => 7,
        Reason::NoRoom => 8,
    }
}

#[derive(Clone, Copy)]
pub struct Ratio {
    pub num: i64,
    pub den: i64,
}

// ---- whole numbers

#[inline(always)]
fn in_range(x: i64) -> bool
    ensures { result ≡ within x }
{
    x != i64::MIN
}

// The size of a number, of -2^63 too.
pub fn magnitude(x: i64) -> u64
    ensures is { result ≡ nat_abs x }
{
    x.unsigned_abs()
}

// What is left once the twos are divided out.
fn odd_part(x: u64) -> u64
    requires { 0 < x }
    ensures { (result % 2 ≡ 1) × (result * 2 ^ count_trailing_zeros 64 x ≡ x) }
{
    x >> x.trailing_zeros()
}

// By an odd number: after one division the smaller is taken from the larger, which asks no division more.
fn gcd_odd(a: u64, b: u64) -> u64
    requires { b % 2 ≡ 1 }
    ensures { result ≡ gcd_of a b }
{
    if b == 1 {
        return 1;
    }
    let mut x = b;
    let mut y = a % b;
    while y != 0 {
        let z = odd_part(y);
        y = x.abs_diff(z);
        x = x.min(z);
    }
    x
}

// The twos that both have, and the rest by an odd number.
fn gcd(a: u64, b: u64) -> u64
    ensures { result ≡ gcd_of a b }
{
    if a == 0 {
        return b;
    }
    if b == 0 {
        return a;
    }
    let twos = a.trailing_zeros().min(b.trailing_zeros());
    gcd_odd(a, odd_part(b)) << twos
}

// The greatest common divisor, of -2^63 too: that is why it has no sign.
pub fn gcd_i64(a: i64, b: i64) -> u64
    ensures is { result ≡ gcd_of (nat_abs a) (nat_abs b) }
    ensures greatest { IsGcd (nat_abs a) (nat_abs b) result }
{
    gcd(magnitude(a), magnitude(b))
}

#[inline(always)]
fn product(x: i64, y: i64) -> Result<i64, Reason>
    ensures { result ≡ fitting (x *ℤ y) }
{
    match x.checked_mul(y) {
        Some(z) if in_range(z) => Ok(z),
        _ => Err(Reason::CoeffOverflow),
    }
}

#[inline(always)]
fn sum(x: i64, y: i64) -> Result<i64, Reason>
    ensures { result ≡ fitting (x +ℤ y) }
{
    match x.checked_add(y) {
        Some(s) if in_range(s) => Ok(s),
        _ => Err(Reason::CoeffOverflow),
    }
}

// ---- fractions

// Both entries within the range, the denominator not zero.
#[inline(always)]
pub fn is_fraction(r: Ratio) -> bool
    ensures is { result ≡ is_fraction r }
{
    in_range(r.num) && in_range(r.den) && r.den != 0
}

// The sign of the fraction moves to the numerator.
fn faced(num: i64, den: i64) -> Ratio
    requires { Within num × Within den }
    ensures { result ≡ record { num = facing num den; den = pos (nat_abs den) } }
{
    if den < 0 {
        Ratio {
            num: -num,
            den: -den,
        }
    } else {
        Ratio { num, den }
    }
}

// Both over the divisor they have in common; 1 divides nothing away.
fn divided(n: i64, d: i64, divisor: u64) -> Ratio
    requires { Fraction (record { num = n; den = d }) × (divisor ≡ gcd_of (nat_abs n) (nat_abs d)) }
    ensures { result ≡ lowest n d }
{
    if divisor == 1 {
        return faced(n, d);
    }
    let g = divisor as i64;
    faced(n / g, d / g)
}

// Lowest terms; a whole number is in lowest terms already.
fn reduce(n: i64, d: i64) -> Ratio
    requires { Fraction (record { num = n; den = d }) }
    ensures { result ≡ lowest n d }
{
    if d == 1 {
        return Ratio { num: n, den: d };
    }
    divided(n, d, gcd(magnitude(n), magnitude(d)))
}

impl Ratio {
    #[tactic(auto, unfolding(crate::specs::Step::new_of))]
    pub fn new(num: i64, den: i64) -> Result<Ratio, Reason>
        ensures is { result ≡ new_of num den }
        ensures promise { Answers (Fraction (record { num = num; den = den })) (over num den) result }
    {
        if is_fraction(Ratio { num, den }) {
            Ok(reduce(num, den))
        } else {
            Err(Reason::BadInput)
        }
    }

    // Whether it is in lowest terms, within the range, its denominator above zero.
    pub fn is_lowest(self) -> bool
        ensures is { result ≡ is_lowest self }
        ensures promise { Tells (Lowest self) result }
    {
        is_fraction(self) && self.den > 0 && gcd_i64(self.num, self.den) == 1
    }

    pub fn is_zero(self) -> bool
        ensures is { result ≡ is_nil self.num }
    {
        self.num == 0
    }
}

// Whether each entry is below 2^31 in size: then no product of two leaves the range, nor does a sum of two products.
#[inline(always)]
fn narrow(a: Ratio, b: Ratio) -> bool
    ensures { result ≡ eqb (nat_abs a.num / 2147483648 + nat_abs a.den / 2147483648 + nat_abs b.num / 2147483648 + nat_abs b.den / 2147483648) 0 }
{
    let high = |x: i64| x.unsigned_abs() / 2147483648;
    high(a.num) + high(a.den) + high(b.num) + high(b.den) == 0
}

// Entries of any size: every intermediate is tested.
#[inline(always)]
#[tactic(auto, using(crate::proofs::Auto::steps), unfolding(crate::specs::Step::add_of))]
fn add_any(a: Ratio, b: Ratio) -> Result<Ratio, Reason>
    ensures { result ≡ add_of a b }
{
    if !is_fraction(a) || !is_fraction(b) {
        return Err(Reason::BadInput);
    }
    let left = product(a.num, b.den)?;
    let right = product(b.num, a.den)?;
    let n = sum(left, right)?;
    let d = product(a.den, b.den)?;
    Ok(reduce(n, d))
}

#[inline(always)]
fn add(a: Ratio, b: Ratio) -> Result<Ratio, Reason>
    ensures { result ≡ add_of a b }
{
    if narrow(a, b) {
        let d = a.den * b.den;
        if d != 0 {
            return Ok(reduce(a.num * b.den + b.num * a.den, d));
        }
    }
    add_any(a, b)
}

#[inline(always)]
#[tactic(auto, using(crate::proofs::Auto::steps), unfolding(crate::specs::Step::mul_of))]
fn mul_any(a: Ratio, b: Ratio) -> Result<Ratio, Reason>
    ensures { result ≡ mul_of a b }
{
    if !is_fraction(a) || !is_fraction(b) {
        return Err(Reason::BadInput);
    }
    let n = product(a.num, b.num)?;
    let d = product(a.den, b.den)?;
    Ok(reduce(n, d))
}

#[inline(always)]
fn mul(a: Ratio, b: Ratio) -> Result<Ratio, Reason>
    ensures { result ≡ mul_of a b }
{
    if narrow(a, b) {
        let d = a.den * b.den;
        if d != 0 {
            return Ok(reduce(a.num * b.num, d));
        }
    }
    mul_any(a, b)
}

pub fn checked_add(a: Ratio, b: Ratio) -> Result<Ratio, Reason>
    ensures is { result ≡ add_of a b }
    ensures promise { Answers (AddFits a b) (add_q (rat a) (rat b)) result }
{
    add(a, b)
}

// The range is the same on both sides of zero, so a - b is a + (-b), refusals included.
#[tactic(auto, unfolding(crate::specs::Step::sub_of))]
pub fn checked_sub(a: Ratio, b: Ratio) -> Result<Ratio, Reason>
    ensures is { result ≡ sub_of a b }
    ensures promise { Answers (SubFits a b) (sub_q (rat a) (rat b)) result }
{
    let Some(num) = b.num.checked_neg() else {
        return Err(Reason::BadInput);
    };
    add(a, Ratio { num, den: b.den })
}

pub fn checked_mul(a: Ratio, b: Ratio) -> Result<Ratio, Reason>
    ensures is { result ≡ mul_of a b }
    ensures promise { Answers (MulFits a b) (mul_q (rat a) (rat b)) result }
{
    mul(a, b)
}

#[tactic(auto, unfolding(crate::specs::Step::neg_of))]
pub fn checked_neg(a: Ratio) -> Result<Ratio, Reason>
    ensures is { result ≡ neg_of a }
    ensures promise { Answers (Fraction a) (neg_q (rat a)) result }
{
    if is_fraction(a) {
        Ok(reduce(-a.num, a.den))
    } else {
        Err(Reason::BadInput)
    }
}

// 1 / a; zero has no inverse (3).
#[tactic(auto, unfolding(crate::specs::Step::inv_of))]
pub fn inverse(a: Ratio) -> Result<Ratio, Reason>
    ensures is { result ≡ inv_of a }
    ensures promise { Answers (InvFits a) (over a.den a.num) result }
{
    if !is_fraction(a) {
        Err(Reason::BadInput)
    } else if a.is_zero() {
        Err(Reason::DivByZero)
    } else {
        Ok(reduce(a.den, a.num))
    }
}

// ---- comparison

fn wide_product(x: i64, y: u64) -> i128
    ensures { result ≡ x *ℤ pos y }
{
    i128::from(x) * i128::from(y)
}

// The numerator, with the sign of the fraction, times the other's denominator, without a sign.
fn cross(a: Ratio, b: Ratio) -> i128
    requires { Within a.num × Within a.den }
    ensures { result ≡ facing a.num a.den *ℤ pos (nat_abs b.den) }
{
    wide_product(faced(a.num, a.den).num, magnitude(b.den))
}

#[tactic(auto, unfolding(crate::specs::Step::cmp_of))]
fn order(a: Ratio, b: Ratio) -> Result<Ordering, Reason>
    ensures { result ≡ cmp_of a b }
{
    if !is_fraction(a) || !is_fraction(b) {
        return Err(Reason::BadInput);
    }
    let x = cross(a, b);
    let y = cross(b, a);
    Ok(x.cmp(&y))
}

// The exact order of two fractions, by cross products of any size.
pub fn compare(a: Ratio, b: Ratio) -> Result<Ordering, Reason>
    ensures is { result ≡ cmp_of a b }
    ensures promise { Orders a b result }
{
    order(a, b)
}
