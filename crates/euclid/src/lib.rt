// Division, gcd, square-free part, resultant and discriminant at the door (document 01, module 4; the original's univariate.rs):
// each tests its inputs once and hands the work to the crate `remainders`. The number of rational steps stands in every answer.
#![tactic(auto)]

ghost use Rattle.std.specs.Prelude.{◌≡◌, ◌≤◌};
ghost use Rattle.remainders.specs.Price.{division_price, ordered_price, resultant_price};
ghost use Rattle.euclid.specs.Answer.{div_rem_of, gcd_for, square_free_for, no_whole, whole_from, resultant_for, discriminant_for};
ghost use Rattle.euclid.specs.Quote.{division_quote, gcd_quote, square_free_quote, resultant_quote, discriminant_quote};
ghost use Rattle.euclid.specs.Promise.{DivisionPromise, GcdPromise, SquareFreePromise, ResultantPromise, DiscriminantPromise, Quotes, QuotesOne};

use poly::Gate;
use ratio::Reason;
use remainders::{Division, Number};
use terms::{Answer, Poly};

// A whole number that was worked out.
#[derive(Clone, Copy)]
pub struct Whole {
    pub outcome: Result<(), Reason>,
    pub value: i64,
    pub steps: u64,
}

// The quotient and the rest of a by b.
pub fn div_rem(a: Poly, b: Poly) -> Division
    ensures is { result ≡ div_rem_of a b }
    ensures promise { DivisionPromise a b result }
{
    let d = poly::both(poly::door(a), poly::door(b));
    if let Gate::Open = d {
        remainders::divide(a, b)
    } else {
        remainders::no_division(poly::reason(d), 0)
    }
}

// The monic greatest common divisor; of two zeros it is zero.
pub fn gcd(a: Poly, b: Poly) -> Answer
    ensures is { result ≡ gcd_for a b }
    ensures promise { GcdPromise a b result }
{
    let d = poly::both(poly::door(a), poly::door(b));
    if let Gate::Open = d {
        remainders::greatest(a, b)
    } else {
        terms::refused(poly::reason(d), 0)
    }
}

// The square-free part: the same roots, none of them twice.
pub fn square_free(f: Poly) -> Answer
    ensures is { result ≡ square_free_for f }
    ensures promise { SquareFreePromise f result }
{
    let d = poly::door(f);
    if let Gate::Open = d {
        remainders::free_part(f)
    } else {
        terms::refused(poly::reason(d), 0)
    }
}

fn no_whole(why: Reason, steps: u64) -> Whole
    ensures { result ≡ no_whole why steps }
{
    Whole {
        outcome: Err(why),
        value: 0,
        steps,
    }
}

// A fraction that is no whole number is refused with 2.
fn as_whole(n: Number) -> Whole
    ensures { result ≡ whole_from n }
{
    let o = n.outcome;
    let v = n.value;
    match o {
        Err(why) => no_whole(why, n.steps),
        Ok(()) => {
            if ratio::magnitude(v.den) == 1 {
                Whole {
                    outcome: Ok(()),
                    value: v.num,
                    steps: n.steps,
                }
            } else {
                no_whole(Reason::CoeffOverflow, n.steps)
            }
        }
    }
}

// The resultant; 0 where an input is zero.
pub fn resultant(a: Poly, b: Poly) -> Whole
    ensures is { result ≡ resultant_for a b }
    ensures promise { ResultantPromise a b result }
{
    let d = poly::both(poly::door(a), poly::door(b));
    if let Gate::Open = d {
        as_whole(remainders::resultant_ratio(a, b))
    } else {
        no_whole(poly::reason(d), 0)
    }
}

// The discriminant: of zero 0, of a nonzero constant 1.
pub fn discriminant(f: Poly) -> Whole
    ensures is { result ≡ discriminant_for f }
    ensures promise { DiscriminantPromise f result }
{
    let d = poly::door(f);
    if let Gate::Open = d {
        as_whole(remainders::discriminant_ratio(f))
    } else {
        no_whole(poly::reason(d), 0)
    }
}

// ---- prices, from the degrees alone

#[tactic(auto, using(crate::proofs::Auto::division))]
fn division_steps(n: u64, m: u64) -> u64
    requires { (n ≤ 31) × (m ≤ 31) }
    ensures { result ≡ division_price n m }
{
    if n < m { 0 } else { (n - m + 1) * (2 * m + 3) }
}

#[tactic(auto, using(crate::proofs::Auto::ordered))]
fn ordered_steps(n: u64, m: u64) -> u64
    requires { (n ≤ 31) × (m ≤ 31) × (1 ≤ n) }
    ensures { result ≡ ordered_price n m }
{
    2 * n * m + 4 * n + 6 * m - 3
}

#[tactic(auto, using(crate::proofs::Auto::resultant))]
fn resultant_steps(n: u64, m: u64) -> u64
    requires { (n ≤ 31) × (m ≤ 31) }
    ensures { result ≡ resultant_price n m }
{
    if n == 0 {
        m
    } else if m == 0 {
        n
    } else if n < m {
        ordered_steps(m, n) + 1
    } else {
        ordered_steps(n, m)
    }
}

// What a division of degree n by degree m takes: exactly this when answered.
#[tactic(auto, using(crate::proofs::Auto::division_quoted))]
pub fn division_price(n: u64, m: u64) -> Result<u64, Reason>
    ensures is { result ≡ division_quote n m }
    ensures promise { Quotes n m (λ a b. (div_rem_of a b).steps) result }
{
    if n > 31 || m > 31 {
        Err(Reason::TooLong)
    } else {
        Ok(division_steps(n, m))
    }
}

// The most that a gcd of degrees n and m takes.
#[tactic(auto, using(crate::proofs::Auto::gcd_quoted))]
pub fn gcd_price(n: u64, m: u64) -> Result<u64, Reason>
    ensures is { result ≡ gcd_quote n m }
    ensures promise { Quotes n m (λ a b. (gcd_for a b).steps) result }
{
    if n > 31 || m > 31 {
        Err(Reason::TooLong)
    } else {
        Ok(2 * n * m + 3 * n + 3 * m + 4)
    }
}

// The most that a square-free part of degree n takes.
#[tactic(auto, using(crate::proofs::Auto::square_free_quoted))]
pub fn square_free_price(n: u64) -> Result<u64, Reason>
    ensures is { result ≡ square_free_quote n }
    ensures promise { QuotesOne n (λ f. (square_free_for f).steps) result }
{
    if n > 31 {
        Err(Reason::TooLong)
    } else {
        Ok(3 * n * n + 9 * n + 4)
    }
}

// The most that a resultant of degrees n and m takes.
#[tactic(auto, using(crate::proofs::Auto::resultant_quoted))]
pub fn resultant_price(n: u64, m: u64) -> Result<u64, Reason>
    ensures is { result ≡ resultant_quote n m }
    ensures promise { Quotes n m (λ a b. (resultant_for a b).steps) result }
{
    if n > 31 || m > 31 {
        Err(Reason::TooLong)
    } else {
        Ok(resultant_steps(n, m))
    }
}

// The most that a discriminant of degree n takes.
#[tactic(auto, using(crate::proofs::Auto::discriminant_quoted))]
pub fn discriminant_price(n: u64) -> Result<u64, Reason>
    ensures is { result ≡ discriminant_quote n }
    ensures promise { QuotesOne n (λ f. (discriminant_for f).steps) result }
{
    if n > 31 {
        Err(Reason::TooLong)
    } else if n == 0 {
        Ok(0)
    } else {
        Ok(n + resultant_steps(n, n - 1) + 2)
    }
}
