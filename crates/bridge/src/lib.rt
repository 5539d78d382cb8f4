// Fractions to floats and back (document 01, module 2; the original's src/poly/mod.rs).
#![tactic(auto)]

ghost use Rattle.std.specs.Prelude.{◌≡◌, ◌≤◌, false, T, pos};
ghost use Rattle.std.specs.Float.Ieee as Ieee;
ghost use Rattle.std.specs.Float.{fin, binary64};
ghost use Rattle.std.specs.Float.Ieee.Scale.{finite};
ghost use Rattle.ratio.specs.Range.{limit};
ghost use Rattle.bridge.specs.Value.{value_of, to_float};
ghost use Rattle.bridge.specs.Round.{size_of, round_of};
ghost use Rattle.bridge.specs.Search.{small, over, to_ratio};
ghost use Rattle.bridge.specs.Promise.{Floats, Finds};

use ratio::{Ratio, Reason};

// ---- whole numbers to floats

// The float of n. Each half of n is a float exactly, and so is the upper one times 2^32: only the sum rounds.
fn nearest_u64(n: u64) -> f64
    ensures { result ≡ Ieee.of_int binary64 (pos n) }
{
    ((n >> 32) as f64) * 4294967296.0 + ((n & 0xffff_ffff) as f64)
}

// The float of the size, with the sign.
#[tactic(auto, using(crate::proofs::Auto::signs))]
fn nearest_signed(n: i64) -> f64
    ensures { result ≡ Ieee.of_int binary64 n }
{
    let size = nearest_u64(ratio::magnitude(n));
    if n < 0 { -size } else { size }
}

// `n as f64`. Up to 2^53 either way nothing is rounded, so that one conversion does.
fn nearest_i64(n: i64) -> f64
    ensures { result ≡ Ieee.of_int binary64 n }
{
    if n <= 9007199254740992 && n >= -9007199254740992 {
        return n as f64;
    }
    nearest_signed(n)
}

// ---- fractions to floats

// The quotient of any two entries, without a test.
#[tactic(auto, unfolding(crate::specs::Value::value_of))]
pub fn plain_to_f64(r: Ratio) -> f64
    ensures is { result ≡ value_of r }
{
    nearest_i64(r.num) / nearest_i64(r.den)
}

// The float of a fraction.
#[tactic(auto, using(crate::proofs::Auto::floats), unfolding(crate::specs::Value::to_float))]
pub fn ratio_to_f64(r: Ratio) -> Result<f64, Reason>
    ensures is { result ≡ to_float r }
    ensures promise { Floats r result }
{
    if ratio::is_fraction(r) {
        Ok(plain_to_f64(r))
    } else {
        Err(Reason::BadInput)
    }
}

// ---- floats to whole numbers

// Twice a is exact, so that the half is the last digit of its whole part. Below 2^63 no float rounds up to 2^63.
fn round_size(a: f64) -> u64
    requires above_zero { T (Ieee.lt (Ieee.of_bits binary64 0) a) }
    requires below_most { T (Ieee.lt a (fin false 1 (pos 63))) }
    ensures { (result ≡ size_of a) × (result ≤ limit) }
{
    let twice = std::num::truncating_f64_to_u64(a + a);
    twice / 2 + twice % 2
}

// `v.round() as i64`: a half away from zero, saturated, 0 at a NaN.
#[tactic(auto, using(crate::proofs::Auto::rounds))]
fn round(v: f64) -> i64
    ensures { result ≡ round_of v }
{
    if v >= 9223372036854775808.0 {
        return i64::MAX;
    }
    if v <= -9223372036854775808.0 {
        return i64::MIN;
    }
    if v > 0.0 {
        return round_size(v) as i64;
    }
    if v < 0.0 {
        return -(round_size(-v) as i64);
    }
    0
}

// ---- floats to fractions

#[tactic(auto, using(crate::proofs::Auto::finites))]
pub fn is_finite(v: f64) -> bool
    ensures is { result ≡ finite v }
{
    v.is_finite()
}

// `x.abs() < 1e-9`, by two tests: it is asked up to 1000 times a float, and by `abs` that took half as long again.
fn is_small(x: f64) -> bool
    ensures { result ≡ small x }
{
    x < 1e-9 && x > -1e-9
}

// Whether x is close to the whole number that it rounds to. Below 2^52 the sum with 2^52 leaves no digit to a fraction, so that
// it rounds to a whole number: to an even one at a half, which is close to none.
#[tactic(auto, using(crate::proofs::Auto::snaps))]
fn is_near(x: f64) -> bool
    ensures { result ≡ small (Ieee.sub binary64 x (Ieee.of_int binary64 (round_of x))) }
{
    if x > 0.0 {
        if x < 4503599627370496.0 {
            return is_small(x - ((x + 4503599627370496.0) - 4503599627370496.0));
        }
    } else if x < 0.0 {
        if x > -4503599627370496.0 {
            return is_small(x - ((x - 4503599627370496.0) + 4503599627370496.0));
        }
    }
    is_small(x - nearest_i64(round(x)))
}

// `Ratio::new`, with -2^63 kept out.
#[tactic(auto, using(crate::proofs::Auto::overs), unfolding(crate::specs::Search::over))]
fn fraction(numer: i64, denom: u64) -> Result<Ratio, Reason>
    requires { denom ≤ 1000 }
    ensures { result ≡ over numer denom }
{
    if numer == -9223372036854775808 {
        return Err(Reason::CoeffOverflow);
    }
    Ratio::new(numer, denom as i64)
}

// The first denominator up to 1000 that comes close enough. It is counted as a float too: that saves a conversion a round,
// and keeps the compiler from working sixteen rounds at once, where most floats need one or a few.
pub fn f64_to_ratio(v: f64) -> Result<Ratio, Reason>
    ensures is { result ≡ to_ratio v }
    ensures promise { Finds v result }
{
    if !is_finite(v) {
        return Err(Reason::NotPolynomial);
    }
    let mut denom = 1;
    let mut denom_f = 1.0;
    while denom <= 1000 {
        let numer_f = v * denom_f;
        if is_near(numer_f) {
            return fraction(round(numer_f), denom);
        }
        denom += 1;
        denom_f += 1.0;
    }
    Err(Reason::NotPolynomial)
}
