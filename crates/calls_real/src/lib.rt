// Floats, real roots and expressions for programs in other languages. A polynomial comes as a list of numerators and one of denominators.
// An answer is written to lent memory; a refusal writes nothing. Where an answer has a length, 16 times it and the status are handed back.
#![tactic(auto)]

ghost use Rattle.std.specs.Prelude.{◌≡◌, leb};
ghost use Rattle.ratio.specs.Refusal.{status_of};
ghost use Rattle.poly.specs.Door.{open_if};
ghost use Rattle.bridge.specs.Value.{to_float};
ghost use Rattle.bridge.specs.Search.{to_ratio};
ghost use Rattle.lower.specs.Run.{lower_of};
ghost use Rattle.calls.specs.Call.{nums_of, dens_of, number_told, lent_after, lent_step};
ghost use Rattle.calls_real.specs.Real.{lent_float, counted_of, isolated_of, written_of, page_of};

use isolate::Isolation;
use poly::Gate;
use ratio::Ratio;
use sturm::Count;

// ---- floats

// The float of n / d. Handed back: the status.
pub fn kanrosuye_to_float(n: i64, d: i64, out: &mut [f64; 1]) -> u64
    ensures is { result ≡ status_of (to_float (record { num = n; den = d })) }
    ensures lent { out.new ≡ lent_float out.old (to_float (record { num = n; den = d })) }
{
    let x = bridge::ratio_to_f64(Ratio { num: n, den: d });
    match x {
        Ok(v) => {
            *out = [v];
            0
        }
        Err(why) => ratio::number(why),
    }
}

// The fraction of a float, as its numerator and its denominator. Handed back: the status.
pub fn kanrosuye_to_ratio(v: f64, out: &mut [i64; 2]) -> u64
    ensures is { result ≡ status_of (to_ratio v) }
    ensures lent { out.new ≡ lent_step out.old (to_ratio v) }
{
    let s = bridge::f64_to_ratio(v);
    match s {
        Ok(x) => {
            *out = [x.num, x.den];
            0
        }
        Err(why) => ratio::number(why),
    }
}

// ---- real roots

fn counted(an: &[i64], ad: &[i64], lo: f64, hi: f64) -> Count
    ensures { result ≡ counted_of an.now ad.now lo hi }
{
    let a = poly::from_parts(an, ad);
    let o = a.outcome;
    let d = poly::both(calls::gate(o), sturm::ends(lo, hi));
    if let Gate::Open = d {
        sturm::count_real_roots(a.poly, lo, hi)
    } else {
        Count {
            outcome: Err(poly::reason(d)),
            count: 0,
        }
    }
}

// How many distinct real roots lie between the ends.
pub fn kanrosuye_count(an: &[i64], ad: &[i64], lo: f64, hi: f64) -> u64
    ensures is { result ≡ number_told (counted_of an.now ad.now lo hi).outcome (counted_of an.now ad.now lo hi).count }
{
    let c = counted(an, ad, lo, hi);
    let o = c.outcome;
    calls::number(o, c.count as u64)
}

fn isolated(an: &[i64], ad: &[i64], lo: f64, hi: f64, tol: f64) -> Isolation
    ensures { result ≡ isolated_of an.now ad.now lo hi tol }
{
    let a = poly::from_parts(an, ad);
    let o = a.outcome;
    let d = poly::both(calls::gate(o), isolate::limits(lo, hi, tol));
    if let Gate::Open = d {
        isolate::isolate_real_roots(a.poly, lo, hi, tol)
    } else {
        Isolation {
            outcome: Err(poly::reason(d)),
            roots: [0.0; 64],
            len: 0,
        }
    }
}

// The real roots from lo to hi, rising, with zeros behind them.
pub fn kanrosuye_isolate(
    an: &[i64],
    ad: &[i64],
    lo: f64,
    hi: f64,
    tol: f64,
    out: &mut [f64; 64],
) -> u64
    ensures is { result ≡ number_told (isolated_of an.now ad.now lo hi tol).outcome (isolated_of an.now ad.now lo hi tol).len }
    ensures lent { out.new ≡ lent_after (isolated_of an.now ad.now lo hi tol).outcome out.old (isolated_of an.now ad.now lo hi tol).roots }
{
    let r = isolated(an, ad, lo, hi, tol);
    let o = r.outcome;
    let n = r.len as u64;
    match o {
        Ok(()) => {
            let roots = r.roots;
            *out = roots;
            calls::number(o, n)
        }
        Err(why) => calls::number(Err(why), n),
    }
}

// ---- expressions

// The polynomial in the wanted variable that an expression is.
pub fn kanrosuye_lower(text: &[u8], wrt: u64, nums: &mut [i64; 32], dens: &mut [i64; 32]) -> u64
    ensures is { result ≡ number_told (lower_of wrt text.now).outcome (lower_of wrt text.now).steps }
    ensures lent_nums { nums.new ≡ lent_after (lower_of wrt text.now).outcome nums.old (nums_of (lower_of wrt text.now).poly) }
    ensures lent_dens { dens.new ≡ lent_after (lower_of wrt text.now).outcome dens.old (dens_of (lower_of wrt text.now).poly) }
{
    let a = lower::from_lowered(text, wrt);
    let o = a.outcome;
    match o {
        Ok(()) => {
            *nums = calls::nums(a.poly);
            *dens = calls::dens(a.poly);
            calls::number(o, a.steps)
        }
        Err(why) => calls::number(Err(why), a.steps),
    }
}

// Variables are 0 to 255.
fn index(wrt: u64) -> Gate
    ensures { result ≡ open_if (leb wrt 255) }
{
    if wrt <= 255 { Gate::Open } else { Gate::Bad }
}

// The polynomial as an expression in a variable, in front of the page. Handed back: 16 times its length, plus the status.
pub fn kanrosuye_to_lowered(an: &[i64], ad: &[i64], wrt: u64, out: &mut [u8]) -> u64
    ensures is { result ≡ number_told (written_of an.now ad.now wrt out.old).outcome (written_of an.now ad.now wrt out.old).len }
    ensures page { out.new ≡ page_of an.now ad.now wrt out.old }
{
    let a = poly::from_parts(an, ad);
    let o = a.outcome;
    let d = poly::both(calls::gate(o), index(wrt));
    if let Gate::Open = d {
        let w = horner::to_lowered(a.poly, wrt, out);
        let ow = w.outcome;
        calls::number(ow, w.len as u64)
    } else {
        calls::number(Err(poly::reason(d)), 0)
    }
}
