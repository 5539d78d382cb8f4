// The library `calls_real` for programs in other languages, as oracle/src/ours.rs declares these. Each is the function of its name in `calls_real`.
#![tactic(auto)]

ghost use Rattle.std.specs.Prelude.{◌≡◌};
ghost use Rattle.ratio.specs.Refusal.{status_of};
ghost use Rattle.bridge.specs.Value.{to_float};
ghost use Rattle.bridge.specs.Search.{to_ratio};
ghost use Rattle.lower.specs.Run.{lower_of};
ghost use Rattle.calls.specs.Call.{nums_of, dens_of, number_told, lent_after, lent_step};
ghost use Rattle.calls_real.specs.Real.{lent_float, counted_of, isolated_of, written_of, page_of};

// The float of n / d. Handed back: the status.
#[unsafe(no_mangle)]
pub extern "C" fn kanrosuye_to_float(n: i64, d: i64, out: &mut [f64; 1]) -> u64
    ensures is { result ≡ status_of (to_float (record { num = n; den = d })) }
    ensures lent { out.new ≡ lent_float out.old (to_float (record { num = n; den = d })) }
{
    calls_real::kanrosuye_to_float(n, d, out)
}

// The fraction of a float, as its numerator and its denominator. Handed back: the status.
#[unsafe(no_mangle)]
pub extern "C" fn kanrosuye_to_ratio(v: f64, out: &mut [i64; 2]) -> u64
    ensures is { result ≡ status_of (to_ratio v) }
    ensures lent { out.new ≡ lent_step out.old (to_ratio v) }
{
    calls_real::kanrosuye_to_ratio(v, out)
}

// How many distinct real roots lie between the ends.
#[unsafe(no_mangle)]
pub extern "C" fn kanrosuye_count(an: &[i64], ad: &[i64], lo: f64, hi: f64) -> u64
    ensures is { result ≡ number_told (counted_of an.now ad.now lo hi).outcome (counted_of an.now ad.now lo hi).count }
{
    calls_real::kanrosuye_count(an, ad, lo, hi)
}

// The real roots from lo to hi, rising, with zeros behind them.
#[unsafe(no_mangle)]
pub extern "C" fn kanrosuye_isolate(
    an: &[i64],
    ad: &[i64],
    lo: f64,
    hi: f64,
    tol: f64,
    out: &mut [f64; 64],
) -> u64
    ensures is { result ≡ number_told (isolated_of an.now ad.now lo hi tol).outcome (isolated_of an.now ad.now lo hi tol).len }
    ensures lent { out.new ≡ lent_after (isolated_of an.now ad.now lo hi tol).outcome out.old (isolated_of an.now ad.now lo hi tol).roots }
{
    calls_real::kanrosuye_isolate(an, ad, lo, hi, tol, out)
}

// The polynomial in the wanted variable that an expression is.
#[unsafe(no_mangle)]
pub extern "C" fn kanrosuye_lower(
    text: &[u8],
    wrt: u64,
    nums: &mut [i64; 32],
    dens: &mut [i64; 32],
) -> u64
    ensures is { result ≡ number_told (lower_of wrt text.now).outcome (lower_of wrt text.now).steps }
    ensures lent_nums { nums.new ≡ lent_after (lower_of wrt text.now).outcome nums.old (nums_of (lower_of wrt text.now).poly) }
    ensures lent_dens { dens.new ≡ lent_after (lower_of wrt text.now).outcome dens.old (dens_of (lower_of wrt text.now).poly) }
{
    calls_real::kanrosuye_lower(text, wrt, nums, dens)
}

// The polynomial as an expression in a variable, in front of the page. Handed back: 16 times its length, plus the status.
#[unsafe(no_mangle)]
pub extern "C" fn kanrosuye_to_lowered(an: &[i64], ad: &[i64], wrt: u64, out: &mut [u8]) -> u64
    ensures is { result ≡ number_told (written_of an.now ad.now wrt out.old).outcome (written_of an.now ad.now wrt out.old).len }
    ensures page { out.new ≡ page_of an.now ad.now wrt out.old }
{
    calls_real::kanrosuye_to_lowered(an, ad, wrt, out)
}
