// The library `calls` for programs in other languages, as oracle/src/ours.rs declares these. Each is the function of its name in `calls`.
#![tactic(auto)]

ghost use Rattle.std.specs.Prelude.{◌≡◌};
ghost use Rattle.calls.specs.Call.{called_of, nums_of, dens_of, number_told, lent_after, step_for, lent_step};
ghost use Rattle.ratio.specs.Refusal.{status_of};

#[unsafe(no_mangle)]
pub extern "C" fn kanrosuye_call(
    op: u64,
    an: &[i64],
    ad: &[i64],
    bn: &[i64],
    bd: &[i64],
    n: usize,
    qn: &mut [i64; 32],
    qd: &mut [i64; 32],
    rn: &mut [i64; 32],
    rd: &mut [i64; 32],
) -> u64
    ensures is { result ≡ number_told (called_of op an.now ad.now bn.now bd.now n).outcome (called_of op an.now ad.now bn.now bd.now n).steps }
    ensures first_nums { qn.new ≡ lent_after (called_of op an.now ad.now bn.now bd.now n).outcome qn.old (nums_of (called_of op an.now ad.now bn.now bd.now n).quotient) }
    ensures first_dens { qd.new ≡ lent_after (called_of op an.now ad.now bn.now bd.now n).outcome qd.old (dens_of (called_of op an.now ad.now bn.now bd.now n).quotient) }
    ensures second_nums { rn.new ≡ lent_after (called_of op an.now ad.now bn.now bd.now n).outcome rn.old (nums_of (called_of op an.now ad.now bn.now bd.now n).rest) }
    ensures second_dens { rd.new ≡ lent_after (called_of op an.now ad.now bn.now bd.now n).outcome rd.old (dens_of (called_of op an.now ad.now bn.now bd.now n).rest) }
{
    calls::kanrosuye_call(op, an, ad, bn, bd, n, qn, qd, rn, rd)
}

// One rational step on an / ad and bn / bd; the fraction is written as its numerator and its denominator. Handed back: the status.
#[unsafe(no_mangle)]
pub extern "C" fn kanrosuye_step(
    op: u64,
    an: i64,
    ad: i64,
    bn: i64,
    bd: i64,
    out: &mut [i64; 2],
) -> u64
    ensures is { result ≡ status_of (step_for op (record { num = an; den = ad }) (record { num = bn; den = bd })) }
    ensures lent { out.new ≡ lent_step out.old (step_for op (record { num = an; den = ad }) (record { num = bn; den = bd })) }
{
    calls::kanrosuye_step(op, an, ad, bn, bd, out)
}
