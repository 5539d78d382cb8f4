// Stored answers of floats, real roots and expressions. A float is its bits, as two numbers below 2^32; a refusal leaves the 7s that were lent.
ghost use Rattle.std.specs.Prelude.{◌≤◌};

use crate::{Replayed, entries, holds, natural, whole};

#[derive(Clone, Copy)]
struct Number {
    value: f64,
    at: usize,
}

fn real(data: &[u8; 131072], from: usize) -> Number {
    let high = natural(data, from);
    let low = natural(data, high.at);
    let bits = high.value % 4294967296 * 4294967296 + low.value % 4294967296;
    Number {
        value: tokens::float(bits),
        at: low.at,
    }
}

// Equal bits; no answer is a NaN, and zeros are told apart by what they divide to.
fn same(x: f64, y: f64) -> bool {
    if x != y {
        false
    } else if x == 0.0 {
        1.0 / x == 1.0 / y
    } else {
        true
    }
}

// 32: numerator, denominator, status, the float.
fn to_float(data: &[u8; 131072], from: usize) -> Replayed {
    let n = whole(data, from);
    let d = whole(data, n.at);
    let status = natural(data, d.at);
    let want = real(data, status.at);
    let mut out = [7.0f64; 1];
    let got = calls_real::kanrosuye_to_float(n.value, d.value, &mut out);
    let mut fine = same(out[0], want.value);
    if got != status.value {
        fine = false;
    }
    Replayed {
        same: fine,
        at: want.at,
    }
}

// 33: the float, status, numerator, denominator.
fn to_ratio(data: &[u8; 131072], from: usize) -> Replayed {
    let v = real(data, from);
    let status = natural(data, v.at);
    let n = whole(data, status.at);
    let d = whole(data, n.at);
    let mut out = [7i64; 2];
    let got = calls_real::kanrosuye_to_ratio(v.value, &mut out);
    let mut fine = got == status.value;
    if out[0] != n.value {
        fine = false;
    }
    if out[1] != d.value {
        fine = false;
    }
    Replayed {
        same: fine,
        at: d.at,
    }
}

// 34: the two lists of a, the ends, the number handed back.
fn count(data: &[u8; 131072], from: usize) -> Replayed {
    let an = entries(data, from);
    let ad = entries(data, an.at);
    let lo = real(data, ad.at);
    let hi = real(data, lo.at);
    let number = natural(data, hi.at);
    let xn = an.items;
    let xd = ad.items;
    let a = an.len;
    let b = ad.len;
    let got = calls_real::kanrosuye_count(&xn[..a], &xd[..b], lo.value, hi.value);
    Replayed {
        same: got == number.value,
        at: number.at,
    }
}

// So many floats and `pad` behind them.
fn roots(data: &[u8; 131072], from: usize, out: &[f64; 64], many: u64, pad: f64) -> Replayed {
    let mut at = from;
    let mut fine = true;
    let mut i: usize = 0;
    while i < 64 {
        let x = out[i];
        if (i as u64) < many {
            let want = real(data, at);
            at = want.at;
            if !same(x, want.value) {
                fine = false;
            }
        } else {
            if !same(x, pad) {
                fine = false;
            }
        }
        i += 1;
    }
    Replayed { same: fine, at }
}

// 35: the two lists of a, the ends, the tolerance, the number handed back, the roots.
fn isolate(data: &[u8; 131072], from: usize) -> Replayed {
    let an = entries(data, from);
    let ad = entries(data, an.at);
    let lo = real(data, ad.at);
    let hi = real(data, lo.at);
    let tol = real(data, hi.at);
    let number = natural(data, tol.at);
    let xn = an.items;
    let xd = ad.items;
    let a = an.len;
    let b = ad.len;
    let mut out = [7.0f64; 64];
    let got = calls_real::kanrosuye_isolate(
        &xn[..a],
        &xd[..b],
        lo.value,
        hi.value,
        tol.value,
        &mut out,
    );
    let pad = if number.value % 16 == 0 { 0.0 } else { 7.0 };
    let r = roots(data, number.at, &out, number.value / 16, pad);
    let mut fine = r.same;
    if got != number.value {
        fine = false;
    }
    Replayed {
        same: fine,
        at: r.at,
    }
}

// 36: the variable, the text's length and the text, status, the two lists of the answer.
fn lower(data: &[u8; 131072], from: usize) -> Replayed {
    let wrt = natural(data, from);
    let len = natural(data, wrt.at);
    let at = len.at;
    let end = at + (len.value % 4096) as usize;
    if end >= 131072 {
        return Replayed {
            same: false,
            at: 131072,
        };
    }
    let mut nums = [7i64; 32];
    let mut dens = [7i64; 32];
    let all = &data[..];
    let got = calls_real::kanrosuye_lower(&all[at..end], wrt.value, &mut nums, &mut dens);
    let status = natural(data, end + 1);
    let wn = entries(data, status.at);
    let wd = entries(data, wn.at);
    let done = status.value == 0;
    let zero = if done { 0i64 } else { 7 };
    let one = if done { 1i64 } else { 7 };
    let mut fine = got == status.value;
    if !holds(&nums, wn, zero) {
        fine = false;
    }
    if !holds(&dens, wd, one) {
        fine = false;
    }
    Replayed {
        same: fine,
        at: wd.at,
    }
}

// The text in front of the page, the 7s behind it, and the byte that parts it from the next.
fn page(data: &[u8; 131072], from: usize, out: &[u8; 1024], many: usize) -> Replayed
    requires { many ≤ 1024 }
{
    let mut fine = true;
    let mut i: usize = 0;
    if from >= 130000 {
        return Replayed {
            same: false,
            at: 131072,
        };
    }
    while i < 1024 {
        let x = out[i];
        if i < many {
            if x != data[from + i] {
                fine = false;
            }
        } else {
            if x != 7 {
                fine = false;
            }
        }
        i += 1;
    }
    Replayed {
        same: fine,
        at: from + many + 1,
    }
}

// 37: the two lists of a, the variable, the page's length, the number handed back, the text.
fn to_lowered(data: &[u8; 131072], from: usize) -> Replayed {
    let an = entries(data, from);
    let ad = entries(data, an.at);
    let wrt = natural(data, ad.at);
    let room = natural(data, wrt.at);
    let number = natural(data, room.at);
    let xn = an.items;
    let xd = ad.items;
    let a = an.len;
    let b = ad.len;
    let n = (room.value % 1024) as usize;
    let mut out = [7u8; 1024];
    let got = calls_real::kanrosuye_to_lowered(&xn[..a], &xd[..b], wrt.value, &mut out[..n]);
    let r = page(data, number.at, &out, (number.value / 16 % 1024) as usize);
    let mut fine = r.same;
    if got != number.value {
        fine = false;
    }
    Replayed {
        same: fine,
        at: r.at,
    }
}

// A line behind its operation.
pub(crate) fn line(op: u64, data: &[u8; 131072], from: usize) -> Replayed {
    if op == 32 {
        to_float(data, from)
    } else if op == 33 {
        to_ratio(data, from)
    } else if op == 34 {
        count(data, from)
    } else if op == 35 {
        isolate(data, from)
    } else if op == 36 {
        lower(data, from)
    } else if op == 37 {
        to_lowered(data, from)
    } else {
        Replayed {
            same: false,
            at: 131072,
        }
    }
}
