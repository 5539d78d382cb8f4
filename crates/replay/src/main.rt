// Stored answers of the original, replayed: each line of standard input is a call of `calls` or `calls_real` and what must come of it.
// `oracle/answers` writes the lines, from the seed that stands there. A line has, parted by one space each: the operation, n,
// the four lists of a and b, the status, the steps, the four lists of the answer. A list is its length, then its entries.
// From operation 32 on real.rt says what a line has.
#![tactic(auto)]

use std::io;

mod real;

ghost use Rattle.std.specs.Prelude.{◌≡◌, ◌≤◌, length};

// A number that was read, and the place behind it.
#[derive(Clone, Copy)]
struct Size {
    value: u64,
    at: usize,
}

#[derive(Clone, Copy)]
struct Signed {
    value: i64,
    at: usize,
}

#[derive(Clone, Copy)]
struct Items {
    items: [i64; 40],
    len: usize,
    at: usize,
}

#[derive(Clone, Copy)]
struct Tally {
    count: u64,
    differ: u64,
}

#[derive(Clone, Copy)]
struct Replayed {
    same: bool,
    at: usize,
}

// The digits from a place on; the place behind the one byte that parts them from the next.
fn natural(data: &[u8; 131072], from: usize) -> Size
    ensures { result.at ≤ 131072 }
{
    let mut value: u64 = 0;
    let mut at = from;
    while at < 131072 {
        let b = data[at];
        if b < 48 {
            return Size { value, at: at + 1 };
        }
        if b > 57 {
            return Size { value, at: at + 1 };
        }
        value = value % 1000000000000000000 * 10 + ((b - 48) as u64);
        at += 1;
    }
    Size { value, at: 131072 }
}

// A size with a sign in front; 2^63 only with a minus.
fn with_sign(minus: bool, size: u64) -> i64 {
    if size > 9223372036854775807 {
        -9223372036854775808
    } else {
        let n = size as i64;
        if minus { -n } else { n }
    }
}

fn whole(data: &[u8; 131072], from: usize) -> Signed
    ensures { result.at ≤ 131072 }
{
    if from >= 131071 {
        return Signed {
            value: 0,
            at: 131072,
        };
    }
    if data[from] == b'-' {
        let n = natural(data, from + 1);
        Signed {
            value: with_sign(true, n.value),
            at: n.at,
        }
    } else {
        let n = natural(data, from);
        Signed {
            value: with_sign(false, n.value),
            at: n.at,
        }
    }
}

fn entries(data: &[u8; 131072], from: usize) -> Items
    ensures { result.len ≤ length result.items }
{
    let n = natural(data, from);
    let mut items = [0i64; 40];
    let mut at = n.at;
    let mut i: usize = 0;
    while i < 40 {
        if (i as u64) >= n.value {
            return Items { items, len: i, at };
        }
        let w = whole(data, at);
        let v = w.value;
        items[i] = v;
        at = w.at;
        i += 1;
    }
    Items { items, len: 40, at }
}

// Whether an array has these entries, and `pad` behind them.
fn holds(out: &[i64; 32], want: Items, pad: i64) -> bool {
    let n = want.len;
    let mut i: usize = 0;
    while i < 32 {
        let x = out[i];
        let y = want.items[i];
        if i < n {
            if x != y {
                return false;
            }
        } else {
            if x != pad {
                return false;
            }
        }
        i += 1;
    }
    true
}

// What must come of a call. A refusal leaves the 7s that were lent.
fn as_stored(
    data: &[u8; 131072],
    from: usize,
    number: u64,
    qn: &[i64; 32],
    qd: &[i64; 32],
    rn: &[i64; 32],
    rd: &[i64; 32],
) -> Replayed {
    let status = natural(data, from);
    let steps = natural(data, status.at);
    let wqn = entries(data, steps.at);
    let wqd = entries(data, wqn.at);
    let wrn = entries(data, wqd.at);
    let wrd = entries(data, wrn.at);
    let done = status.value == 0;
    let zero = if done { 0i64 } else { 7 };
    let one = if done { 1i64 } else { 7 };
    let mut same = number % 16 == status.value;
    if number / 16 != steps.value {
        same = false;
    }
    if !holds(qn, wqn, zero) {
        same = false;
    }
    if !holds(qd, wqd, one) {
        same = false;
    }
    if !holds(rn, wrn, zero) {
        same = false;
    }
    if !holds(rd, wrd, one) {
        same = false;
    }
    Replayed { same, at: wrd.at }
}

fn replay(data: &[u8; 131072], from: usize) -> Replayed {
    let op = natural(data, from);
    let n = natural(data, op.at);
    let an = entries(data, n.at);
    let ad = entries(data, an.at);
    let bn = entries(data, ad.at);
    let bd = entries(data, bn.at);
    let mut qn = [7i64; 32];
    let mut qd = [7i64; 32];
    let mut rn = [7i64; 32];
    let mut rd = [7i64; 32];
    let xn = an.items;
    let xd = ad.items;
    let yn = bn.items;
    let yd = bd.items;
    let a = an.len;
    let b = ad.len;
    let c = bn.len;
    let d = bd.len;
    let number = calls::kanrosuye_call(
        op.value,
        &xn[..a],
        &xd[..b],
        &yn[..c],
        &yd[..d],
        n.value as usize,
        &mut qn,
        &mut qd,
        &mut rn,
        &mut rd,
    );
    as_stored(data, bd.at, number, &qn, &qd, &rn, &rd)
}

// A line of either library.
fn line(data: &[u8; 131072], from: usize) -> Replayed {
    let op = natural(data, from);
    if op.value >= 32 {
        real::line(op.value, data, op.at)
    } else {
        replay(data, from)
    }
}

fn one_unless(same: bool) -> u64
    ensures { result ≤ 1 }
{
    if same { 0 } else { 1 }
}

// Every line, at most 1,000 of them.
fn all(data: &[u8; 131072], len: usize) -> Tally {
    let mut at: usize = 0;
    let mut differ: u64 = 0;
    let mut count: u64 = 0;
    while count < 1000 {
        if at >= len {
            return Tally { count, differ };
        }
        let r = line(data, at);
        at = r.at;
        differ += one_unless(r.same);
        count += 1;
    }
    Tally { count, differ }
}

// Room for every line.
fn room() -> [u8; 131072]
    ensures { 131072 ≡ length result }
{
    [0; 131072]
}

fn main(rt: HostRuntime) -> io::Result<()> {
    let mut data = room();
    let len = input::fill(&mut &rt.stdin(), &mut data)?;
    let t = all(&data, len);
    let count = t.count;
    let differ = t.differ;
    println!(rt; "replayed {count} answers, not as stored: {differ}")
}
