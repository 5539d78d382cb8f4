// Numbers as text, laid on a lent page (document 01, "the job program"). What has no room on the page is left out; a caller sees that by the place.
#![tactic(auto)]

ghost use Rattle.std.specs.Prelude.{◌≡◌, List, [], ◌∷◌, ℕ, ◌<◌, map, take};
ghost use Rattle.terms.specs.Poly.{terms_of};
ghost use Rattle.text.specs.Page.{laid, after};
ghost use Rattle.text.specs.Spell.{decimal_of, whole_text, ratio_text, ratios_text, poly_text, hex_digit, hex_in, hex_text, float_text, floats_text, next_word, parted};

use ratio::Ratio;
use terms::Poly;

// One byte; the place behind it is handed back.
pub fn put(out: &mut [u8], at: usize, b: u8) -> usize
    ensures is { result ≡ after (b ∷ []) at out.old }
    ensures page { out.new ≡ laid (b ∷ []) at out.old }
{
    if at < out.len() {
        out[at] = b;
        at + 1
    } else {
        at
    }
}

// Any bytes, such as a keyword's.
pub fn write_bytes(s: &[u8], out: &mut [u8], at: usize) -> usize
    ensures is { result ≡ after s.now at out.old }
    ensures page { out.new ≡ laid s.now at out.old }
{
    let mut next = at;
    for b in s {
        next = put(out, next, *b);
    }
    next
}

// Decimal digits, none of them a zero in front.
pub fn write_decimal(n: u64, out: &mut [u8], at: usize) -> usize
    ensures is { result ≡ after (decimal_of n) at out.old }
    ensures page { out.new ≡ laid (decimal_of n) at out.old }
{
    if n < 10 {
        put(out, at, 48 + n as u8)
    } else {
        let next = write_decimal(n / 10, out, at);
        put(out, next, 48 + (n % 10) as u8)
    }
}

// A `-` in front of a negative number; -2^63 too.
pub fn write_whole(v: i64, out: &mut [u8], at: usize) -> usize
    ensures is { result ≡ after (whole_text v) at out.old }
    ensures page { out.new ≡ laid (whole_text v) at out.old }
{
    if v < 0 {
        let next = put(out, at, 45);
        write_decimal(ratio::magnitude(v), out, next)
    } else {
        write_decimal(ratio::magnitude(v), out, at)
    }
}

// n, or n/d where d isn't 1.
pub fn write_ratio(v: Ratio, out: &mut [u8], at: usize) -> usize
    ensures is { result ≡ after (ratio_text v) at out.old }
    ensures page { out.new ≡ laid (ratio_text v) at out.old }
{
    let next = write_whole(v.num, out, at);
    if v.den == 1 {
        next
    } else {
        let behind = put(out, next, 47);
        write_whole(v.den, out, behind)
    }
}

// A value that has a spelling.
trait Word: Copy {
    ghost spelling: { Self → List ℕ };

    fn lay(self, out: &mut [u8], at: usize) -> usize
        ensures is { result ≡ after (spelling self) at out.old }
        ensures page { out.new ≡ laid (spelling self) at out.old };
}

impl Word for Ratio {
    ghost spelling = { ratio_text };

    fn lay(self, out: &mut [u8], at: usize) -> usize {
        write_ratio(self, out, at)
    }
}

impl Word for f64 {
    ghost spelling = { float_text };

    fn lay(self, out: &mut [u8], at: usize) -> usize {
        write_float(self, out, at)
    }
}

// A word of a list: all but the first have a space in front.
fn write_next<W: Word>(first: bool, w: W, out: &mut [u8], at: usize) -> usize
    ensures value { result ≡ after (next_word first (W.spelling w)) at out.old }
    ensures out_after { out.new ≡ laid (next_word first (W.spelling w)) at out.old }
{
    if first {
        w.lay(out, at)
    } else {
        let next = put(out, at, b' ');
        w.lay(out, next)
    }
}

// Words parted by one space.
fn write_words<W: Word>(words: &[W], out: &mut [u8], at: usize) -> usize
    ensures value { result ≡ after (parted (map W.spelling words.now)) at out.old }
    ensures out_after { out.new ≡ laid (parted (map W.spelling words.now)) at out.old }
{
    let mut next = at;
    for (i, w) in words.iter().enumerate() {
        next = write_next(i == 0, *w, out, next);
    }
    next
}

// The first len of the values, parted by one space.
pub fn write_ratios(values: [Ratio; 32], len: usize, out: &mut [u8], at: usize) -> usize
    ensures is { result ≡ after (ratios_text (take len values)) at out.old }
    ensures page { out.new ≡ laid (ratios_text (take len values)) at out.old }
{
    write_words(&values[..len.min(32)], out, at)
}

// Coefficients rising; zero is `0`.
pub fn write_poly(p: Poly, out: &mut [u8], at: usize) -> usize
    ensures is { result ≡ after (poly_text (terms_of p)) at out.old }
    ensures page { out.new ≡ laid (poly_text (terms_of p)) at out.old }
{
    let len = p.len;
    if len == 0 {
        put(out, at, 48)
    } else {
        let coeffs = p.coeffs;
        write_ratios(coeffs, len, out, at)
    }
}

fn hex_digit(d: u64) -> u8
    requires { d < 16 }
    ensures { result ≡ hex_digit d }
{
    if d < 10 { 48 + d as u8 } else { 87 + d as u8 }
}

// The last k hex digits.
fn write_digits(k: usize, bits: u64, out: &mut [u8], at: usize) -> usize
    ensures value { result ≡ after (hex_in k bits) at out.old }
    ensures out_after { out.new ≡ laid (hex_in k bits) at out.old }
{
    if k == 0 {
        at
    } else {
        let next = write_digits(k - 1, bits / 16, out, at);
        put(out, next, hex_digit(bits % 16))
    }
}

// 16 hex digits, lower case.
pub fn write_hex(bits: u64, out: &mut [u8], at: usize) -> usize
    ensures is { result ≡ after (hex_text bits) at out.old }
    ensures page { out.new ≡ laid (hex_text bits) at out.old }
{
    write_digits(16, bits, out, at)
}

// A float by its bits; a NaN has one pattern here.
pub fn write_float(x: f64, out: &mut [u8], at: usize) -> usize
    ensures is { result ≡ after (float_text x) at out.old }
    ensures page { out.new ≡ laid (float_text x) at out.old }
{
    if x != x {
        write_hex(0x7ff8_0000_0000_0000, out, at)
    } else {
        write_hex(f64::to_bits(x), out, at)
    }
}

// The first len of the floats, parted by one space.
pub fn write_floats(values: [f64; 64], len: usize, out: &mut [u8], at: usize) -> usize
    ensures is { result ≡ after (floats_text (take len values)) at out.old }
    ensures page { out.new ≡ laid (floats_text (take len values)) at out.old }
{
    write_words(&values[..len.min(64)], out, at)
}
