// The divisors of a whole number in the original's order (`integer_factors` of src/poly/mod.rs; document 01, module 1).
// A listing is a bit set over 1 to 65,536, so that no list is ever cut; `next_factor` walks it.
#![tactic(auto)]

ghost use Rattle.std.specs.Prelude.{◌≡◌, ◌+◌, ◌-◌, ◌*◌, ◌/◌, ◌%◌, ◌^◌, ◌<◌, ◌≤◌, false, eqb, ltb};
ghost use Rattle.ratio.specs.Range.{limit};
ghost use Rattle.divisors.specs.Listing.{entries, is_small};
ghost use Rattle.divisors.specs.Marks.{digit, word_from, marks_of, bit_at, refused_by, listing_of};
ghost use Rattle.divisors.specs.Promise.{Lists, Walks};
ghost use Rattle.divisors.specs.Walk.{mark_from, Clear, ClearIn, entry_of, first_of, here_of, next_of};

use ratio::Reason;

#[derive(Clone, Copy)]
pub struct Listing {
    pub outcome: Result<(), Reason>,
    pub size: u64,
    pub marks: [u64; 1024],
}

// An entry of a listing, and the place behind it.
#[derive(Clone, Copy)]
pub struct Factor {
    pub value: i64,
    pub next: usize,
}

// 1 where i divides n and is at most its root.
fn mark(n: u64, i: u64) -> u64
    requires { (0 < i) × (i ≤ 65536) }
    ensures { result ≡ digit (is_small n i) }
{
    if i * i <= n && n % i == 0 { 1 } else { 0 }
}

// The marks of the 64 numbers from `first` on, the first in the lowest bit.
#[tactic(auto, using(crate::proofs::Words::word_steps))]
fn mark_word(n: u64, first: u64) -> u64
    requires { (0 < first) × (first + 63 ≤ 65536) }
    ensures { result ≡ word_from n 64 first }
{
    let mut word: u64 = 0;
    for left in (0..64).rev() {
        word = word * 2 + mark(n, first + left);
    }
    word
}

#[tactic(auto, using(crate::proofs::Words::square_le, crate::proofs::Words::filled_more))]
fn mark_all(n: u64) -> [u64; 1024]
    ensures { result ≡ marks_of n }
{
    let mut marks = [0u64; 1024];
    for w in 0..1024 {
        let first = (w as u64) * 64 + 1;
        if first * first > n {
            return marks;
        }
        marks[w] = mark_word(n, first);
    }
    marks
}

#[tactic(auto, unfolding(crate::specs::Marks::refused_by))]
fn refused(why: Reason) -> Listing
    ensures { result ≡ refused_by why }
{
    Listing {
        outcome: Err(why),
        size: 1,
        marks: [0u64; 1024],
    }
}

#[tactic(auto, using(crate::proofs::Lists::listing_steps))]
pub fn integer_factors(n: i64, budget: u64) -> Listing
    ensures is { result ≡ listing_of n budget }
    ensures promise { Lists n budget result }
{
    let size = n.unsigned_abs();
    if size > 9223372036854775807 || budget == 0 || budget > 65536 {
        refused(Reason::BadInput)
    } else if (budget + 1) * (budget + 1) <= size {
        refused(Reason::Budget)
    } else {
        Listing {
            outcome: Ok(()),
            size,
            marks: mark_all(size),
        }
    }
}

fn is_marked(marks: &[u64; 1024], j: usize) -> bool
    requires { j < 65536 }
    ensures { result ≡ bit_at marks.now j }
{
    (marks[j / 64] >> (j % 64)) % 2 == 1
}

// From an unmarked bit of a word to the next that is set, or else to the word's end.
#[tactic(auto, using(crate::proofs::Skip::clear_steps))]
fn zeros(word: u64, s: usize) -> usize
    requires { (s < 64) × (eqb (word / 2 ^ s % 2) 1 ≡ false) }
    ensures { ClearIn word s result }
{
    let left = word >> s;
    if left == 0 {
        64 - s
    } else {
        u64::trailing_zeros(left) as usize
    }
}

// How far the walk may go on from an unmarked bit: an empty word is passed over whole.
#[tactic(auto, using(crate::proofs::Skip::clear_steps))]
fn stride(marks: &[u64; 1024], j: usize) -> usize
    requires { (j < 65536) × (bit_at marks.now j ≡ false) }
    ensures { Clear marks.now j result }
{
    if marks[j / 64] == 0 {
        64 - j % 64
    } else {
        zeros(marks[j / 64], j % 64)
    }
}

// No divisor is listed above the root, so the walk ends there.
fn past_root(size: u64, j: usize) -> bool
    requires { j < 65536 }
    ensures { result ≡ ltb size ((j + 1) * (j + 1)) }
{
    let i = (j as u64) + 1;
    size < i * i
}

// The first bit that counts from `from` on; 65,536 where there is none.
#[tactic(auto, using(crate::proofs::Skip::mark_steps))]
fn next_mark(size: u64, marks: &[u64; 1024], from: usize) -> usize
    requires { from ≤ 65536 }
    ensures { result ≡ mark_from size marks.now (65536 - from) from }
{
    let mut j = from;
    while j < 65536 {
        if past_root(size, j) {
            return 65536;
        }
        if is_marked(marks, j) {
            return j;
        }
        j += stride(marks, j);
    }
    j
}

// Entry k of the divisor i of n.
fn entry_at(n: u64, i: u64, k: usize) -> Option<i64>
    requires { (0 < i) × (i ≤ 65536) × (n ≤ limit) }
    ensures { result ≡ entry_of (entries n i) k }
{
    if k == 0 {
        Some(i as i64)
    } else if k == 1 {
        Some(-(i as i64))
    } else if i * i == n {
        None
    } else if k == 2 {
        Some((n / i) as i64)
    } else if k == 3 {
        Some(-((n / i) as i64))
    } else {
        None
    }
}

// The first entry of the number j + 1.
fn first_entry(j: usize) -> Option<Factor>
    requires { j ≤ 65536 }
    ensures { result ≡ first_of j }
{
    if j < 65536 {
        Some(Factor {
            value: (j + 1) as i64,
            next: j * 4 + 1,
        })
    } else {
        None
    }
}

// The entry at a place, where its number is marked.
fn entry_here(size: u64, marks: &[u64; 1024], at: usize) -> Option<i64>
    requires { (size ≤ limit) × (at < 262144) }
    ensures { result ≡ here_of size marks.now at }
{
    let j = at / 4;
    if !past_root(size, j) && is_marked(marks, j) {
        entry_at(size, (j as u64) + 1, at % 4)
    } else {
        None
    }
}

// The next entry of a listing at the place `at` or after it, and the place after that; the first place is 0.
#[tactic(auto, using(crate::proofs::Walks::walk_steps))]
pub fn next_factor(size: u64, marks: &[u64; 1024], at: usize) -> Option<Factor>
    ensures is { result ≡ next_of size marks.now at }
    ensures promise { Walks size marks.now at result }
{
    if size == 0 {
        if at == 0 {
            Some(Factor { value: 0, next: 1 })
        } else {
            None
        }
    } else if size > 9223372036854775807 || at >= 262144 {
        None
    } else {
        let e = entry_here(size, marks, at);
        match e {
            Some(value) => Some(Factor {
                value,
                next: at + 1,
            }),
            None => first_entry(next_mark(size, marks, at / 4 + 1)),
        }
    }
}
