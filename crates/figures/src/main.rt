// Document 01's figures that are run: each line says what was asked and what came of it. Those marked P are proved, in specs/Figures.antt.
#![tactic(auto)]

use ratio::{Ratio, Reason};
use std::io;

fn status(o: Result<(), Reason>) -> u64 {
    match o {
        Ok(()) => 0,
        Err(why) => ratio::number(why),
    }
}

// The entries of a listing, in order.
fn entries(rt: &impl Print, size: u64, marks: &[u64; 1024]) -> io::Result<()> {
    let mut at: usize = 0;
    while let Some(d) = divisors::next_factor(size, marks, at) {
        let value = d.value;
        print!(rt; " {value}")?;
        at = d.next;
    }
    Ok(())
}

// The listing of n under a budget: its status and its entries.
fn listing(rt: &impl Print, n: i64, budget: u64) -> io::Result<()> {
    let l = divisors::integer_factors(n, budget);
    let outcome = status(l.outcome);
    let marks = l.marks;
    print!(rt; "listing of {n}, budget {budget}: status {outcome},")?;
    entries(rt, l.size, &marks)?;
    println!(rt;)
}

// The value of x at a whole number. The original makes one power more than it uses, so that the square has to fit too.
fn value_of_x(rt: &impl Print, at: i64) -> io::Result<()> {
    let nums: [i64; 2] = [0, 1];
    let dens: [i64; 2] = [1, 1];
    let x = poly::from_parts(&nums, &dens);
    print!(rt; "x at {at}: status ")?;
    match poly::eval(x.poly, Ratio { num: at, den: 1 }) {
        Ok(v) => {
            let num = v.num;
            println!(rt; "0, {num}")
        }
        Err(why) => {
            let number = ratio::number(why);
            println!(rt; "{number}")
        }
    }
}

// The rational root of x less a whole number.
fn root(rt: &impl Print, at: i64) -> io::Result<()> {
    let nums: [i64; 2] = [at, 1];
    let dens: [i64; 2] = [1, 1];
    let p = poly::from_parts(&nums, &dens);
    let r = roots::rational_roots(p.poly, 65536);
    let outcome = status(r.outcome);
    print!(rt; "root of x + {at}: status {outcome}")?;
    if r.len > 0 {
        let v = r.values[0];
        let num = v.num;
        print!(rt; ", {num}")?;
    }
    println!(rt;)
}

// The real roots of (x - 1)(x - 2) on both sides of zero, as far as an end, with a tolerance of 1e-6.
fn isolation(rt: &impl Print, name: &str, end: f64) -> io::Result<()> {
    let nums: [i64; 3] = [2, -3, 1];
    let dens: [i64; 3] = [1, 1, 1];
    let p = poly::from_parts(&nums, &dens);
    let r = isolate::isolate_real_roots(p.poly, -end, end, 1e-6);
    let outcome = status(r.outcome);
    let many = r.len;
    println!(rt;
        "isolation of (x - 1)(x - 2) on +-{name}, tolerance 1e-6: status {outcome}, roots {many}"
    )
}

fn main(rt: HostRuntime) -> io::Result<()> {
    listing(&rt, 8, 2)?;
    listing(&rt, 9, 2)?;
    listing(&rt, 9, 3)?;
    listing(&rt, -12, 65536)?;
    listing(&rt, 0, 1)?;
    value_of_x(&rt, 3037000499)?;
    value_of_x(&rt, 3037000500)?;
    root(&rt, -3037000499)?;
    root(&rt, -3037000500)?;
    isolation(&rt, "1e15", 1e15)?;
    isolation(&rt, "1e14", 1e14)
}
