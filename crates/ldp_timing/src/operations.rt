use ldp_num::{Fix, Num, ONE, div, mul, sqrt};

/// 1 - 10^-9: a million factors of it leave 0.999.
const FACTOR: i128 = 999_999_999_000_000;

/// The sum of so many products, none of which waits for another.
pub fn products(runs: u32) -> i128 {
    let mut sum = 0i128;
    for round in 0..runs {
        if let Some(product) = mul(ONE + i128::from(round), FACTOR) {
            sum = sum.wrapping_add(product);
        }
    }
    sum
}

/// The product of so many factors, each step over the one before.
pub fn chained_products(runs: u32) -> i128 {
    let factor = Fix::constant(FACTOR);
    let mut last = Fix::constant(ONE);
    for _ in 0..runs {
        if let Some(product) = last.mul(factor) {
            last = product;
        }
    }
    last.n
}

/// The sum of so many quotients, none of which waits for another.
pub fn quotients(runs: u32) -> i128 {
    let mut sum = 0i128;
    for round in 0..runs {
        if let Some(quotient) = div(FACTOR, ONE + i128::from(round)) {
            sum = sum.wrapping_add(quotient);
        }
    }
    sum
}

/// What so many divisions of one number leave, each by the quotient before.
pub fn chained_quotients(runs: u32) -> i128 {
    let dividend = Fix::constant(3 * ONE);
    let mut last = Fix::constant(ONE);
    for _ in 0..runs {
        if let Some(quotient) = dividend.div(last) {
            last = quotient;
        }
    }
    last.n
}

/// The sum of so many square roots, none of which waits for another.
pub fn roots(runs: u32) -> i128 {
    let mut sum = 0i128;
    for round in 0..runs {
        if let Some(root) = sqrt(ONE + i128::from(round)) {
            sum = sum.wrapping_add(root);
        }
    }
    sum
}

/// What so many roots leave, each of the one before.
pub fn chained_roots(runs: u32) -> i128 {
    let mut last = Fix::constant(9000 * ONE);
    for _ in 0..runs {
        if let Some(root) = last.sqrt() {
            last = root;
        }
    }
    last.n
}
