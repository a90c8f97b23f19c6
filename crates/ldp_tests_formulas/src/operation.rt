use ldp_num::Num;

pub fn is_of_two(name: &str) -> bool {
    matches!(name, "add" | "sub" | "mul" | "div")
}

/// The sum, the difference, the product or the quotient in a carrier.
pub fn of_two<N: Num>(name: &str, a: N, b: N) -> Option<N> {
    match name {
        "add" => a.add(b),
        "sub" => a.sub(b),
        "mul" => a.mul(b),
        _ => a.div(b),
    }
}

pub fn is_of_one(name: &str) -> bool {
    matches!(name, "sq" | "sqrt" | "need")
}

/// The square, the square root or the number that is needed in a carrier.
pub fn of_one<N: Num>(name: &str, a: N) -> Option<N> {
    match name {
        "sq" => a.sq(),
        "sqrt" => a.sqrt(),
        _ => a.need(),
    }
}
