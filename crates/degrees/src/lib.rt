// Degrees as floats, and the whole numbers of ten-millionths that are stored for them.
#![tactic(auto)]

ghost use Rattle.std.specs.Prelude.{false, ◌≡◌, ◌≤◌, ◌^◌, min, T, pos};
ghost use Rattle.std.specs.Float.Ieee as Ieee;
ghost use Rattle.std.specs.Float.{fin};
ghost use Rattle.degrees.specs.Degrees.{degrees_of_lem, size_of, stored_of_lem};

// The stored number as a float, divided once by ten million.
pub fn degrees_of(n: i32) -> f64
    ensures { result ≡ degrees_of_lem n }
{
    f64::from(n) / 10000000.0
}

// The whole number nearest to a, halves up, for an a above 0 and below 2^31, from its bits: a is
// digits / 2^drop, and below 1/2 where the field is below 1022.
fn rounded_by_bits(a: f64) -> u64
    requires positive { T (Ieee.lt (fin false 0 (pos 0)) a) }
    requires below { T (Ieee.lt a (fin false 1 (pos 31))) }
    ensures { result ≡ size_of a }
{
    let b = f64::to_bits(a);
    let field = b >> 52;
    if field < 1022 {
        return 0;
    }
    let digits = (b % 4503599627370496) + 4503599627370496;
    let drop = 1075 - field;
    ((digits >> (drop - 1)) + 1) / 2
}

// The same for any a above 0, and at most a number that is itself at most 2^31.
fn capped(a: f64, most: u64) -> u64
    requires positive { T (Ieee.lt (fin false 0 (pos 0)) a) }
    requires fits { most ≤ 2 ^ 31 }
    ensures { result ≡ min (size_of a) most }
{
    if a < 2147483648.0 {
        let n = rounded_by_bits(a);
        if n < most { n } else { most }
    } else {
        most
    }
}

// The float product with ten million, to the nearest whole number, halves away from zero, clamped
// to i32. A NaN is neither above nor below 0, like a zero.
// Stays: by the bits, since std's `round` and a saturating cast (`rounded_cast`) take four times as long, and each call
// of `publish` stores six degrees.
pub fn stored_of(x: f64) -> i32
    ensures { result ≡ stored_of_lem x }
{
    let p = x * 10000000.0;
    if p > 0.0 {
        capped(p, 2147483647) as i32
    } else if p < 0.0 {
        (0 - (capped(-p, 2147483648) as i64)) as i32
    } else {
        0
    }
}
