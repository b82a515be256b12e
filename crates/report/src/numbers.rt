// Numbers put as text.
ghost use Rattle.std.specs.Prelude.{◌≡◌, ◌+◌, ◌≤◌, ◌<◌, length};
ghost use Rattle.report.specs.Numbers.{decimal, signed, hex_digit, hex, float};
ghost use Rattle.report.specs.Puts.{Puts};

use crate::put;
use std::num::f64_to_bits_with_nan;

// The decimal digits of a number, the highest first.
pub fn decimal(n: u64, out: &mut [u8], at: usize) -> usize
    requires { at + length (decimal n) ≤ length out.old }
    ensures { Puts (length (decimal n)) (decimal n) out.old at out.new result }
{
    let last = b'0' + ((n % 10) as u8);
    if n < 10 {
        return put::byte(last, out, at);
    }
    let after = decimal(n / 10, out, at);
    put::byte(last, out, after)
}

// A number with its sign, where it is negative.
pub fn signed(z: i32, out: &mut [u8], at: usize) -> usize
    requires { at + 11 ≤ length out.old }
    ensures { Puts 11 (signed z) out.old at out.new result }
{
    let magnitude = z.unsigned_abs() as u64;
    if z < 0 {
        let after = put::byte(b'-', out, at);
        return decimal(magnitude, out, after);
    }
    decimal(magnitude, out, at)
}

// The digit of a number below 16.
fn hex_digit(d: u8) -> u8
    requires { d < 16 }
    ensures { result ≡ hex_digit d }
{
    if d < 10 {
        return b'0' + d;
    }
    b'a' + (d - 10)
}

// So many hex digits of a number, the highest first.
fn hex(places: usize, n: u64, out: &mut [u8], at: usize) -> usize
    requires { at + places ≤ length out.old }
    ensures { Puts places (hex places n) out.old at out.new result }
{
    if places == 0 {
        return at;
    }
    let last = hex_digit((n % 16) as u8);
    let after = hex(places - 1, n / 16, out, at);
    put::byte(last, out, after)
}

// The 16 hex digits of the bits of x; a NaN's are those of the quiet one that has nothing else set.
pub fn float(x: f64, out: &mut [u8], at: usize) -> usize
    requires { at + 16 ≤ length out.old }
    ensures { Puts 16 (float x) out.old at out.new result }
{
    hex(16, f64_to_bits_with_nan(x), out, at)
}
