// Signed arithmetic that stays in range: each function asks for a bound on the sizes of its numbers, and answers exactly.
#![tactic(auto)]

ghost use Rattle.std.specs.Prelude.{◌≡◌, ◌+◌, ◌*◌, ◌^◌, ◌<◌, neg_ℤ, nat_abs, ◌+ℤ◌, ◌-ℤ◌, ◌*ℤ◌};

// The sum of two numbers.
pub fn sum(a: i32, b: i32) -> i32
    requires { nat_abs a + nat_abs b < 2 ^ 31 }
    ensures { result ≡ a +ℤ b }
{
    a + b
}

// The way from b to a.
pub fn diff(a: i32, b: i32) -> i32
    requires { nat_abs a + nat_abs b < 2 ^ 31 }
    ensures { result ≡ a -ℤ b }
{
    a - b
}

// The number as far on the other side of 0.
pub fn opposite(a: i32) -> i32
    requires { nat_abs a < 2 ^ 31 }
    ensures { result ≡ neg_ℤ a }
{
    -a
}

// The scalar product of (a, b) and (x, y).
pub fn dot(a: i32, x: i32, b: i32, y: i32) -> i32
    requires { nat_abs a * nat_abs x + nat_abs b * nat_abs y < 2 ^ 31 }
    ensures { result ≡ a *ℤ x +ℤ b *ℤ y }
{
    a * x + b * y
}

// The difference of two products.
pub fn cross(a: i32, x: i32, b: i32, y: i32) -> i32
    requires { nat_abs a * nat_abs x + nat_abs b * nat_abs y < 2 ^ 31 }
    ensures { result ≡ a *ℤ x -ℤ b *ℤ y }
{
    a * x - b * y
}

// How far a number is from 0.
pub fn unsigned_abs(z: i32) -> u32
    requires { nat_abs z < 2 ^ 31 }
    ensures { result ≡ nat_abs z }
{
    if z < 0 {
        return (0 - z) as u32;
    }
    z as u32
}
