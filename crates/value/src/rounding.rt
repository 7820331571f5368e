// A number over another, to the nearest (document 02, request 2).
ghost use Rattle.std.specs.Prelude.{◌≡◌, ◌^◌, ◌≤◌, ◌<◌, pos, nat_abs, ◌≤ℤ◌};
ghost use Rattle.minuska.specs.Nearest.{nearest_nat, nearest};

// z over c to the nearest, a half to the even neighbour: by z's amount, and with its sign again.
pub fn nearest(z: i64, c: i64) -> i64
    requires { (nat_abs z < 2 ^ 63) × (pos 1 ≤ℤ c) × (c ≤ℤ pos 2147483647) }
    ensures { result ≡ nearest z c }
{
    let rounded = nearest_amount(z.unsigned_abs(), c as u64) as i64;
    if z < 0 { -rounded } else { rounded }
}

// The quotient, or the next number: where twice the rest, one more at an odd quotient, is above d. So an exact half goes to the even one.
fn nearest_amount(n: u64, d: u64) -> u64
    requires { (0 < d) × (d ≤ 2147483647) }
    ensures { result ≡ nearest_nat n d }
{
    let low = n / d;
    let rest = n % d;
    let doubled = 2 * rest + low % 2;
    if d < doubled { low + 1 } else { low }
}
