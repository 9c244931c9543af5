// What the candidates and the search call with p and t below 2^w.
ghost use Rattle.std.specs.Prelude.{◌≡◌};
ghost use Rattle.search_equation.specs.Equation.{used, solvable};
ghost use Rattle.search_equation.specs.Solved.{Asked, Solved};

// More trailing zeros of p than these, and there are too many solutions to look up.
pub const ZEROS_MAX: u32 = 8;

// Solutions: the words with the remainder `first`, the least of them, modulo 2^(w - zeros).
#[derive(Clone, Copy, Debug, PartialEq, Eq)]
pub struct Class {
    pub zeros: u32,
    pub first: u64,
}

// 01's rule "used".
pub fn is_used(p: u64, t: u64) -> bool
    ensures { result ≡ used p t }
{
    if p == 0 {
        return t != 0;
    }
    let z = p.trailing_zeros();
    if z > ZEROS_MAX {
        return arith::reduce(t, z) != 0;
    }
    true
}

// Whether t has at least as many trailing zeros as p: otherwise p × f = t has no solution.
pub fn is_solvable(p: u64, t: u64) -> bool
    ensures { result ≡ solvable p t }
{
    p.trailing_zeros() <= t.trailing_zeros()
}

// The solutions where the rule says "used", if there are any: 2^z divides p, so t too or there is none; divided by it, p is odd and has an inverse.
pub fn solve(w: u32, p: u64, t: u64) -> Option<Class>
    requires { Asked w p t }
    ensures { Solved w p t result }
{
    if p == 0 {
        return None;
    }
    let z = p.trailing_zeros();
    if arith::reduce(t, z) != 0 {
        return None;
    }
    let bits = w - z;
    let inverse = arith::mod_inverse_odd(p >> z, bits);
    let first = arith::mod_mul(inverse, t >> z, bits);
    Some(Class { zeros: z, first })
}
