// Fractions and removal values, compared by exact cross products.
#![tactic(auto)]

ghost use Rattle.std.specs.Prelude.{◌≡◌, ◌*◌};
ghost use Rattle.fractions.specs.Order.{less, same, later, level, Small};
ghost use Rattle.fractions.specs.Wide.{TwoDigits};

// A fraction that is never reduced: two whole numbers, as wide as a schedule record holds them. `==` asks for the same two numbers, and `same`
// for the same value.
#[derive(Clone, Copy, Debug, PartialEq, Eq)]
pub struct Fraction {
    pub num: u64,
    pub den: u32,
}

// 01's removal value: a mark is never removed, or it is removed where z² is this fraction.
// Kept: an enum of its own, since the theorems name `Never` and `At`; 'never' is later than all, and `None` of an Option would be the least.
#[derive(Clone, Copy, Debug)]
pub enum Value {
    Never,
    At(Fraction),
}

// 2³²: a denominator is one digit in this base, and a numerator two.
const BASE: u64 = 1 << 32;

// A number of up to 96 bits, in two parts: high * BASE + low, where low is below BASE. So such numbers are ordered as their parts are, the high
// part first.
#[derive(Clone, Copy, PartialEq, Eq, PartialOrd, Ord)]
struct Wide {
    high: u64,
    low: u64,
}

// The whole product of a numerator and a denominator: nothing is lost whatever a foreign record holds.
fn product(num: u64, den: u32) -> Wide
    ensures { TwoDigits (num * den) result }
{
    let d = den as u64;
    let low = num % BASE * d;
    Wide {
        high: num / BASE * d + low / BASE,
        low: low % BASE,
    }
}

// Is f below g?
#[tactic(auto, using(crate::proofs::WideLaws::less_wide), unfolding(crate::specs::Order::less))]
pub fn less(f: Fraction, g: Fraction) -> bool
    ensures { result ≡ less f g }
{
    product(f.num, g.den) < product(g.num, f.den)
}

// Are f and g equal?
#[tactic(auto, using(crate::proofs::WideLaws::same_wide), unfolding(crate::specs::Order::same))]
pub fn same(f: Fraction, g: Fraction) -> bool
    ensures { result ≡ same f g }
{
    product(f.num, g.den) == product(g.num, f.den)
}

// Is f below g? For fractions no larger than a pair's value, whose cross products fit 64 bits: the test of the inner loops.
pub fn less_small(f: Fraction, g: Fraction) -> bool
    requires { Small f × Small g }
    ensures { result ≡ less f g }
{
    f.num * (g.den as u64) < g.num * (f.den as u64)
}

// Is a mark with the removal value v removed later than one with w?
#[tactic(auto, unfolding(crate::specs::Order::later))]
pub fn later(v: Value, w: Value) -> bool
    ensures { result ≡ later v w }
{
    match (v, w) {
        (_, Value::Never) => false,
        (Value::Never, Value::At(_)) => true,
        (Value::At(f), Value::At(g)) => less(g, f),
    }
}

// Are the removal values v and w equal?
#[tactic(auto, unfolding(crate::specs::Order::level))]
pub fn level(v: Value, w: Value) -> bool
    ensures { result ≡ level v w }
{
    match (v, w) {
        (Value::Never, Value::Never) => true,
        (Value::At(f), Value::At(g)) => same(f, g),
        _ => false,
    }
}
