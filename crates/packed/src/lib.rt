// Packed decimal: five digits and a sign in three bytes, read and written.
#![tactic(auto)]

ghost use Rattle.std.specs.Prelude.{◌≡◌, true, ◌+◌, ◌/◌, ◌%◌, ◌<◌, ◌≤◌, length};
ghost use Rattle.std.proofs.lemmas.List.Edits.{sets};
ghost use Rattle.numbers.specs.Little.{signed};
ghost use Rattle.marks.specs.Marks.{place_bits};
ghost use Rattle.packed.specs.Packed.{magnitude, is_minus, with_sign, are_digits, is_last, is_packed, is_place, packed, packed_of};

// The last half: plus or minus.
const PLUS: u8 = 12;

const MINUS: u8 = 13;

// The half of a byte that comes first.
fn upper(b: u8) -> u32
    ensures { result ≡ b / 16 }
{
    (b / 16) as u32
}

fn lower(b: u8) -> u32
    ensures { result ≡ b % 16 }
{
    (b % 16) as u32
}

// The number that the five digits of three bytes give.
pub fn magnitude(a: u8, b: u8, c: u8) -> u32
    ensures { result ≡ magnitude a b c }
{
    10000 * upper(a) + (1000 * lower(a) + (100 * upper(b) + (10 * lower(b) + upper(c))))
}

pub fn is_minus(c: u8) -> bool
    ensures { result ≡ is_minus c }
{
    c % 16 == MINUS
}

// Are both halves digits?
fn are_digits(b: u8) -> bool
    ensures { result ≡ are_digits b }
{
    (b / 16 <= 9) & (b % 16 <= 9)
}

// A digit and a sign?
fn is_last(c: u8) -> bool
    ensures { result ≡ is_last c }
{
    (c / 16 <= 9) & ((c % 16 == PLUS) | (c % 16 == MINUS))
}

// 15. Five digits and a sign, and not minus zero?
pub fn is_packed(a: u8, b: u8, c: u8) -> bool
    ensures { result ≡ is_packed a b c }
{
    (are_digits(a) & are_digits(b)) & (is_last(c) & !(is_minus(c) & (magnitude(a, b, c) == 0)))
}

// 16. Is the number one of -32,768 to 32,767?
pub fn is_place(minus: bool, m: u32) -> bool
    ensures { result ≡ is_place (with_sign minus m) }
{
    if minus {
        return m <= 32768;
    }
    m <= 32767
}

// The 16 bits of such a number.
pub fn bits_of(minus: bool, m: u32) -> u32
    requires { is_place (with_sign minus m) ≡ true }
    ensures { result ≡ place_bits (with_sign minus m) }
{
    if minus {
        return (65536 - m) % 65536;
    }
    m
}

// Writes five digits of m and a sign.
fn put_packed(out: &mut [u8], at: usize, m: u32, sign: u8)
    requires { (at + 3 ≤ length out.old) × (sign < 16) }
    ensures { out.new ≡ sets out.old at (packed_of m sign) }
{
    out[at] = (16 * (m / 10000 % 10) + m / 1000 % 10) as u8;
    out[at + 1] = (16 * (m / 100 % 10) + m / 10 % 10) as u8;
    out[at + 2] = (16 * (m % 10)) as u8 + sign;
}

// Writes the signed number of 16 bits.
pub fn put_place(out: &mut [u8], at: usize, u: u16)
    requires { at + 3 ≤ length out.old }
    ensures { out.new ≡ sets out.old at (packed (signed 2 u)) }
{
    let v = numbers::signed_u16(u);
    let sign = if v < 0 { MINUS } else { PLUS };
    put_packed(out, at, u32::from(v.unsigned_abs()), sign);
}
