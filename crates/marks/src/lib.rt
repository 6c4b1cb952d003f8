// The fields of a mark, its used radius, touching and rank. `s` is part 1 of a sheet and `m` a mark's number.
#![tactic(auto)]

ghost use Rattle.std.specs.Prelude.{◌≡◌, ◌⊎◌, ◌+◌, ◌*◌, ◌<◌, ◌≤◌, length, ◌-ℤ◌, nat_abs};
ghost use Rattle.numbers.specs.Little.{le_bytes};
ghost use Rattle.fractions.specs.Order.{Small};
ghost use Rattle.marks.specs.Pairs.{popup_size, popup_at, pair_of, pair_value, GoodPopup};
ghost use Rattle.marks.specs.Marks.{mark_size, x_at, y_at, shifted, radius_at, priority_at, kind_at, place_bits, mark_bytes};
ghost use Rattle.marks.specs.Marks.{kind_group, group_number, house_of, old_radius, used_radius, used_at};
ghost use Rattle.marks.specs.Marks.{label_at, larger, distance, touching_of, touching, rank_radius, outranks, rank_key};

use fractions::Fraction;

// The bytes of a mark, and where the fields behind x begin.
pub const MARK_SIZE: usize = 11;

pub const Y_OFFSET: usize = 2;

pub const RADIUS_OFFSET: usize = 4;

pub const PRIORITY_OFFSET: usize = 6;

pub const KIND_OFFSET: usize = 8;

pub const TAG_OFFSET: usize = 9;

// The shape of part 7 that is a square; any other is a disk.
// Kept: shapes, editions and kinds are the sheet's bytes and no enums, since the definitions `distance`, `rank_radius` and `kind_group` take any.
pub const SQUARE: u8 = 2;

// The bytes of a popup.
pub const POPUP_SIZE: usize = 4;

// ---- the fields

// Kept: each reader asks that its mark lies in the bytes, a bound on the number that it is handed and no fact about the bytes alone.
pub fn place_x(s: &[u8], m: usize) -> i16
    requires { mark_size * m + mark_size ≤ length s.now }
    ensures { result ≡ x_at s.now m }
{
    numbers::read_i16(s, MARK_SIZE * m)
}

pub fn place_y(s: &[u8], m: usize) -> i16
    requires { mark_size * m + mark_size ≤ length s.now }
    ensures { result ≡ y_at s.now m }
{
    numbers::read_i16(s, MARK_SIZE * m + Y_OFFSET)
}

// A coordinate, shifted to be at least 0.
pub fn shifted(v: i16) -> u16
    ensures { result ≡ shifted v }
{
    (v as i32 + 32768) as u16
}

// The radius as written, which may be 0.
pub fn written_radius_at(s: &[u8], m: usize) -> u16
    requires { mark_size * m + mark_size ≤ length s.now }
    ensures { result ≡ radius_at s.now m }
{
    numbers::read_u16(s, MARK_SIZE * m + RADIUS_OFFSET)
}

pub fn priority_at(s: &[u8], m: usize) -> u16
    requires { mark_size * m + mark_size ≤ length s.now }
    ensures { result ≡ priority_at s.now m }
{
    numbers::read_u16(s, MARK_SIZE * m + PRIORITY_OFFSET)
}

pub fn kind_at(s: &[u8], m: usize) -> u8
    requires { mark_size * m + mark_size ≤ length s.now }
    ensures { result ≡ kind_at s.now m }
{
    numbers::read(s, MARK_SIZE * m + KIND_OFFSET, 1) as u8
}

// ---- a mark by its fields

#[derive(Clone, Copy, Debug, PartialEq, Eq)]
pub struct Mark {
    pub x: i16,
    pub y: i16,
    pub radius: u16,
    pub priority: u16,
    pub kind: u8,
    pub tag: u16,
}

// The 16 bits of a place: one below 0 stands in the upper half.
fn place_bits(v: i16) -> u16
    ensures { result ≡ place_bits v }
{
    v.cast_unsigned()
}

// The bytes of a mark, as a sheet has them.
pub fn mark_bytes(a: Mark) -> [u8; MARK_SIZE]
    ensures { result ≡ mark_bytes a }
{
    let [x0, x1] = place_bits(a.x).to_le_bytes();
    let [y0, y1] = place_bits(a.y).to_le_bytes();
    let [r0, r1] = a.radius.to_le_bytes();
    let [p0, p1] = a.priority.to_le_bytes();
    let [t0, t1] = a.tag.to_le_bytes();
    [x0, x1, y0, y1, r0, r1, p0, p1, a.kind, t0, t1]
}

// ---- the kind and the radius

// The house radius of a kind, and none where 5 refuses it.
#[tactic(auto, using(std::proofs::lemmas::Bool::Decides::nat_tests), unfolding(crate::specs::Marks::house_of, crate::specs::Marks::house_radius, crate::specs::Marks::kind_group))]
pub fn house_radius(kind: u8) -> Option<u16>
    ensures { result ≡ house_of kind }
{
    match kind {
        0..=9 => Some(40),
        10..=49 => Some(60),
        50..=99 => Some(90),
        100..=149 => Some(150),
        150..=199 => Some(200),
        _ => None,
    }
}

// The number of a kind's group. Kinds above 199 do not exist; the definition counts them with the last group.
// Kept: a number and no enum, since 02, request 12, and the definition `group_number` name the groups by it.
#[tactic(auto, using(std::proofs::lemmas::Bool::Decides::nat_tests), unfolding(crate::specs::Marks::kind_group))]
pub fn group_of(kind: u8) -> u8
    ensures { result ≡ group_number (kind_group kind) }
{
    match kind {
        0..=9 => 0,
        10..=49 => 1,
        50..=99 => 2,
        100..=149 => 3,
        _ => 4,
    }
}

// The number in 01's old table, in which a moisture patch has 120: filling goes by it.
// Kept: a table beside that of the house radii, since a reader compares each with its own in 01 and 02, row by row.
#[tactic(auto, using(std::proofs::lemmas::Bool::Decides::nat_tests), unfolding(crate::specs::Marks::old_radius, crate::specs::Marks::kind_group))]
pub fn old_radius(kind: u8) -> u16
    ensures { result ≡ old_radius kind }
{
    match kind {
        0..=9 => 40,
        10..=49 => 60,
        50..=99 => 90,
        100..=149 => 120,
        _ => 200,
    }
}

// The radius that counts: 0 means the house radius. Kinds above 199 do not exist; the definition gives them the last
// kind's radius, so that no used radius is 0.
pub fn used_radius(radius: u16, kind: u8) -> u16
    ensures { result ≡ used_radius radius kind }
{
    if radius != 0 {
        return radius;
    }
    house_radius(kind).unwrap_or(200)
}

pub fn radius_at(s: &[u8], m: usize) -> u16
    requires { mark_size * m + mark_size ≤ length s.now }
    ensures { result ≡ used_at s.now m }
{
    used_radius(written_radius_at(s, m), kind_at(s, m))
}

// ---- touching

// The difference of two places needs 17 bits, so it is taken at 32.
pub fn difference(a: i16, b: i16) -> i32
    ensures { result ≡ a -ℤ b }
{
    a as i32 - b as i32
}

// The square of a difference does not fit 32 bits, so it is taken at 64.
fn squared(d: i32) -> u64
    ensures { result ≡ nat_abs d * nat_abs d }
{
    let e = d as i64;
    (e * e) as u64
}

// The squared distance of two places, from their differences on the axes: of squares the larger one counts.
pub fn distance(shape: u8, dx: i32, dy: i32) -> u64
    ensures { result ≡ distance shape (nat_abs dx) (nat_abs dy) }
{
    let x = squared(dx);
    let y = squared(dy);
    if shape != SQUARE {
        return x + y;
    }
    x.max(y)
}

// What is drawn of a mark: its place and its used radius.
#[derive(Clone, Copy, Debug, PartialEq, Eq)]
pub struct Label {
    pub x: i16,
    pub y: i16,
    pub radius: u16,
}

pub fn label_at(s: &[u8], m: usize) -> Label
    requires { mark_size * m + mark_size ≤ length s.now }
    ensures { result ≡ label_at s.now m }
{
    Label {
        x: place_x(s, m),
        y: place_y(s, m),
        radius: radius_at(s, m),
    }
}

// The touching value of two labels.
pub fn touching_of(shape: u8, a: Label, b: Label) -> Fraction
    requires { (a.radius ≤ 16383) × (b.radius ≤ 16383) }
    ensures { (result ≡ touching_of shape a b) × Small result }
{
    let radii = a.radius as u32 + b.radius as u32;
    let num = distance(shape, difference(a.x, b.x), difference(a.y, b.y));
    let den = radii * radii;
    Fraction { num, den }
}

// The same of marks a and b of a sheet.
pub fn touching(s: &[u8], shape: u8, a: usize, b: usize) -> Fraction
    requires mark_size_in_bounds { (mark_size * a + mark_size ≤ length s.now) × (mark_size * b + mark_size ≤ length s.now) }
    requires a_bound { (used_at s.now a ≤ 16383) × (used_at s.now b ≤ 16383) }
    ensures { (result ≡ touching shape s.now a b) × Small result }
{
    touching_of(shape, label_at(s, a), label_at(s, b))
}

// ---- popups

// The k of mark m, by part 5: 0 where that part is not there.
pub fn popup_at(popups: &[u8], m: usize) -> u32
    requires { (length popups.now ≡ 0) ⊎ (popup_size * m + popup_size ≤ length popups.now) }
    ensures { result ≡ popup_at popups.now m }
{
    if popups.is_empty() {
        return 0;
    }
    numbers::read_u32(popups, POPUP_SIZE * m)
}

// The bytes of a popup, as part 5 has them.
pub fn popup_bytes(k: u32) -> [u8; POPUP_SIZE]
    ensures { result ≡ le_bytes popup_size k }
{
    k.to_le_bytes()
}

// The larger of two popups. Kept: the definition of the pair value names it.
pub fn larger(a: u32, b: u32) -> u32
    ensures { result ≡ larger a b }
{
    a.max(b)
}

// The pair value, from a touching value and the larger k of the two: the popup's value where it exceeds the touching value.
pub fn pair_of(f: Fraction, k: u32) -> Fraction
    requires { Small f × (k ≤ 65536) }
    ensures { (result ≡ pair_of f k) × Small result }
{
    let num = k as u64 * k as u64;
    let popup = Fraction { num, den: 4096 };
    if fractions::less_small(f, popup) {
        popup
    } else {
        f
    }
}

// The pair value of marks a and b. Part 5 is empty where it is not there, and then it is the touching value.
pub fn pair(s: &[u8], shape: u8, popups: &[u8], a: usize, b: usize) -> Fraction
    requires mark_size_in_bounds { (mark_size * a + mark_size ≤ length s.now) × (mark_size * b + mark_size ≤ length s.now) }
    requires a_bound { (used_at s.now a ≤ 16383) × (used_at s.now b ≤ 16383) × GoodPopup popups.now a × GoodPopup popups.now b }
    ensures { result ≡ pair_value shape s.now popups.now a b }
{
    let touch = touching(s, shape, a, b);
    if popups.is_empty() {
        return touch;
    }
    pair_of(touch, larger(popup_at(popups, a), popup_at(popups, b)))
}

// ---- rank

// What counts between equal priorities before the number: in edition 2 the used radius, in edition 1 nothing.
fn rank_radius(s: &[u8], edition: u8, m: usize) -> u16
    requires { mark_size * m + mark_size ≤ length s.now }
    ensures { result ≡ rank_radius edition s.now m }
{
    if edition == 2 {
        return radius_at(s, m);
    }
    0
}

// Does mark a rank higher than mark b? The radii are read only where the priorities are equal.
// Kept: two tests and no chain of `cmp` and `then_with`, which would take a closure for each step; a comparison of triples would read both radii.
pub fn outranks(s: &[u8], edition: u8, a: usize, b: usize) -> bool
    requires { (mark_size * a + mark_size ≤ length s.now) × (mark_size * b + mark_size ≤ length s.now) }
    ensures { result ≡ outranks edition s.now a b }
{
    let p = priority_at(s, a);
    let q = priority_at(s, b);
    if p != q {
        return q < p;
    }
    let u = rank_radius(s, edition, a);
    let v = rank_radius(s, edition, b);
    (v, a) < (u, b)
}

// The rank as one number, the smaller the higher.
pub fn rank_key(s: &[u8], edition: u8, m: usize) -> u64
    requires { (mark_size * m + mark_size ≤ length s.now) × (m < 4096) × (used_at s.now m ≤ 16383) }
    ensures { result ≡ rank_key edition s.now m }
{
    let priority = 65535 - priority_at(s, m) as u64;
    let radius = 16383 - rank_radius(s, edition, m) as u64;
    (priority * 16384 + radius) * 4096 + m as u64
}
