// The contents of a sheet: questions 1 to 3, and where the parts lie.
#![tactic(auto)]

ghost use Rattle.std.specs.Prelude.{◌≡◌, true, [], map, position, ℕ, ◌+◌, ◌<◌, ◌≤◌, eqb, ltb, is_some, IfSome, length, get_or, take};
ghost use Rattle.contents.specs.Contents.{codes_of, bodies_of, names, count_at, code_at, offset_at, length_at, contents_size, split};
ghost use Rattle.contents.specs.Contents.{together, find};
ghost use Rattle.contents.specs.Asking.{answer};
ghost use Rattle.contents.specs.Refusals.{number, told};
ghost use Rattle.contents.specs.Questions.{top_code, is_count, rising, codes_right, question1, question2, question3, contents_questions};
ghost use Rattle.contents.specs.Laid.{Whole, Laid};
ghost use Rattle.contents.specs.Places.{nowhere, extent_at, layout_of, no_parts, place_of, with_place, is_there, cut_of};

// ---- refusals

// What a call refuses, by the number of the question that was answered with 'no'.
#[derive(Clone, Copy, Debug, PartialEq, Eq)]
pub enum Refusal {
    Contents = 1,
    Codes = 2,
    Bodies = 3,
    MarksSize = 4,
    Kind = 5,
    Radius = 6,
    Sizes = 7,
    Schedule = 8,
    Index = 9,
    Unindexed = 10,
    WindowOrder = 11,
    Zoom = 12,
    Room = 13,
    Unprintable = 14,
    Packed = 15,
    Place = 16,
    NoSuchMark = 17,
    TooManyMarks = 18,
    Edition = 19,
    Window = 20,
    Popups = 21,
    NotOurs = 22,
    Counts = 23,
    Shape = 24,
}

impl Refusal {
    // The number that the interface gives.
    pub fn number(self) -> u32
        ensures { result ≡ number self }
    {
        self as u32
    }
}

// The greatest code of a part, and so the most parts that a sheet has.
pub const TOP: usize = 7;

// The codes of the parts.
pub const MARKS: u16 = 1;

pub const SCHEDULE: u16 = 2;

pub const INDEX: u16 = 3;

pub const EDITION: u16 = 4;

pub const POPUPS: u16 = 5;

pub const COUNTS: u16 = 6;

pub const SHAPE: u16 = 7;

// The sizes of the number of parts and of an entry, whose fields are code (2 bytes), offset (4) and length (4).
pub const COUNT_SIZE: usize = 2;

pub const ENTRY_SIZE: usize = 10;

pub const OFFSET: usize = 2;

pub const LENGTH: usize = 6;

// ---- the fields of the contents

// How many parts the contents name.
pub fn count_at(s: &[u8]) -> usize
    requires { 2 ≤ length s.now }
    ensures { result ≡ count_at s.now }
{
    numbers::read(s, 0, 2) as usize
}

// Kept: each of the three asks for its own entry, a bound on the number that it is handed and no fact about the bytes alone.
fn code_at(s: &[u8], i: usize) -> u16
    requires { contents_size (i + 1) ≤ length s.now }
    ensures { result ≡ code_at s.now i }
{
    numbers::read_u16(s, ENTRY_SIZE * i + COUNT_SIZE)
}

fn offset_at(s: &[u8], i: usize) -> u32
    requires { contents_size (i + 1) ≤ length s.now }
    ensures { result ≡ offset_at s.now i }
{
    numbers::read_u32(s, ENTRY_SIZE * i + COUNT_SIZE + OFFSET)
}

fn length_at(s: &[u8], i: usize) -> u32
    requires { contents_size (i + 1) ≤ length s.now }
    ensures { result ≡ length_at s.now i }
{
    numbers::read_u32(s, ENTRY_SIZE * i + COUNT_SIZE + LENGTH)
}

// ---- questions 1 to 3

// Question 1, of a number of parts alone.
pub fn is_count(k: usize) -> bool
    ensures { result ≡ is_count k }
{
    (1..=TOP).contains(&k)
}

// 1. Are there 2 bytes, 1 to 7 parts, and the whole contents?
fn has_contents(s: &[u8]) -> bool
    ensures { result ≡ question1 s.now }
{
    if s.len() < COUNT_SIZE {
        return false;
    }
    let count = count_at(s);
    is_count(count) && ENTRY_SIZE * count + COUNT_SIZE <= s.len()
}

// Does each code lie above the one before it, and none above the top code?
fn is_rising(codes: &[u16]) -> bool
    ensures { result ≡ rising 0 codes.now }
{
    let mut low = 0;
    for &code in codes {
        if code <= low || TOP < code as usize {
            return false;
        }
        low = code;
    }
    true
}

// Is this code among them?
pub fn names(codes: &[u16], code: u16) -> bool
    ensures { result ≡ names codes.now code }
{
    codes.contains(&code)
}

// 2, of codes: do they rise within 1 to the top code, is part 1 there, and are parts 3 and 6 only with part 2?
pub fn codes_right(codes: &[u16]) -> bool
    ensures { result ≡ codes_right codes.now }
{
    is_rising(codes)
        && names(codes, MARKS)
        && (names(codes, SCHEDULE) || !names(codes, INDEX) && !names(codes, COUNTS))
}

// The codes of the parts, in the order of their entries; 0 behind the last.
// Kept: an array with the number of parts beside it, since the promise `length result ≡ top_code` may not change.
pub fn codes_of(s: &[u8]) -> [u16; TOP]
    requires { Whole s.now }
    ensures { (length result ≡ top_code) × (take (count_at s.now) result ≡ codes_of (split s.now)) }
{
    let count = count_at(s);
    let mut codes = [0; TOP];
    for i in 0..count {
        codes[i] = code_at(s, i);
    }
    codes
}

// 2. Are the codes right?
// Kept: `Whole` stands in the clauses of five functions of a line or two; a struct of one slice would be no plainer than the slice.
fn has_codes(s: &[u8]) -> bool
    requires { Whole s.now }
    ensures { result ≡ question2 s.now }
{
    let count = count_at(s);
    let codes = codes_of(s);
    codes_right(&codes[..count])
}

// 3. Does each body start where the last ended, and does the last end with the sheet? An end may need 33 bits, so that one
// which would wrap at 32 is told apart.
fn bodies_join(s: &[u8]) -> bool
    requires { Whole s.now }
    ensures { result ≡ question3 s.now }
{
    let count = count_at(s);
    let mut start = ENTRY_SIZE * count + COUNT_SIZE;
    for i in 0..count {
        if offset_at(s, i) as usize != start {
            return false;
        }
        start += length_at(s, i) as usize;
    }
    start == s.len()
}

// Questions 1 to 3: the first 'no' refuses.
pub fn check_contents(s: &[u8]) -> Result<(), Refusal>
    ensures { told result ≡ answer (contents_questions s.now) }
{
    if !has_contents(s) {
        return Err(Refusal::Contents);
    }
    if !has_codes(s) {
        return Err(Refusal::Codes);
    }
    if !bodies_join(s) {
        return Err(Refusal::Bodies);
    }
    Ok(())
}

// ---- where the parts lie

// A part's place in the sheet. By default it has 0 bytes at 0, where the contents stand: such is a part that is not there.
#[repr(C)]
#[derive(Clone, Copy, Debug, Default, PartialEq, Eq)]
pub struct Extent {
    pub offset: u32,
    pub length: u32,
}

impl Extent {
    // Is the part there? No body starts at 0, where the contents stand.
    pub fn is_there(self) -> bool
        ensures { result ≡ ltb 0 self.offset }
    {
        0 < self.offset
    }
}

// How many parts there are, and where each lies, by its code.
#[derive(Clone, Copy, Debug, Default, PartialEq, Eq)]
pub struct Layout {
    pub count: usize,
    pub marks: Extent,
    pub schedule: Extent,
    pub index: Extent,
    pub edition: Extent,
    pub popups: Extent,
    pub counts: Extent,
    pub shape: Extent,
}

// Where body i lies, by the contents.
fn extent_at(s: &[u8], i: usize) -> Extent
    requires { Whole s.now }
    ensures { result ≡ extent_at s.now i }
{
    if i < count_at(s) {
        Extent {
            offset: offset_at(s, i),
            length: length_at(s, i),
        }
    } else {
        Extent::default()
    }
}

// No parts.
pub fn no_parts() -> Layout
    ensures { result ≡ no_parts }
{
    Layout::default()
}

// Puts a place under the code of its part. No part has another code.
fn set_place(layout: &mut Layout, code: u16, place: Extent)
    ensures { layout.new ≡ with_place layout.old code place }
{
    match code {
        MARKS => layout.marks = place,
        SCHEDULE => layout.schedule = place,
        INDEX => layout.index = place,
        EDITION => layout.edition = place,
        POPUPS => layout.popups = place,
        COUNTS => layout.counts = place,
        SHAPE => layout.shape = place,
        _ => {}
    }
}

// Where all parts lie, by the contents.
pub fn layout_of(s: &[u8]) -> Layout
    requires { Whole s.now }
    ensures { result ≡ layout_of s.now }
{
    let count = count_at(s);
    let mut layout = Layout {
        count,
        ..no_parts()
    };
    for i in 0..count {
        set_place(&mut layout, code_at(s, i), extent_at(s, i));
    }
    layout
}

// Where the part of this code lies, by a layout.
pub fn place_of(l: Layout, code: u32) -> Extent
    ensures { result ≡ place_of l code }
{
    match u16::try_from(code) {
        Ok(MARKS) => l.marks,
        Ok(SCHEDULE) => l.schedule,
        Ok(INDEX) => l.index,
        Ok(EDITION) => l.edition,
        Ok(POPUPS) => l.popups,
        Ok(COUNTS) => l.counts,
        Ok(SHAPE) => l.shape,
        _ => Extent::default(),
    }
}

// Is the part of this code there, by a layout?
pub fn is_there(l: Layout, code: u32) -> bool
    ensures { result ≡ is_there l code }
{
    place_of(l, code).is_there()
}

// The bytes at a place, and none where it does not lie in the sheet.
pub fn cut(s: &[u8], e: Extent) -> &[u8]
    ensures { result.now ≡ cut_of s.now e }
{
    let from = e.offset as usize;
    let end = from + e.length as usize;
    s.get(from..end).unwrap_or(&[])
}

// The bytes of the part of this code, by a layout, which may be any.
pub fn part(s: &[u8], l: Layout, code: u32) -> &[u8]
    ensures { result.now ≡ cut_of s.now (place_of l code) }
{
    cut(s, place_of(l, code))
}

// Body i, of a sheet whose contents are right.
pub fn body(s: &[u8], i: usize) -> &[u8]
    requires { Laid s.now }
    ensures { result.now ≡ get_or (bodies_of (split s.now)) i [] }
{
    cut(s, extent_at(s, i))
}

// ---- bodies that are lent one beside the other, under the codes beside them

// Where the first of these codes is this one.
fn position_of(codes: &[u16], code: u16) -> Option<usize>
    ensures { result ≡ position (λ c. eqb c code) codes.now }
{
    codes.iter().position(|c| *c == code)
}

// The body under this code, where there is one.
// Kept: codes and bodies side by side, as the C interface lends them.
pub fn body_under<'b>(codes: &[u16], bodies: &[&'b [u8]], code: u16) -> Option<&'b [u8]>
    requires { length codes.now ≡ length bodies.now }
    ensures there { is_some result ≡ names codes.now code }
    ensures body { IfSome result (λ b. b.now ≡ find (together codes.now (map (λ x. x.now) bodies.now)) code) }
{
    let i = position_of(codes, code)?;
    Some(bodies[i])
}

// The same, and no bytes where there is none.
pub fn find<'b>(codes: &[u16], bodies: &[&'b [u8]], code: u16) -> &'b [u8]
    requires { length codes.now ≡ length bodies.now }
    ensures { result.now ≡ find (together codes.now (map (λ x. x.now) bodies.now)) code }
{
    body_under(codes, bodies, code).unwrap_or(&[])
}
