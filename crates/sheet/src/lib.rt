// A whole sheet: checking, putting together and opening.
#![tactic(auto)]

ghost use Rattle.std.specs.Prelude.{◌≡◌, true, map, length};
ghost use Rattle.contents.specs.Contents.{together, split};
ghost use Rattle.contents.specs.Questions.{codes_right};
ghost use Rattle.contents.specs.Places.{place_of, cut_of};
ghost use Rattle.marks.specs.Pairs.{GoodPopups};
ghost use Rattle.elimination.specs.Lent.{lent};
ghost use Rattle.bodies.specs.Questions.{reel_of};
ghost use Rattle.sheet.specs.Questions.{check};
ghost use Rattle.contents.specs.Refusals.{told};
ghost use Rattle.sheet.specs.Opened.{opened, indexed, found_of};
ghost use Rattle.sheet.specs.Assembled.{Assembling};

use contents::{Extent, Layout, Refusal, TOP};
use elimination::Reel;
use marks::MARK_SIZE;
use std::array;

mod accepted;

pub use accepted::Accepted;

// ---- checking

// Questions 1 to 9, with 19, 21, 23 and 24.
pub fn check(s: &[u8]) -> Result<(), Refusal>
    ensures { told result ≡ check s.now }
{
    contents::check_contents(s)?;
    let count = contents::count_at(s);
    let codes = contents::codes_of(s);
    // Those behind the last part are empty.
    let lent: [&[u8]; TOP] = array::from_fn(|i| contents::body(s, i));
    bodies::check_bodies(&codes[..count], &lent[..count])
}

// ---- putting together

// Puts the bodies under these codes, which are right, together: questions 4 to 9 and 13, and then the sheet. Answers its length.
pub fn assemble(codes: &[u16], bodies: &[&[u8]], out: &mut [u8]) -> Result<u32, Refusal>
    requires { (length codes.now ≡ length bodies.now) × (codes_right codes.now ≡ true) }
    ensures { Assembling (together codes.now (map (λ x. x.now) bodies.now)) out.old result out.new }
{
    bodies::check_bodies(codes, bodies)?;
    if !joining::has_room(codes, bodies, out.len()) {
        return Err(Refusal::Room);
    }
    Ok(joining::put_parts(out, codes, bodies) as u32)
}

// ---- the opened sheet

// Where the parts of an accepted sheet lie.
pub fn opened(s: &[u8]) -> Result<Layout, Refusal>
    ensures { found_of result ≡ opened s.now }
{
    check(s)?;
    Ok(contents::layout_of(s))
}

// The same of 1 to 10: an accepted sheet that lacks part 2 or part 3 is refused too.
pub fn indexed(s: &[u8]) -> Result<Layout, Refusal>
    ensures { found_of result ≡ indexed s.now }
{
    let layout = opened(s)?;
    if layout.schedule.is_there() && layout.index.is_there() {
        Ok(layout)
    } else {
        Err(Refusal::Unindexed)
    }
}

impl<'a> Accepted<'a> {
    // Its reel.
    pub fn reel(&self) -> Reel<'a>
        ensures reel { lent result ≡ reel_of (split self.now.bytes.now) }
        ensures popped { GoodPopups result.popups.now result.count }
    {
        let marks = contents::cut(self.bytes, self.layout.marks);
        Reel {
            marks,
            count: marks.len() / MARK_SIZE,
            edition: parts::choice_of(contents::cut(self.bytes, self.layout.edition)),
            shape: parts::choice_of(contents::cut(self.bytes, self.layout.shape)),
            popups: contents::cut(self.bytes, self.layout.popups),
        }
    }
}

// Where the parts of a sheet lie.
fn layout_of(s: &[u8]) -> Layout
    ensures { result ≡ (opened s.now).layout }
{
    opened(s).unwrap_or(contents::no_parts())
}

// Where the part of this code lies in an accepted sheet.
pub fn place_of(s: &[u8], code: u32) -> Extent
    ensures { result ≡ place_of (opened s.now).layout code }
{
    contents::place_of(layout_of(s), code)
}

// An opened sheet: the caller's bytes, and where the parts lie in them.
#[derive(Clone, Copy)]
pub struct Sheet<'a> {
    pub bytes: &'a [u8],
    pub layout: Layout,
}

// A refused sheet opens with no parts.
pub fn open<'a>(bytes: &'a [u8]) -> Sheet<'a>
    ensures { (result.bytes ≡ bytes.entry) × (result.layout ≡ (opened bytes.now).layout) }
{
    Sheet {
        bytes,
        layout: layout_of(bytes),
    }
}

// How many parts an opened sheet has.
pub fn part_count<'a>(sheet: Sheet<'a>) -> usize
    ensures { result ≡ sheet.entry.layout.count }
{
    sheet.layout.count
}

// The bytes of the part of this code.
pub fn part<'a>(sheet: Sheet<'a>, code: u32) -> &'a [u8]
    ensures { result.now ≡ cut_of sheet.entry.bytes.now (place_of sheet.entry.layout code) }
{
    contents::part(sheet.bytes, sheet.layout, code)
}
