// An accepted sheet.
ghost use Rattle.std.specs.Prelude.{◌≡◌};
ghost use Rattle.contents.specs.Places.{layout_of};
ghost use Rattle.sheet.specs.Questions.{check};

use contents::Layout;

// A caller's bytes, which passed questions 1 to 9, with 19, 21, 23 and 24, and where the parts lie in them.
#[derive(Clone, Copy)]
pub struct Accepted<'a> {
    pub bytes: &'a [u8],
    pub layout: Layout,
    ghost passed: { check bytes.now ≡ 0 },
    ghost laid: { layout ≡ layout_of bytes.now },
}
