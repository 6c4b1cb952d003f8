// What a search goes by.
ghost use Rattle.std.specs.Prelude.{◌≤◌};
ghost use Rattle.zoom.specs.Zoom.{largest_scale};
ghost use Rattle.reaching.specs.Turning.{Edged};

use reaching::Bounds;

// The bytes of parts 1, 2, 5 and 3 of a sheet, the shape of the labels, the zoom as k = 64z, the edges of the window, which decide who is
// shown, and the bounds, which decide which halves are searched. The zoom is one that is taken, and the edges are those of a window.
#[derive(Clone, Copy)]
pub(crate) struct Query<'a> {
    pub(crate) marks: &'a [u8],
    pub(crate) shape: u8,
    pub(crate) schedule: &'a [u8],
    pub(crate) popups: &'a [u8],
    pub(crate) index: &'a [u8],
    pub(crate) k: u32,
    pub(crate) edges: Bounds,
    pub(crate) bounds: Bounds,
    ghost taken: { k ≤ largest_scale },
    ghost edged: { Edged edges },
}
