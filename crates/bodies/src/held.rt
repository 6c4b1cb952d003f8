// What a sheet holds: its codes, and a body under each.
ghost use Rattle.std.specs.Prelude.{◌≡◌, map, length};
ghost use Rattle.contents.specs.Contents.{together};
ghost use Rattle.bodies.specs.Fitting.{Marked};

// Part 1 has `count` marks, each of them right.
#[derive(Clone, Copy)]
pub struct Held<'a, 'b, 'c> {
    pub codes: &'a [u16],
    pub bodies: &'b [&'c [u8]],
    pub count: usize,
    ghost paired: { length codes.now ≡ length bodies.now },
    ghost marked: { Marked (together codes.now (map (λ x. x.now) bodies.now)) count },
}
