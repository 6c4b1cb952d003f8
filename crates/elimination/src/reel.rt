// The reel: everything that decides a schedule, as code hands it on. What it holds is specs Reel's `Reel` (specs Lent).
ghost use Rattle.marks.specs.Good.{GoodMarks};

// The bytes of part 1, the number of marks that they hold, the edition of the marking handbook that ranks them, the shape of their labels, and
// the bytes of part 5, empty where it is not there. The marks are good.
#[derive(Clone, Copy)]
pub struct Reel<'a> {
    pub marks: &'a [u8],
    pub count: usize,
    pub edition: u8,
    pub shape: u8,
    pub popups: &'a [u8],
    ghost good: { GoodMarks marks.now count },
}
