// Numbers as text in a lent buffer.
#![tactic(auto)]

ghost use Rattle.std.specs.Prelude.{[], ◌∷◌, ◌++◌, ◌+◌, ◌≤◌, length};
ghost use Rattle.text.specs.Text.{decimal, number_room, Wrote};

// Writes v and one byte more; gives the place behind them.
pub fn put_number(out: &mut [u8], at: usize, v: u64, end: u8) -> usize
    requires { at + number_room ≤ length out.old }
    ensures { Wrote out.old out.new at (decimal v ++ (end ∷ [])) result }
{
    let mut buffer = itoa::Buffer::new();
    let digits = buffer.format(v).as_bytes();
    let last = at + digits.len();
    out[at..last].copy_from_slice(digits);
    out[last] = end;
    last + 1
}
