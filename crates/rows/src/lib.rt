// Rows of bytes of one width, one behind the other: a row taken out of them. Definitions and laws serve all jobs that read and write row by
// row.
#![tactic(auto)]

ghost use Rattle.std.specs.Prelude.{◌≡◌, ◌+◌, ◌*◌, ◌<◌, take, drop};

// The rows before row m; all where there are fewer.
pub fn before<'a>(s: &'a [u8], width: usize, m: usize) -> &'a [u8]
    requires { width * m < 18446744073709551616 }
    ensures { result.now ≡ take (width * m) s.now }
{
    s.get(..width * m).unwrap_or(s)
}

// The rows behind row m; none where there are fewer.
pub fn behind<'a>(s: &'a [u8], width: usize, m: usize) -> &'a [u8]
    requires { width * m + width < 18446744073709551616 }
    ensures { result.now ≡ drop (width * m + width) s.now }
{
    s.get(width * m + width..).unwrap_or(&[])
}
