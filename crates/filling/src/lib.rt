// Filling: the same marks, each radius 0 written as the number in 01's old table. `s` is the marks' bytes and `m` a mark's number.
#![tactic(auto)]

ghost use Rattle.std.specs.Prelude.{◌≡◌, ◌+◌, ◌*◌, ◌≤◌, length};
ghost use Rattle.std.proofs.lemmas.List.Edits.{sets};
ghost use Rattle.marks.specs.Marks.{mark_size};
ghost use Rattle.rows.specs.Rows.{rows};
ghost use Rattle.filling.specs.Filling.{filled_radius, filled_mark};

use marks::{MARK_SIZE, PRIORITY_OFFSET, RADIUS_OFFSET};

// The radius that is written for this one.
fn filled_radius(radius: u16, kind: u8) -> u16
    ensures { result ≡ filled_radius radius kind }
{
    if radius == 0 {
        marks::old_radius(kind)
    } else {
        radius
    }
}

// Writes mark m at its place: what stands before its radius, the radius, and what stands behind it.
fn put_mark(out: &mut [u8], s: &[u8], m: usize)
    requires { (mark_size * m + mark_size ≤ length s.now) × (mark_size * m + mark_size ≤ length out.old) }
    ensures { out.new ≡ sets out.old (mark_size * m) (filled_mark s.now m) }
{
    let start = MARK_SIZE * m;
    let at = start + RADIUS_OFFSET;
    let behind = start + PRIORITY_OFFSET;
    let end = start + MARK_SIZE;
    let radius = filled_radius(marks::written_radius_at(s, m), marks::kind_at(s, m));
    joining::put(out, start, &s[start..at]);
    numbers::write(out, at, 2, radius as u64);
    joining::put(out, behind, &s[behind..end]);
}

// Writes n marks.
pub fn fill(out: &mut [u8], s: &[u8], n: usize)
    requires { (mark_size * n ≤ length s.now) × (mark_size * n ≤ length out.old) }
    ensures { out.new ≡ sets out.old 0 (rows (filled_mark s.now) n) }
{
    for m in 0..n {
        put_mark(out, s, m);
    }
}
