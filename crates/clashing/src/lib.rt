// Does one mark clash with another that is judged? An `axis` is true for x. What the search for those that clash may leave out is here too.
#![tactic(auto)]

ghost use Rattle.std.specs.Prelude.{◌≡◌, false, cond, ◌+◌, ◌*◌, ◌<◌, ◌≤◌, length};
ghost use Rattle.fractions.specs.Order.{less, Small};
ghost use Rattle.marks.specs.Pairs.{popup_value, pair_value};
ghost use Rattle.elimination.specs.Lent.{lent};
ghost use Rattle.elimination.specs.Records.{record_size, eliminator_at};
ghost use Rattle.clashing.specs.Clash.{widest_radius, limit_at, clash, subject_of, Subjectable, Subjected, Fits};
ghost use Rattle.clashing.specs.Cuts.{is_over, gap_to, size_to_search};

use elimination::RECORD_SIZE;
use fractions::Fraction;
use marks::Label;

mod proposal;

pub use proposal::Proposal;

// ---- records

// The removal value that a record names, as a fraction: 'never' is 1/0.
pub fn limit_at(schedule: &[u8], m: usize) -> Fraction
    requires { record_size * m + record_size ≤ length schedule.now }
    ensures { result ≡ limit_at schedule.now m }
{
    let f = elimination::fraction_of(elimination::record_at(schedule, RECORD_SIZE * m));
    if f.den == 0 {
        Fraction { num: 1, den: 0 }
    } else {
        f
    }
}

// The mark that a record names.
fn eliminator_at(schedule: &[u8], m: usize) -> usize
    requires { record_size * m + record_size ≤ length schedule.now }
    ensures { result ≡ eliminator_at schedule.now m }
{
    elimination::record_at(schedule, RECORD_SIZE * m).eliminator as usize
}

// ---- the mark that others are held against

// Mark m, with what is asked of it at each of the others: its label, its removal value, whether that is its
// popup's, the shape of all labels, its place as the index orders places, and the square of its radius with the bound.
#[derive(Clone, Copy)]
pub struct Subject {
    pub m: usize,
    pub label: Label,
    pub value: Fraction,
    pub tight: bool,
    pub shape: u8,
    pub x: u64,
    pub y: u64,
    pub reach: u32,
}

// The value at which a mark with this k pops up.
fn popup_value(k: u32) -> Fraction
    requires { k ≤ 65536 }
    ensures { (result ≡ popup_value k) × Small result }
{
    let num = k as u64 * k as u64;
    Fraction { num, den: 4096 }
}

// Mark m, with what is asked of it: the bound is one of the radii that it may meet.
pub fn subject_of(
    marks: &[u8],
    shape: u8,
    popups: &[u8],
    schedule: &[u8],
    bound: u16,
    m: usize,
) -> Subject
    requires { Subjectable marks.now popups.now schedule.now bound m }
    ensures { (result ≡ subject_of shape marks.now popups.now schedule.now bound m) × Fits result }
{
    let radii = marks::radius_at(marks, m) as u32 + bound as u32;
    let value = limit_at(schedule, m);
    let popup = popup_value(marks::popup_at(popups, m));
    Subject {
        m,
        label: marks::label_at(marks, m),
        value,
        tight: !fractions::less_small(popup, value),
        shape,
        x: index::coordinate(marks, true, m),
        y: index::coordinate(marks, false, m),
        reach: radii * radii,
    }
}

impl Subject {
    // Its place on an axis.
    fn place_on(self, axis: bool) -> u64
        ensures { result ≡ cond axis self.x self.y }
    {
        if axis { self.x } else { self.y }
    }

    // How many of the `size` numbers of a half are searched: all, or none where it lies too far for any of them to touch m in time. A pair value
    // is no less than the touching value, so that popups bring nobody nearer.
    pub fn size_to_search(self, axis: bool, left: bool, split: u16, size: usize) -> usize
        requires { Fits self }
        ensures { result ≡ size_to_search self axis left split size }
    {
        let d = gap_to(left, self.place_on(axis), split as u64);
        let edge = Fraction {
            num: d * d,
            den: self.reach,
        };
        if fractions::less_small(self.value, edge) {
            0
        } else {
            size
        }
    }
}

// ---- a proposal

impl Proposal<'_> {
    // The subject of one of the reel's marks.
    pub fn subject_of(&self, bound: u16, m: usize) -> Subject
        requires { (bound ≤ widest_radius) × (m < self.now.reel.count) }
        ensures { (result ≡ subject_of self.now.reel.shape self.now.reel.marks.now self.now.reel.popups.now self.now.schedule.now bound m) × Fits result }
    {
        subject_of(
            self.reel.marks,
            self.reel.shape,
            self.reel.popups,
            self.schedule,
            bound,
            m,
        )
    }

    // The pair value of mark g and the subject.
    fn pair_with(&self, q: Subject, g: usize) -> Fraction
        requires { Subjected self.now.reel.marks.now self.now.reel.count self.now.schedule.now q × (g < self.now.reel.count) × (q.shape ≡ self.now.reel.shape) }
        ensures { (result ≡ pair_value self.now.reel.shape self.now.reel.marks.now self.now.reel.popups.now g q.m) × Small result }
    {
        let touch = marks::touching_of(q.shape, marks::label_at(self.reel.marks, g), q.label);
        let popups = self.reel.popups;
        if popups.is_empty() {
            return touch;
        }
        let k = marks::larger(marks::popup_at(popups, g), marks::popup_at(popups, q.m));
        marks::pair_of(touch, k)
    }

    // Does mark g, which is removed at w and not before the subject, clash with it? Their pair value is below the subject's removal value, or it
    // is that value and the subject should have named g.
    // Kept: `Subjected` ties the subject to the proposal in each clause: a subject is made once and held against many marks.
    pub fn clashes_standing(&self, q: Subject, g: usize, w: Fraction) -> bool
        requires asked { Subjected self.now.reel.marks.now self.now.reel.count self.now.schedule.now q × (g < self.now.reel.count) × (q.shape ≡ self.now.reel.shape) }
        requires w_value { (w ≡ limit_at self.now.schedule.now g) × (less w q.value ≡ false) }
        ensures { result ≡ clash (lent self.now.reel) self.now.schedule.now q.m g }
    {
        if g == q.m {
            return false;
        }
        let marks = self.reel.marks;
        let edition = self.reel.edition;
        let v = q.value;
        let f = self.pair_with(q, g);
        fractions::less_small(f, v)
            || !fractions::less_small(v, f)
                && fractions::less_small(f, w)
                && marks::outranks(marks, edition, g, q.m)
                && marks::outranks(marks, edition, g, eliminator_at(self.schedule, q.m))
    }

    // Does mark g clash with the subject?
    pub fn clashes(&self, q: Subject, g: usize) -> bool
        requires { Subjected self.now.reel.marks.now self.now.reel.count self.now.schedule.now q × (g < self.now.reel.count) × (q.shape ≡ self.now.reel.shape) }
        ensures { result ≡ clash (lent self.now.reel) self.now.schedule.now q.m g }
    {
        let w = limit_at(self.schedule, g);
        !fractions::less_small(w, q.value) && self.clashes_standing(q, g, w)
    }
}

// ---- what the search may leave out

// Is a mark with the value w removed at 0, or before one with v, or no later than that one where it is tight? Then nobody under it clashes.
pub fn is_over(tight: bool, w: Fraction, v: Fraction) -> bool
    requires { Small w × Small v }
    ensures { result ≡ is_over tight w v }
{
    if w.num == 0 {
        return true;
    }
    if tight {
        !fractions::less_small(v, w)
    } else {
        fractions::less_small(w, v)
    }
}

// How far a half lies from the place, at least.
fn gap_to(left: bool, place: u64, split: u64) -> u64
    ensures { result ≡ gap_to left place split }
{
    if left {
        place.saturating_sub(split)
    } else {
        split.saturating_sub(place)
    }
}
