// Part 2 of a sheet, the schedule: its records, read and written. Who goes, when and by whom is defined in specs/; crate `scheduling` works it out.
#![tactic(auto)]

ghost use Rattle.std.specs.Prelude.{◌≡◌, ◌+◌, ◌*◌, ◌≤◌, length};
ghost use Rattle.std.proofs.lemmas.List.Edits.{sets};
ghost use Rattle.elimination.specs.Records.{record_size, record_at, record_bytes, fraction_of, is_never, value_of, value_at};

use fractions::{Fraction, Value};

mod reel;

pub use reel::Reel;

// The bytes of a record, and where the fields behind the eliminator begin.
pub const RECORD_SIZE: usize = 14;

const NUM_OFFSET: usize = 2;

const DEN_OFFSET: usize = 10;

// A record: who removes the mark, and where. The eliminator is wider than its two bytes, so that the struct has no padding and stays in
// registers.
#[derive(Clone, Copy, Debug, PartialEq, Eq)]
pub struct Record {
    pub num: u64,
    pub den: u32,
    pub eliminator: u32,
}

// 01: "Never removed: 65,535, 0, 0."
pub const NEVER: Record = Record {
    num: 0,
    den: 0,
    eliminator: 65535,
};

// The record that stands at `at`.
pub fn record_at(s: &[u8], at: usize) -> Record
    requires { at + record_size ≤ length s.now }
    ensures { result ≡ record_at s.now at }
{
    Record {
        num: numbers::read(s, at + NUM_OFFSET, 8),
        den: numbers::read_u32(s, at + DEN_OFFSET),
        eliminator: numbers::read_u16(s, at) as u32,
    }
}

// Writes a record at `at`.
pub fn put_record(s: &mut [u8], at: usize, r: Record)
    requires { at + record_size ≤ length s.old }
    ensures { s.new ≡ sets s.old at (record_bytes r) }
{
    numbers::write(s, at, 2, r.eliminator as u64);
    numbers::write(s, at + NUM_OFFSET, 8, r.num);
    numbers::write(s, at + DEN_OFFSET, 4, r.den as u64);
}

// The two numbers of a record as they stand.
pub fn fraction_of(r: Record) -> Fraction
    ensures { result ≡ fraction_of r }
{
    Fraction {
        num: r.num,
        den: r.den,
    }
}

// Is it the 'never' record?
#[tactic(auto, unfolding(crate::specs::Records::is_never))]
pub fn is_never(r: Record) -> bool
    ensures { result ≡ is_never r }
{
    r == NEVER
}

// The removal value that a record names.
pub fn value_of(r: Record) -> Value
    ensures { result ≡ value_of r }
{
    if r.den == 0 {
        return Value::Never;
    }
    Value::At(fraction_of(r))
}

// The same of mark m's record.
pub fn value_at(schedule: &[u8], m: usize) -> Value
    requires { record_size * m + record_size ≤ length schedule.now }
    ensures { result ≡ value_at schedule.now m }
{
    value_of(record_at(schedule, RECORD_SIZE * m))
}
