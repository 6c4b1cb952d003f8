// Prints the schedule of the sheet on standard input. A read or a write that fails is told on standard error; a program of Rattle has no
// other status than 0.
#![tactic(auto)]

ghost use Rattle.std.specs.Prelude.{◌<◌, ◌≤◌, length};
ghost use Rattle.report.specs.Text.{longest_input};
ghost use Rattle.report.specs.Printing.{Room};
ghost use Rattle.schedule.specs.Reading.{Told, Reported};

use std::io::{self, Print, Read};

// The buffers of `MARKS` marks: 32 bytes of work each and 1,024, 14 bytes a record, 105 bytes a line and 29 for the first line.
const MARKS: usize = 2000;

const WORK: usize = 32 * MARKS + 1024;

const SCHEDULE: usize = 14 * MARKS;

const TEXT: usize = 105 * MARKS + 29;

// Reads until the input ends or the room is full. The room has a byte more than an input may have, so that a longer one is seen to be longer.
// Kept: the loop ends with the input, and counts no index.
fn read_input<R: Read>(from: &mut R, room: &mut [u8]) -> io::Result<usize>
    requires { longest_input < length room.old }
    ensures { Told result room.new }
{
    let mut size = 0;
    while size < room.len() {
        let more = from.read(&mut room[size..])?;
        if more == 0 {
            break;
        }
        size += more;
    }
    Ok(size)
}

// The text for what was read, at the start of `out`; gives its length. Where a read failed, there is none: what came before is not the input.
fn print_read(
    reading: &io::Result<usize>,
    input: &[u8],
    work: &mut [u8],
    schedule: &mut [u8],
    out: &mut [u8],
) -> usize
    requires { Told reading.now input.now × Room work.old schedule.old out.old }
    ensures { Reported reading.now input.now work.old schedule.old out.old result work.new schedule.new out.new }
{
    match reading {
        Ok(size) => report::print(&input[..*size], work, schedule, out),
        Err(_) => 0,
    }
}

// Says on standard error what failed, where something did.
fn complain(rt: &HostRuntime, is_read: bool, is_written: bool) {
    if !is_read {
        let _ = rt.stderr().write_all(
            b"schedule: standard input cannot be read; nothing is printed\n",
        );
        return;
    }
    if !is_written {
        let _ = rt.stderr().write_all(
            b"schedule: standard output cannot be written; what is printed is not whole\n",
        );
    }
}

fn main(rt: HostRuntime) {
    let mut input = [0u8; 65537];
    let reading = read_input(&mut rt.stdin(), &mut input);
    let mut work = [0u8; WORK];
    let mut schedule = [0u8; SCHEDULE];
    let mut out = [0u8; TEXT];
    let length = print_read(&reading, &input, &mut work, &mut schedule, &mut out);
    let is_written = rt.stdout().write_all(&out[..length]).is_ok();
    complain(&rt, reading.is_ok(), is_written);
}
