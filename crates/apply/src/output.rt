// What is printed, on standard output. Where a write fails the rest is left out, with a message on standard error. What is printed for main
// answers the status that the program ends with.
ghost use Rattle.std.specs.Prelude.{◌≤◌};
ghost use Rattle.recipe.specs.Translation.{fault_number};

use recipe::Refusal;
use std::io;
use std::io::Print;
use std::process::ExitCode;

// The upper-case hex digits.
const DIGITS: [u8; 16] = *b"0123456789ABCDEF";

// Prints a blank and the byte as a pair of digits. By hand: a `print!` for each byte would take most of a run.
fn print_pair(rt: &HostRuntime, b: u8) -> io::Result<()> {
    let high = DIGITS[(b / 16) as usize];
    let low = DIGITS[(b % 16) as usize];
    rt.write_all(&[b' ', high, low])
}

// Prints a frame's line: the number and, where there is one, the reply, the last 12 of the 14 bytes that are told of the frame.
fn print_line(rt: &HostRuntime, told: &[u8]) -> io::Result<()> {
    rt.print(base::byte_at(told, 0))?;
    if base::byte_at(told, 1) > 0 {
        for b in told.iter().skip(2) {
            print_pair(rt, *b)?;
        }
    }
    rt.write_all(b"\n")
}

// Prints a line for each frame; 14 bytes are told of each.
fn print_lines(rt: &HostRuntime, answers: &[u8]) -> io::Result<()> {
    for told in answers.chunks_exact(14) {
        print_line(rt, told)?;
    }
    Ok(())
}

// Says why, where the output could not be written.
fn say(rt: &HostRuntime, written: io::Result<()>) -> ExitCode {
    match written {
        Ok(()) => ExitCode::SUCCESS,
        Err(error) => program_io::unwritten(rt, b"standard output", error),
    }
}

// Prints the answers to the frames, 14 bytes for each.
pub fn print_answers(rt: &HostRuntime, answers: &[u8]) -> ExitCode {
    say(rt, print_lines(rt, answers))
}

// Prints a refusal of the recipe: its number and place on one line. There are 20 to 24: no file is long enough for 25, and the room does.
pub fn print_refusal(rt: &HostRuntime, refusal: Refusal) -> ExitCode
    requires { (20 ≤ fault_number refusal.fault) × (fault_number refusal.fault ≤ 24) }
{
    let place = refusal.place;
    say(rt, println!(rt; "{} {place}", refusal.fault.number()))
}

// Prints that the file is too long.
pub fn print_long(rt: &HostRuntime) -> ExitCode {
    say(rt, println!(rt; "long"))
}
