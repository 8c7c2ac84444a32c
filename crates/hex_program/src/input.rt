// What the arguments ask for, and the text that the first names. What can't be read, and any other arguments, get a message on standard
// error.
use crate::number;
use memory_address::{Group, Module};
use recipe::Numbers;

// Says how the program is called.
fn usage(rt: &HostRuntime) {
    program_io::tell(
        rt,
        b"usage: hex FILE MODULE GROUP [RECIPE] (- is standard input; numbers 0 to 255, or 0x00 to 0xFF)\n",
    );
}

// The number that an argument writes.
fn number_argument(rt: &HostRuntime, i: usize) -> Option<u8> {
    let mut word = [0u8; 4096];
    let n = program_io::arg(rt, i, &mut word).ok()?;
    number::number(&word[..n])
}

// The numbers of module and group, from the second and the third argument, where a file stands before them and at most one behind.
fn numbers(rt: &HostRuntime) -> Option<Numbers> {
    let count = program_io::arg_count(rt);
    if count < 4 || count > 5 {
        return None;
    }
    if program_io::is_dashed(rt, 1, 1) {
        return None;
    }
    if count == 5 && program_io::is_dashed(rt, 4, 0) {
        return None;
    }
    let module = number_argument(rt, 2)?;
    let group = number_argument(rt, 3)?;
    Some(Numbers {
        module: Module(module),
        group: Group(group),
    })
}

// The numbers that the arguments ask for a recipe of; none where they ask for nothing that can be done, which is said.
pub fn arguments(rt: &HostRuntime) -> Option<Numbers> {
    let asked = numbers(rt);
    if asked.is_none() {
        usage(rt);
    }
    asked
}

// Reads as much of the text as buf holds, from what the first argument names.
// The array goes whole: a caller that lends one of this size as a slice runs the check out of stack.
pub fn read_text(rt: &HostRuntime, buf: &mut [u8; 1048577]) -> Option<usize> {
    program_io::read_argument(rt, 1, buf)
}
