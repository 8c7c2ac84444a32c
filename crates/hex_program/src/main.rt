// Converts a file of Intel HEX records into a recipe (document 02, A5): hex FILE MODULE GROUP [RECIPE]. Arguments and reading are in input,
// writing in output; what is done is proved in the crates below. The program's status tells nothing: it says something on standard error
// exactly where no recipe was made, or not all of it written, as far as the system says as it is written. But where nobody reads what it
// writes it says nothing, and ends with 141.
#![tactic(auto)]

mod input;
mod number;
mod output;

ghost use Rattle.std.specs.Prelude.{◌≤◌, length};

use recipe::Numbers;
use std::process::ExitCode;

// The longest text that is converted, in bytes.
const MOST: usize = 1048576;

// The bytes that are asked for: one more, to tell a longer file.
const ASKED: usize = 1048577;

// The room for a recipe: 1,024 Blocks of 68 bytes, 128 Rows of 12, Open and Leave. No recipe has more.
const ROOM: usize = 71172;

// Converts a text and writes the recipe, or says which line is refused and why. The room does (proofs/HasRoom.antt).
fn convert(rt: &HostRuntime, text: &[u8], numbers: Numbers) -> ExitCode
    requires { length text.now ≤ 1048576 }
{
    let mut recipe = [0u8; ROOM];
    match hex_read::convert(text, numbers, &mut recipe) {
        Ok(size) => output::write_recipe(rt, &recipe[..size]),
        Err(refusal) => output::refuse(rt, refusal),
    }
}

// Converts the first n bytes, or says that the file is too long.
fn convert_first(rt: &HostRuntime, bytes: &[u8], n: usize, numbers: Numbers) -> ExitCode
    requires { 1048577 ≤ length bytes.now }
{
    if n > MOST {
        return output::refuse_long(rt);
    }
    convert(rt, &bytes[..n], numbers)
}

// The same of all that was asked for, an array that goes whole, as in input::read_text.
fn convert_asked(rt: &HostRuntime, bytes: &[u8; ASKED], n: usize, numbers: Numbers) -> ExitCode {
    convert_first(rt, bytes, n, numbers)
}

// Converts what the first argument names, for these numbers.
fn convert_file(rt: &HostRuntime, numbers: Numbers) -> ExitCode {
    let mut bytes = [0u8; ASKED];
    match input::read_text(rt, &mut bytes) {
        Some(n) => convert_asked(rt, &bytes, n, numbers),
        None => ExitCode::SUCCESS,
    }
}

fn main(rt: HostRuntime) -> ExitCode {
    match input::arguments(&rt) {
        Some(numbers) => convert_file(&rt, numbers),
        None => ExitCode::SUCCESS,
    }
}
