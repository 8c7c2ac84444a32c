// Makes a recipe shorter by an image of the node's FLASH (document 02, A6): differences RECIPE IMAGE [OUT]. Arguments and reading are in
// input, writing in output; what is done is proved in the crates below. The program's status tells nothing: the first line on standard
// error is `N erases` exactly where a recipe was made and all of it written, as far as the system says as it is written. But where nobody
// reads what it writes it ends with 141.
#![tactic(auto)]

mod input;
mod output;

ghost use Rattle.std.specs.Prelude.{◌≤◌, length};

use std::process::ExitCode;

// The longest recipe, in bytes: Open, 2,046 Blocks of 68 bytes and Leave. Clauses say it, and no type: it would be made once and taken apart
// at the next call.
const MOST: usize = 139132;

// The bytes that are asked for: one more, to tell a longer file.
const ASKED: usize = 139133;

// The room for the shorter recipe. It is never longer than the whole one.
const ROOM: usize = 139132;

// The cells of an image that are asked for: one more than FLASH has, to tell a longer file.
const CELLS: usize = 65537;

// Makes the recipe shorter by this image and writes it, or says what is refused and why. The room does (proofs/HasRoom.antt).
fn shorten(rt: &HostRuntime, recipe: &[u8], image: &[u8]) -> ExitCode
    requires { length recipe.now ≤ 139132 }
{
    let mut shorter = [0u8; ROOM];
    match differs_write::differences(recipe, image, &mut shorter) {
        Ok(kept) => output::write_recipe(rt, &shorter[..kept.size], kept.erases, recipe.len()),
        Err(refusal) => output::refuse(rt, refusal),
    }
}

// Makes the recipe shorter by the image that the second argument names.
fn shorten_recipe(rt: &HostRuntime, recipe: &[u8]) -> ExitCode
    requires { length recipe.now ≤ 139132 }
{
    let mut cells = [0u8; CELLS];
    match program_io::read_argument(rt, 2, &mut cells) {
        Some(n) => shorten(rt, recipe, &cells[..n]),
        None => ExitCode::SUCCESS,
    }
}

// Makes the recipe shorter that the first argument names, or says that the file is too long.
fn shorten_file(rt: &HostRuntime) -> ExitCode {
    let mut bytes = [0u8; ASKED];
    match program_io::read_argument(rt, 1, &mut bytes) {
        Some(n) if n > MOST => output::refuse_long(rt),
        Some(n) => shorten_recipe(rt, &bytes[..n]),
        None => ExitCode::SUCCESS,
    }
}

fn main(rt: HostRuntime) -> ExitCode {
    if input::arguments(&rt) {
        shorten_file(&rt)
    } else {
        ExitCode::SUCCESS
    }
}
