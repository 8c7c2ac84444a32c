// What is written: the shorter recipe, on standard output or into the file that the third argument names, and on standard error how many
// erases it is; or why there is none, on standard error. What is written for main answers the status that the program ends with.
ghost use Rattle.std.specs.Prelude.{◌≢◌, ◌≤◌, length};
ghost use Rattle.recipe.specs.Translation as translation;
ghost use Rattle.differs_rules.specs.Differences.{fault_number};

use differs_rules::{Fault, Refusal};
use program_io::output::{tell_file, write_out};
use std::process::ExitCode;

// What is wrong with a recipe that has this fault. The output is never too short.
fn why(fault: recipe::Fault) -> &'static str
    requires { translation.fault_number fault ≢ 26 }
{
    match fault {
        recipe::Fault::NoLeave => "the file ends here, and no Leave came",
        recipe::Fault::UnknownKind => "the byte is no kind of item",
        recipe::Fault::CutShort => "the file ends within the item that starts here",
        recipe::Fault::OutOfPlace => {
            "the item is out of place: Open is first and once, Leave last and once"
        }
        recipe::Fault::IllegalAddress => "the item's address is illegal",
        recipe::Fault::TooManyItems => "item 2,049 starts here, and a recipe has at most 2,048",
        recipe::Fault::ShortOutput => unreachable!(),
    }
}

// Says why there is no recipe: the refusal's number and place on the first line, then a sentence, of the image where it is no image of
// FLASH, else of the recipe, and where in it. What can't be written on standard error, here and below, there is nobody left to tell.
pub fn refuse(rt: &HostRuntime, refusal: Refusal) -> ExitCode
    requires { fault_number refusal.fault ≢ 26 }
{
    let place = refusal.place;
    let _ = eprintln!(rt; "{} {place}", refusal.fault.number());
    match refusal.fault {
        Fault::OtherLength => {
            tell_file(rt, 2);
            let _ = eprintln!(rt; ": other than 65,536 bytes, so no image of FLASH");
        }
        Fault::Recipe(fault) => {
            tell_file(rt, 1);
            let _ = eprintln!(rt; ", byte {place}: {}", why(fault));
        }
    }
    ExitCode::SUCCESS
}

// Says that the recipe is too long.
pub fn refuse_long(rt: &HostRuntime) -> ExitCode {
    let _ = eprintln!(rt; "long");
    tell_file(rt, 1);
    let _ = eprintln!(rt; ": longer than 139,132 bytes, the longest recipe");
    ExitCode::SUCCESS
}

// Says how many erases the recipe is: its Blocks. Of the whole one's bytes `size` stay, and a Block that was dropped had 68.
fn tell_erases(rt: &HostRuntime, erases: usize, size: usize, whole: usize)
    requires { (erases ≤ size) × (size ≤ whole) × (whole ≤ 139132) }
{
    let blocks = (whole - size) / 68 + erases;
    let _ = eprintln!(rt; "{erases} erases");
    let _ = eprintln!(rt;
        "{erases} of {blocks} Blocks stay, {size} of {whole} bytes: the others already stand in the image"
    );
}

// Writes the recipe, and then says how many erases it is, made from one of `whole` bytes.
pub fn write_recipe(rt: &HostRuntime, recipe: &[u8], erases: usize, whole: usize) -> ExitCode
    requires { (erases ≤ length recipe.now) × (length recipe.now ≤ whole) × (whole ≤ 139132) }
{
    if let Err(status) = write_out(rt, 3, b"the recipe's name", recipe) {
        return status;
    }
    tell_erases(rt, erases, recipe.len(), whole);
    ExitCode::SUCCESS
}
