// Lines for recipes.
use crate::print;
use recipe::Refusal;
use std::io;
use std::io::Write;

// The answer: how many frames, or the refusal's number and place.
fn answer<W: Write>(printer: &mut W, translated: Result<usize, Refusal>) -> io::Result<()> {
    match translated {
        Ok(count) => write!(printer, " gives frames {count}"),
        Err(refusal) => {
            let number = refusal.fault.number();
            let place = refusal.place;
            write!(printer, " gives {number} at {place}")
        }
    }
}

// A recipe's bytes to frames in a lent output; a refusal leaves the EE that it was filled with.
pub fn translation<W: Write>(
    printer: &mut W,
    name: &str,
    recipe: &[u8],
    output: &mut [u8],
) -> io::Result<()> {
    let translated = recipe_translate::translate(recipe, output);
    print::bytes(printer, name, recipe)?;
    answer(printer, translated)?;
    print::bytes(printer, ", output", output)?;
    writeln!(printer)
}
