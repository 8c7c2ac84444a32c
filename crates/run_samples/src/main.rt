// Runs document 01's samples, and vectors beside them, through the proved crates and prints a line for each. Each printed answer comes
// from a public function of theirs; what must be printed stands in the file stdout.
#![tactic(auto)]

mod frame_lines;
mod frame_vectors;
mod memory_lines;
mod memory_vectors;
mod print;
mod recipe_lines;
mod recipe_vectors;

use std::io;
use std::io::{BufWriter, Write};

// Frames, memories, recipes.
fn main(rt: HostRuntime) -> io::Result<()> {
    let mut printer = BufWriter::new(rt.alloc(), io::writer(&rt))?;
    frame_vectors::run(&mut printer)?;
    memory_vectors::run(&mut printer)?;
    recipe_vectors::run(&mut printer)?;
    printer.flush()
}
