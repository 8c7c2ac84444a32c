// Applies a recipe file to a blank node and prints a line for each frame: the number, then the reply (document 01, "What we cook"). The
// file is the one that the argument names, or standard input where that is `-`. Reading is in input, printing in output; what is done is
// proved in the crates below.
#![tactic(auto)]

mod input;
mod output;

ghost use Rattle.std.specs.Prelude.{◌≡◌, true, ◌≤◌, length, replicate};
ghost use Rattle.node_rules.specs.declared.Pin.TheVariants.{CanOnly};
ghost use Rattle.node_rules.specs.Record.{plain, fresh_node};
ghost use Rattle.node_rules.specs.Restart.{restart_step};

use node_rules::{Node, Pin};
use std::process::ExitCode;

// The longest recipe that is applied, in bytes.
const MOST: usize = 4096;

// The bytes that are asked for: one more, to tell a longer file.
const ASKED: usize = 4097;

// The frames of the recipe of at most 4,096 bytes that has the most: Open, 60 Blocks, a Row and Leave are 1,083. 12 bytes a frame.
const FRAMES: usize = 12996;

// 14 bytes told for each of them.
const ANSWERS: usize = 15162;

// The node with fixed bytes 0, restarted over these memories with pin CAN only and a passing self-test. Over
// blank memories its own numbers are then 0xFF and it is programming (proofs/Blank.antt).
fn restarted(flash: &[u8], eeprom: &[u8]) -> Node
    ensures { result ≡ (restart_step (fresh_node (replicate 6 0)) (plain CanOnly) true flash.now eeprom.now).node }
{
    let fresh = node::fresh([0; 6]);
    let r = node::restart(fresh, Pin::CanOnly, true, flash, eeprom);
    r.node
}

// Applies the recipe to a blank node, whose cells are all 0xFF, and prints the answers or the refusal. The room does (proofs/HasRoom.antt).
fn apply(rt: &HostRuntime, recipe: &[u8]) -> ExitCode
    requires { length recipe.now ≤ 4096 }
{
    let mut flash = [255u8; 65536];
    let mut eeprom = [255u8; 1024];
    let blank = restarted(&flash, &eeprom);
    let mut frames = [0u8; FRAMES];
    let mut answers = [0u8; ANSWERS];
    let delivered = update_deliver::deliver(
        recipe,
        blank,
        &mut flash,
        &mut eeprom,
        &mut frames,
        &mut answers,
    );
    match delivered.translated {
        Ok(count) => output::print_answers(rt, &answers[..14 * count]),
        Err(refusal) => output::print_refusal(rt, refusal),
    }
}

fn main(rt: HostRuntime) -> ExitCode {
    let mut bytes = [0u8; ASKED];
    match input::read_recipe(&rt, &mut bytes) {
        Some(n) if n > MOST => output::print_long(&rt),
        Some(n) => apply(&rt, &bytes[..n]),
        None => ExitCode::SUCCESS,
    }
}
