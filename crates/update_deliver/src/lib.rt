// A recipe delivered to a node: it is translated, and its frames are handed over one by one. What the node then holds is demand 3, in
// crate update.
#![tactic(auto)]

mod handing;

ghost use Rattle.std.specs.Prelude.{◌≡◌, length};
ghost use Rattle.update_deliver.specs.Delivering.{delivered_in_numbers, room_for, left, deliver_step};

use node_rules::Node;
use recipe::Refusal;

// What a delivery answers: the translator's answer, and the node afterwards. As many answers were told as frames came of the recipe.
#[derive(Clone, Copy)]
pub struct Delivered {
    pub translated: Result<usize, Refusal>,
    pub node: Node,
}

// The bytes of `frames` bytes that may hold frames, where `answers` bytes hold 14 for each.
fn room(frames: usize, answers: usize) -> usize
    ensures { result ≡ room_for frames answers }
{
    frames.min(12 * (answers / 14))
}

// Translates a recipe into the lent frames and hands them to the node one by one, as CAN frames, with nothing else in between. For each
// frame it tells 14 bytes: the number, how many replies, and the 12 bytes of the first (0 where there is none). Any node and any memories
// are taken. A refused recipe touches nothing; frames or answers too short for the recipe are 26 at place 0, looked at last.
pub fn deliver(
    recipe: &[u8],
    node: Node,
    flash: &mut [u8],
    eeprom: &mut [u8],
    frames: &mut [u8],
    answers: &mut [u8],
) -> Delivered
    ensures { left (delivered_in_numbers result) flash.new eeprom.new frames.new answers.new
        ≡ deliver_step recipe.now node flash.old eeprom.old frames.old answers.old }
{
    let most = room(frames.len(), answers.len());
    let translated = recipe_translate::translate(recipe, &mut frames[..most]);
    let after = match translated {
        Ok(count) => handing::hand_over(node, frames, count, flash, eeprom, answers),
        Err(_) => node,
    };
    Delivered {
        translated,
        node: after,
    }
}
