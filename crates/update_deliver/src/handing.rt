// Frames handed to a node one by one, with what is told of each answer.
ghost use Rattle.std.specs.Prelude.{◌≡◌, ◌+◌, ◌*◌, ◌≤◌, length};
ghost use Rattle.base.specs.Parts.{patch};
ghost use Rattle.update_deliver.specs.Internal.Handing.{handed, handed_over};

use node_rules::Node;

// Puts what is told of an answer into the output at a byte.
fn put(output: &mut [u8], at: usize, telling: [u8; 14])
    requires { at + 14 ≤ length output.old }
    ensures { output.new ≡ patch output.old at telling }
{
    base::put(output, at, &telling);
}

// Hands the first `count` frames to the node one by one. Bytes behind the last answer stay.
pub fn hand_over(
    node: Node,
    frames: &[u8],
    count: usize,
    flash: &mut [u8],
    eeprom: &mut [u8],
    answers: &mut [u8],
) -> Node
    requires { (12 * count ≤ length frames.now) × (14 * count ≤ length answers.old) }
    ensures { handed result flash.new eeprom.new answers.new
        ≡ handed_over count frames.now node flash.old eeprom.old answers.old }
{
    let mut n = node;
    // A range: frames of 12 bytes and answers of 14 lie beside each other by the same number.
    for i in 0..count {
        let at = 12 * i;
        let to = 14 * i;
        let answer = node_can::can_frame(n, &frames[at..at + 12], flash, eeprom);
        let a = update_telling::in_numbers(answer);
        put(answers, to, update_telling::telling(a));
        n = answer.node;
    }
    n
}
