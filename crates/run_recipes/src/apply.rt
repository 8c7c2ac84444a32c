// A recipe is translated, and its frames are handed to a node.
use crate::hand::Handed;
use crate::header::Header;
use crate::line::Line;
use crate::{hand, start};
use recipe::Refusal;
use run_stream::part;

// The line of a refusal.
fn refused(refusal: Refusal, output: &[u8]) -> Line {
    Line {
        number: refusal.fault.number(),
        place: refusal.place,
        frames: run_digest::with_bytes(0, output),
        answers: 0,
        flash: 0,
        eeprom: 0,
        node: 0,
    }
}

// The memories before the frames: filled, with BOOTFL 0xFF and the own numbers.
fn prepare(h: Header, flash: &mut [u8], eeprom: &mut [u8]) {
    run_stream::fill(flash, h.flash, h.step, h.more);
    run_stream::fill(eeprom, h.eeprom, h.step, h.more);
    base::put(eeprom, 0, &[0xFF]);
    base::put(eeprom, 0x26, &[h.own, h.group]);
}

// The node that the frames are handed to: restarted, in whose record then stands what the header says.
fn started(h: Header, flash: &[u8], eeprom: &[u8]) -> Handed {
    let r = start::restarted(h.begin, flash, eeprom);
    Handed {
        node: start::begun(h.begin, r.node),
        answers: 0,
    }
}

// The line of a recipe that became `count` frames.
fn done(count: usize, output: &[u8], h: Handed, flash: &[u8], eeprom: &[u8]) -> Line {
    let last = run_record::bytes_of(h.node);
    Line {
        number: 0,
        place: count,
        frames: run_digest::with_bytes(0, output),
        answers: h.answers,
        flash: run_digest::with_bytes(0, flash),
        eeprom: run_digest::with_bytes(0, eeprom),
        node: run_digest::with_bytes(0, &last),
    }
}

// The first `count` frames of an output, handed to a node over memories that are prepared for them.
fn hand_over(
    h: Header,
    count: usize,
    output: &[u8],
    serial: &mut [u8],
    flash: &mut [u8],
    eeprom: &mut [u8],
) -> Line {
    prepare(h, flash, eeprom);
    let first = started(h, flash, eeprom);
    let frames = part(output, 0, count.saturating_mul(12));
    let last = hand::over(first, h.port, frames, serial, flash, eeprom);
    done(count, output, last, flash, eeprom)
}

// The line of a recipe, with the output that is lent to its translation, and room for its frames as they go out on UART.
pub fn recipe(
    h: Header,
    input: &[u8],
    output: &mut [u8],
    serial: &mut [u8],
    flash: &mut [u8],
    eeprom: &mut [u8],
) -> Line {
    output.fill(0xEE);
    match recipe_translate::translate(input, output) {
        Ok(count) => hand_over(h, count, output, serial, flash, eeprom),
        Err(refusal) => refused(refusal, output),
    }
}
