// Intel HEX in: a text of records becomes a recipe in a lent output.
#![tactic(auto)]

mod cells;
mod judge;

ghost use Rattle.std.specs.Prelude.{◌≡◌, length, replicate};
ghost use Rattle.hex_rules.specs.Refusing.{in_numbers};
ghost use Rattle.hex_rules.specs.Converting.{converted, converted_output};
ghost use Rattle.hex_read.specs.Internal.Reads.{Reads};

use hex_rules::{Fault, Refusal};
use recipe::Numbers;

// Reads a text line by line into a table where nothing is marked. After a refusal the table is of no more use.
fn read_text(text: &[u8], table: &mut [u16; 66560]) -> Result<(), Refusal>
    requires { table.old ≡ replicate 66560 255 }
    ensures { Reads result text.now table.new }
{
    let mut at: usize = 0;
    let mut number: usize = 1;
    let mut upper: u16 = 0;
    let mut ended = false;
    // A while: each line says where the next one starts.
    while at < text.len() {
        let Some(line) = hex_line::line_at(text, at) else {
            return Err(Refusal {
                fault: Fault::BadForm,
                line: number,
            });
        };
        if let Err(fault) = judge::judge(&line.bytes, upper, ended, table) {
            return Err(Refusal {
                fault,
                line: number,
            });
        }
        upper = judge::upper_behind(&line.bytes, upper);
        ended = line.bytes[3] == 0x01;
        at = line.next;
        number += 1;
    }
    if ended {
        return Ok(());
    }
    Err(Refusal {
        fault: Fault::WrongEnd,
        line: number,
    })
}

// Converts a text of Intel HEX records into the recipe of its cells, for a module and a group, in a lent output: the recipe's length, or
// the number and the line of a refusal, which leaves the output as it was. What is behind the recipe stays.
pub fn convert(text: &[u8], numbers: Numbers, output: &mut [u8]) -> Result<usize, Refusal>
    ensures { (in_numbers result ≡ converted text.now numbers.module.0 numbers.group.0 (length output.old))
        × (output.new ≡ converted_output text.now numbers.module.0 numbers.group.0 output.old) }
{
    let mut table = [255u16; 66560];
    read_text(text, &mut table)?;
    hex_put::put(&table, numbers, output).ok_or(Refusal {
        fault: Fault::NoRoom,
        line: 0,
    })
}
