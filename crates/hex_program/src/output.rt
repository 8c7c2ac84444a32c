// What is written: the recipe, on standard output or into the file that the fourth argument names; or why there is none, on standard
// error. What is written for main answers the status that the program ends with.
ghost use Rattle.std.specs.Prelude.{◌≢◌};
ghost use Rattle.hex_rules.specs.declared.Fault.TheVariants.{NoRoom};

use hex_rules::{Fault, Refusal};
use program_io::output::{tell_file, write_out};
use program_io::tell;
use std::io::Eprint;
use std::process::ExitCode;

// Writes a number in decimal. Where it can't be written there is nobody left to tell.
fn tell_number(rt: &HostRuntime, n: usize) {
    let _ = rt.eprint(n);
}

// What is wrong at the line that is refused.
fn tell_why(rt: &HostRuntime, fault: Fault)
    requires { fault ≢ NoRoom }
{
    match fault {
        Fault::BadForm => tell(
            rt,
            b"a bad digit or length: a record is a colon and pairs of digits, as many as it says; type 01 has no data, type 04 two bytes",
        ),
        Fault::BadSum => tell(rt, b"the record's sum is wrong"),
        Fault::OtherType => tell(rt, b"the record's type is none of 00, 01 and 04"),
        Fault::CellOutside => tell(
            rt,
            b"the record gives a cell outside FLASH 0x001000 to 0x00FFFF and EEPROM 0xF00000 to 0xF003FF",
        ),
        Fault::CellTwice => tell(rt, b"the record gives a cell that was given before"),
        Fault::WrongEnd => tell(
            rt,
            b"the end record is missing, or something stands behind it",
        ),
        Fault::NoRoom => unreachable!(),
    }
}

// Says why there is no recipe: the refusal's number and line on the first line, then a sentence. The room does, so that it is another
// fault.
pub fn refuse(rt: &HostRuntime, refusal: Refusal) -> ExitCode
    requires { refusal.fault ≢ NoRoom }
{
    tell_number(rt, refusal.fault.number() as usize);
    tell(rt, b" ");
    tell_number(rt, refusal.line);
    tell(rt, b"\n");
    tell_file(rt, 1);
    tell(rt, b", line ");
    tell_number(rt, refusal.line);
    tell(rt, b": ");
    tell_why(rt, refusal.fault);
    tell(rt, b"\n");
    ExitCode::SUCCESS
}

// Says that the text is too long.
pub fn refuse_long(rt: &HostRuntime) -> ExitCode {
    tell(rt, b"long\n");
    tell_file(rt, 1);
    tell(
        rt,
        b": longer than 1,048,576 bytes, the most that is read\n",
    );
    ExitCode::SUCCESS
}

// Writes the recipe: into the file that the fourth argument names, else on standard output.
pub fn write_recipe(rt: &HostRuntime, recipe: &[u8]) -> ExitCode {
    match write_out(rt, 4, b"the recipe's name", recipe) {
        Ok(()) => ExitCode::SUCCESS,
        Err(status) => status,
    }
}
