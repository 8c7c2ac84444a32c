// What a program writes: its bytes on standard output or into the file that an argument names, and on standard error the name of what it read.
// Where writing does not go well it answers the status that the program ends with, and a message tells of it where there is one.
ghost use Rattle.std.specs.Prelude.{OnOk, IfErr};
ghost use Rattle.std.specs.Io.KnownBytes.{Appends};
ghost use Rattle.program_io.specs.Internal.Ending.{EndsUnwritten};

use crate::{LONGEST_NAME, arg, arg_count, open_overwrite, tell, unwritten};
use std::io::Write;
use std::process::ExitCode;

// Names a file on standard error, as the argument does: `-` is standard input. What can't be written there, there is nobody left to tell.
pub fn tell_file(rt: &HostRuntime, i: usize) {
    let mut name = [0u8; LONGEST_NAME];
    let n = arg(rt, i, &mut name).unwrap_or(0);
    if base::byte_at(&name, 0) == b'-' {
        return tell(rt, b"standard input");
    }
    tell(rt, &name[..n]);
}

// Writes bytes to what is open under this name.
fn write_named<W: Write>(
    rt: &HostRuntime,
    output: &mut W,
    name: &[u8],
    bytes: &[u8],
) -> Result<(), ExitCode>
    ensures written { OnOk result (Appends (W.contents output.old) (W.contents output.new) bytes.now) }
    ensures ends { IfErr result EndsUnwritten }
{
    output
        .write_all(bytes)
        .map_err(|error| unwritten(rt, name, error))
}

// Writes bytes into the file of this name, which is made anew or emptied first, and hands on what is left of them. The system closes the file
// without an answer.
fn write_file(rt: &HostRuntime, name: &[u8], bytes: &[u8]) -> Result<(), ExitCode>
    ensures { IfErr result EndsUnwritten }
{
    let mut file = open_overwrite(rt, name).map_err(|error| unwritten(rt, name, error))?;
    write_named(rt, &mut file, name, bytes)?;
    file.flush().map_err(|error| unwritten(rt, name, error))
}

// Writes bytes into the file that an argument names; `what` names the argument where it can't be read.
fn write_argument(rt: &HostRuntime, i: usize, what: &[u8], bytes: &[u8]) -> Result<(), ExitCode>
    ensures { IfErr result EndsUnwritten }
{
    let mut name = [0u8; LONGEST_NAME];
    let n = arg(rt, i, &mut name).map_err(|error| unwritten(rt, what, error))?;
    write_file(rt, &name[..n], bytes)
}

// Writes bytes: into the file that the argument names, where there is one, else on standard output.
pub fn write_out(rt: &HostRuntime, i: usize, what: &[u8], bytes: &[u8]) -> Result<(), ExitCode>
    ensures { IfErr result EndsUnwritten }
{
    if arg_count(rt) > i {
        return write_argument(rt, i, what, bytes);
    }
    write_named(rt, &mut rt.stdout(), b"standard output", bytes)
}
