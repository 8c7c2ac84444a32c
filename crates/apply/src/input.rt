// The recipe's bytes, from the file that the one argument names, or from standard input where it is `-`. What can't be read, and any other
// arguments, get a message on standard error.

// Says how the program is called.
fn usage(rt: &HostRuntime) {
    program_io::tell(rt, b"usage: apply FILE (- is standard input)\n");
}

// Reads as much of the recipe as buf holds, from what the one argument names, and answers how many bytes that is; none where it can't be
// read. What else starts with `-`, as `--help`, names nothing.
pub fn read_recipe(rt: &HostRuntime, buf: &mut [u8]) -> Option<usize> {
    if program_io::arg_count(rt) != 2 || program_io::is_dashed(rt, 1, 1) {
        usage(rt);
        return None;
    }
    program_io::read_argument(rt, 1, buf)
}
