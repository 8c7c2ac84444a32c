// What the arguments ask for. Any others get a message on standard error.

// Says how the program is called.
fn usage(rt: &HostRuntime) {
    program_io::tell(
        rt,
        b"usage: differences RECIPE IMAGE [OUT] (- is standard input, for one of the two)\n",
    );
}

// Whether the first two arguments can be read: each names a file, or one of them standard input.
fn readable(rt: &HostRuntime) -> bool {
    let odd = program_io::is_dashed(rt, 1, 1) || program_io::is_dashed(rt, 2, 1);
    let both = program_io::is_dashed(rt, 1, 0) && program_io::is_dashed(rt, 2, 0);
    !odd && !both
}

// Whether the arguments can be served: two files and, if one is named, a file for the shorter recipe.
pub fn arguments(rt: &HostRuntime) -> bool {
    let served = match program_io::arg_count(rt) {
        3 => readable(rt),
        4 => readable(rt) && !program_io::is_dashed(rt, 3, 0),
        _ => false,
    };
    if !served {
        usage(rt);
    }
    served
}
