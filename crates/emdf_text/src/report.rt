// What a program says of a failure.
use std::io;

// A line on standard error: what failed, and why.
pub fn fail(rt: &impl Eprint, what: &str, why: io::Error) {
    // Where standard error takes no line either, nothing is left to do.
    let _ = eprintln!(rt; "{what}: {why}");
}
