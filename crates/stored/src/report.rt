// Lines about a run. What is written, no contract of `io` says.
const OUT: i32 = 1;

// A number, and what stands behind it.
pub fn print(n: u32, then: &[u8]) {
    io::print_decimal(OUT, n as u64);
    io::write_all(OUT, then);
}
