// Writes the name of every kind of node and of schema, and of the first number that is none, a line each.
#![tactic(auto)]

use names::Name;

fn line(kind: u32, n: Name) {
    io::print_decimal(1, kind as u64);
    io::write_all(1, b" \"");
    if let Some(name) = n.bytes.get(..n.len) {
        io::write_all(1, name);
    }
    io::write_all(1, b"\"\n");
}

fn node(kind: u32) {
    io::write_all(1, b"node ");
    line(kind, names::yaml_type_name(kind));
}

fn schema(kind: u32) {
    io::write_all(1, b"schema ");
    line(kind, names::type_name(kind));
}

fn main() {
    for kind in 0..10 {
        node(kind);
    }
    for kind in 0..13 {
        schema(kind);
    }
}
