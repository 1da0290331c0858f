// Runs RFC 3629's examples, the edges of its grammar, what its grammar leaves out, and lookups of texts: a line for each.
#![tactic(auto)]

use text::Texts;

const OUT: i32 = 1;

// A row: how many octets, how many code points or '-' where they are no UTF-8, then nine octets of which dots fill up the last.
const ROW: usize = 11;

fn byte(s: &[u8], i: usize) -> u8 {
    s.get(i).copied().unwrap_or(0)
}

fn value(digit: u8) -> usize {
    usize::from(digit.saturating_sub(b'0'))
}

fn digit(n: usize) -> u8 {
    if n < 10 {
        return b'0' + n as u8;
    }
    b'?'
}

fn found(octets: &[u8]) -> u8 {
    if text::utf8::is_utf8(octets) {
        return digit(text::utf8::code_points(octets));
    }
    b'-'
}

fn print_octet(b: u8) {
    io::print_hex(OUT, b as u64, 2);
    io::write_all(OUT, b" ");
}

fn print_octets(s: &[u8]) {
    for b in s {
        print_octet(*b);
    }
}

fn judge(row: &[u8]) {
    let octets = text::part(row, 2, value(byte(row, 0)));
    print_octets(octets);
    io::write_all(OUT, text::part(row, 1, 1));
    if found(octets) == byte(row, 1) {
        io::write_all(OUT, b" ok\n");
    } else {
        io::write_all(OUT, b" wrong\n");
    }
}

fn judge_all(rows: &[u8]) {
    for row in rows.chunks_exact(ROW) {
        judge(row);
    }
}

fn print_if(ok: bool, word: &[u8]) {
    if ok {
        io::write_all(OUT, word);
    }
}

// Text n, whether its record fits, and whether it equals text 0.
fn look_up(texts: &Texts, n: u32) {
    io::print_decimal(OUT, n as u64);
    io::write_all(OUT, b" '");
    io::write_all(OUT, texts.text(n));
    io::write_all(OUT, b"'");
    print_if(texts.fits(n as usize), b" fits");
    print_if(texts.same(0, n), b" same as 0");
    io::write_all(OUT, b"\n");
}

fn look_up_all(texts: &Texts, numbers: &[u32]) {
    for n in numbers {
        look_up(texts, *n);
    }
}

fn main() {
    // RFC 3629, section 7; the first and last of each range of section 4; what sections 3 and 10 warn of, and the like
    judge_all(
        b"\
        00.........\
        74\x41\xe2\x89\xa2\xce\x91\x2e..\
        93\xed\x95\x9c\xea\xb5\xad\xec\x96\xb4\
        93\xe6\x97\xa5\xe6\x9c\xac\xe8\xaa\x9e\
        72\xef\xbb\xbf\xf0\xa3\x8e\xb4..\
        11\x00........\
        11\x7f........\
        21\xc2\x80.......\
        21\xdf\xbf.......\
        31\xe0\xa0\x80......\
        31\xe1\x80\x80......\
        31\xec\xbf\xbf......\
        31\xed\x80\x80......\
        31\xed\x9f\xbf......\
        31\xee\x80\x80......\
        31\xef\xbf\xbf......\
        41\xf0\x90\x80\x80.....\
        41\xf1\x80\x80\x80.....\
        41\xf3\xbf\xbf\xbf.....\
        41\xf4\x80\x80\x80.....\
        41\xf4\x8f\xbf\xbf.....\
        2-\xc0\x80.......\
        6-\xed\xa1\x8c\xed\xbe\xb4...\
        5-\x2f\xc0\xae\x2e\x2f....\
        2-\xc1\xbf.......\
        3-\xe0\x80\x80......\
        3-\xe0\x9f\xbf......\
        3-\xed\xa0\x80......\
        3-\xed\xbf\xbf......\
        4-\xf0\x80\x80\x80.....\
        4-\xf0\x8f\xbf\xbf.....\
        4-\xf4\x90\x80\x80.....\
        4-\xf5\x80\x80\x80.....\
        4-\xf7\xbf\xbf\xbf.....\
        5-\xf8\x88\x80\x80\x80....\
        1-\xfe........\
        1-\xff........\
        1-\x80........\
        1-\xbf........\
        2-\x41\x80.......\
        1-\xc2........\
        1-\xe2........\
        2-\xe2\x89.......\
        1-\xf0........\
        2-\xf0\xa3.......\
        3-\xf0\xa3\x8e......\
        2-\xc2\x41.......\
        2-\xc2\xc0.......\
        3-\xe2\x41\xa2......\
        3-\xe2\x89\x41......\
        3-\xe2\x89\xc0......\
        4-\xf0\x41\x8e\xb4.....\
        4-\xf0\xa3\x41\xb4.....\
        4-\xf0\xa3\x8e\x41.....\
        5-\xf0\xa3\x8e\xb4\xb4....",
    );
    let records: [u32; 19] = [
        // two words and two empty texts, the second at the pool's end
        0, 5, 5, 5, 5, 0, 10, 0,
        // one byte too long, and an empty one that starts past the end
        5, 6, 11, 0,
        // start and length are 2^32 together
        4294967295, 1, 1, 4294967295,
        // the first again, and half a record
        0, 5, 0,
    ];
    let numbers: [u32; 12] = [0, 1, 2, 3, 4, 5, 6, 7, 8, 9, 2147483648, 4294967295];
    // the last three are wrong numbers
    let texts = Texts {
        pool: b"wheelspoke",
        records: &records,
    };
    look_up_all(&texts, &numbers);
}
