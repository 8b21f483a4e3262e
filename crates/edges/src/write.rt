// A line: a name, the operands, `=`, the results. A write that fails is passed over.

#[derive(Clone, Copy)]
pub enum Item {
    Word(u32),
    Truth(bool),
}

pub fn line(out: &impl Print, name: &[u8], operands: &[Item], results: &[Item]) {
    text(out, name);
    items(out, operands);
    text(out, b" =");
    items(out, results);
    text(out, b"\n");
}

fn items(out: &impl Print, items: &[Item]) {
    for item in items {
        match *item {
            Item::Word(x) => word(out, x),
            Item::Truth(true) => text(out, b" 1"),
            Item::Truth(false) => text(out, b" 0"),
        }
    }
}

fn word(out: &impl Print, x: u32) {
    let bytes = [
        b' ',
        digit(x >> 28),
        digit(x >> 24),
        digit(x >> 20),
        digit(x >> 16),
        digit(x >> 12),
        digit(x >> 8),
        digit(x >> 4),
        digit(x),
    ];
    text(out, &bytes);
}

fn digit(x: u32) -> u8 {
    let digits = b"0123456789ABCDEF";
    digits[(x % 16) as usize]
}

fn text(out: &impl Print, bytes: &[u8]) {
    let _ = out.write_all(bytes);
}
