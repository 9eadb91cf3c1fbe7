// What the operations answer, written behind the line that asks for it.
use schema::Answer;
use std::io::Stdout;

// What each place of a list holds before it is lent.
pub const MARK: u32 = 4000000000;

// What each byte of a text holds: no byte of UTF-8.
pub const BYTE_MARK: u8 = 255;

// A blank, and the number in base ten.
pub fn put_number(out: Stdout, n: u32) {
    let _ = print!(out; " {n}");
}

pub fn answer(out: Stdout, r: Answer) {
    match r {
        Ok(n) => {
            let _ = print!(out; " -> accepted {n}");
        }
        Err(q) => {
            let _ = print!(out; " -> refused {} {} {}", q.number, q.sheet, q.place);
        }
    }
}

// What an answer counts; 0 where it is a refusal.
pub fn counted(r: Answer) -> usize {
    r.unwrap_or(0) as usize
}

// Whether each place holds a mark as it did, from one on. A loop, since a closure for each place is too slow where
// nothing is optimised.
fn is_kept<T: PartialEq + Copy>(places: &[T], from: usize, mark: T) -> bool {
    let Some(rest) = places.get(from..) else {
        return true;
    };
    for place in rest {
        if *place != mark {
            return false;
        }
    }
    true
}

fn put_kept(out: Stdout, kept: bool) {
    print::put(out, b", others");
    if !kept {
        print::put(out, b" not");
    }
    print::put(out, b" kept");
}

// A list of which n items of so many numbers were written: whether the other places are as they were, and each item in
// a new line.
pub fn put_list(out: Stdout, list: &[u32], n: usize, width: usize) {
    put_kept(out, is_kept(list, width.saturating_mul(n), MARK));
    let mut rest = list;
    for _ in 0..n {
        let Some((item, others)) = rest.split_at_checked(width) else {
            return;
        };
        put_item(out, item);
        rest = others;
    }
}

fn put_item(out: Stdout, item: &[u32]) {
    print::put(out, b"\n ");
    for n in item {
        put_number(out, *n);
    }
}

// A text of which n bytes were written, as put_list.
pub fn put_text(out: Stdout, text: &[u8], n: usize) {
    put_kept(out, is_kept(text, n, BYTE_MARK));
    let written = print::part(text, n);
    if !written.is_empty() {
        print::put(out, b"\n  ");
        print::put(out, written);
    }
}

// A buffer of which n bytes were written, as put_list.
pub fn put_sheet(out: Stdout, sheet: &[u8], n: usize) {
    put_kept(out, is_kept(sheet, n, BYTE_MARK));
    let written = print::part(sheet, n);
    if !written.is_empty() {
        put_bytes(out, written);
    }
}

// Each byte in base sixteen.
pub fn put_bytes(out: Stdout, bytes: &[u8]) {
    print::put(out, b"\n  ");
    for b in bytes {
        let _ = print!(out; "{b:02x}");
    }
}
