// A sheet's tokens, which a token reader goes through.
ghost use Rattle.frame.specs.Inner.{Sound};

use frame::Sheet;
use std::io::Stdout;
use token_reader::Token;

// Writes the tokens from one on; or number and place, where the frame refuses the sheet.
pub fn put_from(out: Stdout, s: &[u8], from: u32) {
    print::put(out, b" ->");
    match frame::read(s) {
        Err(fault) => put_refusal(out, fault.number, fault.place),
        Ok(f) => put_tokens(out, s, f, from),
    }
}

fn put_refusal(out: Stdout, number: u32, place: u32) {
    let _ = print!(out; " refused {number} {place}");
}

fn put_tokens(out: Stdout, s: &[u8], f: Sheet, from: u32)
    requires { Sound s.now f }
{
    let mut reader = token_reader::start(s, f);
    while reader.at < f.tokens {
        let token = token_reader::next(&mut reader);
        put_passed(out, token, reader.at, from);
    }
}

// ` KIND.VALUE` of a token behind which the reader stands at a place, from token `from` on.
fn put_passed(out: Stdout, token: Option<Token>, at: u32, from: u32) {
    match token {
        Some(Token { kind, value }) if from < at => {
            let _ = print!(out; " {kind}.{value}");
        }
        _ => {}
    }
}
