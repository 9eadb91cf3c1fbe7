// A token reader keeps a sheet, its sizes and a position together, and goes through the tokens from the first on.
// It reads them through `frame`.
#![tactic(auto)]

ghost use Rattle.std.specs.Prelude.{◌≡◌};
ghost use Rattle.frame.specs.Doc.{doc_of};
ghost use Rattle.frame.specs.Inner.{Sound};
ghost use Rattle.token_reader.specs.Steps.{step_at, following, moved};

use frame::Sheet;

#[derive(Clone, Copy)]
pub struct TokenReader<'a> {
    pub sheet: &'a [u8],
    pub sizes: Sheet,
    pub at: u32,
}

// A token's kind and value.
#[derive(Clone, Copy)]
pub struct Token {
    pub kind: u8,
    pub value: u32,
}

// The token at a position, if one stands there.
fn step_at(s: &[u8], f: Sheet, at: u32) -> Option<Token>
    requires { Sound s.now f }
    ensures { result ≡ step_at (doc_of s.now) at }
{
    if f.tokens <= at {
        return None;
    }
    Some(Token {
        kind: frame::kind(s, f, at),
        value: frame::value(s, f, at),
    })
}

// The position after a step, of so many tokens: one further; the end is not passed.
fn after(at: u32, tokens: u32) -> u32
    ensures { result ≡ following at tokens }
{
    if at < tokens { at + 1 } else { at }
}

// A reader before the first token.
pub fn start<'a>(sheet: &'a [u8], sizes: Sheet) -> TokenReader<'a>
    ensures { (result.sheet ≡ sheet.entry) × (result.sizes ≡ sizes) × (result.at ≡ 0) }
{
    TokenReader {
        sheet,
        sizes,
        at: 0,
    }
}

// The token at the position, which is passed; past the last one none, and the position stays.
pub fn next<'s, 'a>(r: &'s mut TokenReader<'a>) -> Option<Token>
    requires { Sound r.old.sheet.now r.old.sizes }
    ensures { (result ≡ step_at (doc_of r.old.sheet.now) r.old.at) × (r.new ≡ moved r.old) }
{
    let at = r.at;
    let step = step_at(r.sheet, r.sizes, at);
    r.at = after(at, r.sizes.tokens);
    step
}
