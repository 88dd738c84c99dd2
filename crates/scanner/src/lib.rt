// "A small scanner holds the text and its place in it." Its two methods are thin: the work is `tokens::token_at`, on the slice and the number.
#![tactic(auto)]

ghost use Rattle.std.specs.Prelude.{◌≡◌};
ghost use Rattle.scanner.specs.Scanning.{at_start, found, past};

use text_rules::Token;

#[derive(Clone, Copy)]
pub struct Scanner<'a> {
    pub text: &'a [u8],
    pub place: usize,
}

impl<'a> Scanner<'a> {
    pub fn new(text: &'a [u8]) -> Scanner<'a>
        ensures { result ≡ at_start text.entry }
    {
        Scanner { text, place: 0 }
    }

    // The token at the scanner's place, and the scanner goes past it.
    pub fn next(&mut self) -> Token
        ensures { (result ≡ found self.old) × (self.new ≡ past self.old) }
    {
        let token = tokens::token_at(self.text, self.place);
        self.place = token.end;
        token
    }
}
