ghost use Rattle.box_parse.specs.inner.ReaderOnLists.{after_head, ends_word, head_bytes, head_of, is_word, skip};
ghost use Rattle.std.specs.Prelude.{◌≡◌, MatchOption, Some, None};
ghost use Rattle.two_d.proofs.Agree.{agree};

/// A token of a command that has one spelling.
#[derive(Clone, Copy, Debug)]
pub enum Token {
    Paren,
    ParenEnd,
    Bracket,
    BracketEnd,
    Comma,
    North,
    West,
    Left,
    Right,
    South,
    East,
    Send,
    Case,
    Of,
    Split,
    Use,
}

impl Token {
    fn bytes(self) -> &'static [u8]
        ensures { result.now ≡ head_bytes (head_of self) }
    {
        match self {
            Token::Paren => b"(",
            Token::ParenEnd => b")",
            Token::Bracket => b"[",
            Token::BracketEnd => b"]",
            Token::Comma => b",",
            Token::North => b"N",
            Token::West => b"W",
            Token::Left => b"Inl",
            Token::Right => b"Inr",
            Token::South => b"S",
            Token::East => b"E",
            Token::Send => b"send",
            Token::Case => b"case",
            Token::Of => b"of",
            Token::Split => b"split",
            Token::Use => b"use",
        }
    }

    fn is_word(self) -> bool
        ensures { result ≡ is_word (head_of self) }
    {
        match self {
            Token::Paren | Token::ParenEnd | Token::Bracket | Token::BracketEnd | Token::Comma =>
                false,
            Token::North
            | Token::West
            | Token::Left
            | Token::Right
            | Token::South
            | Token::East
            | Token::Send
            | Token::Case
            | Token::Of
            | Token::Split
            | Token::Use => true,
        }
    }

    /// How many bytes at the front of the text the token has too.
    pub fn common(self, text: &[u8]) -> usize
        ensures { result ≡ agree (head_bytes (head_of self)) text.now }
    {
        common(self.bytes(), text)
    }

    /// The text behind the token, where the token stands at its front.
    #[tactic(auto, unfolding(crate::specs::inner::ReaderOnLists::after_head))]
    pub fn after<'t>(self, text: &'t [u8]) -> Option<&'t [u8]>
        ensures { MatchOption result (after_head (head_of self) text.now ≡ None)
            (λ rest. after_head (head_of self) text.now ≡ Some rest.now) }
    {
        let len = self.bytes().len();
        if self.common(text) < len {
            return None;
        }
        let rest = &text[len..];
        if self.is_word() && !ends_word(rest) {
            return None;
        }
        Some(rest)
    }
}

/// The length of the longest common beginning.
fn common(a: &[u8], b: &[u8]) -> usize
    ensures { result ≡ agree a.now b.now }
{
    let mut i = 0;
    while i < a.len() && i < b.len() && a[i] == b[i] {
        i += 1;
    }
    i
}

/// Whether the text doesn't go on with a letter, a digit or `_`.
pub fn ends_word(text: &[u8]) -> bool
    ensures { result ≡ ends_word text.now }
{
    match text.first() {
        None => true,
        Some(byte) => !(byte.is_ascii_alphanumeric() || *byte == b'_'),
    }
}

/// The text without its first spaces.
pub fn after_spaces(text: &[u8]) -> &[u8]
    ensures { result.now ≡ skip text.now }
{
    let mut rest = text;
    while let [b' ', more @ ..] = rest {
        rest = more;
    }
    rest
}
