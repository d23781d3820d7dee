ghost use Rattle.box_parse.specs.inner.ReaderOnLists.{Gives, bare_at, case_at, choose_at};
ghost use Rattle.box_parse.specs.inner.ReaderOnLists.{command_at, ended_at, exp_at, first_at};
ghost use Rattle.box_parse.specs.inner.ReaderOnLists.{head_at, head_of, innermost_at, inside_at};
ghost use Rattle.box_parse.specs.inner.ReaderOnLists.{is_name_byte, leaf_of, list_at, name_at};
ghost use Rattle.box_parse.specs.inner.ReaderOnLists.{name_len, named, opens, out_at, outs_at};
ghost use Rattle.box_parse.specs.inner.ReaderOnLists.{quoted_at, run, second_at, side_at, tail_at};
ghost use Rattle.std.specs.Prelude.{◌≡◌, ◌≤◌, length, map};
ghost use Rattle.two_d.proofs.Choices.{best};
ghost use Rattle.two_d.proofs.Heads.{spelt};
ghost use Rattle.two_d.proofs.Parts.{other};
ghost use Rattle.two_d.specs.Names.{IsName};
ghost use Rattle.two_d.specs.Trees.{form_of, tree_of};
ghost use Rattle.box_parse.specs.Views.{out_of, outs_shown};

use crate::stop::Stop;
use crate::token::{Token, after_spaces, ends_word};
use std::alloc::Global;
use two_d::{Command, Exp, Name, Side};

/// What is left of a text.
#[derive(Drop)]
pub struct Reader<'t> {
    pub alloc: Global,
    pub rest: &'t [u8],
}

impl<'t> Reader<'t> {
    /// A command whose expressions have at most this number of levels.
    #[tactic(auto, unfolding(crate::specs::inner::ReaderOnLists::command_at))]
    pub fn command(&mut self, levels: u32) -> Result<Command, Stop>
        ensures { Gives (λ c. (form_of c, self.new.rest.now)) result
            (command_at levels self.old.rest.now) }
    {
        match self.choose(&[Token::Send, Token::Case, Token::Split, Token::Use])? {
            Token::Send => Ok(Command::Send(self.list(levels)?)),
            Token::Case => self.case(levels),
            Token::Split => Ok(Command::Split(self.expression(levels)?)),
            _ => Ok(Command::Call(self.name()?)),
        }
    }

    /// Behind `send`.
    #[tactic(auto, unfolding(crate::specs::inner::ReaderOnLists::list_at))]
    fn list(&mut self, levels: u32) -> Result<Vec<(Exp, Side)>, Stop>
        ensures { Gives (λ outs. (outs_shown outs, self.new.rest.now)) result
            (list_at levels self.old.rest.now) }
    {
        self.choose(&[Token::Bracket])?;
        match self.choose(&[Token::BracketEnd, Token::Paren])? {
            Token::Paren => self.outs(levels),
            _ => Ok(Vec::new(self.alloc)),
        }
    }

    /// Behind the first `(` of the outs.
    #[tactic(auto, unfolding(crate::specs::inner::ReaderOnLists::outs_at))]
    fn outs(&mut self, levels: u32) -> Result<Vec<(Exp, Side)>, Stop>
        ensures { Gives (λ outs. (outs_shown outs, self.new.rest.now)) result
            (outs_at levels self.old.rest.now) }
    {
        let first = self.out(levels, &[Token::South, Token::East])?;
        match self.choose(&[Token::BracketEnd, Token::Comma])? {
            Token::Comma => {
                let second = self.second(levels, first.1)?;
                Ok(vec![in self.alloc; first, second]?)
            }
            _ => Ok(vec![in self.alloc; first]?),
        }
    }

    /// Behind an out to this side and `,`.
    #[tactic(auto, unfolding(crate::specs::inner::ReaderOnLists::second_at))]
    fn second(&mut self, levels: u32, first: Side) -> Result<(Exp, Side), Stop>
        ensures { Gives (λ out. (out_of out, self.new.rest.now)) result
            (second_at levels first self.old.rest.now) }
    {
        self.choose(&[Token::Paren])?;
        let out = self.out(levels, &[other(first)])?;
        self.choose(&[Token::BracketEnd])?;
        Ok(out)
    }

    /// Behind the `(` of an out, to one of these sides.
    #[tactic(auto, unfolding(crate::specs::inner::ReaderOnLists::out_at))]
    fn out(&mut self, levels: u32, sides: &[Token]) -> Result<(Exp, Side), Stop>
        ensures { Gives (λ out. (out_of out, self.new.rest.now)) result
            (out_at levels (map head_of sides.now) self.old.rest.now) }
    {
        let exp = self.expression(levels)?;
        self.choose(&[Token::Comma])?;
        let side = self.side(sides)?;
        self.choose(&[Token::ParenEnd])?;
        Ok((exp, side))
    }

    #[tactic(auto, unfolding(crate::specs::inner::ReaderOnLists::side_at))]
    fn side(&mut self, sides: &[Token]) -> Result<Side, Stop>
        ensures { Gives (λ side. (side, self.new.rest.now)) result
            (side_at (map head_of sides.now) self.old.rest.now) }
    {
        match self.choose(sides)? {
            Token::South => Ok(Side::S),
            _ => Ok(Side::E),
        }
    }

    /// Behind `case`.
    #[tactic(auto, unfolding(crate::specs::inner::ReaderOnLists::case_at))]
    fn case(&mut self, levels: u32) -> Result<Command, Stop>
        ensures { Gives (λ c. (form_of c, self.new.rest.now)) result
            (case_at levels self.old.rest.now) }
    {
        let value = self.expression(levels)?;
        self.choose(&[Token::Of])?;
        let first = self.side(&[Token::South, Token::East])?;
        self.choose(&[Token::Comma])?;
        let second = self.side(&[Token::South, Token::East])?;
        Ok(Command::Case(value, first, second))
    }

    /// An expression of at most this number of levels.
    #[cycle(expression)]
    #[tactic(auto, using(crate::proofs::Mirrors::exp_rules))]
    fn expression(&mut self, levels: u32) -> Result<Exp, Stop>
        ensures { Gives (λ e. (tree_of e, self.new.rest.now)) result
            (exp_at levels self.old.rest.now) }
    {
        let head = self.head(levels)?;
        self.tail(head, levels)
    }

    /// Behind the first token of an expression of at most this number of levels.
    #[cycle(expression)]
    #[tactic(auto, using(crate::proofs::Mirrors::tail_rules))]
    fn tail(&mut self, head: Token, levels: u32) -> Result<Exp, Stop>
        ensures { Gives (λ e. (tree_of e, self.new.rest.now)) result
            (tail_at levels (head_of head) self.old.rest.now) }
    {
        if levels == 0 {
            return Ok(leaf(head));
        }
        match head {
            Token::North => Ok(Exp::N),
            Token::Left => {
                let inner = self.expression(levels - 1)?;
                Ok(Exp::Inl(Box::new(self.alloc, inner)?))
            }
            Token::Right => {
                let inner = self.expression(levels - 1)?;
                Ok(Exp::Inr(Box::new(self.alloc, inner)?))
            }
            Token::Paren => self.inside(levels - 1),
            _ => Ok(Exp::W),
        }
    }

    /// Behind `(`.
    #[cycle(expression)]
    #[tactic(auto, using(crate::proofs::Mirrors::inside_rules))]
    fn inside(&mut self, levels: u32) -> Result<Exp, Stop>
        ensures { Gives (λ e. (tree_of e, self.new.rest.now)) result
            (inside_at levels self.old.rest.now) }
    {
        match self.first_inside(levels)? {
            Token::ParenEnd => Ok(Exp::Unit),
            head => {
                let first = self.tail(head, levels)?;
                self.ended(first, levels)
            }
        }
    }

    /// Behind `(` and an expression.
    #[cycle(expression)]
    #[tactic(auto, using(crate::proofs::Mirrors::ended_rules))]
    fn ended(&mut self, first: Exp, levels: u32) -> Result<Exp, Stop>
        ensures { Gives (λ e. (tree_of e, self.new.rest.now)) result
            (ended_at levels (tree_of first) self.old.rest.now) }
    {
        match self.choose(&[Token::ParenEnd, Token::Comma])? {
            Token::Comma => {
                let second = self.expression(levels)?;
                self.choose(&[Token::ParenEnd])?;
                Ok(Exp::Pair(Box::new(self.alloc, first)?, Box::new(self.alloc, second)?))
            }
            _ => Ok(first),
        }
    }

    /// The first token of an expression of at most this number of levels.
    #[tactic(auto, using(crate::proofs::Mirrors::head_rules))]
    fn head(&mut self, levels: u32) -> Result<Token, Stop>
        ensures { Gives (λ t. (head_of t, self.new.rest.now)) result
            (head_at levels self.old.rest.now) }
    {
        if levels == 0 {
            return self.innermost(&[Token::North, Token::West]);
        }
        self.choose(&[
            Token::North,
            Token::West,
            Token::Paren,
            Token::Left,
            Token::Right,
        ])
    }

    /// Such a token, or `)`.
    #[tactic(auto, using(crate::proofs::Mirrors::head_rules))]
    fn first_inside(&mut self, levels: u32) -> Result<Token, Stop>
        ensures { Gives (λ t. (head_of t, self.new.rest.now)) result
            (first_at levels self.old.rest.now) }
    {
        if levels == 0 {
            return self.innermost(&[Token::ParenEnd, Token::North, Token::West]);
        }
        self.choose(&[
            Token::ParenEnd,
            Token::North,
            Token::West,
            Token::Paren,
            Token::Left,
            Token::Right,
        ])
    }

    /// One of these tokens, where no token may stand that opens a level.
    #[tactic(auto, unfolding(crate::specs::inner::ReaderOnLists::innermost_at))]
    fn innermost(&mut self, tokens: &[Token]) -> Result<Token, Stop>
        ensures { Gives (λ t. (head_of t, self.new.rest.now)) result
            (innermost_at (map head_of tokens.now) self.old.rest.now) }
    {
        let text = after_spaces(self.rest);
        if opens_level(text) {
            return Err(Stop::TooDeep(text.len()));
        }
        self.choose(tokens)
    }

    /// One of these tokens, behind spaces.
    #[tactic(auto, unfolding(crate::specs::inner::ReaderOnLists::choose_at))]
    fn choose(&mut self, tokens: &[Token]) -> Result<Token, Stop>
        ensures { Gives (λ t. (head_of t, self.new.rest.now)) result
            (choose_at (map head_of tokens.now) self.old.rest.now) }
    {
        let text = after_spaces(self.rest);
        for token in tokens {
            if let Some(rest) = token.after(text) {
                self.rest = rest;
                return Ok(*token);
            }
        }
        Err(Stop::Bad(text.len() - longest(tokens, text)))
    }

    /// A name, behind spaces, in quotation marks or not.
    #[tactic(auto, unfolding(crate::specs::inner::ReaderOnLists::name_at))]
    fn name(&mut self) -> Result<Name, Stop>
        ensures { Gives (λ name. (name, self.new.rest.now)) result (name_at self.old.rest.now) }
    {
        match after_spaces(self.rest) {
            [b'"', text @ ..] => self.quoted(text),
            text => self.bare(text),
        }
    }

    /// A name and a quotation mark, at the front of this text.
    #[tactic(auto, unfolding(crate::specs::inner::ReaderOnLists::quoted_at))]
    fn quoted(&mut self, text: &'t [u8]) -> Result<Name, Stop>
        ensures { Gives (λ name. (name, self.new.rest.now)) result (quoted_at text.now) }
    {
        let len = name_len(text);
        let [b'"', rest @ ..] = &text[len..] else {
            return Err(Stop::Bad(text.len() - len));
        };
        let name = name_of(self.alloc, &text[..len], text.len())?;
        self.rest = rest;
        Ok(name)
    }

    /// A name without quotation marks, at the front of this text.
    #[tactic(auto, unfolding(crate::specs::inner::ReaderOnLists::bare_at))]
    fn bare(&mut self, text: &'t [u8]) -> Result<Name, Stop>
        ensures { Gives (λ name. (name, self.new.rest.now)) result (bare_at text.now) }
    {
        let len = name_len(text);
        let rest = &text[len..];
        if !ends_word(rest) {
            return Err(Stop::Bad(text.len() - len));
        }
        let name = name_of(self.alloc, &text[..len], text.len())?;
        self.rest = rest;
        Ok(name)
    }
}

fn other(side: Side) -> Token
    ensures { head_of result ≡ other side }
{
    match side {
        Side::S => Token::East,
        Side::E => Token::South,
    }
}

/// `N` or `W`.
fn leaf(head: Token) -> Exp
    ensures { tree_of result ≡ leaf_of (head_of head) }
{
    match head {
        Token::North => Exp::N,
        _ => Exp::W,
    }
}

fn opens_level(text: &[u8]) -> bool
    ensures { result ≡ opens text.now }
{
    Token::Paren.after(text).is_some()
        || Token::Left.after(text).is_some()
        || Token::Right.after(text).is_some()
}

/// The length of the longest beginning of one of the tokens.
fn longest(tokens: &[Token], text: &[u8]) -> usize
    ensures most { result ≡ best (spelt (map head_of tokens.now)) text.now }
    ensures within { result ≤ length text.now }
{
    let mut most = 0;
    for token in tokens {
        most = most.max(token.common(text));
    }
    most
}

/// The name of these bytes; without any, what is left is bad.
fn name_of(alloc: Global, bytes: &[u8], left: usize) -> Result<Name, Stop>
    requires { 1 ≤ length bytes.now → IsName bytes.now }
    ensures { Gives (λ name. name) result (named bytes.now left) }
{
    match Name::read(alloc, bytes)? {
        Some(name) => Ok(name),
        None => Err(Stop::Bad(left)),
    }
}

/// How many bytes at the front of the text begin a name.
#[tactic(auto, unfolding(crate::specs::inner::ReaderOnLists::name_len))]
fn name_len(text: &[u8]) -> usize
    ensures len { result ≡ name_len text.now }
    ensures within { result ≤ length text.now }
{
    match text.first() {
        Some(first) if first.is_ascii_lowercase() => run(text),
        _ => 0,
    }
}

/// How many bytes of a name's stand at the front, up to 32.
fn run(text: &[u8]) -> usize
    ensures len { result ≡ run 32 text.now }
    ensures within { result ≤ length text.now }
{
    let mut len = 0;
    while len < 32 && len < text.len() && is_name_byte(text[len]) {
        len += 1;
    }
    len
}

fn is_name_byte(byte: u8) -> bool
    ensures { result ≡ is_name_byte byte }
{
    byte.is_ascii_lowercase() || byte.is_ascii_digit() || byte == b'_'
}
