// What a token is, and the number that one spells.

ghost use Rattle.std.specs.Prelude.{◌≡◌, ◌<◌};
ghost use Rattle.rt_lex.specs.Bytes.{digit_value};
ghost use Rattle.rt_lex.specs.Number.{digits_value, number_value, in_32_bits};
ghost use Rattle.rt_lex.specs.Token.{view, is_this_word, is_this_name, is_this_sign};

/// What a token is.
#[derive(Clone, Copy, Debug, PartialEq, Eq)]
pub enum Kind {
    Name,
    /// A name that the grammar keeps for itself.
    Word,
    /// A number, decimal or hexadecimal after `0x`.
    Num,
    Sign,
    /// A byte that no other token begins with.
    Foreign,
}

/// A token of an application text.
#[derive(Clone, Copy)]
pub struct Token<'a> {
    /// All its bytes, `0x` included.
    pub text: &'a [u8],
    /// The bytes of the text before it.
    pub at: u32,
    pub kind: Kind,
}

impl<'a> Token<'a> {
    /// Whether it is this word.
    pub fn is_word(&self, word: &[u8]) -> bool
        ensures { result ≡ is_this_word word.now (view self.now) }
    {
        self.kind == Kind::Word && self.text == word
    }

    /// Whether it is this name.
    pub fn is_name(&self, name: &[u8]) -> bool
        ensures { result ≡ is_this_name name.now (view self.now) }
    {
        self.kind == Kind::Name && self.text == name
    }

    /// Whether it is this sign.
    pub fn is_sign(&self, sign: &[u8]) -> bool
        ensures { result ≡ is_this_sign sign.now (view self.now) }
    {
        self.kind == Kind::Sign && self.text == sign
    }

    /// The number that it spells. None where that is greater than 4,294,967,295.
    pub fn value(&self) -> Option<u32>
        requires { self.now.kind ≡ Kind.Num }
        ensures { result ≡ in_32_bits (number_value self.now.text.now) }
    {
        match self.text.strip_prefix(b"0x") {
            Some(digits) => value_of(16, digits),
            None => value_of(10, self.text),
        }
    }
}

/// The value of a digit of either case.
fn digit_value(digit: u8) -> u8
    ensures { result ≡ digit_value digit }
{
    match digit {
        b'0'..=b'9' => digit - b'0',
        b'a'..=b'z' => digit - b'a' + 10,
        _ => digit.saturating_sub(b'A' - 10),
    }
}

/// The number that digits spell, the first the highest. None where it passes 32 bits.
fn value_of(base: u32, digits: &[u8]) -> Option<u32>
    requires { 0 < base }
    ensures { result ≡ in_32_bits (digits_value base digits.now) }
{
    let mut value: u32 = 0;
    for digit in digits {
        value = value
            .checked_mul(base)?
            .checked_add(u32::from(digit_value(*digit)))?;
    }
    Some(value)
}
