ghost use Rattle.std.specs.Prelude.{◌≡◌, ◌≢◌, ◌+◌, ◌≤◌, length, slice_index, ◌↔◌, MatchOption, IsTrue, false, ℕ, drop};
ghost use Rattle.std.specs.List.{prefix_len};
ghost use Rattle.script_reader.specs.Words.{is_no_space, is_space, words_from};

const SPACE: u8 = b' ';

/// How many bytes the word in front has.
fn word_len(text: &[u8]) -> usize
    ensures word { result ≡ prefix_len is_no_space text.now }
    ensures within { result ≤ length text.now }
{
    text.iter().take_while(|byte| **byte != SPACE).count()
}

/// How many spaces there are in front.
fn space_len(text: &[u8]) -> usize
    ensures spaces { result ≡ prefix_len is_space text.now }
    ensures within { result ≤ length text.now }
{
    text.iter().take_while(|byte| **byte == SPACE).count()
}

/// Where the word after the one in front, of this length, begins.
fn next_place(text: &[u8], len: usize) -> usize
    requires at_word { slice_index text.now 0 ≢ 32 }
    requires word { len ≡ prefix_len is_no_space text.now }
    requires within { len ≤ length text.now }
    ensures within { result ≤ length text.now }
    ensures words { (column : ℕ) → words_from (column + result) false (drop result text.now)
        ≡ drop 1 (words_from column false text.now) }
    ensures at_word { slice_index (drop result text.now) 0 ≢ 32 }
{
    len + space_len(&text[len..])
}

/// Where the first word begins.
fn first_place(text: &[u8]) -> usize
    ensures within { result ≤ length text.now }
    ensures words { (column : ℕ) → words_from (column + result) false (drop result text.now)
        ≡ words_from column false text.now }
    ensures at_word { slice_index (drop result text.now) 0 ≢ 32 }
{
    space_len(text)
}

/// Goes over the words of a line. It stands at the first byte of a word, or after the line.
#[derive(Clone, Copy)]
pub struct Words<'a> {
    rest: &'a [u8],
    /// How many bytes the next word has.
    len: usize,
    column: u32,
    ghost in_line: { column + length rest.now ≤ 513 },
    ghost at_word: { slice_index rest.now 0 ≢ 32 },
    ghost word: { len ≡ prefix_len is_no_space rest.now },
    ghost within: { len ≤ length rest.now },
}

impl<'a> Words<'a> {
    ghost use Rattle.script_reader.specs.Cursor.{end_of, words_left, IsAtEnd, IsNext, Leads};
    ghost use Rattle.script_reader.specs.Lines.{IsBlank};
    ghost use Rattle.script_reader.specs.Words.{texts, words_from, words_of};

    /// The words from a word on, or from the end of a line.
    fn from(rest: &'a [u8], column: u32) -> Words<'a>
        requires in_line { column + length rest.now ≤ 513 }
        requires at_word { slice_index rest.now 0 ≢ 32 }
        ensures words { words_left result ≡ words_from column false rest.now }
        ensures end { end_of result ≡ column + length rest.now }
    {
        Words {
            rest,
            len: word_len(rest),
            column,
        }
    }

    /// The words of a line.
    pub fn of(text: &'a [u8]) -> Words<'a>
        requires { length text.now ≤ 512 }
        ensures words { words_left result ≡ words_of text.now }
        ensures end { end_of result ≡ length text.now + 1 }
    {
        let place = first_place(text);
        Words::from(&text[place..], 1 + place as u32)
    }

    /// The next word.
    pub fn first(&self) -> Option<&'a [u8]>
        ensures { MatchOption result (IsAtEnd self.now) (λ text. Leads text.now self.now) }
    {
        if self.len == 0 {
            return None;
        }
        Some(&self.rest[..self.len])
    }

    /// The column of the next word, or after the line.
    pub fn column(&self) -> u32
        ensures { result ≡ self.now.column }
    {
        self.column
    }

    /// Goes after the next word.
    pub fn advance(&mut self)
        ensures { IsNext self.old self.new }
    {
        let place = next_place(self.rest, self.len);
        *self = Words::from(&self.rest[place..], self.column + place as u32);
    }

    /// Whether there is no word, or the first one begins a comment.
    pub fn is_blank(&self) -> bool
        ensures { IsTrue result ↔ IsBlank (texts (words_left self.now)) }
    {
        matches!(self.first(), None | Some([b'#', ..]))
    }
}
