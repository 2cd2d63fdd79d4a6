// The words of a line.
ghost use Rattle.std.specs.Prelude.{◌≡◌, ◌≤◌, eqb, ◌||◌, length};
ghost use Rattle.dg_meaning.specs.Words.{is_alone};
ghost use Rattle.dg_words.specs.Cutting.{SkipsBackTo, BeginsAt, EndsAt, IsLastWord, WordsAreBytes};

// Whether a letter is a word of its own.
fn is_alone(letter: u8) -> bool
    ensures { result ≡ is_alone letter }
{
    matches!(letter, b'.' | b',' | b'"' | b';' | b'*' | b'(' | b')')
}

// Whether a letter separates words.
fn separates(letter: u8) -> bool
    ensures { result ≡ (eqb letter 32 || is_alone letter) }
{
    letter == b' ' || is_alone(letter)
}

// The last place up to one that has no space in front of it.
fn before_spaces(line: &[u8], end: usize) -> usize
    requires { end ≤ length line.now }
    ensures { SkipsBackTo line.now end result }
{
    let mut to = end;
    'spaces: while to > 0 && line[to - 1] == b' ' {
        to -= 1;
    }
    to
}

// Where the word begins that ends at a place.
fn word_start(line: &[u8], to: usize) -> usize
    requires { EndsAt line.now to }
    ensures { BeginsAt line.now result to }
{
    let mut from = to - 1;
    if is_alone(line[from]) {
        return from;
    }
    'letters: while from > 0 && !separates(line[from - 1]) {
        from -= 1;
    }
    from
}

/// Where the last word in front of a place begins, and where it ends; none where only spaces are in front.
pub fn last_word(line: &[u8], end: usize) -> Option<(usize, usize)>
    requires { end ≤ length line.now }
    ensures { IsLastWord line.now end result }
{
    let to = before_spaces(line, end);
    if to == 0 {
        return None;
    }
    Some((word_start(line, to), to))
}

/// A line's words are the same by its bytes and by its letters.
pub fn words_are_bytes()
    ensures { WordsAreBytes }
{}
