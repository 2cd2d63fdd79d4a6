// A string, code by code.
ghost use Rattle.std.specs.Prelude.{◌≡◌, List, ℕ};
ghost use Rattle.z_model.specs.Text.{read_character, letter, in_alphabet, string_at};

use z_model::{Alphabet, PUNCTUATION, Reading, ZFault};

/// The Z-characters of a word that are left.
#[derive(Clone, Copy, Debug, PartialEq, Eq)]
pub enum Pending {
    Nothing,
    One(u8),
    Two(u8, u8),
}

/// A place in a string: the word that comes next, if this one isn't the last, and what is left of this one.
#[derive(Clone, Copy, Debug, PartialEq, Eq)]
pub struct Walker {
    at: usize,
    last: bool,
    pending: Pending,
    alphabet: Alphabet,
}

fn letter(alphabet: Alphabet, z: u8) -> Reading
    ensures { result ≡ letter alphabet z }
{
    let z = z as u16;
    match alphabet {
        Alphabet::Lower => Reading::Gives(z + 91),
        Alphabet::Upper => Reading::Gives(z + 59),
        Alphabet::Punctuation => sign(z),
        Alphabet::High => Reading::Turns(Alphabet::Low(z as u8)),
        Alphabet::Low(high) => Reading::Gives(32 * high as u16 + z),
    }
}

fn sign(z: u16) -> Reading
    ensures { result ≡ letter Alphabet.Punctuation z }
{
    let place = z.saturating_sub(8) as usize;
    match z {
        6 => Reading::Turns(Alphabet::High),
        7 => Reading::Gives(13),
        _ if place < PUNCTUATION.len() => Reading::Gives(PUNCTUATION[place]),
        _ => Reading::Gives(0),
    }
}

fn in_alphabet(alphabet: Alphabet, z: u8) -> Reading
    ensures { result ≡ in_alphabet alphabet z }
{
    match z {
        0 => Reading::Gives(32),
        1..=3 => Reading::Refuses,
        4 => Reading::Turns(Alphabet::Upper),
        5 => Reading::Turns(Alphabet::Punctuation),
        _ => letter(alphabet, z),
    }
}

#[tactic(auto, unfolding(z_model::specs::Text::read_character))]
fn read_character(alphabet: Alphabet, z: u8) -> Reading
    ensures { result ≡ read_character alphabet z }
{
    match alphabet {
        Alphabet::High | Alphabet::Low(_) => letter(alphabet, z),
        _ => in_alphabet(alphabet, z),
    }
}

impl Walker {
    ghost use Rattle.z_text.specs.Walk.{rest_of, Takes, Walks};

    /// A walker at the start of the string at a place.
    #[tactic(auto, unfolding(z_model::specs::Text::string_at))]
    pub fn new(at: usize) -> Walker
        ensures { (bytes : List ℕ) → rest_of result bytes ≡ string_at bytes at }
    {
        Walker {
            at,
            last: false,
            pending: Pending::Nothing,
            alphabet: Alphabet::Lower,
        }
    }

    /// The place of the next word, which is the string's end once no code is left.
    pub fn place(&self) -> usize
        ensures { result ≡ self.now.at }
    {
        self.at
    }

    // The next Z-character, and the walker behind it.
    fn taken(self, bytes: &[u8]) -> Result<Option<(u8, Walker)>, ZFault>
        ensures { Takes result self bytes.now }
    {
        match self.pending {
            Pending::Two(first, second) => Ok(Some((first, self.with(Pending::One(second))))),
            Pending::One(only) => Ok(Some((only, self.with(Pending::Nothing)))),
            Pending::Nothing => self.loaded(bytes),
        }
    }

    fn with(self, pending: Pending) -> Walker
        ensures { result ≡ record self { pending = pending } }
    {
        Walker { pending, ..self }
    }

    // The first Z-character of the next word, and the walker behind it.
    fn loaded(self, bytes: &[u8]) -> Result<Option<(u8, Walker)>, ZFault>
        requires { self.pending ≡ Pending.Nothing }
        ensures { Takes result self bytes.now }
    {
        if self.last {
            return Ok(None);
        }
        if bytes.len().saturating_sub(self.at) < 2 {
            return Err(ZFault::BadString);
        }
        let high = bytes[self.at];
        let low = bytes[self.at + 1];
        let behind = Walker {
            at: self.at + 2,
            last: !(high < 128),
            pending: Pending::Two(high % 4 * 8 + low / 32, low % 32),
            alphabet: self.alphabet,
        };
        Ok(Some((high / 4 % 32, behind)))
    }

    /// The next code; none at the end of the string. Where there is none, it stays where it is.
    pub fn next(&mut self, bytes: &[u8]) -> Result<Option<u16>, ZFault>
        ensures { Walks result self.old self.new bytes.now }
    {
        let mut here = *self;
        loop {
            match here.taken(bytes) {
                Err(fault) => return Err(fault),
                Ok(None) => {
                    *self = here;
                    return Ok(None);
                }
                Ok(Some((z, behind))) => match read_character(here.alphabet, z) {
                    Reading::Refuses => return Err(ZFault::BadString),
                    Reading::Turns(alphabet) => here = Walker { alphabet, ..behind },
                    Reading::Gives(code) => {
                        *self = Walker {
                            alphabet: Alphabet::Lower,
                            ..behind
                        };
                        return Ok(Some(code));
                    }
                },
            }
        }
    }
}
