// Words that are joined.
ghost use Rattle.std.specs.Prelude.{◌≡◌, ◌+◌, ◌++◌, ◌<◌, ◌≤◌, [], OnOk, OnErr, count_by, length, slice_range, take, drop};
ghost use Rattle.dg_words.specs.Chars.{begins, IsSpelling};

use crate::chars::count_chars;
use std::marker::Model;
use thiserror::Error;

/// What would be joined has more than 200 characters.
#[derive(Clone, Copy, Debug, PartialEq, Eq, Error)]
#[error("the word is too long")]
pub struct TooLong;

/// Spellings that are joined, of at most 200 characters together.
#[derive(Drop)]
pub struct Joined {
    bytes: [u8; 800],
    len: usize,
    count: usize,
}

impl Model for Joined {
    ghost use Rattle.std.specs.Prelude.{◌≡◌, ◌*◌, ◌≤◌, ℕ, List, take, count_by};
    ghost use Rattle.dg_words.specs.Chars.{begins};

    ghost Value = { List ℕ };

    ghost view = { λ j. take j.len j.bytes };

    ghost invariant = { λ j. (j.len ≤ 4 * j.count) × (j.count ≤ 200) × (j.count ≡ count_by begins (take j.len j.bytes)) };
}

/// Puts bytes behind the first so many of a row.
pub fn put_behind(row: &mut [u8], len: usize, bytes: &[u8])
    requires { len + length bytes.now ≤ length row.old }
    ensures { take (len + length bytes.now) row.new ≡ take len row.old ++ bytes.now }
{
    row[len..len + bytes.len()].copy_from_slice(bytes);
}

impl Joined {
    /// Nothing was joined.
    pub fn new() -> Joined
        ensures { result ≡ [] }
    {
        Joined {
            bytes: [0; 800],
            len: 0,
            count: 0,
        }
    }

    /// Joins a spelling in UTF-8, where there is room.
    pub fn add(&mut self, spelling: &[u8]) -> Result<(), TooLong>
        requires { IsSpelling spelling.now }
        ensures ok { OnOk result (self.new ≡ self.old ++ spelling.now) }
        ensures fits { OnOk result (count_by begins (self.old ++ spelling.now) ≤ 200) }
        ensures err { OnErr result (self.new ≡ self.old) }
        ensures long { OnErr result (200 < count_by begins (self.old ++ spelling.now)) }
    {
        let more = count_chars(spelling);
        if more > 200 - self.count {
            return Err(TooLong);
        }
        put_behind(&mut self.bytes, self.len, spelling);
        self.len += spelling.len();
        self.count += more;
        Ok(())
    }

    /// What was joined.
    pub fn spelling(&self) -> &[u8]
        ensures { result.now ≡ self.now }
    {
        &self.bytes[..self.len]
    }
}
