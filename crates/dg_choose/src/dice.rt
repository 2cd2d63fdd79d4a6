// Dice words, drawn one after another.
ghost use Rattle.std.specs.Prelude.{◌≡◌, ℕ, ◌+◌, ◌<◌, List, length};

/// Dice words, which are drawn in a circle.
#[derive(Drop)]
pub struct Dice<'a> {
    words: &'a [u16],
    at: usize,
    ghost within: { at < length words.now },
}

impl<'a> Dice<'a> {
    ghost use Rattle.dg_meaning.specs.Choosing.{die};
    ghost use Rattle.dg_choose.specs.Dice.{HasDrawn};

    /// Nothing was drawn.
    pub fn new(words: &'a [u16]) -> Dice<'a>
        requires { 0 < length words.now }
        ensures { HasDrawn result words.now 0 }
    {
        Dice { words, at: 0 }
    }

    /// Draws the next word.
    pub fn draw(&mut self) -> u16
        ensures word { (words : List ℕ) → (n : ℕ) → HasDrawn self.old words n → result ≡ die words n }
        ensures drawn { (words : List ℕ) → (n : ℕ) → HasDrawn self.old words n → HasDrawn self.new words (n + 1) }
    {
        let word = self.words[self.at];
        self.at = (self.at + 1) % self.words.len();
        word
    }
}
