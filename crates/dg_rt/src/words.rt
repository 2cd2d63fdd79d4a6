// Words of a story, and where the fields lie that they name. The field of a reference or a box is the word at an address, the reference or box being
// the index; addresses are those of the whole memory, and wrap.

/// The reference of the heap's first cell; a cell's number is added to it.
pub const FIRST_PLACE: u16 = 32_768;

/// The word of a box that begins at the heap's first cell. Of signed numbers references alone are less, and boxes are those that are less than 0.
pub const FIRST_BOX: u16 = 49_152;

/// The cell of a reference.
pub const CELL: u16 = 670;

/// The header of a box: 0 of a pair, 1 more than its place of a closure, and 32,768 and the number of letters of an unknown word.
pub const HEADER: u16 = 33_438;

/// The head of a pair.
pub const HEAD: u16 = 33_440;

/// How many values a closure has captured.
pub const COUNT: u16 = 33_440;

/// The tail of a pair.
pub const TAIL: u16 = 33_442;

/// The first captured value of a closure.
pub const VALUES: u16 = 33_444;

/// The first letter of an unknown word.
pub const LETTERS: u16 = 33_444;

/// How many cells the heap has.
pub const HEAP_CELLS: u16 = 10_000;

/// The greatest number.
pub const MOST: u16 = 16_383;

/// The word of the program's first word, behind those of numbers.
pub const FIRST_WORD: u16 = 16_384;

/// The word of the first object, behind those of the program's words.
pub const FIRST_OBJECT: u16 = 24_576;

/// The empty list, behind the objects.
pub const NIL: u16 = 28_672;

/// No value: what an inner construct keeps that gathers nothing, and what an operand is that isn't as it should be.
pub const NO_VALUE: u16 = 65_535;

/// What a pair is at its top.
pub const PAIR_KEY: u16 = 28_673;

/// What an unknown word is at its top.
pub const UNKNOWN_KEY: u16 = 28_674;

/// The frame behind a frame.
pub const FRAME_BEHIND: u16 = 670;

/// The routine behind its answer.
pub const FRAME_BACK: u16 = 672;

/// The place to which it cuts.
pub const FRAME_CUT: u16 = 674;

/// The inner construct there.
pub const FRAME_INNER: u16 = 676;

/// Twice the number of its own variables, and 1 more where all answers are wanted.
pub const FRAME_SIZE: u16 = 678;

/// The box of its closure, or 0. Its own variables stand behind it.
pub const FRAME_CLOSURE: u16 = 680;

/// The choice behind a choice.
pub const CHOICE_BEHIND: u16 = 670;

/// The routine that it goes on with.
pub const CHOICE_ROUTINE: u16 = 672;

/// The frame there.
pub const CHOICE_FRAME: u16 = 674;

/// The inner construct around it.
pub const CHOICE_INNER: u16 = 676;

/// The stoppable part around it.
pub const CHOICE_STOP: u16 = 678;

/// How many bindings are on the trail there.
pub const CHOICE_TRAIL: u16 = 680;

/// The gathering around it.
pub const CHOICE_GATHER: u16 = 682;

/// The routine behind the query, or the value for which a gathering is taken out.
pub const CHOICE_BACK: u16 = 684;

/// Whether all answers are wanted, or the value that is gathered.
pub const CHOICE_MANY: u16 = 686;

/// What the first argument is at its top.
pub const CHOICE_KEY: u16 = 688;

/// The first argument.
pub const CHOICE_ARGS: u16 = 690;

/// The first word of the trail; a place's number is the index.
pub const TRAIL_WORDS: u16 = 20_694;

/// How many places the trail has.
pub const TRAIL_PLACES: u16 = 2_000;

/// The word of a copied pair, whose head and tail follow.
pub const COPIED_PAIR: u16 = 28_673;

/// The word of a copied variable. That of an unknown word is 1 more and the number of its letters, which follow.
pub const COPIED_VARIABLE: u16 = 32_768;

/// The first word of kept values, and the first behind them, by their addresses; a word for each of them follows.
pub const KEPT: u16 = 28_694;

/// The first word behind kept values.
pub const KEPT_END: u16 = 29_694;

/// How many words may be kept.
pub const KEPT_WORDS: u16 = 500;
