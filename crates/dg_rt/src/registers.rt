// The registers of a story: global variables of the machine.

/// The routine that comes next.
pub const NEXT: u8 = 16;

/// How many bindings are on the trail.
pub const TRAIL: u8 = 17;

/// A reference to the first cell behind the newest mark.
pub const MARK: u8 = 18;

/// How many cells of the heap are taken.
pub const HEAP: u8 = 19;

/// The place of the newest frame, or 0.
pub const FRAME: u8 = 20;

/// The place of the newest choice, or 0.
pub const CHOICE: u8 = 21;

/// The place of the newest inner construct, or 0.
pub const INNER: u8 = 22;

/// The place of the stoppable part around, or 0.
pub const STOP: u8 = 23;

/// The routine behind the query at hand.
pub const BACK: u8 = 24;

/// The place to which the rule of that query cuts.
pub const CUT_TO: u8 = 25;

/// 1 where all answers of it are wanted, else 0.
pub const MANY: u8 = 26;

/// What the first argument of a query is at its top.
pub const KEY: u8 = 27;

/// The rule that was found first while others are looked for, or 0.
pub const BEGIN: u8 = 28;

/// 0 as long as no argument of the rule at hand has clashed.
pub const CLASH: u8 = 29;

/// The word of a box that begins with the cells that were taken last.
pub const TERM: u8 = 30;

/// The closure that is called, in front of its argument.
pub const CALLED: u8 = 31;

/// The first argument of a query; eleven more follow.
pub const ARGS: u8 = 32;

/// How the text ends: 0 where nothing was printed, 1 behind a character that opens, 2 behind another.
pub const LAST: u8 = 44;

/// The newest gathering that is open, or 0.
pub const GATHER: u8 = 45;

/// What breaks the text before the next piece: 1 a line, 2 a paragraph, 0 nothing.
pub const LINES: u8 = 46;

/// How many spaces stand before it.
pub const SPACES: u8 = 47;

/// Whether a space is asked for: 1 none, 2 one, 0 neither.
pub const ASKED: u8 = 48;

/// 1 where it has a capital, else 0.
pub const UPPER: u8 = 49;

/// The word of the box that is being filled.
pub const WORD: u8 = 52;

/// How many parameters the rules of the query at hand have.
pub const PARAMETERS: u8 = 53;

/// The address of the next cell of a value that is copied in.
pub const FROM: u8 = 54;

/// The place in front of which a copy is laid.
pub const FILL: u8 = 55;

/// The word of a body's parameter.
pub const PARAMETER: u8 = 64;

/// How many variables of its own the body of a closure has that is entered.
pub const OWN: u8 = 65;

/// The routine with which it goes on.
pub const ENTERED: u8 = 66;
