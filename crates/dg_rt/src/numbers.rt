// The numbers of the routines of the run-time. A story begins with routine 0, which isn't one of them.

/// Looks a value up.
pub const WALK: u16 = 1;

/// Binds a variable.
pub const BIND: u16 = 2;

/// Tests whether a variable stands in a value.
pub const OCCURS: u16 = 3;

/// Unifies two values.
pub const UNIFY: u16 = 4;

/// Undoes bindings.
pub const UNDO: u16 = 5;

/// Copies a value out of the heap.
pub const COPY_OUT: u16 = 6;

/// Lays a copy of a value on the heap.
pub const COPY_IN: u16 = 7;

/// Prints a newline behind a text.
pub const NEWLINE: u16 = 8;

/// Ends a run that is done.
pub const DONE: u16 = 9;

/// Ends a run that has failed.
pub const FAILED: u16 = 10;

/// Ends a run that was stopped.
pub const STOPPED: u16 = 11;

/// Ends a run at the limit of the heap.
pub const HEAP_LIMIT: u16 = 12;

/// Ends a run at the limit of the trail.
pub const TRAIL_LIMIT: u16 = 13;

/// Ends a run at the limit of what is gathered.
pub const AUX_LIMIT: u16 = 14;

/// Ends a run at the limit of what is kept.
pub const KEEP_LIMIT: u16 = 15;

/// Takes cells of the heap.
pub const CHARGE: u16 = 16;

/// Finds a variable of the code at hand.
pub const VAR: u16 = 17;

/// Enters a rule.
pub const ENTER: u16 = 18;

/// Drops choices.
pub const CUT: u16 = 19;

/// Opens a choice.
pub const OPEN: u16 = 20;

/// Goes back to the newest choice.
pub const FAIL: u16 = 21;

/// Writes captured values into the box of a closure.
pub const CAPTURE: u16 = 22;

/// Leaves an inner construct.
pub const COMMIT: u16 = 23;

/// What a value is at its top.
pub const KEY_OF: u16 = 24;

/// A rule is found.
pub const FOUND: u16 = 25;

/// Behind the last rule.
pub const NONE: u16 = 26;

/// Unifies an argument with a term of a rule's head.
pub const MATCH: u16 = 27;

/// Behind the last argument.
pub const MATCHED: u16 = 28;

/// Answers a rule.
pub const LEAVE: u16 = 29;

/// Asks a predicate.
pub const ASK: u16 = 30;

/// What comes behind the last query of a rule.
pub const TAIL_CALL: u16 = 31;

/// Enters the body of a closure.
pub const BODY: u16 = 32;

/// Opens an inner construct.
pub const OPEN_INNER: u16 = 33;

/// Goes on behind a stoppable part.
pub const UNSTOP: u16 = 34;

/// The number that a value is.
pub const NUMBER: u16 = 35;

/// The object that a value is.
pub const OBJECT: u16 = 36;

/// The word of a simple value.
pub const SIMPLE: u16 = 37;

/// Tests whether no unbound variable stands in a value.
pub const FULL: u16 = 38;

/// The word of an object in a table.
pub const VALUE: u16 = 39;

/// Sets it.
pub const SET: u16 = 40;

/// Clears it.
pub const CLEAR: u16 = 41;

/// Clears the words of all objects.
pub const CLEAR_ALL: u16 = 42;

/// The flag of an object in a table.
pub const FLAG: u16 = 43;

/// Sets or clears it.
pub const SET_FLAG: u16 = 44;

/// Clears the flags of all objects.
pub const CLEAR_FLAGS: u16 = 45;

/// Prints what separates a piece from the text before.
pub const SEPARATE: u16 = 46;

/// Prints the first character of a piece.
pub const FIRST: u16 = 47;

/// Prints a piece of one character.
pub const PRINT_MARK: u16 = 48;

/// Prints a number as a piece.
pub const PRINT_NUMBER: u16 = 49;

/// Moves words of an area.
pub const MOVE: u16 = 50;

/// How many cells of the heap a copy takes.
pub const CELLS: u16 = 51;

/// The letter of an unknown word, as it is shown.
pub const LETTER: u16 = 52;

/// Prints an unknown word as a piece.
pub const PRINT_LETTERS: u16 = 53;

/// Asks for so many spaces.
pub const ASK_SPACES: u16 = 54;

/// Goes on where a value is a number, and else fails.
pub const IF_NUMBER: u16 = 55;

/// The same of a word.
pub const IF_WORD: u16 = 56;

/// The same of a word that isn't one of the program.
pub const IF_UNKNOWN: u16 = 57;

/// The same of a list.
pub const IF_LIST: u16 = 58;

/// The same of the empty list.
pub const IF_EMPTY: u16 = 59;

/// The same of a pair.
pub const IF_NON_EMPTY: u16 = 60;

/// The same of what is no variable.
pub const IF_BOUND: u16 = 61;

/// The same of a value in which no variable stands.
pub const IF_FULL: u16 = 62;

/// The same of a variable.
pub const IF_UNBOUND: u16 = 63;

/// The same of a number and a greater one.
pub const IF_LESS: u16 = 64;

/// The sum of two numbers.
pub const PLUS: u16 = 65;

/// Their difference.
pub const MINUS: u16 = 66;

/// Their product.
pub const TIMES: u16 = 67;

/// Their quotient.
pub const DIVIDE: u16 = 68;

/// What their quotient leaves.
pub const MODULO: u16 = 69;

/// A number that is thrown, from one to another.
pub const THROW: u16 = 70;

/// What of a list a value is.
pub const LIST_KIND: u16 = 71;

/// Prints a value that is no list.
pub const PRINT_PIECE: u16 = 72;

/// Prints a value.
pub const PRINT_VALUE: u16 = 73;

/// The number of an object that is there.
pub const THERE: u16 = 74;

/// Sets a value of an object.
pub const SET_VALUE: u16 = 75;

/// Sets the parent of an object.
pub const SET_PARENT: u16 = 76;

/// Clears what is set of an object, or of each.
pub const CLEAR_VALUE: u16 = 77;

/// Sets the flag of an object.
pub const RAISE_FLAG: u16 = 78;

/// Clears the flag of an object, or of each.
pub const LOWER_FLAG: u16 = 79;

/// Puts a word where a flag of no object lies.
pub const PUT: u16 = 80;

/// Goes on where the flag of an object is set, and else fails.
pub const IF_RAISED: u16 = 81;

/// The same of a flag of no object.
pub const IF_SET: u16 = 82;

/// What is set of an object.
pub const READ_VALUE: u16 = 83;

/// The character whose bytes stand at an address.
pub const CHARACTER: u16 = 84;

/// Prints a word of the program as a piece.
pub const SPELL: u16 = 85;

/// Begins the box of a closure.
pub const CLOSURE: u16 = 86;

/// Goes on where the body of a closure is entered, and else fails.
pub const IF_BODY: u16 = 87;

/// Enters that body.
pub const ENTER_BODY: u16 = 88;

/// Whether a query of objects goes on at once, or tries them one by one.
pub const SEEK: u16 = 89;

/// Behind a value that was sought.
pub const SOUGHT: u16 = 90;

/// Goes on where a value is an object, and else fails.
pub const IF_OBJECT: u16 = 91;

/// Tries an object.
pub const TRY: u16 = 92;

/// What is set of the object that is tried.
pub const LOOK_VALUE: u16 = 93;

/// Whether its flag is set.
pub const LOOK_FLAG: u16 = 94;

/// Goes on with the object that was tried.
pub const LAND: u16 = 95;

/// Drops the value of a global variable.
pub const DROP_KEPT: u16 = 96;

/// Sets it.
pub const KEEP: u16 = 97;

/// Clears it.
pub const CLEAR_KEPT: u16 = 98;

/// Reads it.
pub const READ_KEPT: u16 = 99;

/// Opens a gathering.
pub const OPEN_GATHERING: u16 = 100;

/// Gathers a value.
pub const KEEP_VALUE: u16 = 101;

/// How many values there are in a row.
pub const COUNT_VALUES: u16 = 102;

/// What was gathered, as a list.
pub const TAKE_LIST: u16 = 103;

/// What was gathered, as a sum.
pub const TAKE_SUM: u16 = 104;

/// Chooses a branch of a select: one after another, and then the last.
pub const PICK_STOPPING: u16 = 105;

/// One after another, in a circle.
pub const PICK_CYCLING: u16 = 106;

/// Any.
pub const PICK_PURELY: u16 = 107;

/// Any other than the last.
pub const PICK_AT_RANDOM: u16 = 108;

/// One after another, and then any other than the last.
pub const PICK_THEN_AT_RANDOM: u16 = 109;

/// One after another, and then any.
pub const PICK_THEN_PURELY: u16 = 110;

/// The character that begins at a place of the spellings.
pub const WORD_LETTER: u16 = 111;

/// The place behind it.
pub const NEXT_LETTER: u16 = 112;

/// Whether letters spell a word of the program.
pub const SAME_WORD: u16 = 113;

/// The first word that letters spell.
pub const FIND_WORD: u16 = 114;

/// The letter of a code.
pub const UNICODE: u16 = 115;

/// Reads a typed line.
pub const READ_LINE: u16 = 116;

/// The number that letters write.
pub const SPELLED_NUMBER: u16 = 117;

/// Writes the cells of what letters spell.
pub const SPELLED: u16 = 118;

/// What a letter is.
pub const LETTER_KIND: u16 = 119;

/// Writes the cells of an element of a list.
pub const ELEMENT: u16 = 120;

/// Writes the cells of the list that letters spell.
pub const LINE_CELLS: u16 = 121;

/// Lays the value on the heap whose cells have been written.
pub const WRITTEN_VALUE: u16 = 122;

/// What a line that was read leaves of the gap before the next piece.
pub const BREAK_LINE: u16 = 123;

/// Lays what a letter spells in front of a list.
pub const LETTER_ON: u16 = 124;

/// Lays the list of the digits of a number.
pub const SPLIT_NUMBER: u16 = 125;

/// Lays the list of the letters of an unknown word.
pub const SPLIT_LETTERS: u16 = 126;

/// Lays the list of the letters of a word of the program.
pub const SPLIT_SPELLING: u16 = 127;

/// Splits a word or number into its letters.
pub const SPLIT: u16 = 128;

/// Whether a value was made of letters.
pub const MADE: u16 = 129;

/// Writes the digits of a number into a row of letters.
pub const DIGITS: u16 = 130;

/// Writes the letters of a word of the program.
pub const WORD_LETTERS: u16 = 131;

/// Writes the letters of an unknown word.
pub const BOX_LETTERS: u16 = 132;

/// Writes the letters of any word or number.
pub const VALUE_LETTERS: u16 = 133;

/// Writes those of the words and numbers of a list.
pub const LIST_LETTERS: u16 = 134;

/// Joins the words and numbers of a list into a word.
pub const JOIN: u16 = 135;

/// Unifies an argument with a term of a rule's head of which each variable is new.
pub const TAKE: u16 = 136;
