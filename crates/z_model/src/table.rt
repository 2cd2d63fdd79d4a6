// The instruction table.
ghost use Rattle.std.specs.Prelude.{◌≡◌, Some};
ghost use Rattle.z_model.specs.Table.{row_at, player_rows};
ghost use Rattle.z_model.specs.Names.{name_of_two, name_of_one, name_of_zero, name_of_several, name_of_extended, name_of};

use std::fmt;

/// The instructions with two operands, or with the form of such, by their names in the standard.
#[derive(Clone, Copy, Debug, PartialEq, Eq)]
pub enum Two {
    Je,
    Jl,
    Jg,
    DecChk,
    IncChk,
    Jin,
    Test,
    Or,
    And,
    TestAttr,
    SetAttr,
    ClearAttr,
    Store,
    InsertObj,
    Loadw,
    Loadb,
    GetProp,
    GetPropAddr,
    GetNextProp,
    Add,
    Sub,
    Mul,
    Div,
    Mod,
    Call2s,
    Call2n,
    SetColour,
    Throw,
}

/// The instructions with one operand, by their names in the standard.
#[derive(Clone, Copy, Debug, PartialEq, Eq)]
pub enum One {
    Jz,
    GetSibling,
    GetChild,
    GetParent,
    GetPropLen,
    Inc,
    Dec,
    PrintAddr,
    Call1s,
    RemoveObj,
    PrintObj,
    Ret,
    Jump,
    PrintPaddr,
    Load,
    Call1n,
}

/// The instructions without operands, by their names in the standard.
#[derive(Clone, Copy, Debug, PartialEq, Eq)]
pub enum Zero {
    Rtrue,
    Rfalse,
    Print,
    PrintRet,
    Nop,
    RetPopped,
    Catch,
    Quit,
    NewLine,
    Verify,
    Piracy,
}

/// The instructions with several operands, by their names in the standard.
#[derive(Clone, Copy, Debug, PartialEq, Eq)]
pub enum Several {
    CallVs,
    Storew,
    Storeb,
    PutProp,
    Aread,
    PrintChar,
    PrintNum,
    Random,
    Push,
    Pull,
    SplitWindow,
    SetWindow,
    EraseWindow,
    EraseLine,
    SetCursor,
    SetTextStyle,
    BufferMode,
    OutputStream,
    ReadChar,
    ScanTable,
    Not,
    CallVn,
    CopyTable,
    CheckArgCount,
}

/// The instructions of the extended form, by their names in the standard.
#[derive(Clone, Copy, Debug, PartialEq, Eq)]
pub enum Extended {
    Save,
    Restore,
    LogShift,
    ArtShift,
    SaveUndo,
    RestoreUndo,
    PrintUnicode,
}

/// An instruction, by its kind.
#[derive(Clone, Copy, Debug, PartialEq, Eq)]
pub enum Instr {
    Two(Two),
    One(One),
    Zero(Zero),
    Several(Several),
    Extended(Extended),
}

/// The kinds of instruction: with two operands, one, none, several, and the extended ones.
#[derive(Clone, Copy, Debug, PartialEq, Eq)]
pub enum Kind {
    Two,
    One,
    Zero,
    Several,
    Extended,
}

/// One row: the instruction, how many operands it has, and what stands behind them.
#[derive(Clone, Copy, Debug, PartialEq, Eq)]
pub struct Row {
    pub instr: Instr,
    pub fewest: u8,
    pub most: u8,
    pub store: bool,
    pub branch: bool,
    pub text: bool,
}

// A row: the instruction, its fewest and most operands, and what stands behind them.
macro_rules! row {
    ($kind:ident::$instr:ident, $fewest:literal, $most:literal, nothing) => {
        row!($kind::$instr, $fewest, $most, false, false, false)
    };
    ($kind:ident::$instr:ident, $fewest:literal, $most:literal, store) => {
        row!($kind::$instr, $fewest, $most, true, false, false)
    };
    ($kind:ident::$instr:ident, $fewest:literal, $most:literal, branch) => {
        row!($kind::$instr, $fewest, $most, false, true, false)
    };
    ($kind:ident::$instr:ident, $fewest:literal, $most:literal, store_and_branch) => {
        row!($kind::$instr, $fewest, $most, true, true, false)
    };
    ($kind:ident::$instr:ident, $fewest:literal, $most:literal, text) => {
        row!($kind::$instr, $fewest, $most, false, false, true)
    };
    ($kind:ident::$instr:ident, $fewest:literal, $most:literal, $store:literal, $branch:literal, $text:literal) => {
        Some(Row {
            instr: Instr::$kind($kind::$instr),
            fewest: $fewest,
            most: $most,
            store: $store,
            branch: $branch,
            text: $text,
        })
    };
}

// Entry k of a table is the row with the number k; in the comments a, b are the operands.

pub const TWO: [Option<Row>; 32] = [
    None,
    row!(Two::Je, 2, 4, branch), // 1: branches where the first operand equals one of the others
    row!(Two::Jl, 2, 2, branch), // 2: branches where a is less than b, signed
    row!(Two::Jg, 2, 2, branch), // 3: branches where a is greater than b, signed
    row!(Two::DecChk, 2, 2, branch), // 4: takes 1 from variable a, branches where it is less than b then
    row!(Two::IncChk, 2, 2, branch), // 5: adds 1 to variable a, branches where it is greater than b then
    row!(Two::Jin, 2, 2, branch), // 6: branches where the parent of object a is b
    row!(Two::Test, 2, 2, branch), // 7: branches where a has all bits of b
    row!(Two::Or, 2, 2, store), // 8: stores the bits of a or b
    row!(Two::And, 2, 2, store), // 9: stores the bits of a and b
    row!(Two::TestAttr, 2, 2, branch), // 10: branches where object a has attribute b
    row!(Two::SetAttr, 2, 2, nothing), // 11: gives object a attribute b
    row!(Two::ClearAttr, 2, 2, nothing), // 12: takes attribute b from object a
    row!(Two::Store, 2, 2, nothing), // 13: sets variable a to b
    row!(Two::InsertObj, 2, 2, nothing), // 14: makes object a the first child of b
    row!(Two::Loadw, 2, 2, store), // 15: stores the word at a + 2b
    row!(Two::Loadb, 2, 2, store), // 16: stores the byte at a + b
    row!(Two::GetProp, 2, 2, store), // 17: stores property b of object a, or its default
    row!(Two::GetPropAddr, 2, 2, store), // 18: stores the address of property b of object a, or 0
    row!(Two::GetNextProp, 2, 2, store), // 19: stores the number of the property of object a behind b
    row!(Two::Add, 2, 2, store), // 20: stores a + b
    row!(Two::Sub, 2, 2, store), // 21: stores a - b
    row!(Two::Mul, 2, 2, store), // 22: stores a * b
    row!(Two::Div, 2, 2, store), // 23: stores a / b, signed, towards 0
    row!(Two::Mod, 2, 2, store), // 24: stores the remainder of a / b, with a's sign
    row!(Two::Call2s, 2, 2, store), // 25: calls routine a with b, stores its answer
    row!(Two::Call2n, 2, 2, nothing), // 26: calls routine a with b
    row!(Two::SetColour, 2, 2, nothing), // 27: does nothing
    row!(Two::Throw, 2, 2, nothing), // 28: returns a from the frame with the number b
    None,
    None,
    None,
];

pub const ONE: [Option<Row>; 16] = [
    row!(One::Jz, 1, 1, branch), // 0: branches where a is 0
    row!(One::GetSibling, 1, 1, store_and_branch), // 1: stores the sibling of object a, branches where it has one
    row!(One::GetChild, 1, 1, store_and_branch), // 2: stores the first child of object a, branches where it has one
    row!(One::GetParent, 1, 1, store), // 3: stores the parent of object a
    row!(One::GetPropLen, 1, 1, store), // 4: stores the length of the property at a
    row!(One::Inc, 1, 1, nothing), // 5: adds 1 to variable a
    row!(One::Dec, 1, 1, nothing), // 6: takes 1 from variable a
    row!(One::PrintAddr, 1, 1, nothing), // 7: prints the string at a
    row!(One::Call1s, 1, 1, store), // 8: calls routine a, stores its answer
    row!(One::RemoveObj, 1, 1, nothing), // 9: takes object a out of the tree
    row!(One::PrintObj, 1, 1, nothing), // 10: prints the short name of object a
    row!(One::Ret, 1, 1, nothing), // 11: returns a
    row!(One::Jump, 1, 1, nothing), // 12: goes on at the offset a
    row!(One::PrintPaddr, 1, 1, nothing), // 13: prints the string at the packed address a
    row!(One::Load, 1, 1, store), // 14: stores variable a
    row!(One::Call1n, 1, 1, nothing), // 15: calls routine a
];

pub const ZERO: [Option<Row>; 16] = [
    row!(Zero::Rtrue, 0, 0, nothing), // 0: returns 1
    row!(Zero::Rfalse, 0, 0, nothing), // 1: returns 0
    row!(Zero::Print, 0, 0, text), // 2: prints the text
    row!(Zero::PrintRet, 0, 0, text), // 3: prints the text and a newline, returns 1
    row!(Zero::Nop, 0, 0, nothing), // 4: does nothing
    None,
    None,
    None,
    row!(Zero::RetPopped, 0, 0, nothing), // 8: returns the word on top of the stack
    row!(Zero::Catch, 0, 0, store), // 9: stores the number of the present frame
    row!(Zero::Quit, 0, 0, nothing), // 10: ends the run
    row!(Zero::NewLine, 0, 0, nothing), // 11: prints a newline
    None,
    row!(Zero::Verify, 0, 0, branch), // 13: branches where the checksum of the loaded file is right
    None,
    row!(Zero::Piracy, 0, 0, branch), // 15: branches
];

pub const SEVERAL: [Option<Row>; 32] = [
    row!(Several::CallVs, 1, 4, store), // 0: calls routine a with the others, stores its answer
    row!(Several::Storew, 3, 3, nothing), // 1: sets the word at a + 2b
    row!(Several::Storeb, 3, 3, nothing), // 2: sets the byte at a + b
    row!(Several::PutProp, 3, 3, nothing), // 3: sets property b of object a
    row!(Several::Aread, 1, 4, store), // 4: reads a typed line into the buffer a, stores 13
    row!(Several::PrintChar, 1, 1, nothing), // 5: prints the character with the code a
    row!(Several::PrintNum, 1, 1, nothing), // 6: prints a as a signed number
    row!(Several::Random, 1, 1, store), // 7: stores a number from 1 to a
    row!(Several::Push, 1, 1, nothing), // 8: pushes a
    row!(Several::Pull, 1, 1, nothing), // 9: sets variable a to the word on top of the stack, which it takes
    row!(Several::SplitWindow, 1, 1, nothing), // 10: does nothing
    row!(Several::SetWindow, 1, 1, nothing), // 11: does nothing
    None,
    row!(Several::EraseWindow, 1, 1, nothing), // 13: does nothing
    row!(Several::EraseLine, 1, 1, nothing), // 14: does nothing
    row!(Several::SetCursor, 2, 2, nothing), // 15: does nothing
    None,
    row!(Several::SetTextStyle, 1, 1, nothing), // 17: does nothing
    row!(Several::BufferMode, 1, 1, nothing), // 18: does nothing
    row!(Several::OutputStream, 1, 2, nothing), // 19: where a is 3, output goes into the table b; -3 closes it
    None,
    None,
    row!(Several::ReadChar, 1, 3, store), // 22: takes a typed byte, stores its code
    row!(Several::ScanTable, 3, 4, store_and_branch), // 23: stores where a is in the table b, branches where it is there
    row!(Several::Not, 1, 1, store), // 24: stores the bits of a turned over
    row!(Several::CallVn, 1, 4, nothing), // 25: calls routine a with the others
    None,
    None,
    None,
    row!(Several::CopyTable, 3, 3, nothing), // 29: copies the bytes at a to b, or clears them
    None,
    row!(Several::CheckArgCount, 1, 1, branch), // 31: branches where the routine was given a arguments at least
];

pub const EXTENDED: [Option<Row>; 12] = [
    row!(Extended::Save, 0, 4, store), // 0: stores 0
    row!(Extended::Restore, 0, 4, store), // 1: stores 0
    row!(Extended::LogShift, 2, 2, store), // 2: stores a shifted by b bits, to the right where b is below 0
    row!(Extended::ArtShift, 2, 2, store), // 3: the same, filled with the sign
    None,
    None,
    None,
    None,
    None,
    row!(Extended::SaveUndo, 0, 0, store), // 9: stores -1
    row!(Extended::RestoreUndo, 0, 0, store), // 10: stores 0
    row!(Extended::PrintUnicode, 1, 1, nothing), // 11: prints the character U+a
];

/// The row of a kind and a number.
#[inline]
pub fn find_row(kind: Kind, number: u8) -> Option<Row>
    ensures { result ≡ row_at player_rows kind number }
{
    let rows: &[Option<Row>] = match kind {
        Kind::Two => &TWO,
        Kind::One => &ONE,
        Kind::Zero => &ZERO,
        Kind::Several => &SEVERAL,
        Kind::Extended => &EXTENDED,
    };
    match rows.get(number as usize) {
        Some(row) => *row,
        None => None,
    }
}

impl Two {
    /// The name in the standard.
    pub fn name(self) -> &'static str
        ensures { result.now ≡ name_of_two self }
    {
        match self {
            Two::Je => "je",
            Two::Jl => "jl",
            Two::Jg => "jg",
            Two::DecChk => "dec_chk",
            Two::IncChk => "inc_chk",
            Two::Jin => "jin",
            Two::Test => "test",
            Two::Or => "or",
            Two::And => "and",
            Two::TestAttr => "test_attr",
            Two::SetAttr => "set_attr",
            Two::ClearAttr => "clear_attr",
            Two::Store => "store",
            Two::InsertObj => "insert_obj",
            Two::Loadw => "loadw",
            Two::Loadb => "loadb",
            Two::GetProp => "get_prop",
            Two::GetPropAddr => "get_prop_addr",
            Two::GetNextProp => "get_next_prop",
            Two::Add => "add",
            Two::Sub => "sub",
            Two::Mul => "mul",
            Two::Div => "div",
            Two::Mod => "mod",
            Two::Call2s => "call_2s",
            Two::Call2n => "call_2n",
            Two::SetColour => "set_colour",
            Two::Throw => "throw",
        }
    }
}

impl One {
    /// The name in the standard.
    pub fn name(self) -> &'static str
        ensures { result.now ≡ name_of_one self }
    {
        match self {
            One::Jz => "jz",
            One::GetSibling => "get_sibling",
            One::GetChild => "get_child",
            One::GetParent => "get_parent",
            One::GetPropLen => "get_prop_len",
            One::Inc => "inc",
            One::Dec => "dec",
            One::PrintAddr => "print_addr",
            One::Call1s => "call_1s",
            One::RemoveObj => "remove_obj",
            One::PrintObj => "print_obj",
            One::Ret => "ret",
            One::Jump => "jump",
            One::PrintPaddr => "print_paddr",
            One::Load => "load",
            One::Call1n => "call_1n",
        }
    }
}

impl Zero {
    /// The name in the standard.
    pub fn name(self) -> &'static str
        ensures { result.now ≡ name_of_zero self }
    {
        match self {
            Zero::Rtrue => "rtrue",
            Zero::Rfalse => "rfalse",
            Zero::Print => "print",
            Zero::PrintRet => "print_ret",
            Zero::Nop => "nop",
            Zero::RetPopped => "ret_popped",
            Zero::Catch => "catch",
            Zero::Quit => "quit",
            Zero::NewLine => "new_line",
            Zero::Verify => "verify",
            Zero::Piracy => "piracy",
        }
    }
}

impl Several {
    /// The name in the standard.
    pub fn name(self) -> &'static str
        ensures { result.now ≡ name_of_several self }
    {
        match self {
            Several::CallVs => "call_vs",
            Several::Storew => "storew",
            Several::Storeb => "storeb",
            Several::PutProp => "put_prop",
            Several::Aread => "aread",
            Several::PrintChar => "print_char",
            Several::PrintNum => "print_num",
            Several::Random => "random",
            Several::Push => "push",
            Several::Pull => "pull",
            Several::SplitWindow => "split_window",
            Several::SetWindow => "set_window",
            Several::EraseWindow => "erase_window",
            Several::EraseLine => "erase_line",
            Several::SetCursor => "set_cursor",
            Several::SetTextStyle => "set_text_style",
            Several::BufferMode => "buffer_mode",
            Several::OutputStream => "output_stream",
            Several::ReadChar => "read_char",
            Several::ScanTable => "scan_table",
            Several::Not => "not",
            Several::CallVn => "call_vn",
            Several::CopyTable => "copy_table",
            Several::CheckArgCount => "check_arg_count",
        }
    }
}

impl Extended {
    /// The name in the standard.
    pub fn name(self) -> &'static str
        ensures { result.now ≡ name_of_extended self }
    {
        match self {
            Extended::Save => "save",
            Extended::Restore => "restore",
            Extended::LogShift => "log_shift",
            Extended::ArtShift => "art_shift",
            Extended::SaveUndo => "save_undo",
            Extended::RestoreUndo => "restore_undo",
            Extended::PrintUnicode => "print_unicode",
        }
    }
}

impl Instr {
    /// The name in the standard.
    pub fn name(self) -> &'static str
        ensures { result.now ≡ name_of self }
    {
        match self {
            Instr::Two(instr) => instr.name(),
            Instr::One(instr) => instr.name(),
            Instr::Zero(instr) => instr.name(),
            Instr::Several(instr) => instr.name(),
            Instr::Extended(instr) => instr.name(),
        }
    }
}

impl fmt::Display for Instr {
    ghost output = { λ instr. Some (name_of instr) };

    fn fmt<W: fmt::Write>(&self, f: &mut fmt::Formatter<W>) -> fmt::Result {
        f.write_str(self.name())
    }
}
