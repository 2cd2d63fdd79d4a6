// What a story is made of.
use sqlite_items::Items;
use z_code::LOp;

/// Bytes that the story may read, and may write where it says so.
#[derive(Drop)]
pub struct Table {
    pub bytes: Items<u8>,
    pub writable: bool,
}

/// A routine: how many locals it has, and its instructions.
#[derive(Drop)]
pub struct Code {
    pub locals: u8,
    pub ops: Items<LOp>,
}

/// Tables, the texts of strings, and routines, each named by its number.
#[derive(Drop)]
pub struct Image {
    pub tables: Items<Table>,
    pub strings: Items<Items<u8>>,
    pub routines: Items<Code>,
}
