// Instructions whose targets are filled in later.
use z_model::Op;

/// What an operand names, by its number.
#[derive(Clone, Copy, Debug, PartialEq, Eq)]
pub enum Target {
    Label(u16),
    Routine(u16),
    Table(u16),
    Text(u16),
}

/// A label; or an instruction, the targets of its operands, and the label of its branch.
#[derive(Clone, Copy, Debug, PartialEq, Eq)]
pub enum LOp {
    Label(u16),
    Do(Op, [Option<Target>; 4], Option<u16>),
}

/// Where a label stands.
#[derive(Clone, Copy, Debug, PartialEq, Eq)]
pub struct Spot {
    pub label: u16,
    pub at: u32,
}
