// The instructions that were decoded lately, so that code that runs again is not decoded again.
ghost use Rattle.std.specs.Prelude.{◌≡◌, ◌<◌, ℕ, List, length, slice_get, Some, IfOk, IfErr, Err};
ghost use Rattle.z_model.specs.Table.{player_rows};
ghost use Rattle.z_model.specs.Decode.{op_at};
ghost use Rattle.z_play.specs.inside.Recent.{Recalls, IsRecent, IsFound};

use std::alloc::{AllocError, Global};
use z_code::decode;
use z_model::{Form, Found, Instr, Op, Operand, Operands, Row, ZFault, Zero};

// The number of places; one more stands behind them for what may change before it is done again.
const PLACES: usize = 4096;

/// The instruction at an address of the code, at the place of that address; elsewhere none.
#[derive(Clone, Copy)]
pub struct Slot {
    pub at: u32,
    pub found: Found,
}

const NOTHING: Operand = Operand::Small(0);

const EMPTY: Slot = Slot {
    at: 0,
    found: Found {
        row: Row {
            instr: Instr::Zero(Zero::Nop),
            fewest: 0,
            most: 0,
            store: false,
            branch: false,
            text: false,
        },
        op: Op {
            form: Form::Short,
            number: 0,
            operands: Operands {
                count: 0,
                first: NOTHING,
                second: NOTHING,
                third: NOTHING,
                fourth: NOTHING,
            },
            store: None,
            branch: None,
            text: 0,
        },
        end: 0,
    },
};

/// What was decoded of the code, which no instruction changes.
#[derive(Drop)]
pub struct Recent {
    pub slots: Vec<Slot>,
}

impl Recent {
    pub fn new(alloc: Global) -> Result<Recent, AllocError>
        ensures { IfOk result (λ recent. length recent.slots.items ≡ 4097) }
    {
        let slots = vec![in alloc; EMPTY; PLACES + 1]?;
        Ok(Recent { slots })
    }

    /// Forgets all: no slot stands at the place of its address.
    pub fn clear(&mut self)
        requires size { length self.old.slots.items ≡ 4097 }
        ensures recent { (base : ℕ) (bytes : List ℕ) → IsRecent base bytes self.new }
    {
        self.slots.fill(EMPTY);
        self.slots[0].at = 1;
    }

    fn put(&mut self, place: usize, slot: Slot)
        requires { place < length self.old.slots.items }
        ensures recent { (base : ℕ) (bytes : List ℕ) → IsRecent base bytes self.old → Recalls base bytes place slot → IsRecent base bytes self.new }
        ensures there { slice_get self.new.slots.items place ≡ Some slot }
    {
        self.slots[place] = slot;
    }

    // Decodes an instruction, and keeps it where it can't change.
    fn look(&mut self, bytes: &[u8], base: u32, pc: u32) -> Result<usize, ZFault>
        requires recent { IsRecent base bytes.now self.old }
        ensures recent { IsRecent base bytes.now self.new }
        ensures found { IfOk result (IsFound bytes.now pc self.new) }
        ensures fault { IfErr result (λ fault. op_at player_rows bytes.now pc ≡ Err fault) }
    {
        z_model::instructions_again();
        let found = decode(bytes, pc as usize)?;
        if pc < base {
            self.put(PLACES, Slot { at: 0, found });
            Ok(PLACES)
        } else {
            let place = pc as usize % PLACES;
            self.put(place, Slot { at: pc, found });
            Ok(place)
        }
    }

    /// The place of the slot that holds the instruction at an address, or the fault of decoding it.
    #[inline(always)]
    pub fn place(&mut self, bytes: &[u8], base: u32, pc: u32) -> Result<usize, ZFault>
        requires recent { IsRecent base bytes.now self.old }
        ensures recent { IsRecent base bytes.now self.new }
        ensures found { IfOk result (IsFound bytes.now pc self.new) }
        ensures fault { IfErr result (λ fault. op_at player_rows bytes.now pc ≡ Err fault) }
    {
        let place = pc as usize % PLACES;
        if self.slots[place].at == pc {
            return Ok(place);
        }
        self.look(bytes, base, pc)
    }
}
