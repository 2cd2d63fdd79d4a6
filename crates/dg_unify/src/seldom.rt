// A count by which few of many are taken.

/// How many go by before the first is taken.
const AT_FIRST: u16 = 4000;

/// Takes none of the first of many, and then one of so many.
#[derive(Clone, Copy)]
pub struct Seldom {
    left: u16,
    between: u16,
}

impl Seldom {
    /// So many go by between two that are taken.
    pub fn new(between: u16) -> Seldom {
        Seldom {
            left: AT_FIRST,
            between,
        }
    }

    /// Whether this one is taken.
    #[inline(always)]
    pub fn takes(&mut self) -> bool {
        if self.left == 0 {
            self.left = self.between;
            return true;
        }
        self.left -= 1;
        false
    }
}
