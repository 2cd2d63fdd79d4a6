// What stands between two pieces.
ghost use Rattle.std.specs.Prelude.{◌≡◌, ℕ, List, [], ◌∷◌, ◌++◌, true, false};
ghost use Rattle.dg_base.specs.declared.program.GapKind.TheVariants as gap;
ghost use Rattle.dg_meaning.specs.World.{Print, GapOf, SpacesOf};

/// One thing that is printed: a piece of text, or an event of the gap before the next piece.
#[derive(Clone, Copy, Drop)]
pub enum Event<'a> {
    Piece(&'a [u8]),
    NoSpace,
    Space,
    Spaces(u16),
    Line,
    Par,
    Upper,
}

/// What breaks the text in a gap.
#[derive(Clone, Copy, Drop)]
pub enum Break {
    Nothing,
    Line,
    Par,
}

/// What a gap comes to: what breaks the text, the spaces behind that, whether the last of its (space) and (no space) is a
/// (space), and whether the next piece has a capital.
#[derive(Clone, Copy, Drop)]
pub struct Gap {
    pub broken: Break,
    pub spaces: u16,
    pub asked: Option<bool>,
    pub upper: bool,
}

/// The most spaces that are counted.
pub const MOST_SPACES: u16 = 16_383;

impl Gap {
    ghost use Rattle.dg_spacing.specs.Gaps.{IsGap};

    /// Nothing stands in it.
    pub fn new() -> Gap
        ensures { IsGap result [] }
    {
        Gap {
            broken: Break::Nothing,
            spaces: 0,
            asked: None,
            upper: false,
        }
    }

    /// With a (space) or a (no space).
    pub fn asking(self, space: bool) -> Gap
        ensures space { (es : List Print) → IsGap self es → space ≡ true → IsGap result (es ++ GapOf gap.Space ∷ []) }
        ensures none { (es : List Print) → IsGap self es → space ≡ false → IsGap result (es ++ GapOf gap.NoSpace ∷ []) }
    {
        Gap {
            asked: Some(space),
            ..self
        }
    }

    /// With more spaces.
    pub fn spaced(self, count: u16) -> Gap
        ensures { (es : List Print) → IsGap self es → IsGap result (es ++ SpacesOf count ∷ []) }
    {
        let spaces = self.spaces.saturating_add(count).min(MOST_SPACES);
        Gap { spaces, ..self }
    }

    /// With a break of the line.
    pub fn line(self) -> Gap
        ensures { (es : List Print) → IsGap self es → IsGap result (es ++ GapOf gap.Line ∷ []) }
    {
        let broken = match self.broken {
            Break::Par => Break::Par,
            Break::Line => Break::Line,
            Break::Nothing => Break::Line,
        };
        Gap {
            broken,
            spaces: 0,
            ..self
        }
    }

    /// With a break of the paragraph.
    pub fn par(self) -> Gap
        ensures { (es : List Print) → IsGap self es → IsGap result (es ++ GapOf gap.Par ∷ []) }
    {
        Gap {
            broken: Break::Par,
            spaces: 0,
            ..self
        }
    }

    /// With a capital for the next piece.
    pub fn upper(self) -> Gap
        ensures { (es : List Print) → IsGap self es → IsGap result (es ++ GapOf gap.Upper ∷ []) }
    {
        Gap {
            upper: true,
            ..self
        }
    }
}
