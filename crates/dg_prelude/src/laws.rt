// What the definitions alone say.
ghost use Rattle.std.specs.Prelude.{All};
ghost use Rattle.dg_base.specs.Names.{prelude_names};
ghost use Rattle.dg_base.specs.Sound.{IsName};

/// The names of the prelude can be printed.
pub fn prelude_names_are_printable()
    ensures { All IsName prelude_names }
{}
