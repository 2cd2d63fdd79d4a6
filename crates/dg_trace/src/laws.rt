// What follows from what a trace promises.
ghost use Rattle.dg_trace.specs.inside.Erased.{ErasesToText, ErasesWithoutInput, ErasesWithoutMemory};

/// The lines of a trace without its calls are a text that shows the run: a newline for a line `.`, what stands behind the quotation mark for a
/// line that begins with one, and nothing for others.
pub fn traces_erase_to_runs()
    ensures text { ErasesToText }
    ensures input { ErasesWithoutInput }
    ensures memory { ErasesWithoutMemory }
{}
