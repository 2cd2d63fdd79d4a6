// What holds of every run that the output broke off.
ghost use Rattle.z_play.specs.Laws.{PrintsBreakOff, RestsBreakOff};

/// Where the output failed, it took a front of what is played.
pub fn fronts_are_written()
    ensures prints { PrintsBreakOff }
    ensures rests { RestsBreakOff }
{}
