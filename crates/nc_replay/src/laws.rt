//! Laws of the definitions in `specs/`, for the reader: each is proved, and none is run.
ghost use Rattle.nc_conf.specs.Answer.{NeverBoth};
ghost use Rattle.nc_replay.specs.Sure.{HasOneFront, IsNeverBoth, IsLineSure, NeverFails, NeverWears, FailsOrWears, HasOneFault};

/// A script has its configuration in one place, and is never both configured and refused, nor is a text.
pub fn one_configuration()
    ensures front { HasOneFront }
    ensures both { IsNeverBoth }
    ensures text { NeverBoth }
{
    nc_conf::laws::one_answer();
}

/// The lines of a script are all made, or one of them breaks one rule first, at one place, or one comes to a worn worker first.
pub fn one_end()
    ensures line { IsLineSure }
    ensures passed { NeverFails }
    ensures unworn { NeverWears }
    ensures either { FailsOrWears }
    ensures fault { HasOneFault }
{
    nc_conf::laws::one_answer();
    nc_script::laws::lines_are_sure();
}
