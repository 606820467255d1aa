//! How messages came that are found and sent.
ghost use Rattle.nc_spool_brought.specs.Brought.{BroughtRule};
ghost use Rattle.nc_spool_brought.specs.Came.{CameRule};

/// Whatever is said of what answers and notices bring, each call keeps it of what is found, and of what is sent.
pub fn what_is_sent_was_brought()
    ensures { BroughtRule }
{}

/// The same of the channel at which the look of an answer was asked for.
pub fn what_is_sent_was_asked_for()
    ensures { CameRule }
{}
