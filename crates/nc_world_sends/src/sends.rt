//! Lawful sends and starts.
ghost use Rattle.nc_world_sends.specs.Sends.{HistoriesCarry, HistoriesPromise, HistoriesSendLawfully, HistoriesSendSo, HistoriesStartLawfully};

/// Each send and each start was lawful when it was made.
pub fn histories_send_so()
    ensures { HistoriesSendSo }
{}

/// All that promises rest on is carried by the history of each reached world.
pub fn histories_carry()
    ensures { HistoriesCarry }
{}

/// So it keeps its promises: sends and starts are lawful whatever is stored later, and each cursor is exact.
pub fn histories_promise()
    ensures { HistoriesPromise }
{}

/// What is sent is sent lawfully.
pub fn histories_send_lawfully()
    ensures { HistoriesSendLawfully }
{}

/// Who starts, starts lawfully.
pub fn histories_start_lawfully()
    ensures { HistoriesStartLawfully }
{}
