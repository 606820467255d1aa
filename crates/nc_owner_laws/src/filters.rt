//! What a history tells of its owner event by event is what the definitions filter from it.
ghost use Rattle.nc_owner_laws.specs.Buffered.{BufferLaw};
ghost use Rattle.nc_owner_laws.specs.Filters.{DeskLaw, ChannelLaw};

/// The clock, the floor and the spent id are those of the history.
pub fn desk_filters()
    ensures { DeskLaw }
{}

/// A channel's last ids, its members and its marks are those of the history.
pub fn channel_filters()
    ensures { ChannelLaw }
{}

/// A channel has the entries of its buffer, under the stamp rule and where what leaves was stored.
pub fn buffer_filter()
    ensures { BufferLaw }
{}
