//! What follows from the definitions. The functions do nothing: their contracts are the laws.
ghost use Rattle.nc_frame.specs.Laws.{FrameIsRead, OnePayload, CloseIsRead};
ghost use Rattle.nc_frame.specs.Meta.{OneMessage};

/// A frame that is read as RFC 6455 says gives its payload back, and two payloads have two frames.
pub fn frame_is_read()
    ensures payload { FrameIsRead }
    ensures close { CloseIsRead }
    ensures one_payload { OnePayload }
{}

/// A payload tells the id, the content type and the body that it was made of, where the first two hold no LF.
pub fn one_message()
    ensures { OneMessage }
{}
