//! What holds of the definitions.
ghost use Rattle.std.specs.Prelude.{◌≡◌, List, ℕ};
ghost use Rattle.gw_er7.specs.Message.{SegmentValue};
ghost use Rattle.gw_er7.specs.Reading.{Reads};
ghost use Rattle.gw_ack.specs.Headers.{control_of};
ghost use Rattle.gw_forward.specs.Forwards.{IsRecord};

/// A record that reads as a message has the control id of that message.
pub fn named_by_its_header()
    ensures { (bytes control : List ℕ) (message : List SegmentValue) →
        Reads bytes message → IsRecord bytes control → control ≡ control_of message }
{}
