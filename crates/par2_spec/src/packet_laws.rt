//! The law of reading what was written. It is the contract of an empty function, which nothing calls.

ghost use Rattle.par2_spec.specs.Laws.{PacketsAreRead};

/// Written packets followed by any bytes are read as those packets, then as the packets of those bytes. `IsPacket`:
/// each can be written, because its fields have their lengths.
pub fn packets_then_bytes()
    ensures { PacketsAreRead }
{}
