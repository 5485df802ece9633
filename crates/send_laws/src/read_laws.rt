//! Laws of the packets that a sender takes and sends: each is read with the ID in force.

ghost use Rattle.std.specs.Prelude.{List, [], ◌∷◌, ◌++◌, All};
ghost use Rattle.send_core.specs.declared.call.Entry.{Entry};
ghost use Rattle.send_core.specs.Reply.{extension_id, IsAnswered};
ghost use Rattle.send_core.specs.Wires.{wires};
ghost use Rattle.send_laws.specs.Reading.{AreRead, IsRead};

/// Law: each packet that leaves is read with the ID that is in force when it does, as each accepted
/// packet is with the ID in force.
pub fn sent_packets_are_read()
    ensures accepted { (history : List Entry) → IsAnswered history → AreRead history }
    ensures sent { (before rest : List Entry) (e : Entry) → IsAnswered (before ++ e ∷ rest) → All (IsRead (extension_id before)) (wires before e.reply) }
{}
