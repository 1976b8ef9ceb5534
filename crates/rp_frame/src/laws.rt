//! Laws of the spelling of messages. Each function does nothing: its contract is the law.
ghost use Rattle.proto_data.specs.declared.message.Msg.{Msg as MsgValue};
ghost use Rattle.rp_frame.specs.Laws.{IsMessage, OneSpelling, OneMessage, NoPrefix};

/// Each message has one spelling.
pub fn each_message_has_one_spelling()
    ensures { (m : MsgValue) → IsMessage m → OneSpelling m }
{}

/// Each list of bytes spells at most one message.
pub fn bytes_spell_one_message()
    ensures { (m n : MsgValue) → IsMessage m → IsMessage n → OneMessage m n }
{}

/// No spelling is a proper prefix of another.
pub fn no_spelling_is_a_prefix()
    ensures { (m n : MsgValue) → IsMessage m → IsMessage n → NoPrefix m n }
{}
