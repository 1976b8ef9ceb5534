//! Words that can't be names.
ghost use Rattle.std.specs.Prelude.{◌≡◌};
ghost use Rattle.p4_lex.specs.Words.{found, of_declarations, of_types, of_parameters, of_statements, of_tables, reserved as reserved_of};

use crate::token::Sign;

fn of_declaration(word: &[u8]) -> Option<Sign>
    ensures { result ≡ found of_declarations word.now }
{
    if word == b"header".as_slice() {
        return Some(Sign::Header);
    }
    if word == b"struct".as_slice() {
        return Some(Sign::Struct);
    }
    if word == b"typedef".as_slice() {
        return Some(Sign::Typedef);
    }
    if word == b"const".as_slice() {
        return Some(Sign::Const);
    }
    if word == b"parser".as_slice() {
        return Some(Sign::Parser);
    }
    if word == b"state".as_slice() {
        return Some(Sign::State);
    }
    if word == b"control".as_slice() {
        return Some(Sign::Control);
    }
    if word == b"action".as_slice() {
        return Some(Sign::Action);
    }
    if word == b"table".as_slice() {
        return Some(Sign::Table);
    }
    if word == b"RpSwitch".as_slice() {
        return Some(Sign::RpSwitch);
    }
    None
}

fn of_type(word: &[u8]) -> Option<Sign>
    ensures { result ≡ found of_types word.now }
{
    if word == b"bit".as_slice() {
        return Some(Sign::Bit);
    }
    if word == b"bool".as_slice() {
        return Some(Sign::Bool);
    }
    if word == b"std_t".as_slice() {
        return Some(Sign::StdT);
    }
    if word == b"FlowCell".as_slice() {
        return Some(Sign::FlowCell);
    }
    if word == b"FlowArray".as_slice() {
        return Some(Sign::FlowArray);
    }
    if word == b"true".as_slice() {
        return Some(Sign::True);
    }
    if word == b"false".as_slice() {
        return Some(Sign::False);
    }
    None
}

fn of_parameter(word: &[u8]) -> Option<Sign>
    ensures { result ≡ found of_parameters word.now }
{
    if word == b"packet_in".as_slice() {
        return Some(Sign::PacketIn);
    }
    if word == b"packet_out".as_slice() {
        return Some(Sign::PacketOut);
    }
    if word == b"in".as_slice() {
        return Some(Sign::In);
    }
    if word == b"out".as_slice() {
        return Some(Sign::Out);
    }
    if word == b"inout".as_slice() {
        return Some(Sign::Inout);
    }
    None
}

fn of_statement(word: &[u8]) -> Option<Sign>
    ensures { result ≡ found of_statements word.now }
{
    if word == b"if".as_slice() {
        return Some(Sign::If);
    }
    if word == b"else".as_slice() {
        return Some(Sign::Else);
    }
    if word == b"apply".as_slice() {
        return Some(Sign::Apply);
    }
    if word == b"flow_key".as_slice() {
        return Some(Sign::FlowKey);
    }
    if word == b"transition".as_slice() {
        return Some(Sign::Transition);
    }
    if word == b"select".as_slice() {
        return Some(Sign::Select);
    }
    if word == b"default".as_slice() {
        return Some(Sign::Default);
    }
    None
}

fn of_table(word: &[u8]) -> Option<Sign>
    ensures { result ≡ found of_tables word.now }
{
    if word == b"key".as_slice() {
        return Some(Sign::Key);
    }
    if word == b"actions".as_slice() {
        return Some(Sign::Actions);
    }
    if word == b"default_action".as_slice() {
        return Some(Sign::DefaultAction);
    }
    if word == b"entries".as_slice() {
        return Some(Sign::Entries);
    }
    if word == b"size".as_slice() {
        return Some(Sign::Size);
    }
    if word == b"exact".as_slice() {
        return Some(Sign::Exact);
    }
    if word == b"lpm".as_slice() {
        return Some(Sign::Lpm);
    }
    if word == b"ternary".as_slice() {
        return Some(Sign::Ternary);
    }
    None
}

/// Which reserved word these bytes are; `None` exactly where they are none.
pub fn reserved(word: &[u8]) -> Option<Sign>
    ensures { result ≡ reserved_of word.now }
{
    of_declaration(word)
        .or_else(|| of_type(word))
        .or_else(|| of_parameter(word))
        .or_else(|| of_statement(word))
        .or_else(|| of_table(word))
}
