//! What is declared by a name.
ghost use Rattle.std.specs.Prelude.{◌≡◌, List, option_map};
ghost use Rattle.std.specs.Borrow.{Bor};
ghost use Rattle.app_data.specs.declared.scope.Slot.{Slot as SlotValue};
ghost use Rattle.app_data.specs.declared.scope.Register.{Register as RegisterValue};
ghost use Rattle.app_meaning.specs.Slots.{named_type, named_constant, named_register, type_width, first_width};

use app_data::{Constant, Register, Slot, TypeSlots, Value};
use p4_ast::P4Type;

/// The slots of one value of the type of this name, if there is one: the first in the list.
pub fn named_type<'a>(types: &'a [TypeSlots], name: &[u8]) -> Option<&'a [Slot]>
    ensures { option_map (λ (s : Bor (List SlotValue)). s.now) result ≡ named_type name.now types.now }
{
    match types {
        [] => None,
        [first, rest @ ..] => {
            if first.name.as_slice() == name {
                Some(first.slots.as_slice())
            } else {
                named_type(rest, name)
            }
        }
    }
}

/// The constant of this name, if there is one: the first in the list.
pub fn named_constant(constants: &[Constant], name: &[u8]) -> Option<Value>
    ensures { result ≡ named_constant name.now constants.now }
{
    match constants {
        [] => None,
        [first, rest @ ..] => {
            if first.name.as_slice() == name {
                Some(first.value)
            } else {
                named_constant(rest, name)
            }
        }
    }
}

/// The cells of this name, if there are any.
pub fn named_register<'a>(registers: &'a [Register], name: &[u8]) -> Option<&'a Register>
    ensures { option_map (λ (g : Bor RegisterValue). g.now) result ≡ named_register name.now registers.now }
{
    match registers {
        [] => None,
        [first, rest @ ..] => {
            if first.name.as_slice() == name {
                Some(first)
            } else {
                named_register(rest, name)
            }
        }
    }
}

fn first_width(slots: &[Slot]) -> u8
    ensures { result ≡ first_width slots.now }
{
    match slots {
        [] => 0,
        [first, ..] => first.width,
    }
}

/// The width of a type of bits or bool; 0 for a type that has no slots.
pub fn type_width(types: &[TypeSlots], t: &P4Type) -> u8
    ensures { result ≡ type_width types.now t.now }
{
    match t {
        P4Type::Bit { at: _, width } => {
            if width.value < 128 {
                width.value as u8
            } else {
                128
            }
        }
        P4Type::Bool { at: _ } => 1,
        P4Type::Name { at: _, name } => match named_type(types, name.text.as_slice()) {
            Some(slots) => first_width(slots),
            None => 0,
        },
        P4Type::StdT { at: _ } => 16,
    }
}
