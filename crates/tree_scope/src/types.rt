//! The slots of types.
ghost use Rattle.std.specs.Prelude.{◌≡◌, ◌∷◌, ◌++◌, [], map, IfOk, OnOk};
ghost use Rattle.app_meaning.specs.Slots.{value_slot, below, type_slots, std_slots, typed_slot, header_slots, struct_slots};

use app_data::{Slot, TypeSlots};
use p4_ast::{P4Field, P4Name, P4Type};
use rp_base::{Bytes, NoMemory};
use sqlite_items::Items;
use std::alloc::Global;
use tree_eval::{named_type, type_width};

/// A slot whose path is one name, and that has no fields.
///
/// # Errors
/// `NoMemory`.
pub fn named_slot(alloc: Global, name: &[u8], width: u8) -> Result<Slot, NoMemory>
    ensures { IfOk result (λ s. s ≡ value_slot (name.now ∷ []) width) }
{
    let mut text = Bytes::new(alloc);
    text.append(name)?;
    let mut path = Items::new(alloc);
    path.push(text)?;
    Ok(Slot {
        path,
        width,
        fields: 0,
    })
}

/// The slot of a field of a header, of a parameter of an action or of a variable.
///
/// # Errors
/// `NoMemory`.
pub fn typed_slot(
    alloc: Global,
    types: &[TypeSlots],
    t: &P4Type,
    name: &P4Name,
) -> Result<Slot, NoMemory>
    ensures { IfOk result (λ s. s ≡ typed_slot types.now t.now name.now) }
{
    named_slot(alloc, name.text.as_slice(), type_width(types, t))
}

// The names of a path go behind those of another.
fn push_names(path: &[Bytes], into: &mut Items<Bytes>) -> Result<(), NoMemory>
    ensures { OnOk result (into.new ≡ into.old ++ path.now) }
{
    for name in path {
        into.push(name.copy()?)?;
    }
    Ok(())
}

// The same slot.
fn copied(alloc: Global, s: &Slot) -> Result<Slot, NoMemory>
    ensures { IfOk result (λ made. made ≡ s.now) }
{
    let mut path = Items::new(alloc);
    push_names(s.path.as_slice(), &mut path)?;
    Ok(Slot {
        path,
        width: s.width,
        fields: s.fields,
    })
}

// The same slot with a name in front of its path.
fn slot_below(alloc: Global, name: &[u8], s: &Slot) -> Result<Slot, NoMemory>
    ensures { IfOk result (λ made. made ≡ record { path = name.now ∷ s.now.path; width = s.now.width; fields = s.now.fields }) }
{
    let mut made = named_slot(alloc, name, s.width)?;
    push_names(s.path.as_slice(), &mut made.path)?;
    made.fields = s.fields;
    Ok(made)
}

/// Slots with a name in front of their paths go behind others.
///
/// # Errors
/// `NoMemory`.
pub fn push_below(
    alloc: Global,
    name: &[u8],
    slots: &[Slot],
    into: &mut Items<Slot>,
) -> Result<(), NoMemory>
    ensures { OnOk result (into.new ≡ into.old ++ below name.now slots.now) }
{
    for s in slots {
        into.push(slot_below(alloc, name, s)?)?;
    }
    Ok(())
}

// The same slots.
fn copies(alloc: Global, slots: &[Slot]) -> Result<Items<Slot>, NoMemory>
    ensures { IfOk result (λ made. made ≡ slots.now) }
{
    let mut made = Items::new(alloc);
    for s in slots {
        made.push(copied(alloc, s)?)?;
    }
    Ok(made)
}

// One slot without a name.
fn unnamed(alloc: Global, width: u8) -> Result<Items<Slot>, NoMemory>
    ensures { IfOk result (λ made. made ≡ value_slot [] width ∷ []) }
{
    let mut made = Items::new(alloc);
    made.push(Slot {
        path: Items::new(alloc),
        width,
        fields: 0,
    })?;
    Ok(made)
}

/// The slots of a value of type `std_t`.
///
/// # Errors
/// `NoMemory`.
pub fn std_slots(alloc: Global) -> Result<Items<Slot>, NoMemory>
    ensures { IfOk result (λ made. made ≡ std_slots) }
{
    let mut made = Items::new(alloc);
    made.push(named_slot(alloc, b"in_port".as_slice(), 16)?)?;
    made.push(named_slot(alloc, b"out_port".as_slice(), 16)?)?;
    made.push(named_slot(alloc, b"drop".as_slice(), 1)?)?;
    Ok(made)
}

/// The slots of one value of a type.
///
/// # Errors
/// `NoMemory`.
pub fn type_slots(alloc: Global, types: &[TypeSlots], t: &P4Type) -> Result<Items<Slot>, NoMemory>
    ensures { IfOk result (λ made. made ≡ type_slots types.now t.now) }
{
    match t {
        P4Type::Bit { at: _, width: _ } => unnamed(alloc, type_width(types, t)),
        P4Type::Bool { at: _ } => unnamed(alloc, 1),
        P4Type::Name { at: _, name } => match named_type(types, name.text.as_slice()) {
            None => Ok(Items::new(alloc)),
            Some(slots) => copies(alloc, slots),
        },
        P4Type::StdT { at: _ } => std_slots(alloc),
    }
}

/// The slots of fields of a header, or of parameters of an action, go behind others.
///
/// # Errors
/// `NoMemory`.
pub fn push_fields(
    alloc: Global,
    types: &[TypeSlots],
    fields: &[P4Field],
    into: &mut Items<Slot>,
) -> Result<(), NoMemory>
    ensures { OnOk result (into.new ≡ into.old ++ map (λ f. typed_slot types.now f.type_ f.name) fields.now) }
{
    for f in fields {
        into.push(typed_slot(alloc, types, &f.type_, &f.name)?)?;
    }
    Ok(())
}

/// A header's slot and behind it those of its fields.
///
/// # Errors
/// `NoMemory`.
pub fn header_slots(
    alloc: Global,
    types: &[TypeSlots],
    fields: &[P4Field],
) -> Result<Items<Slot>, NoMemory>
    ensures { IfOk result (λ made. made ≡ header_slots types.now fields.now) }
{
    let mut made = Items::new(alloc);
    made.push(Slot {
        path: Items::new(alloc),
        width: 1,
        fields: fields.len() as u64,
    })?;
    push_fields(alloc, types, fields, &mut made)?;
    Ok(made)
}

/// The slots of a structure's fields.
///
/// # Errors
/// `NoMemory`.
#[tactic(auto, using(crate::proofs::Walks::append_assoc))]
pub fn struct_slots(
    alloc: Global,
    types: &[TypeSlots],
    fields: &[P4Field],
) -> Result<Items<Slot>, NoMemory>
    ensures { IfOk result (λ made. made ≡ struct_slots types.now fields.now) }
{
    let mut made = Items::new(alloc);
    for f in fields {
        let inner = type_slots(alloc, types, &f.type_)?;
        push_below(alloc, f.name.text.as_slice(), inner.as_slice(), &mut made)?;
    }
    Ok(made)
}
