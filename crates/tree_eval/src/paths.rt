//! The slots and values of paths.
ghost use Rattle.std.specs.Prelude.{◌≡◌, ◌∷◌, [], map};
ghost use Rattle.std.specs.List.{position};
ghost use Rattle.app_meaning.specs.Slots.{text, names, path_eq, place, own_place, slot_of, value_in, constant, path_value};
ghost use Rattle.tree_eval.specs.Seen.{seen};

use crate::declared::named_constant;
use app_data::{Scope, Slot, Value};
use p4_ast::{P4Name, P4Path};
use rp_base::Bytes;

// Whether a slot's path has these names.
fn is_path(path: &[Bytes], names: &[P4Name]) -> bool
    ensures { result ≡ path_eq path.now (map text names.now) }
{
    match path {
        [] => names.is_empty(),
        [p, ps @ ..] => match names {
            [] => false,
            [n, ns @ ..] => p.as_slice() == n.text.as_slice() && is_path(ps, ns),
        },
    }
}

// Whether a slot's path is a name of an action's own.
fn is_own(path: &[Bytes], action: &Bytes, name: &P4Name) -> bool
    ensures { result ≡ path_eq path.now (action.now ∷ text name.now ∷ []) }
{
    match path {
        [] => false,
        [a, rest @ ..] => a.as_slice() == action.as_slice() && is_last(rest, name),
    }
}

// Whether what is left of a path is this name alone.
fn is_last(path: &[Bytes], name: &P4Name) -> bool
    ensures { result ≡ path_eq path.now (text name.now ∷ []) }
{
    match path {
        [] => false,
        [n, rest @ ..] => n.as_slice() == name.text.as_slice() && is_end(rest),
    }
}

fn is_end(path: &[Bytes]) -> bool
    ensures { result ≡ path_eq path.now [] }
{
    match path {
        [] => true,
        [_first, ..] => false,
    }
}

fn position_of(slots: &[Slot], names: &[P4Name]) -> Option<usize>
    ensures { result ≡ position (λ s. path_eq s.path (map text names.now)) slots.now }
{
    slots.iter().position(|s| is_path(s.path.as_slice(), names))
}

/// The number of the first slot with this path, if there is one.
pub fn place(slots: &[Slot], names: &[P4Name]) -> Option<usize>
    ensures { result ≡ place slots.now (map text names.now) }
{
    position_of(slots, names)
}

fn position_of_own(slots: &[Slot], action: &Bytes, name: &P4Name) -> Option<usize>
    ensures { result ≡ position (λ s. path_eq s.path (action.now ∷ text name.now ∷ [])) slots.now }
{
    slots
        .iter()
        .position(|s| is_own(s.path.as_slice(), action, name))
}

fn place_of_own(slots: &[Slot], action: &Bytes, name: &P4Name) -> Option<usize>
    ensures { result ≡ place slots.now (action.now ∷ text name.now ∷ []) }
{
    position_of_own(slots, action, name)
}

fn position_of_name(slots: &[Slot], name: &P4Name) -> Option<usize>
    ensures { result ≡ position (λ s. path_eq s.path (text name.now ∷ [])) slots.now }
{
    slots.iter().position(|s| is_last(s.path.as_slice(), name))
}

fn place_of_name(slots: &[Slot], name: &P4Name) -> Option<usize>
    ensures { result ≡ place slots.now (text name.now ∷ []) }
{
    position_of_name(slots, name)
}

/// The number of the slot of a single name, if it has one: a name of the action's own goes before one from outside.
pub fn slot_of_name(sc: Scope<'_>, name: &P4Name) -> Option<usize>
    ensures { result ≡ slot_of (seen sc.entry) (text name.now ∷ []) }
{
    if let Some(action) = sc.own {
        if let Some(i) = place_of_own(sc.slots, action, name) {
            return Some(i);
        }
    }
    place_of_name(sc.slots, name)
}

/// The number of a path's slot, if it has one.
pub fn slot_of(sc: Scope<'_>, names: &[P4Name]) -> Option<usize>
    ensures { result ≡ slot_of (seen sc.entry) (map text names.now) }
{
    if let [name] = names {
        return slot_of_name(sc, name);
    }
    if names.is_empty() {
        return None;
    }
    place(sc.slots, names)
}

/// The value in a slot; 0 of no width where there is no such slot.
pub fn value_in(values: &[Value], i: usize) -> Value
    ensures { result ≡ value_in values.now i }
{
    match values.get(i) {
        Some(v) => *v,
        None => Value {
            width: 0,
            number: 0,
        },
    }
}

fn constant(sc: Scope<'_>, names: &[P4Name]) -> Value
    ensures { result ≡ constant (seen sc.entry) (map text names.now) }
{
    if let [name] = names {
        if let Some(v) = named_constant(sc.constants, name.text.as_slice()) {
            return v;
        }
    }
    Value {
        width: 0,
        number: 0,
    }
}

/// The value of a path: of its slot, or else of a constant; 0 of no width where there is neither.
pub fn path_value(sc: Scope<'_>, values: &[Value], path: &P4Path) -> Value
    ensures { result ≡ path_value (seen sc.entry) values.now (names path.now) }
{
    match slot_of(sc, path.names.as_slice()) {
        Some(i) => value_in(values, i),
        None => constant(sc, path.names.as_slice()),
    }
}
