//! Lists of what was read.
ghost use Rattle.std.specs.Prelude.{◌≡◌, ◌∷◌, []};
ghost use Rattle.p4_part.specs.Made.{Makes};

use crate::end::ReadEnd;
use crate::value::Made;
use sqlite_items::Items;
use std::alloc::Global;

/// A list of one. It has room for that alone, since most lists of names and of statements stay so short.
pub fn single<'a, T: Drop>(alloc: Global, x: T) -> Made<'a, Items<T>>
    ensures { Makes result (x ∷ []) }
{
    let Ok(mut list) = Vec::with_capacity(alloc, 1) else {
        return Err(ReadEnd::NoMemory);
    };
    if list.push(x).is_err() {
        return Err(ReadEnd::NoMemory);
    }
    Ok(Items::from_vec(list))
}

/// A list of one and more.
pub fn joined<'a, T: Drop>(alloc: Global, first: T, more: Items<T>) -> Made<'a, Items<T>>
    ensures { Makes result (first ∷ more) }
{
    let mut parts = single(alloc, first)?;
    if parts.append(more).is_err() {
        return Err(ReadEnd::NoMemory);
    }
    Ok(parts)
}

/// A list of two.
pub fn pair<'a, T: Drop>(alloc: Global, first: T, second: T) -> Made<'a, Items<T>>
    ensures { Makes result (first ∷ second ∷ []) }
{
    let mut parts = single(alloc, first)?;
    if parts.push(second).is_err() {
        return Err(ReadEnd::NoMemory);
    }
    Ok(parts)
}
