//! Assignments and declarations of variables.
ghost use Rattle.std.specs.Prelude.{◌≡◌, ◌∷◌, [], map};
ghost use Rattle.app_meaning.specs.Assigning.{assigned, assign};
ghost use Rattle.app_meaning.specs.Statements.{initial, declare};
ghost use Rattle.app_meaning.specs.Slots.{text, slot_of};
ghost use Rattle.tree_eval.specs.Seen.{seen};

use crate::header::{header_of, is_invalid};
use crate::slots::{put, set_slot};
use app_data::{Scope, Value};
use p4_ast::{P4Expr, P4Left, P4Slice, P4Var};
use sqlite_items::{Boxed, Items};
use tree_eval::{eval, high_bit, low_bit, slot_of, slot_of_name, type_width, value_in};
use value_ops::{cut, with_slice};

/// A number in place of the whole value, or of some of its bits.
pub fn assigned(old: Value, slice: Option<P4Slice>, n: u128) -> Value
    ensures { result ≡ assigned old slice n }
{
    match slice {
        None => cut(old.width, n),
        Some(s) => with_slice(old, high_bit(s), low_bit(s), n),
    }
}

/// A number for a left side. A field of an invalid header isn't written.
pub fn assign(sc: Scope<'_>, left: &P4Left, n: u128, values: &mut Items<Value>)
    ensures { values.new ≡ assign (seen sc.entry) left.now n values.old }
{
    let names = left.path.names.as_slice();
    if is_invalid(values.as_slice(), header_of(sc, names)) {
        return;
    }
    if let Some(i) = slot_of(sc, names) {
        let old = value_in(values.as_slice(), i);
        put(values, i, assigned(old, left.slice, n));
    }
}

// A variable's first number.
fn initial(e: &Option<Boxed<P4Expr>>, sc: Scope<'_>, values: &[Value]) -> u128
    ensures { result ≡ initial e.now (seen sc.entry) values.now }
{
    match e {
        None => 0,
        Some(e) => eval(e.get(), sc, values).number,
    }
}

/// A variable is declared.
pub fn declare(sc: Scope<'_>, v: &P4Var, values: &mut Items<Value>)
    ensures { values.new ≡ declare (seen sc.entry) v.now values.old }
{
    let n = initial(&v.expr, sc, values.as_slice());
    let value = cut(type_width(sc.types, &v.type_), n);
    set_slot(values, slot_of_name(sc, &v.name), value);
}
