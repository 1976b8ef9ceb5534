//! The key of a flow.
ghost use Rattle.std.specs.Prelude.{◌≡◌, Some};
ghost use Rattle.app_meaning.specs.Statements.{key_bytes, with_key};

use app_data::{Run, Value};
use rp_base::Key;

// The bytes of a value as a key: 1 to 16, the highest first.
fn key_of(v: Value) -> Option<Key>
    ensures { result ≡ Some (key_bytes v) }
{
    let len = ((v.width as usize + 7) / 8).max(1).min(16);
    let bytes = v.number.to_be_bytes();
    let (_, last) = bytes.split_at(16 - len);
    Key::of(last)
}

/// The key is this value.
pub fn set_key(run: &mut Run, v: Value)
    ensures { run.new ≡ with_key run.old (key_bytes v) }
{
    run.key = key_of(v);
}
