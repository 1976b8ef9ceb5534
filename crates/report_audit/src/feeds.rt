//! What was fed at a mark, found by halving: marks rise in the order of events.
ghost use Rattle.std.specs.Prelude.{◌≡◌, IfOk, is_some};
ghost use Rattle.std.specs.Option.{option_copied};
ghost use Rattle.proto_model.specs.Feeds.{fed_at, key_at};
ghost use Rattle.report_audit.specs.Rising.{MarksRise};

use rp_app::App;
use rp_base::{Fed, Key, NoMemory};

// What was fed at this mark, if it was fed. Takes as many turns as the length has binary digits.
pub(crate) fn fed_in(feeds: &[Fed], mark: u64) -> Option<&Fed>
    requires { MarksRise feeds.now }
    ensures { option_copied result ≡ fed_at feeds.now mark }
{
    let (front, back) = feeds.split_at(feeds.len() / 2);
    let (fed, behind) = back.split_first()?;
    if fed.packet.mark == mark {
        Some(fed)
    } else if fed.packet.mark < mark {
        fed_in(behind, mark)
    } else {
        fed_in(front, mark)
    }
}

// The key of this mark's packet, if it was fed and has one.
pub(crate) fn key_in<A: App>(app: &A, feeds: &[Fed], mark: u64) -> Result<Option<Key>, NoMemory>
    requires { MarksRise feeds.now }
    ensures { IfOk result (λ key. key ≡ key_at (A.meaning app.now) feeds.now mark) }
{
    match fed_in(feeds, mark) {
        Some(fed) => app.key_of(&fed.packet),
        None => Ok(None),
    }
}
