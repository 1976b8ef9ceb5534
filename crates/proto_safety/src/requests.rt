//! Requests: where entries come from, and the nonces of Asks.

ghost use Rattle.std.specs.Prelude.{◌≡◌, List, Some, slice_get, ℕ};
ghost use Rattle.rp_base.specs.declared.event.Event.{Event};
ghost use Rattle.rp_app.specs.Application.{Application};
ghost use Rattle.proto_model.specs.SwitchState.{slot_at};
ghost use Rattle.key_table.specs.Table.{Key};
ghost use Rattle.proto_model.specs.World.{Setup, SwitchNode, opened};
ghost use Rattle.proto_model.specs.WorldStep.{world_after};
ghost use Rattle.proto_safety.specs.LeaseLaws.{NonceAt, NotLater};
ghost use Rattle.proto_safety.specs.Origins.{AskSent, CameOfRequests};

/// Each Grant, Put and Snap of a book or of a Forward came of an Ask, a Put or Snaps that were sent.
pub fn entries_come_of_requests()
    ensures { (app : Application) (setup : Setup) (events : List Event) → CameOfRequests (world_after app (opened app.cell_count setup) events) }
{}

/// A slot that is Asking, Held or Lapsed has the greatest incarnation and nonce of its switch's Asks for the flow.
pub fn slots_have_the_greatest_ask()
    ensures { (app : Application) (setup : Setup) (events : List Event) (n inc nonce k : ℕ) (key : Key) (node : SwitchNode) →
        slice_get (world_after app (opened app.cell_count setup) events).switches n ≡ Some node → NonceAt (slot_at node.state key) k →
        AskSent (world_after app (opened app.cell_count setup) events).frames n inc nonce key → NotLater inc nonce node.state.inc k }
{}
