//! What frames say and carry.

ghost use Rattle.std.specs.Prelude.{◌≡◌, ◌≤◌, List, Option, Some, length, slice_get, ℕ};
ghost use Rattle.rp_base.specs.declared.node.Node.{Node};
ghost use Rattle.proto_data.specs.declared.message.Body.{Body};
ghost use Rattle.proto_data.specs.declared.message.Carried.{Carried};
ghost use Rattle.key_table.specs.Table.{Key};
ghost use Rattle.rp_base.specs.declared.event.Event.{Event};
ghost use Rattle.rp_app.specs.Application.{Application, IsApplication};
ghost use Rattle.proto_data.specs.declared.message.Msg.{Msg};
ghost use Rattle.proto_model.specs.Feeds.{Each};
ghost use Rattle.proto_model.specs.World.{Setup, opened};
ghost use Rattle.proto_model.specs.WorldStep.{world_after, world_step};
ghost use Rattle.proto_safety.specs.Books.{committed_of};
ghost use Rattle.proto_safety.specs.Flows.{Reply, SaysRecord};
ghost use Rattle.proto_safety.specs.Loads.{IsItemOutput, OnOutput, OnPacket, WasFed};

/// Each packet that a frame carries was fed, and has the frame's key.
pub fn frames_carry_what_was_fed()
    ensures { (app : Application) (setup : Setup) (events : List Event) →
        Each (λ (m : Msg). OnPacket (WasFed app (world_after app (opened app.cell_count setup) events).history.fed) m.body)
        (world_after app (opened app.cell_count setup) events).frames }
{}

/// Each Grant and each Ack that was sent says what the committed book has.
pub fn replies_are_committed()
    ensures { (app : Application) (setup : Setup) (events : List Event) →
        Each (λ (m : Msg). Reply app.cell_count (committed_of (world_after app (opened app.cell_count setup) events).replicas) m.to m.body)
        (world_after app (opened app.cell_count setup) events).frames }
{}

/// A Grant that an event sends goes to the owner of the flow's committed record, and says its epoch and its cells as they are then.
pub fn new_grants_say_the_committed_record()
    ensures { (app : Application) (setup : Setup) (events : List Event) (event : Event) (i : ℕ) (from to : Node) (inc nonce epoch : ℕ) (key : Key) (cells : List ℕ) (load : Option Carried) →
        slice_get (world_step app (world_after app (opened app.cell_count setup) events) event).0.frames i ≡ Some (record { from = from; to = to; body = Body.Grant inc nonce epoch key cells load }) →
        length (world_after app (opened app.cell_count setup) events).frames ≤ i →
        SaysRecord app.cell_count (world_step app (world_after app (opened app.cell_count setup) events) event).0 to inc nonce epoch key cells }
{}

/// Each output that a frame carries is that of the item with its mark; this item has the frame's flow and epoch, and the number of
/// the frame's Put, entry or Echo, in an Ack at most `upto`.
pub fn frames_carry_their_items_outputs()
    ensures { (app : Application) (setup : Setup) (events : List Event) → IsApplication app →
        Each (λ (m : Msg). OnOutput (IsItemOutput (world_after app (opened app.cell_count setup) events).history.items) m.body)
        (world_after app (opened app.cell_count setup) events).frames }
{}
