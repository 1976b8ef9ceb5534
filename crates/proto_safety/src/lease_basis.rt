//! What a lease rests on.

ghost use Rattle.std.specs.Prelude.{◌≡◌, List, Some, slice_get, ℕ};
ghost use Rattle.rp_base.specs.declared.event.Event.{Event};
ghost use Rattle.rp_app.specs.Application.{Application};
ghost use Rattle.proto_data.specs.declared.terms.Mode.{Mode};
ghost use Rattle.proto_model.specs.Feeds.{Each};
ghost use Rattle.proto_model.specs.Slot.{Slot, epoch_of};
ghost use Rattle.proto_model.specs.SwitchState.{slot_at};
ghost use Rattle.key_table.specs.Table.{Key};
ghost use Rattle.proto_model.specs.World.{Setup, SwitchNode, opened};
ghost use Rattle.proto_model.specs.WorldStep.{world_after};
ghost use Rattle.proto_safety.specs.CellLaws.{CopiesHaveLast, LeaseBasis};

/// In strict mode a flow's copies stand in a leased slot, and the greatest number among them is the slot's last.
pub fn copies_have_the_last_number()
    ensures { (app : Application) (setup : Setup) (events : List Event) →
        Each (λ (n : SwitchNode). (key : Key) → n.state.terms.mode ≡ Mode.Strict → CopiesHaveLast n key)
        (world_after app (opened app.cell_count setup) events).switches }
{}

/// A Held or Lapsed slot's Grant is committed. In strict mode its last number is at most the closing where it has no copies; in
/// snapshot mode where no round runs, and a running round has the slot's last number.
pub fn leases_rest_on_the_store()
    ensures { (app : Application) (setup : Setup) (events : List Event) (n epoch : ℕ) (key : Key) (node : SwitchNode) (slot : Slot) →
        slice_get (world_after app (opened app.cell_count setup) events).switches n ≡ Some node → slot_at node.state key ≡ Some slot → epoch_of slot.lease ≡ Some epoch →
        LeaseBasis (world_after app (opened app.cell_count setup) events) n key epoch node slot }
{}
