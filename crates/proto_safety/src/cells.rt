//! Cells: what the items of each epoch, its Puts and its slot come to, and the serial lists.

ghost use Rattle.std.specs.Prelude.{◌≡◌, ◌≤◌, List};
ghost use Rattle.rp_base.specs.Clocks.{TermsHold};
ghost use Rattle.rp_base.specs.declared.event.Event.{Event};
ghost use Rattle.rp_app.specs.Application.{Application, IsApplication};
ghost use Rattle.proto_data.specs.declared.terms.Mode.{Mode};
ghost use Rattle.proto_model.specs.World.{Setup, opened};
ghost use Rattle.proto_model.specs.WorldStep.{world_after};
ghost use Rattle.proto_safety.specs.CellLaws.{CellsStand, SerialStays};

/// In strict mode, with terms by which a lease has ended at its switch before the store gives the flow to another: only granted
/// epochs have items, their numbers never fall, and are at most the last number of a slot that is leased in the epoch; the cells
/// of such a slot are those after the committed items of earlier epochs and all items of its own, and each item's output is that
/// of the application in the cells before it; a Put, as a frame, a copy or an entry, has the delta of the first item of its
/// number, the further ones are clean, and without one it is empty; a slot that is Asking while its Grant stands in a running
/// book has neither items nor Puts in that epoch; where a leased slot has copies one has its last number, and else this number
/// is committed; a released mark with a key stands in its flow's serial list.
pub fn cells_stand()
    ensures { (app : Application) → IsApplication app → (setup : Setup) → setup.terms.mode ≡ Mode.Strict →
        TermsHold setup.terms.t_switch setup.terms.t_store setup.terms.ratio → (events : List Event) →
        CellsStand app (world_after app (opened app.cell_count setup) events) }
{}

/// In strict mode, with such terms: what stands before a released mark in its flow's serial list never changes, whatever follows.
pub fn serial_lists_stay()
    ensures { (app : Application) → IsApplication app → (setup : Setup) → setup.terms.mode ≡ Mode.Strict →
        TermsHold setup.terms.t_switch setup.terms.t_store setup.terms.ratio → (events more : List Event) →
        SerialStays app (world_after app (opened app.cell_count setup) events) (world_after app (world_after app (opened app.cell_count setup) events) more) }
{}
