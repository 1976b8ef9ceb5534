//! How recent the losses of a snapshot run are, after every list of events.

ghost use Rattle.std.specs.Prelude.{◌≡◌, ◌≤◌, List, ℕ};
ghost use Rattle.rp_base.specs.Clocks.{TermsHold};
ghost use Rattle.rp_base.specs.declared.event.Event.{Event};
ghost use Rattle.rp_app.specs.Application.{Application, counting};
ghost use Rattle.proto_data.specs.declared.terms.Mode.{Mode};
ghost use Rattle.proto_model.specs.Loss.{IsBounded};
ghost use Rattle.proto_model.specs.World.{Setup, World, opened};
ghost use Rattle.proto_model.specs.WorldStep.{world_after};
ghost use Rattle.proto_safety.specs.LossLaws.{AgesStand, LossesBounded};
ghost use Rattle.proto_safety.specs.NeededPremises.{unmarked};
ghost use Rattle.loss_laws.specs.ChangedRules.{own_rules, world_by};
ghost use Rattle.loss_laws.specs.NeededPremises.{boundless_run, early_run, strict_run, unmarked_run};
ghost use Rattle.loss_laws.specs.NeededRules.{ack_run, chunk_run, forgetful_run, late_run};

/// In snapshot mode, with terms by which a lease has ended at its switch before the store gives the flow to another: the age that
/// a leased slot goes by covers each update of its epoch that no done round has, and isn't later than the clock; of two updates of
/// an epoch that its greatest committed round doesn't have the later is less than the bound behind.
pub fn ages_stand()
    ensures { (app : Application) (setup : Setup) (bound : ℕ) → setup.terms.mode ≡ Mode.Snapshot bound →
        TermsHold setup.terms.t_switch setup.terms.t_store setup.terms.ratio → (events : List Event) →
        AgesStand bound (world_after app (opened app.cell_count setup) events) }
{}

/// In snapshot mode, with such terms and a bound of at least 1, the loss of every run is bounded: the committed cells are those after
/// the last committed epoch's kept items; each released output of an item is that of one switch, from its epoch's base along the
/// items before it; each update of an epoch past the kept ones has a moment less than the bound before that of the epoch's last
/// update; each mark was fed with its flow's key and stands once; what was released before another packet was fed stands before
/// it; marks without a key are released once, with the output of one switch.
pub fn losses_are_bounded()
    ensures { (app : Application) (setup : Setup) (bound : ℕ) → LossesBounded app setup bound }
{}

/// Each of these premises is needed. Of a run in strict mode the committed cells aren't those of kept items, since no round keeps
/// any; with a bound of 0 the last update would have to be less than 0 before itself; where the store gives a flow away while its
/// lease runs, a packet is processed in the earlier epoch that was fed behind a release of the later one; the outputs of an
/// application with marks of its own have no packet that was fed.
pub fn premises_are_needed()
    ensures mode { IsBounded counting 100 strict_run → ⊥ }
    ensures bound { IsBounded counting 0 boundless_run → ⊥ }
    ensures terms { IsBounded counting 100 early_run → ⊥ }
    ensures application { IsBounded unmarked 100 unmarked_run → ⊥ }
{}

/// With the rules of the model, runs by rules are the model's own: the definitions that leave four rules open share all else.
pub fn own_rules_are_the_model()
    ensures { (app : Application) (w : World) (events : List Event) → world_by own_rules app w events ≡ world_after app w events }
{}

/// Each of these rules is needed. Where no age is left once a round is done, an update after the round's begin is lost that is
/// twice the bound before the last one; where the bound itself lets a packet in, one that is as much before it as the bound; where a
/// chunk is of the cells as they are now, or a round's items are counted at its Ack, the committed cells aren't those after the kept items.
pub fn rules_are_needed()
    ensures ages { IsBounded counting 100 forgetful_run → ⊥ }
    ensures bound { IsBounded counting 100 late_run → ⊥ }
    ensures chunks { IsBounded counting 100 chunk_run → ⊥ }
    ensures counts { IsBounded counting 100 ack_run → ⊥ }
{}
