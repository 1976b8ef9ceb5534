//! Runs that the definitions compute, against lines that were written by hand.

ghost use Rattle.std.specs.Prelude.{◌≡◌, [], ◌∷◌, false, replicate};
ghost use Rattle.rp_app.specs.Application.{counting};
ghost use Rattle.rp_base.specs.declared.event.DropCause.{DropCause};
ghost use Rattle.rp_base.specs.declared.event.Refusal.{Refusal};
ghost use Rattle.rp_base.specs.declared.node.Node.{Node};
ghost use Rattle.rp_base.specs.declared.event.Event.TheVariants.{Pump};
ghost use Rattle.proto_model.specs.Committed.{committed_cells};
ghost use Rattle.proto_model.specs.EndLines.{report};
ghost use Rattle.proto_model.specs.Kept.{base, epoch_lines};
ghost use Rattle.proto_model.specs.Lines.{Release, Dropped, Refused, Stranger, Serial, CellsLine, End};
ghost use Rattle.proto_model.specs.Runs.{before};
ghost use Rattle.proto_model.specs.Straight.{StraightPut, StraightAsk};
ghost use Rattle.proto_safety.specs.LinkedRows.{linked_lines, linked_packet, linked_setup, linked_stranger};
ghost use Rattle.proto_safety.specs.SnapshotRow.{letters, snapshot_end, snapshot_lines};
ghost use Rattle.proto_safety.specs.StraightRuns.{run_of, hop, packet, out};
ghost use Rattle.proto_safety.specs.WorkedRows.{Computes, booted_switch, clean_waits_for_puts, head_fails, late_put_echoed, middle_fails, no_events, one_packet, put_after_takeover, put_before_takeover, put_lost, rates_refused, refusals_in_order, ring_overflow, terms_at_equality, two_on_one_nonce, two_replicas};

/// One switch over one replica.
pub fn one_switch_computes()
    ensures none { Computes no_events }
    ensures one { Computes one_packet }
    ensures two { Computes two_on_one_nonce }
    ensures lost { Computes put_lost }
    ensures echoed { Computes late_put_echoed }
    ensures clean { Computes clean_waits_for_puts }
    ensures pushed_out { Computes ring_overflow }
{}

/// Each cause of a refusal.
pub fn refusals_compute()
    ensures rates { Computes rates_refused }
    ensures others { Computes refusals_in_order }
{}

/// A switch fails or boots, and another one takes its flow over.
pub fn takeovers_compute()
    ensures put_before { Computes put_before_takeover }
    ensures put_after { Computes put_after_takeover }
    ensures at_equality { Computes terms_at_equality }
    ensures booted { Computes booted_switch }
{}

/// Chains of two and three replicas, and failures in them.
pub fn chains_compute()
    ensures whole { Computes two_replicas }
    ensures head { Computes head_fails }
    ensures middle { Computes middle_fails }
{}

/// A run in snapshot mode: its lines, each epoch's kept items and marks, and the cells that are committed.
pub fn snapshot_run_computes()
    ensures lines { snapshot_lines ≡
        Release 3 1 7 (1 ∷ 0 ∷ []) ∷ Release 5 5 7 (2 ∷ 0 ∷ []) ∷ Release 6 6 7 (1 ∷ 63 ∷ []) ∷ Release 12 12 7 (3 ∷ 0 ∷ [])
        ∷ Dropped 14 14 DropCause.Bound ∷ Release 20 18 7 (2 ∷ 0 ∷ []) ∷ [] }
    ensures epochs { epoch_lines snapshot_end (98 ∷ []) ≡
        record { key = 98 ∷ []; epoch = 1; kept = 1; marks = 1 ∷ 5 ∷ 6 ∷ 12 ∷ [] }
        ∷ record { key = 98 ∷ []; epoch = 2; kept = 0; marks = 18 ∷ [] } ∷ [] }
    ensures cells { committed_cells 64 snapshot_end (98 ∷ []) ≡ 1 ∷ replicate 63 0 }
    ensures folded { base letters snapshot_end (98 ∷ []) 2 ≡ 1 ∷ replicate 63 0 }
{}

/// Runs over a link: one packet by four datagrams, a datagram that is no frame, and a `pump` without a link.
pub fn linked_runs_compute()
    ensures packet { linked_lines linked_packet ≡
        Release 4 1 7 (0 ∷ 0 ∷ 0 ∷ 0 ∷ 0 ∷ 0 ∷ 0 ∷ 1 ∷ 97 ∷ 33 ∷ []) ∷ Refused 5 Refusal.Linked
        ∷ Serial (97 ∷ []) (1 ∷ []) ∷ CellsLine (97 ∷ []) (1 ∷ []) ∷ End ∷ [] }
    ensures all_taken { linked_packet.rest ≡ [] }
    ensures stranger { linked_lines linked_stranger ≡ Stranger 1 (Node.Switch 0) ∷ End ∷ [] }
    ensures no_link { report false counting (record linked_setup { linked = false }) (Pump ∷ []) ≡ Refused 1 Refusal.NoLink ∷ End ∷ [] }
{}

/// The Put and the Ask of one packet over two replicas are on straight paths, and so is the Put over one replica; the output is released at the Ack.
pub fn straight_paths_compute()
    ensures put { StraightPut (run_of 2) 3 0 (97 ∷ []) 1 1 1 ((0, 1) ∷ []) out (hop (run_of 2) 5 4) (hop (run_of 2) 6 5 ∷ []) (hop (run_of 2) 7 6) }
    ensures ask { StraightAsk (run_of 2) 0 0 (97 ∷ []) 1 1 1 packet (hop (run_of 2) 1 0) (hop (run_of 2) 2 1 ∷ []) (hop (run_of 2) 3 2) }
    ensures one { StraightPut (run_of 1) 2 0 (97 ∷ []) 1 1 1 ((0, 1) ∷ []) out (hop (run_of 1) 3 2) [] (hop (run_of 1) 4 3) }
    ensures released { (before (run_of 2) 8).history.released ≡ record { event = 8; output = out } ∷ [] }
{}
