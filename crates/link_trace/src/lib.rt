//! What a run over a link does outside, in order, and that this is the run: its lines, its frames and the answers that it takes.
//!
//! Each law is the contract of a function that does nothing.
#![tactic(auto)]

ghost use Rattle.std.specs.Prelude.{◌≡◌, ◌≤◌, ◌++◌, Bool, List, [], ◌∷◌, ℕ, drop, fold, length};
ghost use Rattle.rp_base.specs.declared.event.Event.{Event};
ghost use Rattle.rp_base.specs.declared.event.Refusal.{Refusal};
ghost use Rattle.rp_base.specs.declared.node.Node.{Node as NodeValue};
ghost use Rattle.rp_app.specs.Application.{Application};
ghost use Rattle.proto_data.specs.declared.message.Msg.{Msg};
ghost use Rattle.proto_model.specs.Handing.{hand};
ghost use Rattle.proto_model.specs.Lines.{CellsLine, End, Refused, Release, Serial, Stranger};
ghost use Rattle.proto_model.specs.Pumping.{Pumped, Received, linked_event, linked_run};
ghost use Rattle.proto_model.specs.World.{Setup, World};
ghost use Rattle.proto_model.specs.WorldStep.{world_step};
ghost use Rattle.proto_safety.specs.LegalLines.{linked_report};
ghost use Rattle.link_trace.specs.Carried.{seen, sends_of};
ghost use Rattle.link_trace.specs.Doings.{all_did, answers_of, events_did, frames_of, lines_of, node_did, run_did};
ghost use Rattle.link_trace.specs.WorkedDoings.{Asked, Sent, Wrote, packet_turns, r0, s0, stranger_turns};

/// What is written, sent and received, event by event, are the lines of the run, all frames that it sent, each once and in order, and the
/// answers that it took: what is left of the link's answers stands behind them.
pub fn doings_are_the_run()
    ensures lines { (spelled : Msg → List ℕ) (app : Application) (setup : Setup) (events : List Event) (received : List Received) →
        lines_of (run_did spelled app setup events received) ≡ (linked_run spelled app setup events received).lines }
    ensures frames { (spelled : Msg → List ℕ) (app : Application) (setup : Setup) (events : List Event) (received : List Received) →
        frames_of (run_did spelled app setup events received) ≡ (linked_run spelled app setup events received).world.frames }
    ensures answers { (spelled : Msg → List ℕ) (app : Application) (setup : Setup) (events : List Event) (received : List Received) →
        received ≡ answers_of (run_did spelled app setup events received) ++ (linked_run spelled app setup events received).rest }
{}

/// More events do what they do from where the others end.
pub fn doings_go_on()
    ensures { (spelled : Msg → List ℕ) (app : Application) (es fs : List Event) (p : Pumped) →
        events_did spelled app p (es ++ fs) ≡ events_did spelled app p es ++ events_did spelled app (fold (linked_event spelled app) p es) fs }
{}

/// A node that a pump may ask so many times gets at most as many answers: in a run, 64.
pub fn nodes_are_asked_seldom()
    ensures { (spelled : Msg → List ℕ) (app : Application) (node : NodeValue) (n : ℕ) (p : Pumped) →
        length (answers_of (node_did spelled app node n p)) ≤ n }
{}

/// What a whole run writes, with the lines at its end, is its report, with the frames that are sent or without them.
pub fn lines_are_the_report()
    ensures { (spelled : Msg → List ℕ) (app : Application) (setup : Setup) (events : List Event) (received : List Received) (frames : Bool) →
        seen frames (lines_of (all_did spelled app setup events received)) ≡ linked_report spelled frames app setup events received }
{}

/// The lines of an event, and of a frame that is handed over, tell the frames that it sent, each once and in order.
pub fn lines_tell_frames()
    ensures events { (app : Application) (w : World) (e : Event) → sends_of (world_step app w e).1 ≡ drop (length w.frames) (world_step app w e).0.frames }
    ensures hands { (app : Application) (w : World) (i : ℕ) → sends_of (hand app w i).1 ≡ drop (length w.frames) (hand app w i).0.frames }
{}

/// What two worked runs do: a packet whose four frames come as datagrams, up to the release and a refused `next`, and a stranger. Each
/// frame goes before the link is asked again, and a line stands before the next call.
pub fn worked_runs_do()
    ensures packet { packet_turns ≡
        Sent s0 r0 ∷ Asked s0 ∷ Asked r0 ∷ Sent r0 s0 ∷ Asked r0 ∷ Asked s0 ∷ Sent s0 r0 ∷ Asked s0 ∷ Asked r0 ∷ Sent r0 s0 ∷ Asked r0 ∷ Asked s0 ∷
        Wrote (Release 4 1 7 (0 ∷ 0 ∷ 0 ∷ 0 ∷ 0 ∷ 0 ∷ 0 ∷ 1 ∷ 97 ∷ 33 ∷ [])) ∷ Asked s0 ∷ Asked r0 ∷ Wrote (Refused 5 Refusal.Linked) ∷
        Wrote (Serial (97 ∷ []) (1 ∷ [])) ∷ Wrote (CellsLine (97 ∷ []) (1 ∷ [])) ∷ Wrote End ∷ [] }
    ensures stranger { stranger_turns ≡ Asked s0 ∷ Wrote (Stranger 1 s0) ∷ Asked s0 ∷ Asked r0 ∷ Wrote End ∷ [] }
{}
