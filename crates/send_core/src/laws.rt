//! A law of histories, which holds of the definitions that the contracts of this crate cite. The
//! function does nothing; its contract is the law.

ghost use Rattle.std.specs.Prelude.{◌≡◌, List, [], ◌∷◌, ◌++◌};
ghost use Rattle.send_core.specs.declared.call.Entry.{Entry};
ghost use Rattle.send_core.specs.Estimates.{est};
ghost use Rattle.send_core.specs.History.{later, now, accepted, sent, waiting};
ghost use Rattle.send_core.specs.Levels.{deeds, passing, padding, padding_at};
ghost use Rattle.send_core.specs.Refusals.{IsRefused};
ghost use Rattle.send_core.specs.Reports.{events, cluster_deeds};
ghost use Rattle.send_core.specs.Settings.{settings, streams, started};

/// Law: a refused call changes the moment, both levels, by the time that passes up to it, the rate in
/// force, and the journal. The settings, the streams, whether a start was there, the probe clusters,
/// the estimates, the accepted, waiting and sent packets, and what was sent and credited stay as they
/// were.
pub fn refused_calls_change_nothing_else()
    ensures media { (history : List Entry) (e : Entry) → IsRefused e.reply → deeds (history ++ e ∷ []) ≡ deeds history ++ passing history (later (now history) e.call) ∷ [] }
    ensures padding { (history : List Entry) (e : Entry) → IsRefused e.reply → padding (history ++ e ∷ []) ≡ padding_at history (later (now history) e.call) }
    ensures settings { (history : List Entry) (e : Entry) → IsRefused e.reply → settings (history ++ e ∷ []) ≡ settings history }
    ensures streams { (history : List Entry) (e : Entry) → IsRefused e.reply → streams (history ++ e ∷ []) ≡ streams history }
    ensures started { (history : List Entry) (e : Entry) → IsRefused e.reply → started (history ++ e ∷ []) ≡ started history }
    ensures clusters { (history : List Entry) (e : Entry) → IsRefused e.reply → cluster_deeds (history ++ e ∷ []) ≡ cluster_deeds history }
    ensures estimates { (history : List Entry) (e : Entry) → IsRefused e.reply → est (history ++ e ∷ []) ≡ est history }
    ensures accepted { (history : List Entry) (e : Entry) → IsRefused e.reply → accepted (history ++ e ∷ []) ≡ accepted history }
    ensures waiting { (history : List Entry) (e : Entry) → IsRefused e.reply → waiting (history ++ e ∷ []) ≡ waiting history }
    ensures sent { (history : List Entry) (e : Entry) → IsRefused e.reply → sent (history ++ e ∷ []) ≡ sent history }
    ensures credited { (history : List Entry) (e : Entry) → IsRefused e.reply → events (history ++ e ∷ []) ≡ events history }
{}
