//! The greatest batch of a master's live records that are committed, found by the index from its end.

ghost use Rattle.std.specs.Prelude.{◌≡◌, true, false, None, IfSome};
ghost use Rattle.std.specs.BTreeSet.{contains};
ghost use Rattle.std.specs.declared.cmp.Ordering.TheVariants.{Less};
ghost use Rattle.std.specs.Ordering.{is_lt};
ghost use Rattle.target_state.specs.declared.indexed.LiveRecord.{LiveRecord};
ghost use Rattle.target_state.specs.Indexed.{live_cmp, IsLatest};

use crate::indexed::LiveRecord;
use crate::waiting::{Waiting, waits};
use std::collections::BTreeSet;

/// The last record before one, which need not be there.
fn last_before(live: &BTreeSet<LiveRecord>, end: LiveRecord) -> Option<LiveRecord>
    ensures listed { IfSome result (λ r. contains live_cmp live.now r ≡ true) }
    ensures before { IfSome result (λ r. live_cmp r end ≡ Less) }
    ensures last { IfSome result (λ r. (q : LiveRecord) → live_cmp q end ≡ Less → contains live_cmp live.now q ≡ true → is_lt (live_cmp r q) ≡ false) }
    ensures none { result ≡ None → (q : LiveRecord) → live_cmp q end ≡ Less → contains live_cmp live.now q ≡ false }
{
    match live.range(..end).next_back() {
        None => None,
        Some(last) => Some(*last),
    }
}

/// The greatest batch of a master's records that don't wait to be committed.
pub(crate) fn latest(live: &BTreeSet<LiveRecord>, waiting: &[Waiting], master: u8) -> Option<u64>
    ensures { IsLatest live.now waiting.now master result }
{
    let own = u32::from(master);
    let mut end = LiveRecord {
        master: own + 1,
        batch: 0,
        index: 0,
    };
    while let Some(record) = last_before(live, end) {
        if record.master != own {
            return None;
        }
        if !waits(waiting, own, record.batch) {
            return Some(record.batch);
        }
        end = LiveRecord {
            master: own,
            batch: record.batch,
            index: 0,
        };
    }
    None
}
