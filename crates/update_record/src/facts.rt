ghost use Rattle.std.specs.Prelude.{◌≡◌, ◌<◌, ◌≤◌, ◌^◌, Some, length, IfOk};
ghost use Rattle.byte_grammar.specs.Steps.{width_at, next_at, StepsTo};
ghost use Rattle.update_record.specs.MessageReading.{is_target_set};
ghost use Rattle.update_record.specs.MessagePositions.{at_facts, facts_rank};

use crate::held::facts_of;
use crate::message::Facts;
use byte_grammar::{BuildFault, Position, Reason, Refusal, number32};
use out_update::reply::{self, ReplyPosition};
use std::alloc::{AllocError as Memory, Global};

/// The next field of facts.
#[derive(Clone, Copy, Debug)]
pub enum FactsPosition {
    /// The load.
    Load,
    /// The clock.
    Clock,
    /// The number of the writer.
    Writer,
    /// Its targets.
    Targets { writer: u32 },
    /// A field of the reply, or nothing.
    Inside { reply: ReplyPosition },
}

fn is_set(writer: u32, set: u32) -> bool
    ensures { result ≡ is_target_set writer set }
{
    if writer == 0 { set == 0 } else { set < 65_536 }
}

#[tactic(auto, unfolding(crate::specs::MessageReading::whole_facts, crate::specs::MessageReading::at_clock, crate::specs::MessageReading::at_writer, crate::specs::MessageReading::at_targets))]
fn width_of(position: FactsPosition) -> Option<usize>
    ensures { result ≡ width_at (at_facts position) }
{
    match position {
        FactsPosition::Load | FactsPosition::Clock => Some(8),
        FactsPosition::Writer | FactsPosition::Targets { .. } => Some(4),
        FactsPosition::Inside { reply } => reply::width(reply),
    }
}

#[tactic(auto, unfolding(crate::specs::MessageReading::whole_facts, crate::specs::MessageReading::at_clock, crate::specs::MessageReading::at_writer, crate::specs::MessageReading::at_targets))]
fn read_field(position: FactsPosition, place: usize, bytes: &[u8]) -> Result<FactsPosition, Refusal>
    requires width { width_at (at_facts position) ≡ Some (length bytes.now) }
    requires place { place ≤ 24600 }
    ensures steps { StepsTo at_facts result (next_at (at_facts position) place bytes.now) }
    ensures rank { IfOk result (λ p. length bytes.now ≡ 0 → facts_rank p < facts_rank position) }
    ensures small { IfOk result (λ p. facts_rank p ≤ 2) }
{
    match position {
        FactsPosition::Load => Ok(FactsPosition::Clock),
        FactsPosition::Clock => Ok(FactsPosition::Writer),
        FactsPosition::Writer => Ok(FactsPosition::Targets {
            writer: number32(bytes),
        }),
        FactsPosition::Targets { writer } => {
            if !is_set(writer, number32(bytes)) {
                let reason = Reason::BadValue;
                return Err(Refusal { place, reason });
            }
            Ok(FactsPosition::Inside {
                reply: ReplyPosition::Magic,
            })
        }
        FactsPosition::Inside { reply } => {
            let reply = reply::read(reply, place, bytes)?;
            Ok(FactsPosition::Inside { reply })
        }
    }
}

impl Position for FactsPosition {
    ghost use Rattle.update_record.specs.Messages.{spells_facts};
    ghost use Rattle.update_record.specs.MessageReading.{whole_facts};
    ghost use Rattle.update_record.specs.MessagePositions.{at_facts, facts_rank};
    ghost use Rattle.update_record.specs.MessageBegins.{facts_begins};

    type Value = Facts;

    const LIMIT: usize = 24_600;

    ghost LIMIT = { 24600 };

    ghost grammar = { at_facts };

    ghost whole = { whole_facts };

    ghost spells = { spells_facts };

    ghost rank = { facts_rank };

    fn start() -> FactsPosition {
        FactsPosition::Load
    }

    fn width(self) -> Option<usize> {
        width_of(self)
    }

    fn read(self, place: usize, bytes: &[u8]) -> Result<FactsPosition, Refusal> {
        read_field(self, place, bytes)
    }

    fn build(alloc: Global, bytes: &[u8]) -> Result<Facts, Memory> {
        match facts_of(alloc, bytes) {
            Ok((value, _)) => Ok(value),
            Err(BuildFault::Memory) => Err(Memory),
            Err(BuildFault::Short) => unreachable!(),
        }
    }

    ghost begins = { facts_begins };
}
