//! What bits bring, told to C.

ghost use Rattle.std.specs.Prelude.{◌≡◌};
ghost use Rattle.std.specs.Option.{option_to_list};
ghost use Rattle.relay_core.specs.Answers.{news_in};
ghost use Rattle.terminal_c.specs.Told.{fault_of, placed_of, taken_number, TellsChanges, TellsExchange, TellsFrame, TellsJudged, TellsNews};

use crate::flat;
use crate::messages::{fault_of, taken_number, tell_exchange, tell_news};
use crate::sampled::{tell_changes, tell_judged};
use bit_sync::Got;
use c3794_frame::FrameFault;
use relay_core::Heard;
use sample_store::Placed;

/// Tells the answer to bits.
pub(crate) fn tell_heard(heard: &Heard, told: &mut flat::Heard)
    ensures frame { TellsFrame told.new.frame (option_to_list heard.now.frame) }
    ensures news { TellsNews told.new.news (news_in heard.now.news) }
    ensures refused { told.new.refused ≡ fault_of heard.now.refused }
    ensures taken { told.new.taken ≡ taken_number (option_to_list heard.now.taken) }
    ensures chosen { TellsExchange told.new.chosen (option_to_list heard.now.chosen) }
    ensures placed { told.new.placed ≡ placed_of (option_to_list heard.now.placed) }
    ensures judged { TellsJudged told.new.judged (option_to_list heard.now.judged) }
    ensures changes { TellsChanges told.new.changes heard.now.changes.items }
{
    tell_frame(&heard.frame, &mut told.frame);
    tell_news(&heard.news, &mut told.news);
    told.refused = fault_of(heard.refused);
    told.taken = taken_number(heard.taken);
    tell_exchange(&heard.chosen, &mut told.chosen);
    told.placed = placed_of(heard.placed);
    tell_judged(&heard.judged, &mut told.judged);
    tell_changes(&heard.changes, &mut told.changes);
}

// Tells the frame that ended, where one did.
fn tell_frame(frame: &Option<Got>, told: &mut flat::Frame)
    ensures { TellsFrame told.new (option_to_list frame.now) }
{
    match frame {
        None => told.kind = 0,
        Some(Got::Good(frame)) => {
            told.kind = 1;
            told.odd = frame.odd();
            told.yellow = frame.yellow();
            told.payload = frame.payload();
        }
        Some(Got::Bad(FrameFault::Header)) => told.kind = 2,
        Some(Got::Bad(FrameFault::Pair(at))) => {
            told.kind = 3;
            told.detail = *at;
        }
        Some(Got::Bad(FrameFault::Count(count))) => {
            told.kind = 4;
            told.detail = *count;
        }
    }
}

// What became of a peer's values, where there were some.
fn placed_of(placed: Option<Placed>) -> flat::Placed
    ensures { result ≡ placed_of (option_to_list placed) }
{
    match placed {
        None => flat::Placed { kind: 0, number: 0 },
        Some(Placed::Stale(number)) => flat::Placed { kind: 1, number },
        Some(Placed::Ahead(number)) => flat::Placed { kind: 2, number },
        Some(Placed::Double(number)) => flat::Placed {
            kind: 3,
            number: i64::from(number),
        },
        Some(Placed::Stored(number)) => flat::Placed {
            kind: 4,
            number: i64::from(number),
        },
    }
}
