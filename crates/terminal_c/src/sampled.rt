//! What becomes of a sample, a set and the alarms, told to C.

ghost use Rattle.std.specs.Prelude.{◌≡◌};
ghost use Rattle.std.specs.Option.{option_to_list};
ghost use Rattle.terminal_c.specs.Told.{own_of, change_of, TellsChanges, TellsJudged};

use crate::codes::{alarm_number, verdict_number};
use crate::flat;
use relay_core::{Change, Changes, Judged, Sampled};
use sample_store::OwnTaken;

/// Tells the answer to a sample.
pub(crate) fn tell_sampled(sampled: &Sampled, told: &mut flat::Sampled)
    ensures own { told.new.own ≡ own_of sampled.now.own }
    ensures judged { TellsJudged told.new.judged (option_to_list sampled.now.judged) }
    ensures changes { TellsChanges told.new.changes sampled.now.changes.items }
{
    told.own = own_of(sampled.own);
    tell_judged(&sampled.judged, &mut told.judged);
    tell_changes(&sampled.changes, &mut told.changes);
}

// What became of an own sample.
fn own_of(own: OwnTaken) -> flat::Own
    ensures { result ≡ own_of own }
{
    match own {
        OwnTaken::Took(number) => flat::Own { kind: 0, number },
        OwnTaken::OffGrid => flat::Own { kind: 1, number: 0 },
        OwnTaken::Again(number) => flat::Own { kind: 2, number },
    }
}

/// Tells a set that was judged, where one was.
pub(crate) fn tell_judged(judged: &Option<Judged>, told: &mut flat::Judged)
    ensures { TellsJudged told.new (option_to_list judged.now) }
{
    match judged {
        None => told.given = false,
        Some(judged) => {
            let [a, b, c] = judged.verdicts;
            *told = flat::Judged {
                given: true,
                verdicts: [verdict_number(a), verdict_number(b), verdict_number(c)],
                number: judged.number,
            };
        }
    }
}

fn change_of(change: Change) -> flat::Change
    ensures { result ≡ change_of change }
{
    flat::Change {
        peer: change.peer.get(),
        alarm: alarm_number(change.turn.alarm),
        on: change.turn.on,
    }
}

/// Tells the alarms that turned.
pub(crate) fn tell_changes(changes: &Changes, told: &mut flat::Changes)
    ensures { TellsChanges told.new changes.now.items }
{
    for (place, change) in changes.iter().enumerate() {
        told.items[place] = change_of(*change);
    }
    told.count = changes.len() as u8;
}
