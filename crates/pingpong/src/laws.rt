//! The laws of clocks and exchanges against true time, each the contract of a function that does nothing.

ghost use Rattle.std.specs.Prelude.{◌≡◌, ℕ, ◌≤◌, List, All, Some, slice_get, unsigned_abs};
ghost use Rattle.pingpong.specs.Bounded.{Passage, IsPassage, Bounded};
ghost use Rattle.pingpong.specs.Clock.{Course, reading};
ghost use Rattle.pingpong.specs.Journal.{Follows, Happened, IsJournal, passage, read_at};
ghost use Rattle.pingpong.specs.Reading.{Reading, SameClock, WithinDrift};
ghost use Rattle.pingpong.specs.declared.journal.Entry.{Entry};

/// The bound of one exchange: the estimate is off by at most half its asymmetry, the drift of the clocks since it began, and a
/// tick.
pub fn an_estimate_is_bounded()
    ensures { (drift : ℕ) (p : Passage) (own peer : Reading) → IsPassage drift p own peer → Bounded drift p own peer }
{}

/// A clock whose rates are all within a drift keeps within it.
pub fn a_clock_keeps_its_drift()
    ensures { (drift : ℕ) (course : Course) → All (λ r. unsigned_abs r.rate ≤ drift) course.rates → (first last : ℕ) → first ≤ last
        → WithinDrift drift (reading course first) (reading course last) }
{}

/// An entry of a journal follows each that isn't behind it, and at any two a station's clock is one clock.
pub fn entries_follow_each_other()
    ensures follow { (drift : ℕ) (journal : List Entry) (i j : ℕ) (earlier later : Entry) → IsJournal drift journal → i ≤ j
        → slice_get journal i ≡ Some earlier → slice_get journal j ≡ Some later → Follows drift earlier later }
    ensures one_clock { (drift : ℕ) (journal : List Entry) (i j : ℕ) (one other : Entry) → IsJournal drift journal
        → slice_get journal i ≡ Some one → slice_get journal j ≡ Some other → (station : ℕ) → (1 ≤ station) × (station ≤ 3)
        → SameClock drift (read_at station one) (read_at station other) }
{}

/// The bound of one exchange whose messages were sent and came at entries of a journal, seen from any later entry.
pub fn a_journal_bounds_its_estimates()
    ensures passage { (drift : ℕ) (journal : List Entry) (sent came turned back now : Entry) → IsJournal drift journal
        → Happened journal sent came turned back now → (station peer : ℕ) → (1 ≤ station) × (station ≤ 3) → (1 ≤ peer) × (peer ≤ 3)
        → IsPassage drift (passage station peer sent came turned back) (read_at station now) (read_at peer now) }
    ensures bounded { (drift : ℕ) (journal : List Entry) (sent came turned back now : Entry) → IsJournal drift journal
        → Happened journal sent came turned back now → (station peer : ℕ) → (1 ≤ station) × (station ≤ 3) → (1 ≤ peer) × (peer ≤ 3)
        → Bounded drift (passage station peer sent came turned back) (read_at station now) (read_at peer now) }
{}
