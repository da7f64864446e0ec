// entering: what an energy notice meets in its point's part and what it leaves there, its record first and then, after
// an append, the pending request.
#![tactic(auto)]

ghost use Rattle.std.specs.Prelude.{◌≡◌, not, ◌≤◌};
ghost use Rattle.numbers.specs.Search.{is_some};
ghost use Rattle.lists.specs.InnerSteps.{starting_on, append_day_of};
ghost use Rattle.lists.specs.InnerWell.{MayEnter};
ghost use Rattle.layout.specs.Places.{rec_count};
ghost use Rattle.layout.specs.Layout.{point_from};
ghost use Rattle.layout.specs.InnerParts.{room_of, SoundPart};
ghost use Rattle.point.specs.InnerTests.{day_if};
ghost use Rattle.point.specs.InnerParts.{lists_of, number_in};
ghost use Rattle.entering.specs.InnerEntering.{entry_from, InRange, row_in, Recorded, SettledTo};

use daybook::Settlement;
use point::Part;
use rows::Record;

// A notice's numbers as naturals; a number that is none as the marker 2^63. Type and flag stay numbers: raised_notice
// reads any notice, and InRange says which are in range. No function reads mirn, but notice_of gives the notice by it.
#[derive(Clone, Copy)]
pub struct RaisedNotice {
    pub mirn: u64,
    pub entry: Record,
    pub confirmed: u64,
}

// Which of the three a notice was; a recut removes the records with a later start.
#[derive(Clone, Copy, Debug, PartialEq, Eq)]
pub enum Kept {
    Appended,
    Replaced,
    Recut { removed: u64 },
}

// The record that starts on a day, by its index; the number of records if none does.
fn row_of(part: &Part, start: u64) -> usize
    ensures { (result ≡ row_in (lists_of part.now).recs start) × (result ≤ number_in part.now rec_count) }
{
    let n = places::records(part.numbers);
    (0..n)
        .find(|j| places::rec_start(part.numbers, *j) == start)
        .unwrap_or(n)
}

// Does no record start on the day?
pub fn appends(part: &Part, start: u64) -> bool
    ensures { result ≡ not (is_some (starting_on (lists_of part.now).recs start)) }
{
    row_of(part, start) == places::records(part.numbers)
}

// The first day that is not off, of those after the last record or, with no record, from install on; 40,001 if all are
// off, which `day_if` reads as no day.
pub fn append_day(part: &Part) -> u64
    ensures { day_if result ≡ append_day_of (lists_of part.now) }
{
    let spans = places::spans(part.numbers);
    let recs = places::records(part.numbers);
    if recs == 0 {
        let install = places::install(part.numbers);
        return point::first_on(part.numbers, spans, install);
    }
    let end = places::rec_end(part.numbers, recs - 1);
    point::first_on(part.numbers, spans, end + 1)
}

// The record in its place: an append behind the others, a replacement in the place of its predecessor, a recut in the
// place of its predecessor and of all later records.
pub fn enter_record(p: &mut [i64], x: RaisedNotice) -> Kept
    requires { SoundPart p.old × InRange x × MayEnter (room_of p.old) (entry_from x) (point_from p.old) }
    ensures { Recorded p.old x result p.new }
{
    let n = places::records(p);
    let part = Part { numbers: p };
    let j = row_of(&part, x.entry.start);
    if j == n {
        rows::append_record(p, n, x.entry);
        return Kept::Appended;
    }
    let end = places::rec_end(p, j);
    if end == x.entry.end {
        rows::put_record(p, j, x.entry);
        return Kept::Replaced;
    }
    rows::cut_records(p, j, n);
    rows::append_record(p, j, x.entry);
    Kept::Recut {
        removed: (n - j - 1) as u64,
    }
}

// The pending request, once an append stands: by its end the User is registered from the next day on, in section 1 by
// an actual reading only, or the request stays, or it lapses.
pub fn settle_request(p: &mut [i64], x: RaisedNotice) -> Settlement
    requires { SoundPart p.old × InRange x }
    ensures { SettledTo p.old x result p.new }
{
    let n = places::registrations(p);
    let user = places::pending_user(p);
    let first = places::pending_first(p);
    let last = places::pending_last(p);
    let latest = places::reg_start(p, n - 1);
    let end = x.entry.end;
    let section = places::section(p);
    let timely = (user != 0) & (first <= end) & (end <= last) & (latest < end + 1);
    if timely & ((section == 0) | (x.entry.type_ == 0)) {
        rows::append_registration(p, n, end + 1, user);
        rows::clear_pending(p);
        return Settlement::Registered(user);
    }
    if (user == 0) | (end <= last) {
        return Settlement::Unsettled;
    }
    rows::clear_pending(p);
    Settlement::Lapsed
}
