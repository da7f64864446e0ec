// status: from its day on a point is off (de-energised), or on again. The public call finds the point; the functions
// before it work on that point's part alone, which the table's soundness makes the layout of well-formed lists.
#![tactic(auto)]

ghost use Rattle.std.specs.Prelude.{◌≡◌, cond, ◌≤◌};
ghost use Rattle.refusals.specs.Refusals.{row_of};
ghost use Rattle.daybook.specs.Book.{last_of};
ghost use Rattle.daybook.specs.Notices.{least, status_early, cannot_off, cannot_on};
ghost use Rattle.daybook.specs.Calls.{notice_numbers};
ghost use Rattle.daybook.specs.Editions.{editions};
ghost use Rattle.layout.specs.Layout.{point_numbers, point_from};
ghost use Rattle.layout.specs.InnerParts.{room_of, SoundPart};
ghost use Rattle.point.specs.InnerParts.{lists_of};
ghost use Rattle.status.specs.InnerParts.{filled_from, cannot_switch, status_rows_of, switched_lists, status_part};
ghost use Rattle.status.specs.Status.{status_call};

use daybook::StatusNotice;
use point::Part;
use refusals::Refusal;
use table::Register;

// The row of a notice's own numbers.
fn own_row(n: StatusNotice) -> Result<(), Refusal>
    ensures { row_of result ≡ least (status_early n) }
{
    if daybook::is_mirn(n.mirn) & calendar::is_day(n.day) & daybook::is_flag(n.on) {
        return Ok(());
    }
    Err(Refusal::OutOfRange)
}

// By the last span: off while off, or at or before the last on day.
fn cannot_off(part: &Part, day: u64) -> bool
    requires { day ≤ 39999 }
    ensures { result ≡ cannot_off day (last_of (lists_of part.now).offs) }
{
    let n = places::spans(part.numbers);
    if n == 0 {
        return false;
    }
    day <= point::on_day(part.numbers, n - 1)
}

// By the last span: on while on, or not after the off day. An on day that is not there yet reads as 40,001.
fn cannot_on(part: &Part, day: u64) -> bool
    ensures { result ≡ cannot_on day (last_of (lists_of part.now).offs) }
{
    let n = places::spans(part.numbers);
    if n == 0 {
        return true;
    }
    let last = n - 1;
    (point::on_day(part.numbers, last) != 40001) | (day <= places::off_day(part.numbers, last))
}

// Is this day or a later one filled?
fn filled_from(part: &Part, day: u64) -> bool
    ensures { result ≡ filled_from day (lists_of part.now) }
{
    let n = places::records(part.numbers);
    if n == 0 {
        return false;
    }
    day <= places::rec_end(part.numbers, n - 1)
}

// Row 14.
fn cannot_switch(part: &Part, day: u64, on: bool) -> bool
    requires { day ≤ 39999 }
    ensures { result ≡ cannot_switch day (cond on 1 0) (lists_of part.now) }
{
    if on {
        return cannot_on(part, day);
    }
    cannot_off(part, day) | filled_from(part, day) | (day < places::install(part.numbers))
}

// The point's rows.
fn refusal(part: &Part, day: u64, on: bool) -> Result<(), Refusal>
    requires { day ≤ 39999 }
    ensures { row_of result ≡ least (status_rows_of day (cond on 1 0) (lists_of part.now)) }
{
    if cannot_switch(part, day, on) {
        return Err(Refusal::CannotSwitch);
    }
    if !on & (8 <= places::spans(part.numbers)) {
        return Err(Refusal::Full);
    }
    Ok(())
}

// One more span, or the on day of the last.
fn switch(p: &mut [i64], day: u64, on: bool)
    requires { SoundPart p.old × (day ≤ 39999) × (least (status_rows_of day (cond on 1 0) (point_from p.old)) ≡ 0) }
    ensures { p.new ≡ point_numbers (room_of p.old) (switched_lists day (cond on 1 0) (point_from p.old)) }
{
    let n = places::spans(p);
    if on {
        rows::close_span(p, n - 1, day);
    } else {
        rows::open_span(p, n, day);
    }
}

// A notice on its point's part, which a refusal leaves as found.
fn enter(p: &mut [i64], day: u64, on: bool) -> Result<(), Refusal>
    requires { SoundPart p.old × (day ≤ 39999) }
    ensures { (notice_numbers result ≡ (status_part day (cond on 1 0) p.old).0) × (p.new ≡ (status_part day (cond on 1 0) p.old).1) }
{
    let part = Part { numbers: p };
    refusal(&part, day, on)?;
    switch(p, day, on);
    Ok(())
}

// On any table and any numbers.
pub fn status(t: &mut [i64], n: StatusNotice) -> Result<(), Refusal>
    ensures { (notice_numbers result ≡ (status_call editions t.old n).0) × (t.new ≡ (status_call editions t.old n).1) }
{
    let register = Register::of(t)?;
    own_row(n)?;
    let place = register.locate(n.mirn)?;
    enter(
        &mut t[place.from..place.to],
        numbers::natural(n.day),
        n.on == 1,
    )
}
