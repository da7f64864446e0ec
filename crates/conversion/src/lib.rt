// A register in the other edition, in a second table (document 02, k): a point's numbers are copied with room for as
// many records as that edition has, and every operator is named.
#![tactic(auto)]

ghost use Rattle.std.specs.Prelude.{◌≡◌, not, ◌%◌, ◌≤◌, length};
ghost use Rattle.daybook.specs.Calls.{notice_numbers};
ghost use Rattle.daybook.specs.Editions.{editions, no_room};
ghost use Rattle.layout.specs.Places.{rec_count, rec_place};
ghost use Rattle.layout.specs.Layout.{Fits, with_new_book};
ghost use Rattle.layout.specs.InnerParts.{room_of};
ghost use Rattle.point.specs.InnerParts.{number_in};
ghost use Rattle.table.specs.InnerRegisters.{book, number_of_points};
ghost use Rattle.conversion.specs.InnerConversion.{Convertible, copied_part, parts_into};
ghost use Rattle.conversion.specs.Conversion.{convert_call};

use daybook::Edition;
use point::Part;
use refusals::Refusal;
use table::Register;

// Has the edition `to` room for the register? Where it has too few points, too few are left for the reserves as well.
fn has_room(register: &Register, to: Edition) -> bool
    requires { Fits to }
    ensures { result ≡ not (no_room to (book register.now)) }
{
    let n = register.points();
    let reserved = reserves::all_unfilled(register, to);
    (n + reserved <= to.points) & (register.most_records() <= to.records)
}

// A point's part in a part q of another edition, which has room for its records; its operator is named.
fn copy_part(part: &Part, q: &mut [i64])
    requires { (rec_place (number_in part.now rec_count) ≤ length q.old) × (length q.old % 4 ≡ 0) }
    ensures { q.new ≡ copied_part (room_of q.old) part.now.numbers.now }
{
    let used = places::RECS + places::REC_LENGTH * places::records(part.numbers);
    rows::copy_first(q, part.numbers, used);
    rows::clear(q, used, q.len() - used);
    numbers::put(q, places::OPERATOR, reserves::operator(part.numbers));
}

// The parts of all points, by a `for`, since it writes another table.
fn copy_parts(register: &Register, to: Edition, second: &mut [i64])
    requires { Convertible register.now to second.old }
    ensures { second.new ≡ parts_into register.now.edition to register.now.table.now second.old (number_of_points register.now) }
{
    for i in 0..register.points() {
        let a = table::place(to, i);
        let b = table::place(to, i + 1);
        let part = Part {
            numbers: register.part(i),
        };
        copy_part(&part, &mut second[a..b]);
    }
}

// The register, laid out anew: its header is as it was but for the number of the edition.
fn lay_out(register: &Register, to: Edition, second: &mut [i64])
    requires { Convertible register.now to second.old }
    ensures { second.new ≡ with_new_book to second.old (book register.now) }
{
    let end = table::place(to, register.points());
    copy_parts(register, to, second);
    rows::copy_first(second, register.table, places::HEADER_LENGTH);
    numbers::put(second, places::EDITION, to.number);
    rows::clear(second, end, places::TABLE_LENGTH - end);
}

// The register of t in the other edition, in the second table; the first is only read.
pub fn convert(t: &[i64], second: &mut [i64]) -> Result<(), Refusal>
    ensures { (notice_numbers result ≡ (convert_call editions t.now second.old).0) × (second.new ≡ (convert_call editions t.now second.old).1) }
{
    let register = Register::of(t)?;
    if second.len() < places::TABLE_LENGTH {
        return Err(Refusal::Unsound);
    }
    let to = table::edition_of(1 - register.edition.number);
    if !has_room(&register, to) {
        return Err(Refusal::OtherEditionFull);
    }
    lay_out(&register, to, second);
    Ok(())
}
