// A table that is sound, of its edition: what a call reads once row 1 has let the table pass. What writes a table is
// lent its numbers, and requires the fact: it is known at entry alone.

ghost use Rattle.std.specs.Prelude.{◌≡◌, true};
ghost use Rattle.layout.specs.Layout.{Fits};
ghost use Rattle.layout.specs.Sound.{sound};

use crate::Located;
use daybook::Edition;
use refusals::Refusal;

#[derive(Clone, Copy)]
pub struct Register<'a> {
    pub table: &'a [i64],
    pub edition: Edition,
    pub ghost fits: { Fits edition },
    pub ghost is_sound: { sound edition table.now ≡ true },
}

impl<'a> Register<'a> {
    ghost use Rattle.std.specs.Prelude.{◌≡◌, ◌<◌, ◌≤◌, length, IfOk, IfSome};
    ghost use Rattle.numbers.specs.Search.{option_of};
    ghost use Rattle.daybook.specs.Editions.{most_records as most_records_of};
    ghost use Rattle.layout.specs.Layout.{edition_of};
    ghost use Rattle.layout.specs.InnerParts.{SoundPart};
    ghost use Rattle.table.specs.InnerTable.{sound_edition, place_of_mirn};
    ghost use Rattle.table.specs.Lookup.{index_of};
    ghost use Rattle.table.specs.InnerRegisters.{edition_or_refusal, book, number_of_points, part_of};

    // The register in a table; one that is not sound is sent back, as row 1 says.
    pub fn of(t: &'a [i64]) -> Result<Self, Refusal>
        ensures is { edition_or_refusal result ≡ sound_edition t.now }
        ensures ok { IfOk result (λ r. (r.table.now ≡ t.now) × (r.edition ≡ edition_of t.now)) }
    {
        let edition = crate::edition(t);
        if !crate::sound(t, edition) {
            return Err(Refusal::Unsound);
        }
        Ok(Register { table: t, edition })
    }

    // How many points there are.
    pub fn points(&self) -> usize
        ensures { (result ≡ number_of_points self.now) × (result ≤ self.now.edition.points) }
    {
        places::points(self.table)
    }

    // The numbers of point i.
    pub fn part(&self, i: usize) -> &'a [i64]
        requires { i < number_of_points self.now }
        ensures is { result.now ≡ part_of self.now i }
        ensures sound { SoundPart result.now }
    {
        crate::part(self.table, self.edition, i)
    }

    // The point of a MIRN.
    pub fn index_of(&self, m: u64) -> Option<usize>
        ensures is { option_of result ≡ index_of self.now.edition self.now.table.now m }
        ensures some { IfSome result (λ i. i < self.now.edition.points) }
    {
        crate::index_of(self.table, self.edition, m)
    }

    // Where the part of a MIRN's point stands; an unknown MIRN is sent back, as row 4 says.
    pub fn locate(&self, mirn: i64) -> Result<Located, Refusal>
        ensures is { result ≡ place_of_mirn self.now.edition self.now.table.now mirn }
        ensures ok { IfOk result (λ p. (p.from ≤ p.to) × (p.to ≤ length self.now.table.now)) }
    {
        let Some(i) = self.index_of(numbers::natural(mirn)) else {
            return Err(Refusal::UnknownMirn);
        };
        Ok(Located {
            from: crate::place(self.edition, i),
            to: crate::place(self.edition, i + 1),
        })
    }

    // The largest number of records that a point has, 0 with no point.
    pub fn most_records(&self) -> usize
        ensures { result ≡ most_records_of (book self.now).points }
    {
        let mut most: usize = 0;
        for i in 0..self.points() {
            most = most.max(places::records(self.part(i)));
        }
        most
    }
}
