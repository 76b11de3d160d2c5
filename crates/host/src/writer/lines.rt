//! The lines of a listing.
ghost use Rattle.std.specs.Prelude.{◌+◌, ◌≤◌, length};
ghost use Rattle.cutset.specs.Tables.{told};
ghost use Rattle.panel.specs.Refusals.{refusal_number, refusal_place};
ghost use Rattle.host.specs.Listing.{listing_row, held_line, longest_held_line, measure_line, longest_measure_line, held_text, place_text, longest_place, refusal_line};
ghost use Rattle.host.specs.Writer.{HasRoom, Writes};

use crate::writer::Writer;
use cutset::Cutset;
use panel::Refusal;

/// What ends a line.
const LINE_END: &[u8] = b"\n";

#[tactic(auto, using(crate::proofs::Lengths::lengths))]
impl Writer<'_> {
    /// Writes the lines of a held set.
    pub(crate) fn held(&mut self, held: &Cutset)
        requires { HasRoom self.old listing_row }
        ensures wrote { Writes self.old self.new (held_text (told held.now)) }
        ensures within { self.new.at ≤ self.old.at + listing_row }
    {
        self.held_line(held);
        for m in held.members() {
            self.measure_line(*m);
        }
    }

    /// Writes the first line of a held set.
    fn held_line(&mut self, held: &Cutset)
        requires { HasRoom self.old longest_held_line }
        ensures wrote { let choice = told held.now in Writes self.old self.new (held_line (length choice.members) choice.weight choice.settings) }
        ensures within { self.new.at ≤ self.old.at + longest_held_line }
    {
        self.word(b"HELD ");
        self.number(held.members().len());
        self.word(b" WEIGHT ");
        self.number(held.weight() as usize);
        self.word(b" SETTINGS ");
        self.number(held.settings() as usize);
        self.word(LINE_END);
    }

    /// Writes the line of a member.
    fn measure_line(&mut self, m: u8)
        requires { HasRoom self.old longest_measure_line }
        ensures wrote { Writes self.old self.new (measure_line m) }
        ensures within { self.new.at ≤ self.old.at + longest_measure_line }
    {
        self.word(b"MEASURE ");
        self.number(m as usize);
        self.word(LINE_END);
    }

    /// Writes the line of a refusal.
    pub(crate) fn refusal(&mut self, refusal: Refusal)
        requires { HasRoom self.old listing_row }
        ensures wrote { Writes self.old self.new (refusal_line (refusal_number refusal) (refusal_place refusal)) }
        ensures within { self.new.at ≤ self.old.at + listing_row }
    {
        self.word(b"REFUSED ");
        self.number(refusal.number() as usize);
        self.place(refusal.place());
        self.word(LINE_END);
    }

    /// Writes the place that a refusal has, if it has one.
    fn place(&mut self, place: Option<usize>)
        requires { HasRoom self.old longest_place }
        ensures wrote { Writes self.old self.new (place_text place) }
        ensures within { self.new.at ≤ self.old.at + longest_place }
    {
        let Some(place) = place else {
            return;
        };
        self.word(b" AT ");
        self.number(place);
    }
}
