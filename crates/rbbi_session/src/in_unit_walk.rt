//! The questions and edits of a session whose places count a unit.
ghost use Rattle.rbbi_session.specs.Walks.{Cover, ListsArePaid, Recall};
ghost use Rattle.rbbi_session.specs.UnitWalks.{in_unit};

use crate::known::{Known, offset_found};
use crate::{ByCharacters, InUnit, UnitEditErr, Walk};
use rbbi_text::{Chars, Steps, UnitText};
use std::sync::ledger::Ledger;

impl<W: ByCharacters> Walk for InUnit<W>
where
    W::Text: UnitText,
{
    ghost use Rattle.rbbi_session.specs.UnitWalks.{InUnitSetting, in_unit};

    type Text = W::Text;

    ghost Setting = { InUnitSetting W.Setting };

    ghost view = { in_unit W.view };

    fn text(&self) -> &W::Text {
        self.asked.text()
    }

    fn units(&self) -> u32 {
        let text = self.asked.text();
        text.offset(self.unit, text.len())
    }

    fn current(&self) -> u32 {
        let _here = self.here();
        self.offset
    }

    fn status_list(&self) -> &[u32] {
        // Where the cursor is says that it is within the text.
        let _here = self.here();
        self.asked.status_list()
    }

    fn first(&mut self) -> u32 {
        let _here = self.here();
        self.offset = 0;
        self.asked.first()
    }

    fn last<L: Ledger>(&mut self, steps: &mut Steps<L>) -> u32 {
        let known = self.here();
        self.asked.last(steps);
        self.offset = known.offset_of_cursor(&self.asked, self.unit);
        self.offset
    }

    fn next<L: Ledger>(&mut self, steps: &mut Steps<L>) -> Option<u32> {
        let known = self.here();
        let place = self.asked.next(steps);
        self.offset = known.offset_of_cursor(&self.asked, self.unit);
        offset_found(place, self.offset)
    }

    fn previous<L: Ledger>(&mut self, steps: &mut Steps<L>) -> Option<u32> {
        let known = self.here();
        let place = self.asked.previous(steps);
        self.offset = known.offset_of_cursor(&self.asked, self.unit);
        offset_found(place, self.offset)
    }

    fn following<L: Ledger>(&mut self, o: u32, steps: &mut Steps<L>) -> Option<u32> {
        let from = self.last_place_up_to(o);
        let known = self.known(from, o);
        let place = self.asked.following(from.at, steps);
        self.offset = known.offset_of_cursor(&self.asked, self.unit);
        offset_found(place, self.offset)
    }

    fn preceding<L: Ledger>(&mut self, o: u32, steps: &mut Steps<L>) -> Option<u32> {
        let from = self.first_place_from(o);
        let known = self.known(from, o);
        let place = self.asked.preceding(from.at, steps);
        self.offset = known.offset_of_cursor(&self.asked, self.unit);
        offset_found(place, self.offset)
    }

    fn is_boundary<L: Ledger>(&mut self, o: u32, steps: &mut Steps<L>) -> bool {
        let place = self.first_place_from(o);
        let known = self.known(place, o);
        let is = self.asked.is_boundary(place.at, steps);
        self.offset = known.offset_of_cursor(&self.asked, self.unit);
        if !place.whole {
            return false;
        }
        is
    }

    fn replace<L: Ledger>(
        &mut self,
        at: u32,
        remove: u32,
        insert: &str,
        steps: &mut Steps<L>,
    ) -> Result<(), UnitEditErr> {
        W::counts_characters();
        let units = self.units();
        if at > units || remove > units - at {
            return Err(UnitEditErr::Outside);
        }
        let first = self.index(at);
        if !first.whole {
            return Err(UnitEditErr::Inside);
        }
        let end = self
            .asked
            .text()
            .index_from(self.unit, first.at, at, at + remove);
        if !end.whole {
            return Err(UnitEditErr::Inside);
        }
        match self
            .asked
            .replace(first.at, end.at.saturating_sub(first.at), insert, steps)
        {
            Ok(()) => {
                self.offset = 0;
                self.near = Known {
                    at: first.at,
                    offset: at,
                };
                Ok(())
            }
            Err(error) => Err(error),
        }
    }

    fn laws()
        ensures cover { Cover (in_unit W.view) }
        ensures lists { ListsArePaid (in_unit W.view) }
        ensures recall { Recall (in_unit W.view) }
    {
        W::laws();
        W::counts_characters();
    }
}
