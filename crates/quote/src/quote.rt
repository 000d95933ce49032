// The quote: an order in two texts, answered in a listing.
ghost use Rattle.order_theory.specs.Asked.{WidthLaw};
ghost use Rattle.quote.specs.Quoting.{Quoted};

use crate::answer::answer;
use crate::request::Request;
use crate::tables::no_rows;
use diagram_bank::rules::DiagramRules;
use layers::pair::Pair;
use layers::shift::Shift;
use listing::write::write_fault;
use rule_text::tables::Tables;

// A listing has room for the lines of 128 options, whatever the order.
pub const LISTING_ROOM: usize = 1792;

impl Request<'_> {
    // Reads the rules and the picks, and writes the first build that they allow, that there is none, that the budget ran out,
    // or the first fault. Says how many bytes it wrote; with too little room that is 0, and no `Option`: C makes this call.
    pub fn quote(&self, listing: &mut [u8]) -> usize
        ensures quoted { Quoted self.now.rules.now self.now.picks.now self.now.budget listing.old result listing.new }
        ensures width { WidthLaw }
    {
        if listing.len() < LISTING_ROOM {
            return 0;
        }
        // here and in `first_fault`: memory is lent from the stack of the call, and a shared function would take a closure
        let mut memory = no_rows();
        let mut tables = Tables::empty(&mut memory);
        match self.read_order(&mut tables) {
            // the listing has room for every line
            Err(fault) => write_fault(listing, fault).unwrap_or(0),
            Ok(picks) => {
                let bank = Pair {
                    first: Shift {
                        bank: DiagramRules {
                            table: &tables.diagrams,
                        },
                        by: tables.first,
                    },
                    second: Pair {
                        first: &tables.clauses,
                        second: &tables.groups,
                    },
                };
                answer(bank, &picks.values, self.budget, listing).unwrap_or(0)
            }
        }
    }
}
