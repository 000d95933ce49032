// The calls for C (include/muzbelari.h): each is the library's call, with its clauses. Byte strings come as pointer and length.
// C finds a call by its own name, so each stands here once more, and answers by a count or a flag and a place.
#![tactic(auto)]

ghost use Rattle.std.specs.Prelude.{◌≡◌};
ghost use Rattle.pick_text.specs.Orders.{order_of};
ghost use Rattle.order_theory.specs.Asked.{WidthLaw};
ghost use Rattle.quote.specs.Faulty.{line_in, place_told, place_left};
ghost use Rattle.quote.specs.Quoting.{Quoted};

use quote::faulty_place::FaultyPlace;
use quote::request::Request;

// Quotes an order given as two texts; says how many bytes of the listing it wrote.
#[unsafe(no_mangle)]
pub extern "C" fn quote(rules: &[u8], picks: &[u8], budget: u64, listing: &mut [u8]) -> usize
    ensures quoted { Quoted rules.now picks.now budget listing.old result listing.new }
    ensures width { WidthLaw }
{
    let request = Request {
        rules,
        picks,
        budget,
    };
    request.quote(listing)
}

// Says whether a line of the order is at fault, and where it stands; the place stays as it was where there is none.
#[unsafe(no_mangle)]
pub extern "C" fn faulty_line_place(
    rules: &[u8],
    picks: &[u8],
    budget: u64,
    place: &mut FaultyPlace,
) -> bool
    ensures told { result ≡ place_told (line_in (order_of rules.now picks.now budget) rules.now picks.now) }
    ensures place { place.new ≡ place_left (line_in (order_of rules.now picks.now budget) rules.now picks.now) place.old }
{
    let request = Request {
        rules,
        picks,
        budget,
    };
    request.faulty_line_place(place)
}
