// What an order asks for: both texts and the budget, read to a bank and picks, and the first build that they have.
// There is no code here: definitions, and the proofs that tables which hold a catalogue are the bank that the catalogue spells.
#![tactic(auto)]
